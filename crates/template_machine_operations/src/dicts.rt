//! The function `dict`.
ghost use Rattle.std.specs.Prelude.{◌≡◌, ◌++◌, [], Some, OnOk, IfOk, IfErr, option_map};
ghost use Rattle.template_values_errors.specs.Memory.{NoMemory};
ghost use Rattle.template_values_model.specs.Val.{Pairs, map};
ghost use Rattle.template_values_core.specs.Shape.{pairs_in};
ghost use Rattle.template_machine_meaning.specs.Functions.{base_in, dict_given, dict_of};
ghost use Rattle.template_machine_operations.specs.Answers.{Answers};
ghost use Rattle.template_machine_operations.specs.Entries.{entries_given, given_base, named_in};

use crate::containers::build_map;
use std::alloc::Global;
use template_values_core::{Content, Entry, Value};
use template_values_errors::Error;
use template_values_model::DEPTH_LIMIT;
use template_values_operators::refusal;

/// What `dict` gives in a template for these arguments: a map of the entries of a map, or of none where that is undefined or left
/// out, and of keyword arguments, which stand behind it as one keyword map: of equal keys the last value stands. A map alone is shared; else it is as dear as [`build_map`].
///
/// # Errors
///
/// [`ErrorKind::InvalidOperation`] at other values, and where the map would nest deeper than any value may;
/// [`ErrorKind::OutOfMemory`].
///
/// [`ErrorKind::InvalidOperation`]: template_values_errors::ErrorKind::InvalidOperation
/// [`ErrorKind::OutOfMemory`]: template_values_errors::ErrorKind::OutOfMemory
pub fn dict(alloc: Global, args: &[Value]) -> Result<Value, Error>
    ensures { Answers result (dict_given args.now) }
{
    match args {
        [] => build_map(alloc, Vec::new(alloc)),
        [only] => match named_in(only) {
            Some(named) => dict_of_named(alloc, named),
            None => dict_of_base(alloc, only),
        },
        [base, named] => match named_in(named) {
            Some(named) => dict_of(alloc, base, named),
            None => refusal(),
        },
        _ => refusal(),
    }
}

/// The entries of keyword arguments.
fn named_in(value: &Value) -> Option<&[Entry]>
    ensures { option_map (λ es. pairs_in es.now) result ≡ named_in value.now }
{
    match value.content() {
        Content::KeywordMap(entries) => Some(entries),
        _ => None,
    }
}

fn dict_of_named(alloc: Global, named: &[Entry]) -> Result<Value, Error>
    ensures { Answers result (dict_of (Some []) (pairs_in named.now)) }
{
    let entries = copies(alloc, named)?;
    build_map(alloc, entries)
}

/// A map is what it is; undefined gives an empty one.
fn dict_of_base(alloc: Global, base: &Value) -> Result<Value, Error>
    ensures { Answers result (dict_of (base_in base.now) []) }
{
    match base.content() {
        Content::Map(_) => shared_map(base),
        Content::Undefined | Content::SilentUndefined => build_map(alloc, Vec::new(alloc)),
        _ => refusal(),
    }
}

/// The map again, whose content is shared.
fn shared_map(base: &Value) -> Result<Value, Error>
    requires { (ps : Pairs) × (base.now ≡ map ps) }
    ensures { Answers result (dict_of (base_in base.now) []) }
{
    prove!(base.levels() <= DEPTH_LIMIT);
    prove!(base.entries().is_some());
    base.copy()
}

#[tactic(auto, using(crate::proofs::Mapping::refusing))]
fn dict_of(alloc: Global, base: &Value, named: &[Entry]) -> Result<Value, Error>
    ensures { Answers result (dict_of (base_in base.now) (pairs_in named.now)) }
{
    let mut entries = entries_of_base(alloc, base)?;
    push_copies(&mut entries, named)?;
    build_map(alloc, entries)
}

/// Copies of the entries of a map; undefined has none.
fn entries_of_base(alloc: Global, base: &Value) -> Result<Vec<Entry>, Error>
    ensures { Answers (entries_given result) (given_base (base_in base.now)) }
{
    match base.content() {
        Content::Map(entries) => copies(alloc, entries),
        Content::Undefined | Content::SilentUndefined => Ok(Vec::new(alloc)),
        _ => refusal(),
    }
}

fn copies(alloc: Global, entries: &[Entry]) -> Result<Vec<Entry>, Error>
    ensures made { IfOk result (λ es. pairs_in es.items ≡ pairs_in entries.now) }
    ensures refused { IfErr result NoMemory }
{
    let mut copies = Vec::with_capacity(alloc, entries.len())?;
    push_copies(&mut copies, entries)?;
    Ok(copies)
}

/// Puts copies of entries behind the others.
pub(crate) fn push_copies(entries: &mut Vec<Entry>, more: &[Entry]) -> Result<(), Error>
    ensures put { OnOk result (pairs_in entries.new.items ≡ pairs_in entries.old.items ++ pairs_in more.now) }
    ensures refused { IfErr result NoMemory }
{
    for entry in more {
        let key = entry.key.copy()?;
        let value = entry.value.copy()?;
        entries.push(Entry { key, value })?;
    }
    Ok(())
}
