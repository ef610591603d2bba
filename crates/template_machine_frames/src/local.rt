//! A local, and lists of locals.
ghost use Rattle.std.specs.Prelude.{◌≡◌, ℕ, List, ◌∷◌, [], ◌++◌, ◌||◌, ◌-◌, length, take, is_some, IfErr, IfOk, OnOk, option_copied};
ghost use Rattle.std.specs.BTreeSet.{contains_text};
ghost use Rattle.std.specs.List.{find, position};
ghost use Rattle.template_values_errors.specs.Memory.{NoMemory};
ghost use Rattle.template_values_core.specs.Shape.{pairs_in};
ghost use Rattle.template_values_model.specs.Val.{text};
ghost use Rattle.template_machine_meaning.specs.Modules.{public_locals};
ghost use Rattle.template_machine_meaning.specs.World.{local_at};
ghost use Rattle.template_machine_frames.specs.Locals.{is_named, locals_of};
ghost use Rattle.template_machine_frames.specs.Names.{exports_of};

use crate::names::{add_name, is_private};
use std::alloc::Global;
use std::collections::BTreeSet;
use template_values_core::{Entry, Value, is_same};
use template_values_errors::Error;

/// A name with its value.
#[derive(Drop)]
pub(crate) struct Local<'env> {
    pub(crate) name: &'env str,
    pub(crate) value: Value,
}

impl<'env> Local<'env> {
    // From now on it has the value.
    pub(crate) fn set(&mut self, value: Value)
        ensures name { self.new.name ≡ self.old.name }
        ensures value { self.new.value ≡ value }
    {
        self.value = value;
    }
}

// The local of a name.
#[inline(always)]
pub(crate) fn find<'a, 'env>(locals: &'a [Local<'env>], name: &str) -> Option<&'a Local<'env>>
    ensures { option_copied result ≡ find (is_named name.now) locals.now }
{
    for local in locals {
        if is_same(local.name, name) {
            return Some(local);
        }
    }
    None
}

// Where the local of a name stands.
#[inline]
pub(crate) fn position(locals: &[Local<'_>], name: &str) -> Option<usize>
    ensures { result ≡ position (is_named name.now) locals.now }
{
    for (place, local) in locals.iter().enumerate() {
        if is_same(local.name, name) {
            return Some(place);
        }
    }
    None
}

// The last local goes, where there is one.
#[inline(always)]
pub(crate) fn drop_last(locals: &mut Vec<Local<'_>>)
    ensures { locals.new.items ≡ take (length locals.old.items - 1) locals.old.items }
{
    locals.pop();
}

// Adds the names.
pub(crate) fn add_names(
    alloc: Global,
    names: &mut BTreeSet<String>,
    locals: &[Local<'_>],
) -> Result<(), Error>
    ensures added { OnOk result ((q : List ℕ) → contains_text names.new q
        ≡ (contains_text names.old q || is_some (local_at q (locals_of locals.now)))) }
    ensures refused { IfErr result NoMemory }
{
    for local in locals {
        add_name(alloc, names, local.name)?;
    }
    Ok(())
}

// Adds the names that do not begin with `_`.
pub(crate) fn add_exports(
    alloc: Global,
    names: &mut BTreeSet<String>,
    locals: &[Local<'_>],
) -> Result<(), Error>
    ensures added { OnOk result ((q : List ℕ) → contains_text names.new q
        ≡ (contains_text names.old q || exports_of (locals_of locals.now) q)) }
    ensures refused { IfErr result NoMemory }
{
    for local in locals {
        if !is_private(local.name) {
            add_name(alloc, names, local.name)?;
        }
    }
    Ok(())
}

// Adds the names that do not begin with `_`, as texts, each with its value.
pub(crate) fn add_public(
    alloc: Global,
    entries: &mut Vec<Entry>,
    locals: &[Local<'_>],
) -> Result<(), Error>
    ensures added { OnOk result (pairs_in entries.new.items ≡ pairs_in entries.old.items ++ public_locals (locals_of locals.now)) }
    ensures refused { IfErr result NoMemory }
{
    for local in locals {
        add_if_public(alloc, entries, local)?;
    }
    Ok(())
}

// The same of one local.
fn add_if_public(alloc: Global, entries: &mut Vec<Entry>, local: &Local<'_>) -> Result<(), Error>
    ensures added { OnOk result (pairs_in entries.new.items ≡ pairs_in entries.old.items ++ public_locals (locals_of (local.now ∷ []))) }
    ensures refused { IfErr result NoMemory }
{
    if is_private(local.name) {
        return Ok(());
    }
    entries.push(public_entry(alloc, local)?)?;
    Ok(())
}

// The name as a text, with the value.
fn public_entry(alloc: Global, local: &Local<'_>) -> Result<Entry, Error>
    ensures key { IfOk result (λ entry. entry.key ≡ text local.now.name.now) }
    ensures value { IfOk result (λ entry. entry.value ≡ local.now.value) }
    ensures refused { IfErr result NoMemory }
{
    Ok(Entry {
        key: Value::from_text(String::from_str(alloc, local.name)?)?,
        value: local.value.copy()?,
    })
}
