//! The function `namespace`.
ghost use Rattle.std.specs.Prelude.{◌≡◌, ◌++◌, ◌∷◌, [], OnOk, IfOk, IfErr, option_map};
ghost use Rattle.template_values_errors.specs.Memory.{NoMemory};
ghost use Rattle.template_values_model.specs.Val as values;
ghost use Rattle.template_values_core.specs.Answers.{text_in};
ghost use Rattle.template_values_core.specs.Maps.{pairs_of};
ghost use Rattle.template_values_core.specs.Shape.{pairs_in};
ghost use Rattle.template_machine_meaning.specs.Functions.{names_in, namespace_given};
ghost use Rattle.template_machine_operations.specs.Answers.{Answers};
ghost use Rattle.template_machine_operations.specs.Entries.{entries_given};

use std::alloc::Global;
use template_values_core::{Content, Entry, Value};
use template_values_errors::{Error, ErrorKind};
use template_values_operators::refusal;

/// What a new namespace holds: nothing, or the entries of a map or of keyword arguments whose keys are texts, each under its
/// plain text. Linear in their number; the values are shared.
///
/// # Errors
///
/// [`ErrorKind::TooManyArguments`] at more than one argument; [`ErrorKind::InvalidOperation`] at another value;
/// [`ErrorKind::OutOfMemory`].
///
/// [`ErrorKind::TooManyArguments`]: template_values_errors::ErrorKind::TooManyArguments
/// [`ErrorKind::InvalidOperation`]: template_values_errors::ErrorKind::InvalidOperation
/// [`ErrorKind::OutOfMemory`]: template_values_errors::ErrorKind::OutOfMemory
pub fn namespace(alloc: Global, args: &[Value]) -> Result<Vec<Entry>, Error>
    ensures { Answers (entries_given result) (namespace_given args.now) }
{
    match args {
        [] => Ok(Vec::new(alloc)),
        [only] => names_of(alloc, only),
        _ => Err(Error::new(ErrorKind::TooManyArguments)),
    }
}

fn names_of(alloc: Global, base: &Value) -> Result<Vec<Entry>, Error>
    ensures { Answers (entries_given result) (namespace_given (base.now ∷ [])) }
{
    match base.content() {
        Content::Map(entries) => names_in(alloc, entries),
        Content::KeywordMap(entries) => names_in(alloc, entries),
        _ => refusal(),
    }
}

/// Copies of the entries whose keys are texts, each under its plain text.
fn names_in(alloc: Global, entries: &[Entry]) -> Result<Vec<Entry>, Error>
    ensures made { IfOk result (λ es. pairs_in es.items ≡ names_in (pairs_of (pairs_in entries.now))) }
    ensures refused { IfErr result NoMemory }
{
    let mut names = Vec::with_capacity(alloc, entries.len())?;
    for entry in entries {
        push_name(alloc, &mut names, entry)?;
    }
    Ok(names)
}

/// Puts a copy of an entry behind the others, where its key is a text.
fn push_name(alloc: Global, names: &mut Vec<Entry>, entry: &Entry) -> Result<(), Error>
    ensures put { OnOk result
        (pairs_in names.new.items ≡ pairs_in names.old.items ++ names_in (pairs_of (pairs_in (entry.now ∷ [])))) }
    ensures refused { IfErr result NoMemory }
{
    let Some(key) = plain_text(alloc, &entry.key)? else {
        return Ok(());
    };
    let value = entry.value.copy()?;
    names.push(Entry { key, value })?;
    Ok(())
}

/// The plain text of a text; of other values there is none.
fn plain_text(alloc: Global, key: &Value) -> Result<Option<Value>, Error>
    ensures made { IfOk result (λ plain. plain ≡ option_map values.text (text_in key.now)) }
    ensures refused { IfErr result NoMemory }
{
    match key.content() {
        Content::Text(_) => Ok(Some(key.copy()?)),
        Content::SafeText(text) => Ok(Some(Value::from_str(alloc, text)?)),
        _ => Ok(None),
    }
}
