//! Sets of the names that frames know.
ghost use Rattle.std.specs.Prelude.{◌≡◌, ℕ, List, ◌||◌, is_some, IfErr, OnOk, bytes_eq};
ghost use Rattle.std.specs.BTreeSet.{contains_text};
ghost use Rattle.template_values_errors.specs.Memory.{NoMemory};
ghost use Rattle.template_values_model.specs.Lookup.{entry_at, is_text, value_at};
ghost use Rattle.template_values_core.specs.Maps.{pairs_of};
ghost use Rattle.template_values_core.specs.Shape.{pairs_in};
ghost use Rattle.template_machine_frames.specs.Names.{is_private};

use std::alloc::Global;
use std::collections::BTreeSet;
use template_values_core::{Entry, Value};
use template_values_errors::Error;

// Adds a name.
pub(crate) fn add_name(alloc: Global, names: &mut BTreeSet<String>, name: &str) -> Result<(), Error>
    ensures added { OnOk result ((q : List ℕ) → contains_text names.new q ≡ (contains_text names.old q || bytes_eq name.now q)) }
    ensures refused { IfErr result NoMemory }
{
    names.insert(String::from_str(alloc, name)?)?;
    Ok(())
}

// Adds a key, if it is a text.
fn add_key(alloc: Global, names: &mut BTreeSet<String>, key: &Value) -> Result<(), Error>
    ensures added { OnOk result ((q : List ℕ) → contains_text names.new q ≡ (contains_text names.old q || is_text q key.now)) }
    ensures refused { IfErr result NoMemory }
{
    match key.as_str() {
        Some(name) => add_name(alloc, names, name),
        None => Ok(()),
    }
}

// Adds the keys of the entries that are texts.
fn add_keys(alloc: Global, names: &mut BTreeSet<String>, entries: &[Entry]) -> Result<(), Error>
    ensures added { OnOk result ((q : List ℕ) → contains_text names.new q
        ≡ (contains_text names.old q || is_some (entry_at q (pairs_of (pairs_in entries.now))))) }
    ensures refused { IfErr result NoMemory }
{
    for entry in entries {
        add_key(alloc, names, &entry.key)?;
    }
    Ok(())
}

// Adds the names that a context value knows.
pub(crate) fn add_context(
    alloc: Global,
    names: &mut BTreeSet<String>,
    context: &Value,
) -> Result<(), Error>
    ensures added { OnOk result ((q : List ℕ) → contains_text names.new q
        ≡ (contains_text names.old q || is_some (value_at q context.now))) }
    ensures refused { IfErr result NoMemory }
{
    match context.entries() {
        Some(entries) => add_keys(alloc, names, entries),
        None => Ok(()),
    }
}

// Whether a name begins with `_`.
pub(crate) fn is_private(name: &str) -> bool
    ensures { result ≡ is_private name.now }
{
    match name.as_bytes().first() {
        Some(first) => *first == b'_',
        None => false,
    }
}
