//! The context of a render, from a JSON object and definitions.

ghost use Rattle.std.specs.Prelude.{◌≡◌, None, IfOk, IfErr, string_bytes, option_copied};
ghost use Rattle.template_values_model.specs.Val.{text};
ghost use Rattle.template_values_errors.specs.Memory.{NoMemory};
ghost use Rattle.template_program_parts.specs.Asked.{HasContext, IsRefusedContext};
ghost use Rattle.template_program_parts.specs.Context.{fault_of_json, text_pairs, IsContextOf};
ghost use Rattle.template_program_parts.specs.Entries.{SayJson, SayContext};
ghost use Rattle.template_values_json.specs.Entries.{ArePlain};
ghost use Rattle.template_values_json.specs.Json.{IsRefusal};

use crate::Command;
use std::alloc::Global;
use template_values_core::{Entry, Value};
use template_values_errors::Error;
use template_values_json::entries_from_json;

/// The context that a command asks for: that of a render, as [`read_context`] reads it. Names are told without one, and
/// none is read.
///
/// # Errors
///
/// Those of [`read_context`].
pub fn context_for(
    alloc: Global,
    command: Command,
    json: Option<&[u8]>,
    definitions: &[(String, String)],
) -> Result<Value, Error>
    ensures has { IfOk result (HasContext command (option_copied json.entry) (text_pairs definitions.now)) }
    ensures refused { IfErr result (IsRefusedContext command (option_copied json.entry)) }
{
    match command {
        Command::Render => read_context(alloc, json, definitions),
        Command::Names => Ok(Value::undefined()),
    }
}

/// The context of a render: a map of the members of a JSON object, which is empty where there are no
/// bytes, and over them a text for each definition of a name and its text. Arrays are lists, and
/// objects are maps in the order of their names, as deep as `serde_json` reads: 127 levels, the
/// outermost object among them. Of equal names the last one stands, inside of members too. Takes time
/// in proportion to the bytes, and n log n comparisons for n members and definitions.
///
/// # Errors
///
/// Of these kinds the first that holds, alone:
///
/// - `SyntaxError`, if `serde_json` cannot read the bytes, as where they nest deeper or hold a number that
///   is out of the range of its floats.
/// - `NoFloats`, if a number that counts is read as a float: one under a name that a later equal name
///   replaces does not count, and whole numbers past 64 bits are floats.
/// - `InvalidOperation`, if they are no object.
/// - `OutOfMemory`, at any time.
pub fn read_context(
    alloc: Global,
    json: Option<&[u8]>,
    definitions: &[(String, String)],
) -> Result<Value, Error>
    ensures faultless { IfOk result (λ _. fault_of_json (option_copied json.entry) ≡ None) }
    ensures context { IfOk result (IsContextOf (option_copied json.entry) (text_pairs definitions.now)) }
    ensures refused { IfErr result (IsRefusal (fault_of_json (option_copied json.entry))) }
{
    Value::from_map(alloc, context_entries(alloc, json, definitions)?)
}

/// One entry for each member, then one for each definition.
fn context_entries(
    alloc: Global,
    json: Option<&[u8]>,
    definitions: &[(String, String)],
) -> Result<Vec<Entry>, Error>
    ensures faultless { IfOk result (λ _. fault_of_json (option_copied json.entry) ≡ None) }
    ensures says { IfOk result (λ es. SayContext (option_copied json.entry) definitions.now es.items) }
    ensures plain { IfOk result (λ es. ArePlain es.items) }
    ensures refused { IfErr result (IsRefusal (fault_of_json (option_copied json.entry))) }
{
    let mut entries = json_entries(alloc, json)?;
    for (name, words) in definitions {
        let key = Value::from_str(alloc, name.as_str())?;
        let value = Value::from_str(alloc, words.as_str())?;
        entries.push(Entry { key, value })?;
    }
    Ok(entries)
}

/// One entry for each member of the JSON object, where there is one.
fn json_entries(alloc: Global, json: Option<&[u8]>) -> Result<Vec<Entry>, Error>
    ensures faultless { IfOk result (λ _. fault_of_json (option_copied json.entry) ≡ None) }
    ensures says { IfOk result (λ es. SayJson (option_copied json.entry) es.items) }
    ensures plain { IfOk result (λ es. ArePlain es.items) }
    ensures refused { IfErr result (IsRefusal (fault_of_json (option_copied json.entry))) }
{
    match json {
        Some(bytes) => entries_from_json(alloc, bytes),
        None => Ok(Vec::new(alloc)),
    }
}
