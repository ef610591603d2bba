//! The context of a render, from documents, definitions and values.
ghost use Rattle.std.specs.Prelude.{◌≡◌, None, IfOk, IfErr, option_map};
ghost use Rattle.template_values_errors.specs.Memory.{NoMemory};
ghost use Rattle.template_values_json.specs.Entries.{ArePlain};
ghost use Rattle.template_values_json.specs.Json.{IsRefusal};
ghost use Rattle.template_values_model.specs.Val.{text};
ghost use Rattle.template_program_parts.specs.Context.{defined_under, text_pairs};
ghost use Rattle.template_program_contexts.specs.Context.{context_under, fault_of_all, IsContextWith};
ghost use Rattle.template_program_contexts.specs.Entries.{Say, SayOver};
ghost use Rattle.template_program_contexts.specs.Values.{fault_of_values, values_under};

use crate::documents::{Document, document_entries};
use crate::values::value_of_text;
use std::alloc::Global;
use template_values_core::{Entry, Value};
use template_values_errors::Error;
use template_values_json::Floats;

/// The context of a render: a map of the members of the documents, in order, of which a later one's replace those of the same names
/// whole; over them a text for each definition of a name and its text; and over these for each name and JSON text the value that the
/// JSON stands for. Arrays are lists, and objects and tables are maps in the order of their names. Of equal names the last one stands.
/// Without documents there are no members. Numbers of JSON that are no whole ones of 64 bits are refused or kept as `floats` says.
/// Takes time in proportion to the bytes, and n log n comparisons for n members, definitions and values.
///
/// # Errors
///
/// Of the documents, in order, and after them of the values, in order, the first that is refused tells its kind, alone:
///
/// - `SyntaxError`, if it is no JSON, or nests deeper than 127 levels, or a document is not the TOML that it is to be, in which keys
///   have 80 parts at most and arrays nest 80 levels. Where floats are refused also at a number of JSON that is out of the range of
///   floats.
/// - `NoFloats`, where floats are refused, if a number of JSON that counts is one.
/// - `InvalidOperation`, if a document of JSON is no object.
/// - In TOML, of these the first by the order of names: `NoFloats` for a float and `BadSerialization` for a date or a time, whatever
///   `floats` says, and `InvalidOperation` for what nests deeper than values may.
///
/// And `OutOfMemory`, at any time.
pub fn context_with(
    alloc: Global,
    documents: &[Document<'_>],
    definitions: &[(String, String)],
    values: &[(String, String)],
    floats: Floats,
) -> Result<Value, Error>
    ensures faultless { IfOk result (λ _. fault_of_all floats documents.now (text_pairs values.now) ≡ None) }
    ensures context { IfOk result (IsContextWith floats documents.now (text_pairs definitions.now) (text_pairs values.now)) }
    ensures refused { IfErr result (IsRefusal (fault_of_all floats documents.now (text_pairs values.now))) }
{
    Value::from_map(
        alloc,
        all_entries(alloc, documents, definitions, values, floats)?,
    )
}

/// One entry for each member, then one for each definition, then one for each value.
fn all_entries(
    alloc: Global,
    documents: &[Document<'_>],
    definitions: &[(String, String)],
    values: &[(String, String)],
    floats: Floats,
) -> Result<Vec<Entry>, Error>
    ensures faultless { IfOk result (λ _. fault_of_all floats documents.now (text_pairs values.now) ≡ None) }
    ensures says { IfOk result (λ es.
        Say (context_under floats documents.now (text_pairs definitions.now) (text_pairs values.now)) es.items) }
    ensures plain { IfOk result (λ es. ArePlain es.items) }
    ensures refused { IfErr result (IsRefusal (fault_of_all floats documents.now (text_pairs values.now))) }
{
    let members = document_entries(alloc, documents, floats)?;
    let defined = with_definitions(alloc, members, definitions)?;
    with_values(alloc, defined, values, floats)
}

/// One more entry for each definition.
fn with_definitions(
    alloc: Global,
    mut entries: Vec<Entry>,
    definitions: &[(String, String)],
) -> Result<Vec<Entry>, Error>
    ensures says { IfOk result (λ es.
        SayOver (λ name. option_map text (defined_under (text_pairs definitions.now) name)) entries.items es.items) }
    ensures plain { IfOk result (λ es. ArePlain entries.items → ArePlain es.items) }
    ensures refused { IfErr result NoMemory }
{
    for (name, words) in definitions {
        let key = Value::from_str(alloc, name.as_str())?;
        let value = Value::from_str(alloc, words.as_str())?;
        entries.push(Entry { key, value })?;
    }
    Ok(entries)
}

/// One more entry for each value.
fn with_values(
    alloc: Global,
    mut entries: Vec<Entry>,
    values: &[(String, String)],
    floats: Floats,
) -> Result<Vec<Entry>, Error>
    ensures faultless { IfOk result (λ _. fault_of_values floats (text_pairs values.now) ≡ None) }
    ensures says { IfOk result (λ es. SayOver (values_under floats (text_pairs values.now)) entries.items es.items) }
    ensures plain { IfOk result (λ es. ArePlain entries.items → ArePlain es.items) }
    ensures refused { IfErr result (IsRefusal (fault_of_values floats (text_pairs values.now))) }
{
    for (name, json) in values {
        let value = value_of_text(alloc, json.as_str(), floats)?;
        let key = Value::from_str(alloc, name.as_str())?;
        entries.push(Entry { key, value })?;
    }
    Ok(entries)
}
