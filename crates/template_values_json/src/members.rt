//! A JSON object as a context, and as the entries of a map.
ghost use Rattle.std.specs.Prelude.{◌≡◌, ◌≤◌, ◌⊎◌, [], ◌∷◌, None, Some, IfOk, IfErr, IfSome, option_map};
ghost use Rattle.serde_json.specs.Data.{depth as nesting};
ghost use Rattle.serde_json.specs.Errors.{IsMemory};
ghost use Rattle.serde_json.specs.Read.{max_depth};
ghost use Rattle.serde_json.specs.View.{view};
ghost use Rattle.template_values_errors.specs.Memory.{NoMemory};
ghost use Rattle.template_values_model.specs.Val.{map};
ghost use Rattle.template_values_core.specs.Maps.{collected};
ghost use Rattle.template_values_core.specs.Shape.{pairs_in};
ghost use Rattle.template_values_json.specs.Json.{data_in, fault_of_data, fault_of_top, fault_in, value_of, IsRefusal};
ghost use Rattle.template_values_json.specs.Entries.{SayData, SayMembers, ArePlain};

use crate::direct::entries_of_text;
use crate::values::{entries_from, value_from};
use serde_json::Value as Json;
use std::alloc::Global;
use template_values_core::{Entry, Value};
use template_values_errors::{Error, ErrorKind};

/// The map that the bytes of a JSON object stand for, as a context for a render. Arrays are lists, and
/// objects are maps in the order of their names, as deep as `serde_json` reads: 127 levels, the outermost
/// object among them. Of equal names the last one stands, inside of members too. Takes time in proportion
/// to the bytes, and n log n comparisons for n members.
///
/// # Errors
///
/// Of these kinds the first that holds, alone:
///
/// - `SyntaxError`, if `serde_json` cannot read the bytes, as where they nest deeper or hold a number that
///   is out of the range of its floats.
/// - `NoFloats`, if a number that counts is read as a float: one under a name that a later equal name
///   replaces does not count, and whole numbers past 64 bits are floats.
/// - `InvalidOperation`, if they are no object.
/// - `OutOfMemory`, at any time.
pub fn context_from_json(alloc: Global, bytes: &[u8]) -> Result<Value, Error>
    ensures faultless { IfOk result (λ _. fault_in bytes.now ≡ None) }
    ensures is { IfOk result (λ v. option_map value_of (data_in bytes.now) ≡ Some v) }
    ensures refused { IfErr result (IsRefusal (fault_in bytes.now)) }
{
    match whole_entries(alloc, bytes)? {
        Some(entries) => Value::from_map(alloc, entries),
        None => object_value(alloc, read_document(alloc, bytes)?),
    }
}

/// One entry for each member of the JSON object that the bytes are, for a map that has more entries: a
/// later entry of an equal name replaces it there. Reads and refuses as [`context_from_json`] does.
///
/// # Errors
///
/// Those of [`context_from_json`].
pub fn entries_from_json(alloc: Global, bytes: &[u8]) -> Result<Vec<Entry>, Error>
    ensures faultless { IfOk result (λ _. fault_in bytes.now ≡ None) }
    ensures says { IfOk result (λ es. SayMembers bytes.now es.items) }
    ensures plain { IfOk result (λ es. ArePlain es.items) }
    ensures refused { IfErr result (IsRefusal (fault_in bytes.now)) }
{
    match whole_entries(alloc, bytes)? {
        Some(entries) => Ok(entries),
        None => object_entries(alloc, read_document(alloc, bytes)?),
    }
}

/// One entry for each member of the object that the bytes are, where each number in it is whole. It is what most documents are, and
/// is read with no tree of it. Of any other one the tree tells what it is, or why it is refused.
fn whole_entries(alloc: Global, bytes: &[u8]) -> Result<Option<Vec<Entry>>, Error>
    ensures faultless { IfOk result (λ found. IfSome found (λ _. fault_in bytes.now ≡ None)) }
    ensures is { IfOk result (λ found. IfSome found
        (λ es. option_map value_of (data_in bytes.now) ≡ Some (map (collected (pairs_in es.items))))) }
    ensures says { IfOk result (λ found. IfSome found (λ es. SayMembers bytes.now es.items)) }
    ensures plain { IfOk result (λ found. IfSome found (λ es. ArePlain es.items)) }
    ensures refused { IfErr result NoMemory }
{
    let Ok(text) = simdutf8::compat::from_utf8(bytes) else {
        return Ok(None);
    };
    match entries_of_text(alloc, text) {
        Ok(entries) => Ok(Some(entries)),
        Err(error) => {
            refuse_memory(&error)?;
            Ok(None)
        }
    }
}

/// Refuses where memory was refused, and nothing else.
fn refuse_memory(error: &Error) -> Result<(), Error>
    ensures { IfErr result NoMemory }
{
    match error.kind() {
        ErrorKind::OutOfMemory => Err(Error::new(ErrorKind::OutOfMemory)),
        _ => Ok(()),
    }
}

/// What the bytes are as JSON.
fn read_document(alloc: Global, bytes: &[u8]) -> Result<Json, Error>
    ensures is { IfOk result (λ d. data_in bytes.now ≡ Some (view d)) }
    ensures nests { IfOk result (λ d. nesting (view d) ≤ max_depth) }
    ensures refused { IfErr result (λ e. NoMemory e
        ⊎ ((data_in bytes.now ≡ None) × (e ≡ ErrorKind.SyntaxError ∷ []))) }
{
    match Json::from_slice(alloc, bytes) {
        Ok(document) => Ok(document),
        Err(error) => Err(refusal_of(error)),
    }
}

/// The refusal that a fault of the reader is.
fn refusal_of(error: serde_json::Error) -> Error
    ensures { (IsMemory error × NoMemory result)
        ⊎ ((¬ IsMemory error) × (result ≡ ErrorKind.SyntaxError ∷ [])) }
{
    if error.is_memory() {
        Error::new(ErrorKind::OutOfMemory)
    } else {
        Error::new(ErrorKind::SyntaxError)
    }
}

/// One entry for each member, where the document is an object and no float stands in it.
fn object_entries(alloc: Global, document: Json) -> Result<Vec<Entry>, Error>
    requires shallow { nesting (view document) ≤ max_depth }
    ensures faultless { IfOk result (λ _. fault_of_data (Some (view document)) ≡ None) }
    ensures says { IfOk result (λ es. SayData (view document) es.items) }
    ensures plain { IfOk result (λ es. ArePlain es.items) }
    ensures refused { IfErr result (IsRefusal (fault_of_data (Some (view document)))) }
{
    match document {
        Json::Object(members) => entries_from(alloc, members),
        other => Err(refusal_without_object(alloc, other)),
    }
}

/// The value of the document, where it is an object and no float stands in it.
fn object_value(alloc: Global, document: Json) -> Result<Value, Error>
    requires shallow { nesting (view document) ≤ max_depth }
    ensures faultless { IfOk result (λ _. fault_of_data (Some (view document)) ≡ None) }
    ensures is { IfOk result (λ v. v ≡ value_of (view document)) }
    ensures refused { IfErr result (IsRefusal (fault_of_data (Some (view document)))) }
{
    match document {
        Json::Object(_) => value_from(alloc, document),
        other => Err(refusal_without_object(alloc, other)),
    }
}

/// The refusal of a document that is no object: a float in it comes first.
fn refusal_without_object(alloc: Global, document: Json) -> Error
    requires shallow { nesting (view document) ≤ max_depth }
    requires other { fault_of_top (view document) ≡ Some ErrorKind.InvalidOperation }
    ensures { IsRefusal (fault_of_data (Some (view document))) result }
{
    match value_from(alloc, document) {
        Ok(_value) => Error::new(ErrorKind::InvalidOperation),
        Err(error) => error,
    }
}
