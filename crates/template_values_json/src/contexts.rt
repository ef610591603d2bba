//! A JSON object as a context.
ghost use Rattle.std.specs.Prelude.{◌≡◌, ◌≤◌, ◌⊎◌, [], ◌∷◌, None, Some, IfErr, IfOk, option_map};
ghost use Rattle.json.specs.Tree.{depth as nesting};
ghost use Rattle.json.specs.Value.{value_view};
ghost use Rattle.serde_json.specs.Read.{max_depth};
ghost use Rattle.template_values_json.specs.Contexts as contexts;
ghost use Rattle.template_values_json.specs.Spelled.{spelled_value};
ghost use Rattle.template_values_errors.specs.Memory.{NoMemory};
ghost use Rattle.template_values_json.specs.Json.{IsRefusal};

use crate::context_from_json;
use crate::error::ContextError;
use crate::paths::float_path;
use crate::places::{Place, fault_place};
use crate::spelled::value_from;
use json::{Reader, Scratch, Value as Json};
use std::alloc::Global;
use template_values_core::Value;
use template_values_errors::{Error, ErrorKind};

/// What becomes of a number in JSON that is no whole number of 64 bits, with or without a sign.
#[derive(Clone, Copy, Debug, Drop, PartialEq, Eq)]
pub enum Floats {
    /// It is refused.
    Refused,
    /// It is a text, as it is spelled: `9.90`, `1e3`, `-0`, `18446744073709551616`.
    AsSpelled,
}

// As deep as `serde_json` reads.
const MAX_DEPTH: usize = 127;

/// The map that the bytes of a JSON object stand for, as a context for a render. Arrays are lists, and objects are maps in the order
/// of their names, as deep as `serde_json` reads: 127 levels, the outermost object among them. Of equal names the last one stands,
/// inside of members too. Takes time in proportion to the bytes, and n log n comparisons for n members. Where floats are refused it
/// is [`context_from_json`].
///
/// # Errors
///
/// Of these kinds the first that holds, alone:
///
/// - `SyntaxError`, if the bytes are no JSON, or nest deeper; the error has the line and the column. Where floats are refused also
///   at a number that is out of the range of floats.
/// - `NoFloats`, where floats are refused, if a number that counts is one; the error has its path.
/// - `InvalidOperation`, if they are no object.
/// - `OutOfMemory`, at any time.
pub fn context_from_json_with(
    alloc: Global,
    bytes: &[u8],
    floats: Floats,
) -> Result<Value, ContextError>
    ensures faultless { IfOk result (λ _. contexts.fault_of floats bytes.now ≡ None) }
    ensures is { IfOk result (λ v. contexts.context_of floats bytes.now ≡ Some v) }
    ensures refused { IfErr result (IsRefusal (contexts.fault_of floats bytes.now)) }
{
    match floats {
        Floats::Refused => whole_context(alloc, bytes),
        Floats::AsSpelled => spelled_context(alloc, bytes),
    }
}

fn whole_context(alloc: Global, bytes: &[u8]) -> Result<Value, ContextError>
    ensures faultless { IfOk result (λ _. contexts.fault_of Floats.Refused bytes.now ≡ None) }
    ensures is { IfOk result (λ v. contexts.context_of Floats.Refused bytes.now ≡ Some v) }
    ensures refused { IfErr result (IsRefusal (contexts.fault_of Floats.Refused bytes.now)) }
{
    match context_from_json(alloc, bytes) {
        Ok(context) => Ok(context),
        Err(error) => Err(placed(alloc, bytes, error)),
    }
}

// The refusal of a document with where it came, for which that is read again.
#[cold]
fn placed(alloc: Global, bytes: &[u8], error: Error) -> ContextError
    ensures { result ≡ error }
{
    match error.kind() {
        ErrorKind::SyntaxError => ContextError::at(error, fault_place(alloc, bytes)),
        ErrorKind::NoFloats => ContextError::within(error, float_path(alloc, bytes)),
        _ => ContextError::from(error),
    }
}

fn spelled_context(alloc: Global, bytes: &[u8]) -> Result<Value, ContextError>
    ensures faultless { IfOk result (λ _. contexts.fault_of Floats.AsSpelled bytes.now ≡ None) }
    ensures is { IfOk result (λ v. contexts.context_of Floats.AsSpelled bytes.now ≡ Some v) }
    ensures refused { IfErr result (IsRefusal (contexts.fault_of Floats.AsSpelled bytes.now)) }
{
    match simdutf8::compat::from_utf8(bytes) {
        Ok(text) => spelled_text(alloc, text),
        Err(fault) => Err(no_json(bytes, fault.valid_up_to())),
    }
}

fn spelled_text(alloc: Global, text: &str) -> Result<Value, ContextError>
    ensures faultless { IfOk result (λ _. contexts.fault_of_tree (contexts.tree_of text.now) ≡ None) }
    ensures is { IfOk result (λ v. option_map spelled_value (contexts.tree_of text.now) ≡ Some v) }
    ensures refused { IfErr result (IsRefusal (contexts.fault_of_tree (contexts.tree_of text.now))) }
{
    let mut scratch = Scratch::new(alloc);
    let tree = tree_of(alloc, text, &mut scratch)?;
    Ok(object_value(alloc, &tree)?)
}

// The JSON that a text is.
#[tactic(auto, unfolding(crate::specs::Contexts::tree_of))]
fn tree_of<'a>(
    alloc: Global,
    text: &'a str,
    scratch: &'a mut Scratch,
) -> Result<Json<'a>, ContextError>
    ensures is { IfOk result (λ tree. contexts.tree_of text.now ≡ Some (value_view tree)) }
    ensures nests { IfOk result (λ tree. nesting (value_view tree) ≤ max_depth) }
    ensures refused { IfErr result (λ kinds. NoMemory kinds
        ⊎ ((contexts.tree_of text.now ≡ None) × (kinds ≡ ErrorKind.SyntaxError ∷ []))) }
{
    let mut reader = match Reader::new(text, scratch) {
        Ok(reader) => reader,
        Err(_) => return Err(no_memory()),
    };
    let tree = match Json::read(alloc, &mut reader, MAX_DEPTH) {
        Ok(tree) => tree,
        Err(json::Error::OutOfMemory) => return Err(no_memory()),
        Err(_) => return Err(no_json(text.as_bytes(), reader.offset())),
    };
    let end = reader.offset();
    match reader.next() {
        None => Ok(tree),
        Some(_) => Err(no_json(text.as_bytes(), end)),
    }
}

// The value of a document, which is to be an object.
fn object_value(alloc: Global, tree: &Json<'_>) -> Result<Value, Error>
    requires shallow { nesting (value_view tree.now) ≤ max_depth }
    ensures faultless { IfOk result (λ _. contexts.fault_of_top (value_view tree.now) ≡ None) }
    ensures is { IfOk result (λ v. v ≡ spelled_value (value_view tree.now)) }
    ensures refused { IfErr result (IsRefusal (contexts.fault_of_top (value_view tree.now))) }
{
    match tree {
        Json::Object(_) => value_from(alloc, tree, None),
        _ => Err(Error::new(ErrorKind::InvalidOperation)),
    }
}

// The refusal of what is no JSON, where the reader stood.
#[cold]
fn no_json(bytes: &[u8], offset: usize) -> ContextError
    ensures { result ≡ ErrorKind.SyntaxError ∷ [] }
{
    ContextError::at(Error::new(ErrorKind::SyntaxError), Place::of(bytes, offset))
}

#[cold]
fn no_memory() -> ContextError
    ensures { NoMemory result }
{
    ContextError::from(Error::new(ErrorKind::OutOfMemory))
}
