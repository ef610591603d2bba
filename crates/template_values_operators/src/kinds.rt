//! What values of some kinds hold, and lists that are made.
ghost use Rattle.std.specs.Prelude.{◌≡◌, ◌<◌, IfSome, option_copied};
ghost use Rattle.template_values_core.specs.Depth.{vals_depth};
ghost use Rattle.template_values_model.specs.Gives.{Gives};
ghost use Rattle.template_values_model.specs.Val.{vals_of};
ghost use Rattle.template_values_operators.specs.Kinds.{bytes_of, list_of, is_nothing, is_undefined, is_none, list_made};

use std::alloc::Global;
use template_values_core::{Content, Value};
use template_values_errors::Error;
use template_values_model::DEPTH_LIMIT;

/// The bytes of a value of bytes.
pub fn bytes_of(value: &Value) -> Option<&[u8]>
    ensures { option_copied result ≡ bytes_of value.now }
{
    match value.content() {
        Content::Bytes(bytes) => Some(bytes),
        _ => None,
    }
}

/// The items of a list, not of a tuple. They nest less deep than a value may.
#[tactic(auto, using(template_values_core::proofs::ReadLemmas::reading))]
pub(crate) fn list_of(value: &Value) -> Option<&[Value]>
    ensures items { option_copied result ≡ list_of value.now }
    ensures shallow { IfSome result (λ items. vals_depth (vals_of items.now) < DEPTH_LIMIT) }
{
    prove!(value.levels() <= DEPTH_LIMIT);
    match value.content() {
        Content::List(items) => Some(items),
        _ => None,
    }
}

/// Whether the value is undefined, in either form, or none.
pub fn is_nothing(value: &Value) -> bool
    ensures { result ≡ is_nothing value.now }
{
    match value.content() {
        Content::Undefined | Content::SilentUndefined | Content::None => true,
        _ => false,
    }
}

/// Whether the value is undefined, in either form.
pub fn is_undefined(value: &Value) -> bool
    ensures { result ≡ is_undefined value.now }
{
    match value.content() {
        Content::Undefined | Content::SilentUndefined => true,
        _ => false,
    }
}

/// Whether the value is none.
pub fn is_none(value: &Value) -> bool
    ensures { result ≡ is_none value.now }
{
    match value.content() {
        Content::None => true,
        _ => false,
    }
}

/// The list of these items.
///
/// # Errors
///
/// - [`ErrorKind::InvalidOperation`], if the list would nest deeper than [`DEPTH_LIMIT`] levels.
/// - [`ErrorKind::OutOfMemory`]
///
/// [`ErrorKind::InvalidOperation`]: template_values_errors::ErrorKind::InvalidOperation
/// [`ErrorKind::OutOfMemory`]: template_values_errors::ErrorKind::OutOfMemory
pub fn list_made(alloc: Global, items: Vec<Value>) -> Result<Value, Error>
    ensures { Gives result (list_made items.items) }
{
    Value::from_list(alloc, items)
}
