//! The attributes, items and slices of values.
ghost use Rattle.template_values_operators.specs.Slices.{slice_of};
ghost use Rattle.template_machine_meaning.specs.Undefined.{forbids_slicing};
ghost use Rattle.template_machine_meaning.specs.Surroundings.{attribute_given, item_given, of_undefined};
ghost use Rattle.template_machine_meaning.specs.Replies.{guarded, kinded};
ghost use Rattle.template_machine_operations.specs.Answers.{Answers, answered};
ghost use Rattle.std.specs.Prelude.{◌≡◌};

use crate::refusal;
use crate::undefined::{forbids_slicing, is_chainable, is_undefined};
use std::alloc::Global;
use template_values_core::Value;
use template_values_errors::{Error, UndefinedBehavior};
use template_values_forms::Records;
use template_values_items::{get_attr, get_item as item_of, slice};

/// The attribute of a value; what is missing is undefined. As dear as [`get_attr`].
///
/// # Errors
///
/// [`ErrorKind::UndefinedError`] at an undefined value, but in the chainable mode; else those of
/// [`get_attr`].
///
/// [`ErrorKind::UndefinedError`]: template_values_errors::ErrorKind::UndefinedError
pub fn get_attribute<R: Records>(
    alloc: Global,
    mode: UndefinedBehavior,
    value: &Value,
    name: &str,
    records: &R,
) -> Result<Value, Error>
    ensures { Answers result (attribute_given mode (R.known records.now) value.now name.now) }
{
    if is_undefined(value) {
        return of_undefined(mode);
    }
    get_attr(alloc, value, name, records)
}

/// The item of a value at a key; what is missing is undefined. As dear as the library's `get_item`.
///
/// # Errors
///
/// [`ErrorKind::UndefinedError`] at an undefined value, but in the chainable mode; else those of the
/// library's `get_item`.
///
/// [`ErrorKind::UndefinedError`]: template_values_errors::ErrorKind::UndefinedError
pub fn get_item<R: Records>(
    alloc: Global,
    mode: UndefinedBehavior,
    value: &Value,
    key: &Value,
    records: &R,
) -> Result<Value, Error>
    ensures { Answers result (item_given mode (R.known records.now) value.now key.now) }
{
    if is_undefined(value) {
        return of_undefined(mode);
    }
    item_of(alloc, value, key, records)
}

/// What undefined has under a name or a key.
fn of_undefined(mode: UndefinedBehavior) -> Result<Value, Error>
    ensures { result ≡ answered (of_undefined mode) }
{
    if is_chainable(mode) {
        Ok(Value::undefined())
    } else {
        refusal()
    }
}

/// The slice `value[start:stop:step]`. Linear in the size of the value.
///
/// # Errors
///
/// [`ErrorKind::UndefinedError`] where the mode forbids to slice an undefined value; else those of
/// [`slice`].
///
/// [`ErrorKind::UndefinedError`]: template_values_errors::ErrorKind::UndefinedError
pub fn get_slice(
    alloc: Global,
    mode: UndefinedBehavior,
    value: &Value,
    start: &Value,
    stop: &Value,
    step: &Value,
) -> Result<Value, Error>
    ensures { let forbidden = forbids_slicing mode value.now in
        Answers result (guarded forbidden (kinded (slice_of value.now start.now stop.now step.now))) }
{
    if forbids_slicing(mode, value) {
        return refusal();
    }
    slice(alloc, value, start, stop, step)
}
