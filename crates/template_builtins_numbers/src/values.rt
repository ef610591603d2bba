//! What the filters on any value go by.
ghost use Rattle.std.specs.Prelude.{◌≡◌, IfErr, IfOk, option_copied};
ghost use Rattle.template_builtins_arguments.specs.Answers.{Tells};
ghost use Rattle.template_builtins_numbers.specs.Values as values;
ghost use Rattle.template_callables.specs.Views.{seen_in};
ghost use Rattle.template_values_errors.specs.Memory.{NoMemory};

use std::alloc::Global;
use template_builtins_arguments::{refusal, truth_of};
use template_builtins_paths::{part_of_undefined, part_or_self};
use template_callables::CallView;
use template_values_core::Value;
use template_values_errors::Error;
use template_values_forms::NoRecords;
use template_values_items::get_attr;
use template_values_operators::kinds::is_undefined;
use template_values_operators::{add, negation};

/// Whether a value is undefined, or where that counts too false.
///
/// # Errors
///
/// Those of [`truth_of`].
#[tactic(auto, unfolding(crate::specs::Values::is_lacking))]
pub(crate) fn is_lacking(view: &CallView<'_>, boolean: bool, value: &Value) -> Result<bool, Error>
    ensures { Tells result (values.is_lacking (seen_in view.now) boolean value.now) }
{
    if is_undefined(value) {
        return Ok(true);
    }
    if boolean {
        Ok(!truth_of(view, value)?)
    } else {
        Ok(false)
    }
}

/// A default that is given, else the empty text.
pub(crate) fn default_from(alloc: Global, given: Option<&Value>) -> Result<Value, Error>
    ensures made { IfOk result (λ v. v ≡ values.default_from (option_copied given.entry)) }
    ensures refused { IfErr result NoMemory }
{
    match given {
        None => Value::from_str(alloc, ""),
        Some(value) => value.copy(),
    }
}

/// The whole number that a value is, without its sign.
///
/// # Errors
///
/// [`ErrorKind::InvalidOperation`](template_values_errors::ErrorKind::InvalidOperation) at another value, and at the least number.
#[tactic(auto, unfolding(crate::specs::Values::magnitude_of))]
pub(crate) fn magnitude_of(value: &Value) -> Result<Value, Error>
    ensures { Tells result (values.magnitude_of value.now) }
{
    match value.as_int() {
        None => refusal(),
        Some(number) => number_made(magnitude(number)),
    }
}

#[tactic(auto, using(crate::proofs::Signs::magnitude_below, crate::proofs::Signs::magnitude_from))]
fn magnitude(number: i128) -> Option<i128>
    ensures { result ≡ values.magnitude number }
{
    if number < 0 {
        negation(number)
    } else {
        Some(number)
    }
}

fn number_made(number: Option<i128>) -> Result<Value, Error>
    ensures { Tells result (values.number_made number) }
{
    match number {
        None => refusal(),
        Some(number) => Ok(Value::from_int(number)),
    }
}

/// A total, and each item by `+`, or its part at a path.
///
/// # Errors
///
/// Those of [`part_or_self`] and of [`add`].
pub(crate) fn summed(
    alloc: Global,
    view: &CallView<'_>,
    path: Option<&Value>,
    start: Value,
    items: &[Value],
) -> Result<Value, Error>
    ensures { Tells result (values.summed (seen_in view.now) (option_copied path.entry) start items.now) }
{
    let mut total = start;
    for item in items {
        let part = part_or_self(alloc, view, path, item)?;
        total = plus(alloc, &total, &part)?;
    }
    Ok(total)
}

#[tactic(auto, using(template_builtins_paths::proofs::Steps::tells_told), unfolding(crate::specs::Values::plus))]
fn plus(alloc: Global, total: &Value, value: &Value) -> Result<Value, Error>
    ensures { Tells result (values.plus total.now value.now) }
{
    add(alloc, total, value)
}

/// What a sum starts from.
pub(crate) fn start_from(given: Option<&Value>) -> Result<Value, Error>
    ensures made { IfOk result (λ v. v ≡ values.start_from (option_copied given.entry)) }
    ensures refused { IfErr result NoMemory }
{
    match given {
        None => Ok(Value::from_int(0)),
        Some(value) => value.copy(),
    }
}

/// The attribute of a name.
///
/// # Errors
///
/// - [`ErrorKind::UndefinedError`](template_values_errors::ErrorKind::UndefinedError) at an undefined value, where these do not
///   chain.
/// - [`ErrorKind::InvalidOperation`](template_values_errors::ErrorKind::InvalidOperation) where the name is no text, and at a
///   namespace, a loop or a macro.
pub(crate) fn attribute_named(
    alloc: Global,
    view: &CallView<'_>,
    value: &Value,
    name: Option<&str>,
) -> Result<Value, Error>
    ensures { Tells result (values.attribute_named (seen_in view.now) value.now (option_copied name.entry)) }
{
    match name {
        None => refusal(),
        Some(name) => {
            if is_undefined(value) {
                part_of_undefined(view)
            } else {
                attribute_at(alloc, value, name)
            }
        }
    }
}

#[tactic(auto, using(template_builtins_paths::proofs::Steps::tells_told), unfolding(crate::specs::Values::attribute_at))]
fn attribute_at(alloc: Global, value: &Value, name: &str) -> Result<Value, Error>
    ensures { Tells result (values.attribute_at value.now name.now) }
{
    get_attr(alloc, value, name, &NoRecords)
}
