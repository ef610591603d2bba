//! Parts of values at paths.
ghost use Rattle.std.specs.Prelude.{◌≡◌, true, option_copied};
ghost use Rattle.std.specs.Char.{is_ascii_digit};
ghost use Rattle.std.specs.List.{list_all};
ghost use Rattle.template_builtins_arguments.specs.Answers.{Tells};
ghost use Rattle.template_builtins_paths.specs.Paths as paths;
ghost use Rattle.template_callables.specs.Views.{seen_in};

use std::alloc::Global;
use template_builtins_arguments::refusal;
use template_callables::CallView;
use template_values_core::{Content, Value};
use template_values_errors::{Error, ErrorKind, UndefinedBehavior};
use template_values_forms::NoRecords;
use template_values_items::{get_attr, get_item};
use template_values_operators::kinds::{is_none, is_undefined};

/// Whether the value is a path: a text or a whole number.
pub fn is_path(value: &Value) -> bool
    ensures { result ≡ paths.is_path value.now }
{
    match value.content() {
        Content::Text(_) | Content::SafeText(_) | Content::Int(_) => true,
        _ => false,
    }
}

/// The part of a value at a path. A whole number is an item. A text is parted at its dots, and each part is looked up in what the
/// parts before it came to: ASCII digits as an item of that number, another part as an attribute. What is missing is undefined. A
/// default that is not `none` stands for what is undefined and for a part of it. Linear in the length of the path, and in that of
/// each text and number of keys that is looked into.
///
/// # Errors
///
/// - [`ErrorKind::UndefinedError`] at a part of an undefined value, where there is no default and undefined values do not chain.
/// - [`ErrorKind::InvalidOperation`] at a path that is neither a text nor a whole number, and at a part of a namespace, a loop or a
///   macro.
/// - [`ErrorKind::OutOfMemory`]
#[tactic(auto, unfolding(crate::specs::Paths::part_of))]
pub fn part_of(
    alloc: Global,
    view: &CallView<'_>,
    value: &Value,
    path: &Value,
    default: Option<&Value>,
) -> Result<Value, Error>
    ensures { Tells result (paths.part_of (seen_in view.now) value.now path.now (option_copied default.entry)) }
{
    let found = found_at(alloc, value, path)?;
    settled(view, stand_in(default), found)
}

// What stands at a path; none where that would be a part of an undefined value.
#[tactic(auto, unfolding(crate::specs::Paths::found_at))]
fn found_at(alloc: Global, value: &Value, path: &Value) -> Result<Option<Value>, Error>
    ensures { Tells result (paths.found_at value.now path.now) }
{
    match path.content() {
        Content::Text(path) | Content::SafeText(path) => reached(alloc, value, path),
        Content::Int(number) => item_reached(alloc, value, number),
        _ => refusal(),
    }
}

fn reached(alloc: Global, value: &Value, path: &str) -> Result<Option<Value>, Error>
    ensures { Tells result (paths.reached value.now (paths.parts_of path.now)) }
{
    let mut found = value.copy()?;
    for part in path.split('.') {
        if is_undefined(&found) {
            return Ok(None);
        }
        found = part_at(alloc, &found, part)?;
    }
    Ok(Some(found))
}

#[tactic(auto, unfolding(crate::specs::Paths::item_reached))]
fn item_reached(alloc: Global, value: &Value, number: i128) -> Result<Option<Value>, Error>
    ensures { Tells result (paths.item_reached value.now number) }
{
    if is_undefined(value) {
        return Ok(None);
    }
    Ok(Some(item_at(alloc, value, number)?))
}

#[tactic(auto, unfolding(crate::specs::Paths::part_at))]
fn part_at(alloc: Global, value: &Value, part: &str) -> Result<Value, Error>
    ensures { Tells result (paths.part_at value.now part.now) }
{
    if is_number(part) {
        item_numbered(alloc, value, number_named(part))
    } else {
        get_attr(alloc, value, part, &NoRecords)
    }
}

#[tactic(auto, unfolding(crate::specs::Paths::item_numbered))]
fn item_numbered(alloc: Global, value: &Value, number: Option<i128>) -> Result<Value, Error>
    ensures { Tells result (paths.item_numbered value.now number) }
{
    match number {
        Some(number) => item_at(alloc, value, number),
        None => {
            item_at(alloc, value, 0)?;
            Ok(Value::undefined())
        }
    }
}

#[tactic(auto, using(crate::proofs::Steps::tells_told), unfolding(crate::specs::Paths::item_at))]
fn item_at(alloc: Global, value: &Value, number: i128) -> Result<Value, Error>
    ensures { Tells result (paths.item_at value.now number) }
{
    get_item(alloc, value, &Value::from_int(number), &NoRecords)
}

#[tactic(auto, unfolding(crate::specs::Paths::is_number))]
fn is_number(part: &str) -> bool
    ensures { result ≡ paths.is_number part.now }
{
    !part.is_empty() && has_digits_alone(part)
}

fn has_digits_alone(part: &str) -> bool
    ensures { result ≡ list_all is_ascii_digit part.now }
{
    part.as_bytes().iter().all(|byte| byte.is_ascii_digit())
}

// The number that digits write, where it is one of the language.
#[tactic(auto, unfolding(crate::specs::Paths::number_named))]
fn number_named(part: &str) -> Option<i128>
    requires { paths.is_number part.now ≡ true }
    ensures { result ≡ paths.number_named part.now }
{
    i128::from_str_radix(part, 10).ok()
}

// A default that is not none.
#[tactic(auto, unfolding(crate::specs::Paths::stand_in))]
fn stand_in(default: Option<&Value>) -> Option<&Value>
    ensures { option_copied result ≡ paths.stand_in (option_copied default.entry) }
{
    default.filter(|value| !is_none(value))
}

// What was found, or what stands in for what is undefined.
#[tactic(auto, unfolding(crate::specs::Paths::settled))]
fn settled(
    view: &CallView<'_>,
    default: Option<&Value>,
    found: Option<Value>,
) -> Result<Value, Error>
    ensures { Tells result (paths.settled (seen_in view.now) (option_copied default.entry) found) }
{
    match (default, found) {
        (Some(default), None) => default.copy(),
        (Some(default), Some(found)) => {
            if is_undefined(&found) {
                default.copy()
            } else {
                Ok(found)
            }
        }
        (None, Some(found)) => Ok(found),
        (None, None) => part_of_undefined(view),
    }
}

#[tactic(auto, unfolding(crate::specs::Paths::part_of_undefined))]
pub fn part_of_undefined(view: &CallView<'_>) -> Result<Value, Error>
    ensures { Tells result (paths.part_of_undefined (seen_in view.now)) }
{
    if is_chainable(view.undefined_behavior()) {
        Ok(Value::undefined())
    } else {
        Err(Error::new(ErrorKind::UndefinedError))
    }
}

fn is_chainable(mode: UndefinedBehavior) -> bool
    ensures { result ≡ paths.is_chainable mode }
{
    match mode {
        UndefinedBehavior::Chainable => true,
        UndefinedBehavior::Lenient | UndefinedBehavior::SemiStrict | UndefinedBehavior::Strict =>
            false,
    }
}
