//! Calls of values, by name.
use crate::constructors::{owned, put, text_of};
use crate::errors::error_of;
use crate::large::{digest, nested, numbered_names, numbers, octets};
use crate::modes::{behavior_named, escape_named};
use crate::scene::{STATE, Scene};
use std::alloc::Global;
use std::collections::BTreeSet;
use template_values::*;

// What stands before all that prints.
const BEFORE: &str = "before";

// The id of a state that is not there.
const FOREIGN: u64 = 0;

/// The value of that name; the records among them are foreign. A law has none to give.
pub(crate) fn constant(name: &str) -> Result<Value, Error> {
    match name {
        "undefined" => Ok(Value::undefined()),
        "silent" => Ok(Value::silent_undefined()),
        "function" => Ok(Value::function(1, 2)),
        "namespace" => Ok(Value::namespace(FOREIGN, 2)),
        "loop" => Ok(Value::loop_record(FOREIGN, 2)),
        "macro" => Ok(Value::macro_record(FOREIGN, 2)),
        "order_laws" => {
            order_laws();
            Ok(Value::none())
        }
        _ => Err(Error::new(ErrorKind::UnknownFunction)),
    }
}

/// The call of that name with one argument.
pub(crate) fn of_one(
    alloc: Global,
    scene: &Scene,
    name: &str,
    value: &Value,
) -> Result<Value, Error> {
    match name {
        "int" => int(value),
        "neg" => neg(value),
        "namespace" => Ok(Value::namespace(STATE, place(value)?)),
        "loop" => Ok(Value::loop_record(STATE, place(value)?)),
        "macro" => Ok(Value::macro_record(STATE, place(value)?)),
        _ => written(alloc, scene, name, value),
    }
}

// The text of a value, plain or under an escape, or what else the call of that name gives.
fn written(alloc: Global, scene: &Scene, name: &str, value: &Value) -> Result<Value, Error> {
    match (name, escape_named(name)) {
        ("print", _) => text_behind(alloc, scene, value, None),
        (_, None) => made(alloc, scene, name, value),
        (_, escape) => text_behind(alloc, scene, value, escape),
    }
}

// The value as it prints, or under an escape. A refusal that does not leave the text before it as it was
// is told as `BadStream`.
fn text_behind(
    alloc: Global,
    scene: &Scene,
    value: &Value,
    escape: Option<AutoEscape>,
) -> Result<Value, Error> {
    let mut text = String::from_str(alloc, BEFORE)?;
    let written = write_to(value, escape, scene, &mut text);
    match (text.as_str().strip_prefix(BEFORE), written) {
        (Some(text), Ok(())) => Value::from_str(alloc, text),
        (Some(""), Err(refused)) => Err(refused),
        _ => Err(Error::new(ErrorKind::BadStream)),
    }
}

/// Writes the value as it prints, or under an escape.
pub(crate) fn write_to<R: Records>(
    value: &Value,
    escape: Option<AutoEscape>,
    records: &R,
    text: &mut String,
) -> Result<(), Error> {
    match escape {
        Some(escape) => escape_to(value, escape, records, text),
        None => print_to(value, records, text),
    }
}

// What is large, or is made of JSON, and what an error prints.
fn made(alloc: Global, scene: &Scene, name: &str, value: &Value) -> Result<Value, Error> {
    match name {
        "numbers" | "names" | "nested" | "octets" => large(alloc, name, place(value)?),
        "digest" | "context" | "entries" => read(alloc, name, text_of(value)?),
        "error" => error_text(alloc, value),
        _ => fact(alloc, scene, name, value),
    }
}

fn large(alloc: Global, name: &str, count: usize) -> Result<Value, Error> {
    match name {
        "numbers" => numbers(alloc, count),
        "names" => numbered_names(alloc, count),
        "nested" => nested(alloc, count),
        _ => octets(alloc, count),
    }
}

fn read(alloc: Global, name: &str, text: &str) -> Result<Value, Error> {
    match name {
        "digest" => digest(alloc, text),
        "context" => context_from_json(alloc, text.as_bytes()),
        _ => entry_count(alloc, text),
    }
}

// How many entries the context has that JSON is.
fn entry_count(alloc: Global, json: &str) -> Result<Value, Error> {
    match entries_from_json(alloc, json.as_bytes()) {
        Ok(entries) => Ok(Value::from_int(entries.len() as i128)),
        Err(error) => Err(error),
    }
}

fn error_text(alloc: Global, kinds: &Value) -> Result<Value, Error> {
    let error = error_of(alloc, kinds)?;
    Value::from_text(format!(in alloc; "{error}")?)
}

// What a value is.
fn fact(alloc: Global, scene: &Scene, name: &str, value: &Value) -> Result<Value, Error> {
    match name {
        "safe" => Value::from_safe_text(owned(alloc, value)?),
        "items_of" => Value::from_list(alloc, items_of(alloc, value, scene)?),
        "is_true" => Ok(Value::from_bool(value.is_true())),
        "truth" => Ok(Value::from_bool(is_true(value, scene)?)),
        "levels" => Ok(Value::from_int(i128::from(value.levels()))),
        "as_str" => text_or_none(alloc, value),
        "has_items" => Ok(Value::from_bool(value.items().is_some())),
        "has_entries" => Ok(Value::from_bool(value.entries().is_some())),
        "kwargs_names" => of_keywords(alloc, value, None),
        _ => Err(Error::new(ErrorKind::UnknownFunction)),
    }
}

/// The call of that name with two arguments.
pub(crate) fn of_two(
    alloc: Global,
    scene: &Scene,
    name: &str,
    left: &Value,
    right: &Value,
) -> Result<Value, Error> {
    match name {
        "add" => add(alloc, left, right),
        "sub" => sub(left, right),
        "mul" => mul(alloc, left, right),
        "div" => div(left, right),
        "int_div" => int_div(left, right),
        "rem" => rem(left, right),
        "pow" => pow(left, right),
        _ => looked_up(alloc, scene, name, left, right),
    }
}

// What is joined or looked up, or whether two are alike.
fn looked_up(
    alloc: Global,
    scene: &Scene,
    name: &str,
    left: &Value,
    right: &Value,
) -> Result<Value, Error> {
    match name {
        "string_concat" => string_concat(alloc, left, right, scene),
        "contains" => Ok(Value::from_bool(contains(left, right, scene)?)),
        "get_attr" => get_attr(alloc, left, text_of(right)?, scene),
        "get_item" => get_item(alloc, left, right, scene),
        "kwargs_get" => of_keywords(alloc, left, Some(text_of(right)?)),
        _ => Ok(Value::from_bool(compare(alloc, name, left, right)?)),
    }
}

// Values by themselves, errors by lists of their kinds, escapes and behaviours of undefined by their names.
fn compare(alloc: Global, name: &str, left: &Value, right: &Value) -> Result<bool, Error> {
    match name {
        "equal" => Ok(left == right),
        "less" => Ok(left < right),
        "same_error" => same_error(alloc, left, right),
        _ => same_named(name, text_of(left)?, text_of(right)?),
    }
}

fn same_error(alloc: Global, left: &Value, right: &Value) -> Result<bool, Error> {
    let left = error_of(alloc, left)?;
    Ok(left == error_of(alloc, right)?)
}

fn same_named(name: &str, left: &str, right: &str) -> Result<bool, Error> {
    match name {
        "same_escape" => Ok(escape_named(left) == escape_named(right)),
        "same_behavior" => Ok(behavior_named(left) == behavior_named(right)),
        _ => Err(Error::new(ErrorKind::UnknownFunction)),
    }
}

// The number of those digits.
fn int(digits: &Value) -> Result<Value, Error> {
    match text_of(digits)?.parse::<i128>() {
        Ok(number) => Ok(Value::from_int(number)),
        Err(_) => Err(Error::new(ErrorKind::SyntaxError)),
    }
}

/// The number from 0 on that the value is.
pub(crate) fn place(value: &Value) -> Result<usize, Error> {
    match usize::try_from(value.as_int().unwrap_or(-1)) {
        Ok(place) => Ok(place),
        Err(_) => Err(Error::new(ErrorKind::SyntaxError)),
    }
}

fn text_or_none(alloc: Global, value: &Value) -> Result<Value, Error> {
    match value.as_str() {
        Some(text) => Value::from_str(alloc, text),
        None => Ok(Value::none()),
    }
}

// The argument of that name, or the list of the names of all.
fn of_keywords(alloc: Global, value: &Value, name: Option<&str>) -> Result<Value, Error> {
    match (Kwargs::extract(value)?, name) {
        (Some(keywords), Some(name)) => keywords.get(name),
        (Some(keywords), None) => list_of(alloc, &keywords.names(alloc)?),
        (None, _) => Err(Error::new(ErrorKind::SyntaxError)),
    }
}

fn list_of(alloc: Global, names: &BTreeSet<String>) -> Result<Value, Error> {
    let mut values = Vec::new(alloc);
    for name in names {
        put(&mut values, Value::from_str(alloc, name.as_str()))?;
    }
    Value::from_list(alloc, values)
}
