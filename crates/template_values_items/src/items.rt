//! Items and attributes.
ghost use Rattle.std.specs.Prelude.{◌≡◌, Ok, option_copied, length, slice_get, map};
ghost use Rattle.std.specs.Str.{chars};
ghost use Rattle.template_values_model.specs.Gives.{Gives, TellsFault};
ghost use Rattle.template_values_core.specs.Reads.{number_of};
ghost use Rattle.template_values_core.specs.Maps.{pairs_of};
ghost use Rattle.template_values_core.specs.Shape.{pairs_in};
ghost use Rattle.template_values_operators.specs.Iterated.{iterated, held_items, items_given, keys_in, namespace_keys};
ghost use Rattle.template_values_operators.specs.Items.{item_of, held_item, attribute_of, place, element, character_value};

use crate::records::{loop_attribute, macro_attribute, namespace_attribute, namespace_item};
use std::alloc::Global;
use template_values_core::{Content, Entry, Value};
use template_values_errors::Error;
use template_values_forms::Records;
use template_values_operators::growth::{copies, copy_or_undefined};
use template_values_operators::kinds::{bytes_of, is_nothing};
use template_values_operators::refusal;

/// The item of a list, tuple, bytes or text at a number, counted from the end where it is
/// negative, of a map, keyword map, module or namespace at a key, or the attribute of a loop or a
/// macro at a text. What is missing is undefined. Linear in the size of a text or a namespace; a
/// list's item is found at once.
///
/// # Errors
///
/// [`ErrorKind::InvalidOperation`] at a foreign record, or where the list of a macro's arguments
/// would nest deeper than any value may; [`ErrorKind::OutOfMemory`].
///
/// [`ErrorKind::InvalidOperation`]: template_values_errors::ErrorKind::InvalidOperation
/// [`ErrorKind::OutOfMemory`]: template_values_errors::ErrorKind::OutOfMemory
pub fn get_item<R: Records>(
    alloc: Global,
    value: &Value,
    key: &Value,
    records: &R,
) -> Result<Value, Error>
    ensures { Gives result (item_of (R.known records.now) value.now key.now) }
{
    match value.content() {
        Content::Namespace(id, number) => namespace_item(id, number, key, records),
        Content::Loop(id, number) => loop_attribute(id, number, key.as_str(), records),
        Content::Macro(id, number) => macro_attribute(alloc, id, number, key.as_str(), records),
        _ => held_item(alloc, value, key),
    }
}

/// The item of a value that is no record.
fn held_item(alloc: Global, value: &Value, key: &Value) -> Result<Value, Error>
    ensures { Gives result (Ok (held_item value.now key.now)) }
{
    if let Some(items) = value.items() {
        return copy_or_undefined(element(items, key));
    }
    if let Some(bytes) = bytes_of(value) {
        return Ok(match element(bytes, key) {
            Some(byte) => Value::from_int(i128::from(*byte)),
            None => Value::undefined(),
        });
    }
    if let Some(text) = value.as_str() {
        return match character_at(text, key) {
            Some(character) => character_value(alloc, character),
            None => Ok(Value::undefined()),
        };
    }
    copy_or_undefined(value.value_under(key))
}

/// The attribute of a value: what a map, keyword map, module or namespace has under a text, where
/// a loop is, or what a macro is. What is missing is undefined, and so is all of a loop before its
/// first item. Linear in the size of a namespace.
///
/// # Errors
///
/// [`ErrorKind::InvalidOperation`] at a foreign record, or where the list of a macro's arguments
/// would nest deeper than any value may; [`ErrorKind::OutOfMemory`].
///
/// [`ErrorKind::InvalidOperation`]: template_values_errors::ErrorKind::InvalidOperation
/// [`ErrorKind::OutOfMemory`]: template_values_errors::ErrorKind::OutOfMemory
pub fn get_attr<R: Records>(
    alloc: Global,
    value: &Value,
    name: &str,
    records: &R,
) -> Result<Value, Error>
    ensures { Gives result (attribute_of (R.known records.now) value.now name.now) }
{
    match value.content() {
        Content::Namespace(id, number) => namespace_attribute(id, number, name, records),
        Content::Loop(id, number) => loop_attribute(id, number, Some(name), records),
        Content::Macro(id, number) => macro_attribute(alloc, id, number, Some(name), records),
        _ => copy_or_undefined(value.value_at(name)),
    }
}

/// What a loop goes over: the items of a list or tuple, the keys of a map, keyword map, module or
/// namespace, the characters of a text, nothing for none and undefined. Linear in the size of the
/// value.
///
/// # Errors
///
/// [`ErrorKind::InvalidOperation`] at other values and at a foreign namespace;
/// [`ErrorKind::OutOfMemory`].
///
/// [`ErrorKind::InvalidOperation`]: template_values_errors::ErrorKind::InvalidOperation
/// [`ErrorKind::OutOfMemory`]: template_values_errors::ErrorKind::OutOfMemory
pub fn items_of<R: Records>(alloc: Global, value: &Value, records: &R) -> Result<Vec<Value>, Error>
    ensures gives { Gives (items_given result) (iterated (R.known records.now) value.now) }
    ensures refused { TellsFault (items_given result) (iterated (R.known records.now) value.now) }
{
    match value.content() {
        Content::Namespace(id, number) => namespace_keys(alloc, id, number, records),
        _ => held_items(alloc, value),
    }
}

/// What a loop goes over in a value that is no record.
fn held_items(alloc: Global, value: &Value) -> Result<Vec<Value>, Error>
    ensures gives { Gives (items_given result) (held_items value.now) }
    ensures refused { TellsFault (items_given result) (held_items value.now) }
{
    if let Some(items) = value.items() {
        return copies(alloc, items);
    }
    if let Some(text) = value.as_str() {
        return characters(alloc, text);
    }
    if let Some(entries) = value.entries() {
        return keys(alloc, entries);
    }
    if is_nothing(value) {
        return Ok(Vec::new(alloc));
    }
    refusal()
}

/// The characters of a text, each as a text.
fn characters(alloc: Global, text: &str) -> Result<Vec<Value>, Error>
    ensures { Gives (items_given result) (Ok (map character_value (chars text.now))) }
{
    let mut values = Vec::new(alloc);
    for character in text.chars() {
        values.push(character_value(alloc, character)?)?;
    }
    Ok(values)
}

/// The keys of a namespace.
fn namespace_keys<R: Records>(
    alloc: Global,
    id: u64,
    number: usize,
    records: &R,
) -> Result<Vec<Value>, Error>
    ensures gives { Gives (items_given result) (namespace_keys ((R.known records.now).namespaces id number)) }
    ensures refused { TellsFault (items_given result) (namespace_keys ((R.known records.now).namespaces id number)) }
{
    match records.namespace(id, number) {
        Some(entries) => keys(alloc, entries),
        None => refusal(),
    }
}

/// The keys of entries.
fn keys(alloc: Global, entries: &[Entry]) -> Result<Vec<Value>, Error>
    ensures { Gives (items_given result) (Ok (keys_in (pairs_of (pairs_in entries.now)))) }
{
    let mut keys = Vec::with_capacity(alloc, entries.len())?;
    for entry in entries {
        keys.push(entry.key.copy()?)?;
    }
    Ok(keys)
}

/// The element at the place that a key means.
fn element<'a, T>(elements: &'a [T], key: &Value) -> Option<&'a T>
    ensures { option_copied result ≡ element (number_of key.now) elements.now }
{
    elements.get(place(key.as_number()?, elements.len())?)
}

/// The place in a list of this length that a number means.
fn place(number: i128, length: usize) -> Option<usize>
    ensures { result ≡ place number length }
{
    if number < 0 {
        let back = usize::try_from(number.unsigned_abs()).ok()?;
        length.checked_sub(back)
    } else {
        let place = usize::try_from(number).ok()?;
        (place < length).then_some(place)
    }
}

/// The character at the place that a key means.
fn character_at(text: &str, key: &Value) -> Option<char>
    ensures { result ≡ element (number_of key.now) (chars text.now) }
{
    nth_character(text, place(key.as_number()?, character_count(text))?)
}

fn character_count(text: &str) -> usize
    ensures { result ≡ length (chars text.now) }
{
    text.chars().count()
}

fn nth_character(text: &str, place: usize) -> Option<char>
    ensures { result ≡ slice_get (chars text.now) place }
{
    text.chars().nth(place)
}

/// A character as a plain text.
fn character_value(alloc: Global, character: char) -> Result<Value, Error>
    ensures { Gives result (Ok (character_value character)) }
{
    let mut text = String::new(alloc);
    text.push(character)?;
    Value::from_text(text)
}
