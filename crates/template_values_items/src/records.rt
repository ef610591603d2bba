//! What is looked up in namespaces, loops and macros.
ghost use Rattle.std.specs.Prelude.{◌≡◌, suc, pos, Ok, option_copied, slice_get};
ghost use Rattle.template_values_model.specs.Gives.{Gives, alone};
ghost use Rattle.template_values_model.specs.Lookup.{entry_at, is_text};
ghost use Rattle.template_values_model.specs.Val.{int};
ghost use Rattle.template_values_core.specs.Maps.{pairs_of, entry_under};
ghost use Rattle.template_values_core.specs.Shape.{pairs_in};
ghost use Rattle.template_values_forms.specs.Views.{macro_seen};
ghost use Rattle.template_values_items.specs.Loops.{loop_rest};
ghost use Rattle.template_values_operators.specs.Contains.{namespace_contains};
ghost use Rattle.template_values_operators.specs.Records.{is_last, item_before, loop_attribute, loop_value, macro_attribute, macro_value, namespace_attribute, namespace_item};

use std::alloc::Global;
use template_values_core::{Entry, Value};
use template_values_errors::Error;
use template_values_forms::{MacroView, Records};
use template_values_operators::growth::{copies, copy_or_undefined};
use template_values_operators::kinds::list_made;
use template_values_operators::refusal;

/// What a namespace has under a text. Linear in its entries.
pub(crate) fn namespace_attribute<R: Records>(
    id: u64,
    number: usize,
    name: &str,
    records: &R,
) -> Result<Value, Error>
    ensures { Gives result (namespace_attribute name.now ((R.known records.now).namespaces id number)) }
{
    match records.namespace(id, number) {
        Some(entries) => copy_or_undefined(entry_at(entries, name)),
        None => refusal(),
    }
}

/// What a namespace has under a key. Linear in its entries.
pub(crate) fn namespace_item<R: Records>(
    id: u64,
    number: usize,
    key: &Value,
    records: &R,
) -> Result<Value, Error>
    ensures { Gives result (namespace_item key.now ((R.known records.now).namespaces id number)) }
{
    match records.namespace(id, number) {
        Some(entries) => copy_or_undefined(entry_under(entries, key)),
        None => refusal(),
    }
}

/// Whether a namespace has something under a key. Linear in its entries.
pub(crate) fn namespace_contains<R: Records>(
    id: u64,
    number: usize,
    key: &Value,
    records: &R,
) -> Result<bool, Error>
    ensures { result ≡ alone (namespace_contains key.now ((R.known records.now).namespaces id number)) }
{
    match records.namespace(id, number) {
        Some(entries) => Ok(entry_under(entries, key).is_some()),
        None => refusal(),
    }
}

fn entry_at<'a>(entries: &'a [Entry], name: &str) -> Option<&'a Value>
    ensures { option_copied result ≡ entry_at name.now (pairs_of (pairs_in entries.now)) }
{
    for entry in entries {
        if is_text(&entry.key, name) {
            return Some(&entry.value);
        }
    }
    None
}

fn is_text(value: &Value, name: &str) -> bool
    ensures { result ≡ is_text name.now value.now }
{
    match value.as_str() {
        Some(text) => text == name,
        None => false,
    }
}

fn entry_under<'a>(entries: &'a [Entry], key: &Value) -> Option<&'a Value>
    ensures { option_copied result ≡ entry_under key.now (pairs_of (pairs_in entries.now)) }
{
    for entry in entries {
        if entry.key == *key {
            return Some(&entry.value);
        }
    }
    None
}

/// What a loop has under a name, or under a key that is no text.
pub(crate) fn loop_attribute<R: Records>(
    id: u64,
    number: usize,
    name: Option<&str>,
    records: &R,
) -> Result<Value, Error>
    ensures { Gives result (loop_attribute (option_copied name.entry) ((R.known records.now).loops id number)) }
{
    let Some(view) = records.loop_view(id, number) else {
        return refusal();
    };
    match (name, view.place) {
        (Some(name), Some(place)) => loop_value(name, view.items, place, view.depth),
        _ => Ok(Value::undefined()),
    }
}

fn loop_value(name: &str, items: &[Value], place: usize, depth: usize) -> Result<Value, Error>
    ensures { Gives result (Ok (loop_value name.now items.now place depth)) }
{
    let count = items.len();
    match name {
        "index0" => Ok(whole(place)),
        "index" => Ok(one_more(place)),
        "length" => Ok(whole(count)),
        "revindex" => Ok(whole(count.saturating_sub(place))),
        "revindex0" => Ok(whole(count.saturating_sub(place).saturating_sub(1))),
        _ => loop_rest(name, items, place, depth),
    }
}

/// What a loop has under a name that tells no place and no number of items.
fn loop_rest(name: &str, items: &[Value], place: usize, depth: usize) -> Result<Value, Error>
    ensures { Gives result (Ok (loop_rest name.now items.now place depth)) }
{
    match name {
        "first" => Ok(Value::from_bool(place == 0)),
        "last" => Ok(Value::from_bool(is_last(place, items.len()))),
        "depth" => Ok(one_more(depth)),
        "depth0" => Ok(whole(depth)),
        "previtem" => copy_or_undefined(item_before(place, items)),
        "nextitem" => copy_or_undefined(item_after(place, items)),
        _ => Ok(Value::undefined()),
    }
}

/// A count as a whole number.
fn whole(count: usize) -> Value
    ensures { result ≡ int (pos count) }
{
    Value::from_int(count as i128)
}

/// One more than a count, as a whole number.
fn one_more(count: usize) -> Value
    ensures { result ≡ int (pos (suc count)) }
{
    Value::from_int(count as i128 + 1)
}

fn is_last(place: usize, count: usize) -> bool
    ensures { result ≡ is_last place count }
{
    count == 0 || place == count - 1
}

fn item_before(place: usize, items: &[Value]) -> Option<&Value>
    ensures { option_copied result ≡ item_before place items.now }
{
    items.get(place.checked_sub(1)?)
}

fn item_after(place: usize, items: &[Value]) -> Option<&Value>
    ensures { option_copied result ≡ slice_get items.now (suc place) }
{
    items.get(place.checked_add(1)?)
}

/// What a macro has under a name, or under a key that is no text. Linear in its name or its
/// arguments.
pub(crate) fn macro_attribute<R: Records>(
    alloc: Global,
    id: u64,
    number: usize,
    name: Option<&str>,
    records: &R,
) -> Result<Value, Error>
    ensures { Gives result (macro_attribute (option_copied name.entry) ((R.known records.now).macros id number)) }
{
    let Some(view) = records.macro_view(id, number) else {
        return refusal();
    };
    match name {
        Some(name) => macro_value(alloc, name, view),
        None => Ok(Value::undefined()),
    }
}

fn macro_value(alloc: Global, name: &str, view: MacroView<'_>) -> Result<Value, Error>
    ensures { Gives result (macro_value name.now (macro_seen view.entry)) }
{
    match name {
        "name" => Value::from_str(alloc, view.name),
        "arguments" => list_made(alloc, copies(alloc, view.arguments)?),
        "caller" => Ok(Value::from_bool(view.caller)),
        _ => Ok(Value::undefined()),
    }
}
