//! The JSON of a value.
ghost use Rattle.std.specs.Prelude.{◌≡◌, ◌∷◌, [], decimal, false, Ok, string_bytes};
ghost use Rattle.serde_json.specs.Written.{comma_if, compact_text, items_text, members_text};
ghost use Rattle.template_values_model.specs.Val.{vals_of};
ghost use Rattle.template_values_core.specs.Maps.{pairs_of};
ghost use Rattle.template_values_core.specs.Shape.{pairs_in};
ghost use Rattle.template_values_forms.specs.Answers.{joined, mapped};
ghost use Rattle.template_values_forms.specs.Json.{byte_items, flat_data, inner_data, items_data, json_data, key_data, key_text, members_data, namespace_data, nested_data, number_data};
ghost use Rattle.template_values_print.specs.Pieces.{Writes};

use crate::print::deepest;
use crate::{Markup, Quoting, push, push_quoted};
use itoa::Buffer;
use template_values_core::{Content, Entry, Value};
use template_values_errors::{Error, ErrorKind};
use template_values_forms::{GREATEST_JSON_NUMBER, LEAST_JSON_NUMBER, Records};

/// Writes the compact JSON of the value, as `serde_json` does. Namespaces are followed. Takes time linear in the text.
///
/// # Errors
///
/// In each a beginning is written.
///
/// - [`ErrorKind::InvalidOperation`], if a foreign namespace is met, or if the value with the records that it leads to
///   nests deeper than any value may.
/// - [`ErrorKind::BadSerialization`], if a key is no text, a number lies outside -2^63 to 2^64 - 1, or a function,
///   a loop or a macro is met, foreign or not.
/// - [`ErrorKind::OutOfMemory`]
pub fn json_outer<R: Records>(value: &Value, records: &R, out: &mut String) -> Result<(), Error>
    ensures { Writes Markup.Plain (string_bytes out.old) (mapped compact_text (json_data (R.known records.now) value.now))
        result (string_bytes out.new) }
{
    json_inner(value, records, deepest(), out)
}

#[cycle(json)]
fn json_inner<R: Records>(
    value: &Value,
    records: &R,
    left: u32,
    out: &mut String,
) -> Result<(), Error>
    ensures { let inner = inner_data (R.known records.now) left in
        Writes Markup.Plain (string_bytes out.old) (mapped compact_text (inner value.now)) result (string_bytes out.new) }
{
    if left == 0 {
        return json_flat(value, out);
    }
    json_nested(value, records, left - 1, out)
}

#[cycle(json)]
fn json_nested<R: Records>(
    value: &Value,
    records: &R,
    left: u32,
    out: &mut String,
) -> Result<(), Error>
    ensures { let inner = inner_data (R.known records.now) left in
        Writes Markup.Plain (string_bytes out.old) (mapped compact_text (nested_data (R.known records.now) inner value.now))
        result (string_bytes out.new) }
{
    match value.content() {
        Content::List(items) => json_array(items, records, left, out),
        Content::Tuple(items) => json_array(items, records, left, out),
        Content::Map(entries) => json_object(entries, records, left, out),
        Content::KeywordMap(entries) => json_object(entries, records, left, out),
        Content::Module(entries, _text) => json_object(entries, records, left, out),
        Content::Namespace(id, number) => json_namespace(id, number, records, left, out),
        _ => json_flat(value, out),
    }
}

#[cycle(json)]
fn json_array<R: Records>(
    items: &[Value],
    records: &R,
    left: u32,
    out: &mut String,
) -> Result<(), Error>
    ensures { let inner = inner_data (R.known records.now) left in
        Writes Markup.Plain (string_bytes out.old)
        (joined (Ok (91 ∷ [])) (mapped (items_text false) (items_data inner (vals_of items.now))))
        result (string_bytes out.new) }
{
    push(out, Markup::Plain, "[")?;
    json_items(items, records, left, out)
}

#[cycle(json)]
fn json_items<R: Records>(
    items: &[Value],
    records: &R,
    left: u32,
    out: &mut String,
) -> Result<(), Error>
    ensures { let inner = inner_data (R.known records.now) left in
        Writes Markup.Plain (string_bytes out.old) (mapped (items_text false) (items_data inner (vals_of items.now)))
        result (string_bytes out.new) }
{
    let mut later = false;
    for item in items {
        json_item(later, item, records, left, out)?;
        later = true;
    }
    push(out, Markup::Plain, "]")
}

#[cycle(json)]
fn json_item<R: Records>(
    later: bool,
    item: &Value,
    records: &R,
    left: u32,
    out: &mut String,
) -> Result<(), Error>
    ensures { let inner = inner_data (R.known records.now) left in
        Writes Markup.Plain (string_bytes out.old) (joined (Ok (comma_if later)) (mapped compact_text (inner item.now)))
        result (string_bytes out.new) }
{
    push(out, Markup::Plain, comma(later))?;
    json_inner(item, records, left, out)
}

#[cycle(json)]
fn json_namespace<R: Records>(
    id: u64,
    number: usize,
    records: &R,
    left: u32,
    out: &mut String,
) -> Result<(), Error>
    ensures { let inner = inner_data (R.known records.now) left in
        Writes Markup.Plain (string_bytes out.old)
        (mapped compact_text (namespace_data inner ((R.known records.now).namespaces id number)))
        result (string_bytes out.new) }
{
    match records.namespace(id, number) {
        Some(entries) => json_object(entries, records, left, out),
        None => Err(Error::new(ErrorKind::InvalidOperation)),
    }
}

#[cycle(json)]
fn json_object<R: Records>(
    entries: &[Entry],
    records: &R,
    left: u32,
    out: &mut String,
) -> Result<(), Error>
    ensures { let inner = inner_data (R.known records.now) left in
        Writes Markup.Plain (string_bytes out.old)
        (joined (Ok (123 ∷ [])) (mapped (members_text false) (members_data inner (pairs_of (pairs_in entries.now)))))
        result (string_bytes out.new) }
{
    push(out, Markup::Plain, "{")?;
    json_members(entries, records, left, out)
}

#[cycle(json)]
fn json_members<R: Records>(
    entries: &[Entry],
    records: &R,
    left: u32,
    out: &mut String,
) -> Result<(), Error>
    ensures { let inner = inner_data (R.known records.now) left in
        Writes Markup.Plain (string_bytes out.old) (mapped (members_text false) (members_data inner (pairs_of (pairs_in entries.now))))
        result (string_bytes out.new) }
{
    let mut later = false;
    for entry in entries {
        json_member(later, entry, records, left, out)?;
        later = true;
    }
    push(out, Markup::Plain, "}")
}

#[cycle(json)]
fn json_member<R: Records>(
    later: bool,
    entry: &Entry,
    records: &R,
    left: u32,
    out: &mut String,
) -> Result<(), Error>
    ensures { let inner = inner_data (R.known records.now) left in
        Writes Markup.Plain (string_bytes out.old)
        (joined (Ok (comma_if later)) (joined (mapped key_text (key_data entry.now.key)) (mapped compact_text (inner entry.now.value))))
        result (string_bytes out.new) }
{
    push(out, Markup::Plain, comma(later))?;
    json_key(&entry.key, out)?;
    json_inner(&entry.value, records, left, out)
}

fn comma(later: bool) -> &'static str
    ensures { result.now ≡ comma_if later }
{
    if later { "," } else { "" }
}

fn json_key(key: &Value, out: &mut String) -> Result<(), Error>
    ensures { Writes Markup.Plain (string_bytes out.old) (mapped key_text (key_data key.now)) result (string_bytes out.new) }
{
    match key.content() {
        Content::Text(text) => json_key_text(text, out),
        Content::SafeText(text) => json_key_text(text, out),
        _ => Err(Error::new(ErrorKind::BadSerialization)),
    }
}

fn json_key_text(key: &str, out: &mut String) -> Result<(), Error>
    ensures { Writes Markup.Plain (string_bytes out.old) (Ok (key_text key.now)) result (string_bytes out.new) }
{
    push_quoted(out, Markup::Plain, Quoting::Json, key)?;
    push(out, Markup::Plain, ":")
}

fn json_flat(value: &Value, out: &mut String) -> Result<(), Error>
    ensures { Writes Markup.Plain (string_bytes out.old) (mapped compact_text (flat_data value.now)) result (string_bytes out.new) }
{
    match value.content() {
        Content::Undefined => push(out, Markup::Plain, "null"),
        Content::SilentUndefined => push(out, Markup::Plain, "null"),
        Content::None => push(out, Markup::Plain, "null"),
        Content::Truth(true) => push(out, Markup::Plain, "true"),
        Content::Truth(false) => push(out, Markup::Plain, "false"),
        Content::Int(number) => json_number(number, out),
        Content::Text(text) => push_quoted(out, Markup::Plain, Quoting::Json, text),
        Content::SafeText(text) => push_quoted(out, Markup::Plain, Quoting::Json, text),
        Content::Bytes(bytes) => json_bytes(bytes, out),
        Content::Function(_id, _number) => Err(Error::new(ErrorKind::BadSerialization)),
        Content::Loop(_id, _number) => Err(Error::new(ErrorKind::BadSerialization)),
        Content::Macro(_id, _number) => Err(Error::new(ErrorKind::BadSerialization)),
        _ => Err(Error::new(ErrorKind::InvalidOperation)),
    }
}

fn json_number(number: i128, out: &mut String) -> Result<(), Error>
    ensures { Writes Markup.Plain (string_bytes out.old) (mapped compact_text (number_data number)) result (string_bytes out.new) }
{
    if number < i128::from(LEAST_JSON_NUMBER) || i128::from(GREATEST_JSON_NUMBER) < number {
        return Err(Error::new(ErrorKind::BadSerialization));
    }
    push(out, Markup::Plain, Buffer::new().format(number))
}

fn json_bytes(bytes: &[u8], out: &mut String) -> Result<(), Error>
    ensures { Writes Markup.Plain (string_bytes out.old)
        (Ok (91 ∷ items_text false (byte_items bytes.now))) result (string_bytes out.new) }
{
    push(out, Markup::Plain, "[")?;
    json_byte_items(bytes, out)
}

fn json_byte_items(bytes: &[u8], out: &mut String) -> Result<(), Error>
    ensures { Writes Markup.Plain (string_bytes out.old) (Ok (items_text false (byte_items bytes.now))) result (string_bytes out.new) }
{
    let mut later = false;
    for byte in bytes {
        json_byte(later, *byte, out)?;
        later = true;
    }
    push(out, Markup::Plain, "]")
}

fn json_byte(later: bool, byte: u8, out: &mut String) -> Result<(), Error>
    ensures { Writes Markup.Plain (string_bytes out.old)
        (joined (Ok (comma_if later)) (Ok (decimal byte))) result (string_bytes out.new) }
{
    push(out, Markup::Plain, comma(later))?;
    push(out, Markup::Plain, Buffer::new().format(byte))
}
