//! The JSON of a value, laid out.
ghost use Rattle.std.specs.Prelude.{◌≡◌, ◌+◌, ◌<◌, ◌≤◌, ◌∷◌, [], false, Ok, string_bytes};
ghost use Rattle.template_builtins_web.specs.Json.{before_item, pretty_items, pretty_key, pretty_members, pretty_text};
ghost use Rattle.template_values_core.specs.Maps.{pairs_of};
ghost use Rattle.template_values_core.specs.Shape.{pairs_in};
ghost use Rattle.template_values_forms.specs.Answers.{joined, mapped};
ghost use Rattle.template_values_forms.specs.Json.{inner_data, items_data, json_data, key_data, members_data, nested_data};
ghost use Rattle.template_values_forms.specs.Known.{nothing_known};
ghost use Rattle.template_values_forms.specs.Printed.{level_limit};
ghost use Rattle.template_values_model.specs.Val.{vals_of};
ghost use Rattle.template_values_print.specs.Pieces.{Writes};

use crate::leaves::pretty_flat;
use crate::lines::{push_before, push_end, push_key};
use template_values_core::{Content, Entry, Value};
use template_values_errors::{Error, ErrorKind};
use template_values_model::DEPTH_LIMIT;
use template_values_print::{Markup, push};

// Writes the JSON of the value, with a line for each item and member, behind the indent of each level. Linear in the text.
pub(crate) fn pretty_outer(value: &Value, indent: &str, out: &mut String) -> Result<(), Error>
    ensures { Writes Markup.Plain (string_bytes out.old) (mapped (pretty_text indent.now 0) (json_data nothing_known value.now))
        result (string_bytes out.new) }
{
    pretty_inner(value, indent, 0, deepest(), out)
}

fn deepest() -> u32
    ensures limit { result ≡ level_limit }
    ensures small { result ≤ 1000 }
{
    DEPTH_LIMIT
}

#[cycle(pretty)]
fn pretty_inner(
    value: &Value,
    indent: &str,
    level: u32,
    left: u32,
    out: &mut String,
) -> Result<(), Error>
    requires { level + left ≤ 1000 }
    ensures { let inner = inner_data nothing_known left in
        Writes Markup.Plain (string_bytes out.old) (mapped (pretty_text indent.now level) (inner value.now)) result (string_bytes out.new) }
{
    if left == 0 {
        return pretty_flat(value, indent, level, out);
    }
    pretty_nested(value, indent, level, left - 1, out)
}

#[cycle(pretty)]
fn pretty_nested(
    value: &Value,
    indent: &str,
    level: u32,
    left: u32,
    out: &mut String,
) -> Result<(), Error>
    requires { level + left < 1000 }
    ensures { let inner = inner_data nothing_known left in
        Writes Markup.Plain (string_bytes out.old) (mapped (pretty_text indent.now level) (nested_data nothing_known inner value.now))
        result (string_bytes out.new) }
{
    match value.content() {
        Content::List(items) => pretty_array(items, indent, level, left, out),
        Content::Tuple(items) => pretty_array(items, indent, level, left, out),
        Content::Map(entries) => pretty_object(entries, indent, level, left, out),
        Content::KeywordMap(entries) => pretty_object(entries, indent, level, left, out),
        Content::Module(entries, _text) => pretty_object(entries, indent, level, left, out),
        Content::Namespace(_id, _number) => Err(Error::new(ErrorKind::InvalidOperation)),
        _ => pretty_flat(value, indent, level, out),
    }
}

#[cycle(pretty)]
fn pretty_array(
    items: &[Value],
    indent: &str,
    level: u32,
    left: u32,
    out: &mut String,
) -> Result<(), Error>
    requires { level + left < 1000 }
    ensures { let inner = inner_data nothing_known left in
        Writes Markup.Plain (string_bytes out.old)
        (joined (Ok (91 ∷ [])) (mapped (pretty_items false indent.now level) (items_data inner (vals_of items.now))))
        result (string_bytes out.new) }
{
    push(out, Markup::Plain, "[")?;
    pretty_items(items, indent, level, left, out)
}

#[cycle(pretty)]
fn pretty_items(
    items: &[Value],
    indent: &str,
    level: u32,
    left: u32,
    out: &mut String,
) -> Result<(), Error>
    requires { level + left < 1000 }
    ensures { let inner = inner_data nothing_known left in
        Writes Markup.Plain (string_bytes out.old) (mapped (pretty_items false indent.now level) (items_data inner (vals_of items.now)))
        result (string_bytes out.new) }
{
    let mut later = false;
    for item in items {
        pretty_item(later, item, indent, level, left, out)?;
        later = true;
    }
    push_end(later, indent, level, "]", out)
}

#[cycle(pretty)]
fn pretty_item(
    later: bool,
    item: &Value,
    indent: &str,
    level: u32,
    left: u32,
    out: &mut String,
) -> Result<(), Error>
    requires { level + left < 1000 }
    ensures { let inner = inner_data nothing_known left in
        Writes Markup.Plain (string_bytes out.old)
        (joined (Ok (before_item later indent.now level)) (mapped (pretty_text indent.now (level + 1)) (inner item.now)))
        result (string_bytes out.new) }
{
    push_before(later, indent, level, out)?;
    pretty_inner(item, indent, level + 1, left, out)
}

#[cycle(pretty)]
fn pretty_object(
    entries: &[Entry],
    indent: &str,
    level: u32,
    left: u32,
    out: &mut String,
) -> Result<(), Error>
    requires { level + left < 1000 }
    ensures { let inner = inner_data nothing_known left in
        Writes Markup.Plain (string_bytes out.old)
        (joined (Ok (123 ∷ [])) (mapped (pretty_members false indent.now level) (members_data inner (pairs_of (pairs_in entries.now)))))
        result (string_bytes out.new) }
{
    push(out, Markup::Plain, "{")?;
    pretty_members(entries, indent, level, left, out)
}

#[cycle(pretty)]
fn pretty_members(
    entries: &[Entry],
    indent: &str,
    level: u32,
    left: u32,
    out: &mut String,
) -> Result<(), Error>
    requires { level + left < 1000 }
    ensures { let inner = inner_data nothing_known left in
        Writes Markup.Plain (string_bytes out.old)
        (mapped (pretty_members false indent.now level) (members_data inner (pairs_of (pairs_in entries.now))))
        result (string_bytes out.new) }
{
    let mut later = false;
    for entry in entries {
        pretty_member(later, entry, indent, level, left, out)?;
        later = true;
    }
    push_end(later, indent, level, "}", out)
}

#[cycle(pretty)]
fn pretty_member(
    later: bool,
    entry: &Entry,
    indent: &str,
    level: u32,
    left: u32,
    out: &mut String,
) -> Result<(), Error>
    requires { level + left < 1000 }
    ensures { let inner = inner_data nothing_known left in
        Writes Markup.Plain (string_bytes out.old)
        (joined (Ok (before_item later indent.now level))
        (joined (mapped pretty_key (key_data entry.now.key)) (mapped (pretty_text indent.now (level + 1)) (inner entry.now.value))))
        result (string_bytes out.new) }
{
    push_before(later, indent, level, out)?;
    push_key(&entry.key, out)?;
    pretty_inner(&entry.value, indent, level + 1, left, out)
}
