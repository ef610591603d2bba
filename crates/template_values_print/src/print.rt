//! The text that a value prints, piece by piece.
ghost use Rattle.std.specs.Prelude.{◌≡◌, [], Ok, codes, string_bytes};
ghost use Rattle.template_values_model.specs.Val.{vals_of};
ghost use Rattle.template_values_core.specs.Maps.{pairs_of};
ghost use Rattle.template_values_core.specs.Shape.{pairs_in};
ghost use Rattle.template_values_forms.specs.Answers.{joined};
ghost use Rattle.template_values_print.specs.Pieces.{Writes};
ghost use Rattle.template_values_forms.specs.Printed.{enclosed, flat_text, inner_text, level_limit, loop_text, macro_text, map_text, namespace_text, nested_text, pair_text, pairs_text, place_text, printed, tuple_end, vals_text};

use crate::numbers::push_number;
use crate::{Markup, Quoting, push, push_bytes, push_quoted};
use itoa::Buffer;
use template_values_core::{Content, Entry, Value};
use template_values_errors::{Error, ErrorKind};
use template_values_forms::Records;
use template_values_model::DEPTH_LIMIT;

/// Writes the text that the value prints. Namespaces are followed. Takes time linear in the text.
///
/// # Errors
///
/// In each a beginning is written.
///
/// - [`ErrorKind::InvalidOperation`], if a foreign namespace, loop or macro is met, or if the value with
///   the records that it leads to nests deeper than [`DEPTH_LIMIT`] levels.
/// - [`ErrorKind::OutOfMemory`]
pub fn print_outer<R: Records>(
    value: &Value,
    markup: Markup,
    records: &R,
    out: &mut String,
) -> Result<(), Error>
    ensures { Writes markup (string_bytes out.old) (printed (R.known records.now) value.now) result (string_bytes out.new) }
{
    match value.content() {
        Content::Undefined => push(out, markup, ""),
        Content::SilentUndefined => push(out, markup, ""),
        Content::Text(text) => push(out, markup, text),
        Content::SafeText(text) => push(out, markup, text),
        Content::Int(number) => push_number(out, markup, number),
        _ => {
            let inside = Inside {
                markup,
                records,
                left: deepest(),
            };
            print_inner(value, inside, out)
        }
    }
}

// How deep values may nest that are printed.
pub(crate) fn deepest() -> u32
    ensures { result ≡ level_limit }
{
    DEPTH_LIMIT
}

// How a value inside of a container prints: whether with references for markup, what is known of
// records, and how many levels more it may nest.
#[derive_where(Clone, Copy)]
struct Inside<'a, R> {
    markup: Markup,
    records: &'a R,
    left: u32,
}

#[cycle(print)]
fn print_inner<R: Records>(
    value: &Value,
    inside: Inside<'_, R>,
    out: &mut String,
) -> Result<(), Error>
    ensures { let known = R.known inside.entry.records.now in
        let text = inner_text known inside.entry.left in
        Writes inside.entry.markup (string_bytes out.old) (text value.now) result (string_bytes out.new) }
{
    if inside.left == 0 {
        return print_flat(value, inside.markup, inside.records, out);
    }
    let left = inside.left - 1;
    print_nested(value, Inside { left, ..inside }, out)
}

#[cycle(print)]
fn print_nested<R: Records>(
    value: &Value,
    inside: Inside<'_, R>,
    out: &mut String,
) -> Result<(), Error>
    ensures { let known = R.known inside.entry.records.now in
        let text = inner_text known inside.entry.left in
        Writes inside.entry.markup (string_bytes out.old) (nested_text known text value.now) result (string_bytes out.new) }
{
    match value.content() {
        Content::List(items) => print_list(items, "[", "]", inside, out),
        Content::Tuple(items) => print_list(items, "(", tuple_end(items), inside, out),
        Content::Map(entries) => print_map(entries, inside, out),
        Content::KeywordMap(entries) => print_map(entries, inside, out),
        Content::Module(_entries, text) => push(out, inside.markup, text),
        Content::Namespace(id, number) => print_namespace(id, number, inside, out),
        _ => print_flat(value, inside.markup, inside.records, out),
    }
}

#[cycle(print)]
fn print_list<R: Records>(
    items: &[Value],
    first: &str,
    last: &str,
    inside: Inside<'_, R>,
    out: &mut String,
) -> Result<(), Error>
    ensures { let known = R.known inside.entry.records.now in
        let text = inner_text known inside.entry.left in
        Writes inside.entry.markup (string_bytes out.old) (enclosed first.now (vals_text [] text (vals_of items.now)) last.now)
        result (string_bytes out.new) }
{
    push(out, inside.markup, first)?;
    print_items(items, inside, out)?;
    push(out, inside.markup, last)
}

#[cycle(print)]
fn print_items<R: Records>(
    items: &[Value],
    inside: Inside<'_, R>,
    out: &mut String,
) -> Result<(), Error>
    ensures { let known = R.known inside.entry.records.now in
        let text = inner_text known inside.entry.left in
        Writes inside.entry.markup (string_bytes out.old) (vals_text [] text (vals_of items.now)) result (string_bytes out.new) }
{
    let mut before = "";
    for item in items {
        print_item(before, item, inside, out)?;
        before = ", ";
    }
    Ok(())
}

#[cycle(print)]
fn print_item<R: Records>(
    before: &str,
    item: &Value,
    inside: Inside<'_, R>,
    out: &mut String,
) -> Result<(), Error>
    ensures { let known = R.known inside.entry.records.now in
        let text = inner_text known inside.entry.left in
        Writes inside.entry.markup (string_bytes out.old) (joined (Ok before.now) (text item.now)) result (string_bytes out.new) }
{
    push(out, inside.markup, before)?;
    print_inner(item, inside, out)
}

#[cycle(print)]
fn print_namespace<R: Records>(
    id: u64,
    number: usize,
    inside: Inside<'_, R>,
    out: &mut String,
) -> Result<(), Error>
    ensures { let known = R.known inside.entry.records.now in
        let text = inner_text known inside.entry.left in
        Writes inside.entry.markup (string_bytes out.old) (namespace_text text (known.namespaces id number)) result (string_bytes out.new) }
{
    match inside.records.namespace(id, number) {
        Some(entries) => print_map(entries, inside, out),
        None => Err(Error::new(ErrorKind::InvalidOperation)),
    }
}

#[cycle(print)]
fn print_map<R: Records>(
    entries: &[Entry],
    inside: Inside<'_, R>,
    out: &mut String,
) -> Result<(), Error>
    ensures { let known = R.known inside.entry.records.now in
        let text = inner_text known inside.entry.left in
        Writes inside.entry.markup (string_bytes out.old) (map_text text (pairs_of (pairs_in entries.now))) result (string_bytes out.new) }
{
    push(out, inside.markup, "{")?;
    print_entries(entries, inside, out)?;
    push(out, inside.markup, "}")
}

#[cycle(print)]
fn print_entries<R: Records>(
    entries: &[Entry],
    inside: Inside<'_, R>,
    out: &mut String,
) -> Result<(), Error>
    ensures { let known = R.known inside.entry.records.now in
        let text = inner_text known inside.entry.left in
        Writes inside.entry.markup (string_bytes out.old) (pairs_text [] text (pairs_of (pairs_in entries.now)))
        result (string_bytes out.new) }
{
    let mut before = "";
    for entry in entries {
        print_entry(before, entry, inside, out)?;
        before = ", ";
    }
    Ok(())
}

#[cycle(print)]
fn print_entry<R: Records>(
    before: &str,
    entry: &Entry,
    inside: Inside<'_, R>,
    out: &mut String,
) -> Result<(), Error>
    ensures { let known = R.known inside.entry.records.now in
        let text = inner_text known inside.entry.left in
        Writes inside.entry.markup (string_bytes out.old) (joined (Ok before.now) (pair_text text entry.now.key entry.now.value))
        result (string_bytes out.new) }
{
    push(out, inside.markup, before)?;
    print_inner(&entry.key, inside, out)?;
    push(out, inside.markup, ": ")?;
    print_inner(&entry.value, inside, out)
}

// A tuple of one value has a comma behind it.
#[tactic(auto, using(crate::proofs::PrintLemmas::tuple_ends))]
fn tuple_end(items: &[Value]) -> &'static str
    ensures { result.now ≡ tuple_end (vals_of items.now) }
{
    let ends_with_comma = items.len() == 1;
    if ends_with_comma { ",)" } else { ")" }
}

fn print_flat<R: Records>(
    value: &Value,
    markup: Markup,
    records: &R,
    out: &mut String,
) -> Result<(), Error>
    ensures { Writes markup (string_bytes out.old) (flat_text (R.known records.now) value.now) result (string_bytes out.new) }
{
    match value.content() {
        Content::Undefined => push(out, markup, "undefined"),
        Content::SilentUndefined => push(out, markup, "undefined"),
        Content::None => push(out, markup, "none"),
        Content::Truth(true) => push(out, markup, "true"),
        Content::Truth(false) => push(out, markup, "false"),
        Content::Int(number) => push_number(out, markup, number),
        Content::Text(text) => push_quoted(out, markup, Quoting::Printed, text),
        Content::SafeText(text) => push_quoted(out, markup, Quoting::Printed, text),
        Content::Bytes(bytes) => push_bytes(out, markup, bytes),
        Content::Function(_id, _number) => push(out, markup, "<function>"),
        Content::Loop(id, number) => print_loop(id, number, markup, records, out),
        Content::Macro(id, number) => print_macro(id, number, markup, records, out),
        _ => Err(Error::new(ErrorKind::InvalidOperation)),
    }
}

fn print_loop<R: Records>(
    id: u64,
    number: usize,
    markup: Markup,
    records: &R,
    out: &mut String,
) -> Result<(), Error>
    ensures { Writes markup (string_bytes out.old) (loop_text ((R.known records.now).loops id number)) result (string_bytes out.new) }
{
    match records.loop_view(id, number) {
        Some(view) => print_place(view.place.unwrap_or(0), view.items.len(), markup, out),
        None => Err(Error::new(ErrorKind::InvalidOperation)),
    }
}

fn print_place(place: usize, count: usize, markup: Markup, out: &mut String) -> Result<(), Error>
    ensures { Writes markup (string_bytes out.old) (place_text place count) result (string_bytes out.new) }
{
    push(out, markup, "<loop ")?;
    push(out, markup, Buffer::new().format(place))?;
    push(out, markup, "/")?;
    push(out, markup, Buffer::new().format(count))?;
    push(out, markup, ">")
}

fn print_macro<R: Records>(
    id: u64,
    number: usize,
    markup: Markup,
    records: &R,
    out: &mut String,
) -> Result<(), Error>
    ensures { Writes markup (string_bytes out.old) (macro_text ((R.known records.now).macros id number)) result (string_bytes out.new) }
{
    match records.macro_view(id, number) {
        Some(view) => print_name(view.name, markup, out),
        None => Err(Error::new(ErrorKind::InvalidOperation)),
    }
}

fn print_name(name: &str, markup: Markup, out: &mut String) -> Result<(), Error>
    ensures { Writes markup (string_bytes out.old) (enclosed (codes "<macro ") (Ok name.now) (codes ">")) result (string_bytes out.new) }
{
    push(out, markup, "<macro ")?;
    push(out, markup, name)?;
    push(out, markup, ">")
}
