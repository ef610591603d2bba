//! Values as they stand in a URL, and pairs of them as its query.
ghost use Rattle.std.specs.Prelude.{◌≡◌, ◌∷◌, ◌++◌, [], false, true, Ok, OnOk, string_bytes};
ghost use Rattle.template_builtins_arguments.specs.Answers.{Tells, TellsAs, then};
ghost use Rattle.template_builtins_arguments.specs.Parts.{text_of};
ghost use Rattle.template_builtins_web.specs.Filters as filters;
ghost use Rattle.template_builtins_web.specs.Pieces.{followed};
ghost use Rattle.template_builtins_web.specs.Queries as queries;
ghost use Rattle.template_builtins_web.specs.Urls.{escaped};
ghost use Rattle.template_callables.specs.Views.{seen_in};
ghost use Rattle.template_values_core.specs.Maps.{pairs_of};
ghost use Rattle.template_values_core.specs.Shape.{pairs_in};
ghost use Rattle.template_values_model.specs.Val.{vals_of};

use crate::urls::push_escaped;
use std::alloc::{AllocError, Global};
use template_builtins_arguments::{Arguments, printed, refusal};
use template_callables::CallView;
use template_values_core::{Content, Entry, Value};
use template_values_errors::Error;

pub(crate) fn url_encode(
    alloc: Global,
    view: &CallView<'_>,
    value: &Value,
    arguments: &[Value],
) -> Result<Value, Error>
    ensures { Tells result (filters.url_encode (seen_in view.now) value.now arguments.now) }
{
    Arguments::read(&[], 0, arguments)?;
    Value::from_text(url_text(alloc, view, value)?)
}

fn url_text(alloc: Global, view: &CallView<'_>, value: &Value) -> Result<String, Error>
    ensures { TellsAs string_bytes result (queries.url_text (seen_in view.now) value.now) }
{
    match value.content() {
        Content::Map(entries) => members_text(alloc, view, entries),
        Content::KeywordMap(entries) => members_text(alloc, view, entries),
        Content::Module(entries, _text) => members_text(alloc, view, entries),
        Content::List(items) => items_text(alloc, view, items),
        Content::Tuple(items) => items_text(alloc, view, items),
        _ => path_text(alloc, view, value),
    }
}

fn path_text(alloc: Global, view: &CallView<'_>, value: &Value) -> Result<String, Error>
    ensures { TellsAs string_bytes result (then (text_of (seen_in view.now) value.now) (λ s. Ok (escaped true s))) }
{
    let text = printed(alloc, view, value)?;
    let mut out = String::new(alloc);
    push_escaped(true, text.as_str(), &mut out)?;
    Ok(out)
}

fn members_text(alloc: Global, view: &CallView<'_>, entries: &[Entry]) -> Result<String, Error>
    ensures { TellsAs string_bytes result (queries.members_text (seen_in view.now) [] (pairs_of (pairs_in entries.now))) }
{
    let mut text = String::new(alloc);
    let mut before = "";
    for entry in entries {
        text = with_pair(alloc, view, before, &entry.key, &entry.value, text)?;
        before = "&";
    }
    Ok(text)
}

fn items_text(alloc: Global, view: &CallView<'_>, items: &[Value]) -> Result<String, Error>
    ensures { TellsAs string_bytes result (queries.items_text (seen_in view.now) [] (vals_of items.now)) }
{
    let mut text = String::new(alloc);
    let mut before = "";
    for item in items {
        text = with_item(alloc, view, before, item, text)?;
        before = "&";
    }
    Ok(text)
}

// The text with an item, which is to be a list or tuple of two, behind it.
fn with_item(
    alloc: Global,
    view: &CallView<'_>,
    before: &str,
    item: &Value,
    text: String,
) -> Result<String, Error>
    ensures { TellsAs string_bytes result
        (followed (Ok (string_bytes text)) (queries.item_text (seen_in view.now) before.now item.now)) }
{
    match item.content() {
        Content::List(items) => with_two(alloc, view, before, items, text),
        Content::Tuple(items) => with_two(alloc, view, before, items, text),
        _ => refusal(),
    }
}

fn with_two(
    alloc: Global,
    view: &CallView<'_>,
    before: &str,
    items: &[Value],
    text: String,
) -> Result<String, Error>
    ensures { TellsAs string_bytes result
        (followed (Ok (string_bytes text)) (queries.two_text (seen_in view.now) before.now (vals_of items.now))) }
{
    match items {
        [key, value] => with_pair(alloc, view, before, key, value, text),
        _ => refusal(),
    }
}

// The text with a pair behind it.
fn with_pair(
    alloc: Global,
    view: &CallView<'_>,
    before: &str,
    key: &Value,
    value: &Value,
    text: String,
) -> Result<String, Error>
    ensures { TellsAs string_bytes result
        (followed (Ok (string_bytes text)) (queries.pair_text (seen_in view.now) before.now key.now value.now)) }
{
    let name = printed(alloc, view, key)?;
    let content = printed(alloc, view, value)?;
    let mut whole = text;
    push_pair(before, name.as_str(), content.as_str(), &mut whole)?;
    Ok(whole)
}

fn push_pair(before: &str, name: &str, content: &str, out: &mut String) -> Result<(), AllocError>
    ensures { OnOk result (string_bytes out.new
        ≡ string_bytes out.old ++ (before.now ++ (escaped false name.now ++ 61 ∷ escaped false content.now))) }
{
    out.push_str(before)?;
    push_escaped(false, name, out)?;
    out.push_str("=")?;
    push_escaped(false, content, out)
}
