//! Texts put together with another between them.
ghost use Rattle.std.specs.Prelude.{◌≡◌, IfOk, string_bytes};
ghost use Rattle.std.specs.List.{join_by};
ghost use Rattle.template_builtins_arguments.specs.Answers.{Tells, TellsAs};
ghost use Rattle.template_builtins_pieces.specs.Joins as joins;
ghost use Rattle.template_builtins_pieces.specs.Reading.{all_shown};
ghost use Rattle.template_callables.specs.Views.{seen_in};

use crate::reading::{placed, plain_text};
use std::alloc::{AllocError, Global};
use template_builtins_arguments::{items_of, refusal};
use template_callables::CallView;
use template_values_core::{Content, Value};
use template_values_errors::Error;

pub(crate) fn join(
    alloc: Global,
    view: &CallView<'_>,
    value: &Value,
    arguments: &[Value],
) -> Result<Value, Error>
    ensures { Tells result (joins.join (seen_in view.now) value.now arguments.now) }
{
    let given = placed(&["items"], 1, arguments)?;
    let separator = plain_text(value)?;
    let items = joined_items(alloc, view, given.needed(0)?)?;
    joined(alloc, separator, &items)
}

// The items of a value that is not none.
fn joined_items(alloc: Global, view: &CallView<'_>, value: &Value) -> Result<Vec<Value>, Error>
    ensures { TellsAs (λ items. items.items) result (joins.joined_items (seen_in view.now) value.now) }
{
    match value.content() {
        Content::None => refusal(),
        _ => items_of(alloc, view, value),
    }
}

fn joined(alloc: Global, separator: &str, items: &[Value]) -> Result<Value, Error>
    ensures { Tells result (joins.joined separator.now items.now) }
{
    let parts = texts_of(alloc, items)?;
    Value::from_text(with_between(alloc, separator, &parts)?)
}

// The texts of values that are all texts.
fn texts_of<'a>(alloc: Global, items: &'a [Value]) -> Result<Vec<&'a str>, Error>
    ensures { TellsAs (λ parts. all_shown parts.items) result (joins.texts_of items.entry.now) }
{
    let mut parts = Vec::new(alloc);
    for item in items {
        parts.push(plain_text(item)?)?;
    }
    Ok(parts)
}

fn with_between(alloc: Global, separator: &str, parts: &[&str]) -> Result<String, AllocError>
    ensures { IfOk result (λ t. string_bytes t ≡ join_by (λ s. s) separator.now (all_shown parts.now)) }
{
    parts.join(alloc, separator)
}
