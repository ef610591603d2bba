//! Texts split into lists.
ghost use Rattle.std.specs.Prelude.{◌≡◌, ◌<◌, IfOk, Some, length};
ghost use Rattle.std.specs.Str.Lines.{lines};
ghost use Rattle.template_builtins_arguments.specs.Answers.{Tells};
ghost use Rattle.template_builtins_arguments.specs.Given.{given_by};
ghost use Rattle.template_builtins_pieces.specs.Reading.{all_shown};
ghost use Rattle.template_builtins_pieces.specs.Splitting as splitting;
ghost use Rattle.template_builtins_texts.specs.Replacing.{places_up_to};
ghost use Rattle.template_callables.specs.Views.{seen_in};

use crate::cuts::{last_parts, parts_between};
use crate::lists::text_list;
use crate::reading::{cuts_up_to, placed, plain_text};
use crate::words::{last_words, words};
use std::alloc::{AllocError, Global};
use template_builtins_arguments::{Arguments, is_safe, printed, refusal};
use template_callables::CallView;
use template_values_core::{Content, Value};
use template_values_errors::Error;

// The side from which a text is cut.
#[derive(Clone, Copy)]
pub(crate) enum Side {
    Left,
    Right,
}

pub(crate) fn split_filter(
    alloc: Global,
    view: &CallView<'_>,
    value: &Value,
    arguments: &[Value],
) -> Result<Value, Error>
    ensures { Tells result (splitting.split_filter (seen_in view.now) value.now arguments.now) }
{
    let given = Arguments::read(&["sep", "maxsplit"], 0, arguments)?;
    let text = printed(alloc, view, value)?;
    split_printed(alloc, view, is_safe(value), text.as_str(), given)
}

// The text split at the printed form of the first argument.
fn split_printed(
    alloc: Global,
    view: &CallView<'_>,
    safe: bool,
    text: &str,
    given: Arguments<'_>,
) -> Result<Value, Error>
    ensures { Tells result (splitting.split_printed (seen_in view.now) safe text.now (given_by given.entry 1) (given_by given.entry 0)) }
{
    let Some(separator) = given.at(0) else {
        return split_words(alloc, Side::Left, safe, text, given);
    };
    match separator.content() {
        Content::None => split_words(alloc, Side::Left, safe, text, given),
        _ => {
            let separator = printed(alloc, view, separator)?;
            split_at(alloc, Side::Left, safe, text, given, separator.as_str())
        }
    }
}

pub(crate) fn split_method(
    alloc: Global,
    side: Side,
    value: &Value,
    arguments: &[Value],
) -> Result<Value, Error>
    ensures { Tells result (splitting.split_method side value.now arguments.now) }
{
    let given = Arguments::read(&["sep", "maxsplit"], 0, arguments)?;
    let text = plain_text(value)?;
    split_plain(alloc, side, text, given)
}

// The text split at the text that the first argument is.
fn split_plain(alloc: Global, side: Side, text: &str, given: Arguments<'_>) -> Result<Value, Error>
    ensures { Tells result (splitting.split_plain side text.now (given_by given.entry 1) (given_by given.entry 0)) }
{
    let Some(separator) = given.at(0) else {
        return split_words(alloc, side, false, text, given);
    };
    match separator.content() {
        Content::None => split_words(alloc, side, false, text, given),
        _ => split_at(alloc, side, false, text, given, plain_text(separator)?),
    }
}

fn split_at(
    alloc: Global,
    side: Side,
    safe: bool,
    text: &str,
    given: Arguments<'_>,
    separator: &str,
) -> Result<Value, Error>
    ensures { Tells result (splitting.split_at side safe text.now (given_by given.entry 1) separator.now) }
{
    if separator.is_empty() {
        return refusal();
    }
    split_parts(alloc, side, safe, text, separator, given)
}

// A list of the parts between separators.
fn split_parts(
    alloc: Global,
    side: Side,
    safe: bool,
    text: &str,
    separator: &str,
    given: Arguments<'_>,
) -> Result<Value, Error>
    requires { 0 < length separator.now }
    ensures { Tells result (splitting.split_parts side safe text.now separator.now (given_by given.entry 1)) }
{
    let count = given.number(1, -1)?;
    let parts = parts_cut(alloc, side, text, separator, count)?;
    text_list(alloc, safe, &parts)
}

// A list of the words.
fn split_words(
    alloc: Global,
    side: Side,
    safe: bool,
    text: &str,
    given: Arguments<'_>,
) -> Result<Value, Error>
    ensures { Tells result (splitting.split_words side safe text.now (given_by given.entry 1)) }
{
    let count = given.number(1, -1)?;
    let parts = words_cut(alloc, side, text, count)?;
    text_list(alloc, safe, &parts)
}

fn parts_cut<'a>(
    alloc: Global,
    side: Side,
    text: &'a str,
    separator: &str,
    count: i128,
) -> Result<Vec<&'a str>, AllocError>
    requires { 0 < length separator.now }
    ensures { IfOk result (λ parts. all_shown parts.items
        ≡ splitting.parts_cut side separator.now (places_up_to (Some count) text.entry.now) text.entry.now) }
{
    match side {
        Side::Left => parts_between(alloc, text, separator, count),
        Side::Right => last_parts(alloc, text, separator, count),
    }
}

fn words_cut<'a>(
    alloc: Global,
    side: Side,
    text: &'a str,
    count: i128,
) -> Result<Vec<&'a str>, AllocError>
    ensures { IfOk result (λ parts. all_shown parts.items
        ≡ splitting.words_cut side (places_up_to (Some count) text.entry.now) text.entry.now) }
{
    match side {
        Side::Left => words(alloc, text, cuts_up_to(count, text)),
        Side::Right => last_words(alloc, text, cuts_up_to(count, text)),
    }
}

pub(crate) fn split_lines(alloc: Global, value: &Value, arguments: &[Value]) -> Result<Value, Error>
    ensures { Tells result (splitting.split_lines value.now arguments.now) }
{
    placed(&[], 0, arguments)?;
    let lines = lines_of(alloc, plain_text(value)?)?;
    text_list(alloc, false, &lines)
}

fn lines_of<'a>(alloc: Global, text: &'a str) -> Result<Vec<&'a str>, AllocError>
    ensures { IfOk result (λ parts. all_shown parts.items ≡ lines text.entry.now) }
{
    text.lines().collect(alloc)
}
