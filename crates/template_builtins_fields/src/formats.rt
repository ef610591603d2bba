//! Texts with fields in braces.
ghost use Rattle.std.specs.Prelude.{◌≡◌, ◌<◌, ◌≤◌, IfOk, IfSome, length, option_map, string_bytes};
ghost use Rattle.std.specs.Str.{IsUtf8};
ghost use Rattle.template_builtins_arguments.specs.Answers.{Tells, TellsAs};
ghost use Rattle.template_builtins_fields.specs.Formats as formats;
ghost use Rattle.template_builtins_texts.specs.Replacing.{replaced};
ghost use Rattle.template_callables.specs.Views.{seen_in};

use crate::arguments::Numbering;
use crate::fields::field_part;
use std::alloc::{AllocError, Global};
use template_builtins_arguments::refusal;
use template_callables::CallView;
use template_values_core::Value;
use template_values_errors::Error;

// What stands at the start of a text, and what is behind it.
#[derive(Drop)]
pub(crate) struct Part<'a> {
    pub(crate) text: String,
    // How places are counted from there on.
    pub(crate) numbering: Numbering,
    pub(crate) rest: &'a str,
}

#[tactic(auto, unfolding(crate::specs::Formats::format))]
pub(crate) fn format(
    alloc: Global,
    view: &CallView<'_>,
    value: &Value,
    arguments: &[Value],
) -> Result<Value, Error>
    ensures { Tells result (formats.format (seen_in view.now) value.now arguments.now) }
{
    let text = plain_text(value)?;
    Value::from_text(filled(alloc, view, arguments, text)?)
}

fn plain_text(value: &Value) -> Result<&str, Error>
    ensures { TellsAs (λ s. s.now) result (formats.plain_text value.now) }
{
    match value.as_str() {
        Some(text) => Ok(text),
        None => refusal(),
    }
}

// The text with arguments in the places of its fields.
fn filled(
    alloc: Global,
    view: &CallView<'_>,
    arguments: &[Value],
    text: &str,
) -> Result<String, Error>
    ensures { TellsAs (λ s. string_bytes s) result (formats.filled (seen_in view.now) arguments.now text.now) }
{
    let mut out = String::new(alloc);
    let mut numbering = Numbering::new();
    let mut rest = text;
    while let Some((before, behind)) = opening(rest) {
        let part = part_at(alloc, view, arguments, numbering, before, behind)?;
        out.push_str(part.text.as_str())?;
        numbering = part.numbering;
        rest = part.rest;
    }
    with_rest(alloc, out, rest)
}

// A text with the rest behind it, in which there are no fields.
fn with_rest(alloc: Global, text: String, rest: &str) -> Result<String, Error>
    ensures { TellsAs (λ s. string_bytes s) result (formats.put_behind (string_bytes text) (formats.closed rest.now)) }
{
    let mut whole = text;
    whole.push_str(closed(alloc, rest)?.as_str())?;
    Ok(whole)
}

// What is before an opening brace, and what stands at it.
#[tactic(auto, unfolding(crate::specs::Formats::part_at))]
fn part_at<'a>(
    alloc: Global,
    view: &CallView<'_>,
    arguments: &[Value],
    numbering: Numbering,
    before: &str,
    behind: &'a str,
) -> Result<Part<'a>, Error>
    ensures part { TellsAs formats.seen result (formats.part_at (seen_in view.now) arguments.now numbering before.now behind.entry.now) }
    ensures less { IfOk result (λ part. length part.rest.now ≤ length behind.entry.now) }
    ensures rest { IfOk result (λ part. IsUtf8 part.rest.now) }
{
    let mut text = closed(alloc, before)?;
    let part = opened(alloc, view, arguments, numbering, behind)?;
    text.push_str(part.text.as_str())?;
    Ok(Part {
        text,
        numbering: part.numbering,
        rest: part.rest,
    })
}

// What stands at an opening brace: a brace where there are two, else a field.
#[tactic(auto, unfolding(crate::specs::Formats::opened))]
fn opened<'a>(
    alloc: Global,
    view: &CallView<'_>,
    arguments: &[Value],
    numbering: Numbering,
    behind: &'a str,
) -> Result<Part<'a>, Error>
    ensures part { TellsAs formats.seen result (formats.opened (seen_in view.now) arguments.now numbering behind.entry.now) }
    ensures less { IfOk result (λ part. length part.rest.now ≤ length behind.entry.now) }
    ensures rest { IfOk result (λ part. IsUtf8 part.rest.now) }
{
    match behind_second(behind) {
        Some(rest) => Ok(Part {
            text: String::from_str(alloc, "{")?,
            numbering,
            rest,
        }),
        None => field_part(alloc, view, arguments, numbering, behind),
    }
}

// What is behind a second opening brace.
fn behind_second(behind: &str) -> Option<&str>
    ensures is { option_map (λ s. s.now) result ≡ formats.behind_second behind.now }
    ensures less { IfSome result (λ s. length s.now ≤ length behind.now) }
    ensures rest { IfSome result (λ s. IsUtf8 s.now) }
{
    behind.strip_prefix('{')
}

// What is before the first opening brace, and what is behind it.
fn opening(text: &str) -> Option<(&str, &str)>
    ensures parts { option_map formats.both_seen result ≡ formats.cut 123 text.now }
    ensures less { IfSome result (λ parts. length parts.1.now < length text.now) }
    ensures rest { IfSome result (λ parts. IsUtf8 parts.1.now) }
{
    text.split_once('{')
}

// Text without opening braces: each two closing ones are one.
#[tactic(auto, unfolding(crate::specs::Formats::closed))]
fn closed(alloc: Global, text: &str) -> Result<String, Error>
    ensures { TellsAs (λ s. string_bytes s) result (formats.closed text.now) }
{
    if has_brace(replaced(alloc, "}}", "", text)?.as_str()) {
        return refusal();
    }
    Ok(replaced(alloc, "}}", "}", text)?)
}

fn has_brace(text: &str) -> bool
    ensures { result ≡ formats.has 125 text.now }
{
    text.as_bytes().iter().any(|byte| *byte == b'}')
}

// Each `old` by `new`.
fn replaced(alloc: Global, old: &str, new: &str, text: &str) -> Result<String, AllocError>
    ensures { IfOk result (λ t. string_bytes t ≡ replaced (λ s. s) old.now new.now (length text.now) text.now) }
{
    text.replacen(alloc, old, new, text.len())
}
