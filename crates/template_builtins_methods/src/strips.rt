//! Texts without white space, or without some characters, at their ends.
ghost use Rattle.std.specs.Prelude.{◌≡◌, option_copied};
ghost use Rattle.template_builtins_arguments.specs.Answers.{Tells, TellsAs};
ghost use Rattle.template_builtins_methods.specs.Strips as strips;
ghost use Rattle.template_builtins_texts.specs.Trims.{is_in, trimmed_first, trimmed_last};

use crate::characters::{split_first, split_last};
use crate::placed::argument_or_none;
use crate::reading::text_held;
use std::alloc::Global;
use template_values_core::{Content, Value};
use template_values_errors::Error;

/// The ends of a text where something goes.
#[derive(Clone, Copy)]
pub(crate) enum Side {
    /// Both.
    Both,
    /// Where it begins.
    Left,
    /// Where it ends.
    Right,
}

// The text without white space, or without the characters of the argument.
#[tactic(auto, unfolding(crate::specs::Strips::strip))]
pub(crate) fn strip(
    side: Side,
    alloc: Global,
    value: &Value,
    arguments: &[Value],
) -> Result<Value, Error>
    ensures { Tells result (strips.strip side value.now arguments.now) }
{
    let given = argument_or_none(arguments)?;
    let text = text_held(value)?;
    let set = set_from(given)?;
    Value::from_str(alloc, stripped(side, set, text))
}

// The characters to go, where the argument is not none.
fn set_from(given: Option<&Value>) -> Result<Option<&str>, Error>
    ensures { TellsAs option_copied result (strips.set_from (option_copied given.entry)) }
{
    let Some(value) = given else {
        return Ok(None);
    };
    match value.content() {
        Content::None => Ok(None),
        _ => Ok(Some(text_held(value)?)),
    }
}

fn stripped<'a>(side: Side, set: Option<&str>, text: &'a str) -> &'a str
    ensures { result.now ≡ strips.stripped side (option_copied set.entry) text.entry.now }
{
    match set {
        Some(set) => without(side, set, text),
        None => bare(side, text),
    }
}

fn bare(side: Side, text: &str) -> &str
    ensures { result.now ≡ strips.bare side text.entry.now }
{
    match side {
        Side::Both => text.trim(),
        Side::Left => text.trim_start(),
        Side::Right => text.trim_end(),
    }
}

fn without<'a>(side: Side, set: &str, text: &'a str) -> &'a str
    ensures { result.now ≡ strips.without side set.now text.entry.now }
{
    match side {
        Side::Both => trimmed_last(set, trimmed_first(set, text)),
        Side::Left => trimmed_first(set, text),
        Side::Right => trimmed_last(set, text),
    }
}

fn trimmed_first<'a>(set: &str, text: &'a str) -> &'a str
    ensures { result.now ≡ trimmed_first set.now text.entry.now }
{
    let mut rest = text;
    while let Some((character, after)) = split_first(rest) {
        if !is_in(set, character) {
            return rest;
        }
        rest = after;
    }
    rest
}

fn trimmed_last<'a>(set: &str, text: &'a str) -> &'a str
    ensures { result.now ≡ trimmed_last set.now text.entry.now }
{
    let mut rest = text;
    while let Some((before, character)) = split_last(rest) {
        if !is_in(set, character) {
            return rest;
        }
        rest = before;
    }
    rest
}

fn is_in(set: &str, character: char) -> bool
    ensures { result ≡ is_in set.now character }
{
    set.chars().any(|other| other == character)
}
