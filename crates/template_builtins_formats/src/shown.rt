//! What a directive shows of a value.
ghost use Rattle.std.specs.Prelude.{◌≡◌, IfOk, string_bytes};
ghost use Rattle.template_builtins_arguments.specs.Answers.{TellsAs};
ghost use Rattle.template_builtins_formats.specs.Shown as shown;
ghost use Rattle.template_callables.specs.Views.{seen_in};

use crate::digits::{digits, mark_of};
use crate::directives::{Base, Directive, Kind};
use crate::filling::{at_least, character_count, joined, numeral, padded, padded_front, sign};
use crate::fixed::fixed_shown;
use std::alloc::{AllocError, Global};
use template_builtins_arguments::{printed, refusal, whole};
use template_callables::CallView;
use template_values_core::Value;
use template_values_errors::Error;

/// What a directive shows of a value. Linear in the value's text, the width and the precision.
///
/// # Errors
///
/// - [`ErrorKind::UndefinedError`](template_values_errors::ErrorKind::UndefinedError) at an undefined value, where these may not be
///   printed.
/// - [`ErrorKind::InvalidOperation`](template_values_errors::ErrorKind::InvalidOperation) at a value of a wrong kind.
/// - [`ErrorKind::OutOfMemory`](template_values_errors::ErrorKind::OutOfMemory)
#[tactic(auto, unfolding(crate::specs::Shown::shown))]
pub(crate) fn shown(
    alloc: Global,
    view: &CallView<'_>,
    directive: Directive,
    value: &Value,
) -> Result<String, Error>
    ensures { TellsAs string_bytes result (shown.shown (seen_in view.now) directive value.now) }
{
    match directive.kind {
        Kind::Printed => printed_shown(alloc, view, directive, value),
        Kind::Number(base) => number_shown(alloc, directive, base, value),
        Kind::Character => character_shown(alloc, directive, value),
        Kind::Fixed => fixed_shown(alloc, directive, value),
    }
}

#[tactic(auto, unfolding(crate::specs::Shown::printed_shown))]
fn printed_shown(
    alloc: Global,
    view: &CallView<'_>,
    directive: Directive,
    value: &Value,
) -> Result<String, Error>
    ensures { TellsAs string_bytes result (shown.printed_shown (seen_in view.now) directive value.now) }
{
    let text = printed(alloc, view, value)?;
    Ok(padded_front(alloc, directive, text.as_str())?)
}

#[tactic(auto, unfolding(crate::specs::Shown::number_shown))]
fn number_shown(
    alloc: Global,
    directive: Directive,
    base: Base,
    value: &Value,
) -> Result<String, Error>
    ensures { TellsAs string_bytes result (shown.number_shown directive base value.now) }
{
    let number = whole(value)?;
    Ok(whole_shown(alloc, directive, base, number)?)
}

#[tactic(auto, unfolding(crate::specs::Shown::whole_shown))]
fn whole_shown(
    alloc: Global,
    directive: Directive,
    base: Base,
    number: i128,
) -> Result<String, AllocError>
    ensures { IfOk result (λ s. string_bytes s ≡ shown.whole_shown directive base number) }
{
    let head = head_of(alloc, directive, base, number < 0)?;
    let digits = digits(alloc, base, number.unsigned_abs())?;
    let digits = at_least(alloc, directive.precision, digits.as_str())?;
    numeral(alloc, directive, head.as_str(), digits.as_str())
}

// What stands before the digits of a whole number.
fn head_of(
    alloc: Global,
    directive: Directive,
    base: Base,
    negative: bool,
) -> Result<String, AllocError>
    ensures { IfOk result (λ s. string_bytes s ≡ shown.head_of directive base negative) }
{
    let mark = if directive.flags.alternate {
        mark_of(base)
    } else {
        ""
    };
    joined(alloc, sign(directive.flags, negative), mark)
}

#[tactic(auto, unfolding(crate::specs::Shown::character_shown))]
fn character_shown(alloc: Global, directive: Directive, value: &Value) -> Result<String, Error>
    ensures { TellsAs string_bytes result (shown.character_shown directive value.now) }
{
    let text = character_of(alloc, value)?;
    Ok(padded(alloc, directive.flags.left, directive.width, text.as_str())?)
}

// A text of one character, or the character of a number.
#[tactic(auto, unfolding(crate::specs::Shown::character_of))]
fn character_of(alloc: Global, value: &Value) -> Result<String, Error>
    ensures { TellsAs string_bytes result (shown.character_of value.now) }
{
    match value.as_int() {
        Some(number) => coded_text(alloc, character_coded(number)),
        None => match value.as_str() {
            Some(text) => character_alone(alloc, text),
            None => refusal(),
        },
    }
}

fn character_alone(alloc: Global, text: &str) -> Result<String, Error>
    ensures { TellsAs string_bytes result (shown.character_alone text.now) }
{
    if character_count(text) == 1 {
        Ok(String::from_str(alloc, text)?)
    } else {
        refusal()
    }
}

fn coded_text(alloc: Global, character: Option<char>) -> Result<String, Error>
    ensures { TellsAs string_bytes result (shown.coded_text character) }
{
    match character {
        Some(character) => {
            let mut text = String::new(alloc);
            text.push(character)?;
            Ok(text)
        }
        None => refusal(),
    }
}

fn character_coded(number: i128) -> Option<char>
    ensures { result ≡ shown.character_coded number }
{
    if number < 0 || number >= 0x11_0000 {
        return None;
    }
    char::from_u32(number as u32)
}
