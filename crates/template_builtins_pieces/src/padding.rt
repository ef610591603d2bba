//! Texts made as wide as is asked for, in characters.
ghost use Rattle.std.specs.Prelude.{◌≡◌, IfOk, chars, length, option_copied, string_bytes};
ghost use Rattle.template_builtins_arguments.specs.Answers.{Tells, TellsAs};
ghost use Rattle.template_builtins_pieces.specs.Padding as padding;
ghost use Rattle.template_builtins_texts.specs.Indenting as widths;

use crate::reading::{placed, plain_text};
use std::alloc::{AllocError, Global};
use template_builtins_arguments::{refusal, whole};
use template_values_core::Value;
use template_values_errors::{Error, ErrorKind};

// The greatest width of a text.
const GREATEST_WIDTH: i128 = 16_777_216;

// Where a text stands in its width.
#[derive(Clone, Copy)]
pub(crate) enum Place {
    Left,
    Middle,
    Right,
}

pub(crate) fn pad(
    alloc: Global,
    place: Place,
    value: &Value,
    arguments: &[Value],
) -> Result<Value, Error>
    ensures { Tells result (padding.pad place value.now arguments.now) }
{
    let given = placed(&["width", "fill"], 1, arguments)?;
    let text = plain_text(value)?;
    let width = width_argument(given.at(0))?;
    let fill = fill_from(given.at(1))?;
    Value::from_text(padded(alloc, place, width, fill, text)?)
}

pub(crate) fn zero_fill(alloc: Global, value: &Value, arguments: &[Value]) -> Result<Value, Error>
    ensures { Tells result (padding.zero_fill value.now arguments.now) }
{
    let given = placed(&["width"], 1, arguments)?;
    let text = plain_text(value)?;
    let width = width_argument(given.at(0))?;
    Value::from_text(zero_filled(alloc, width, text)?)
}

fn width_argument(given: Option<&Value>) -> Result<usize, Error>
    ensures { Tells result (padding.width_argument (option_copied given.entry)) }
{
    match given {
        Some(value) => width_from(whole(value)?),
        None => Err(Error::new(ErrorKind::MissingArgument)),
    }
}

// Below 0 it is 0.
fn width_from(count: i128) -> Result<usize, Error>
    ensures { Tells result (widths.width_from count) }
{
    if count > GREATEST_WIDTH {
        return refusal();
    }
    if count < 0 {
        return Ok(0);
    }
    Ok(count as usize)
}

// What a text is filled up with.
fn fill_from<'a>(given: Option<&'a Value>) -> Result<&'a str, Error>
    ensures { TellsAs (λ s. s.now) result (padding.fill_from (option_copied given.entry)) }
{
    match given {
        Some(value) => one_character(plain_text(value)?),
        None => Ok(" "),
    }
}

fn one_character(text: &str) -> Result<&str, Error>
    ensures { TellsAs (λ s. s.now) result (padding.one_character text.now) }
{
    if character_count(text) == 1 {
        Ok(text)
    } else {
        refusal()
    }
}

// How many characters a text lacks.
fn lacking(width: usize, text: &str) -> usize
    ensures { result ≡ padding.lacking width text.now }
{
    width.saturating_sub(character_count(text))
}

fn character_count(text: &str) -> usize
    ensures { result ≡ length (chars text.now) }
{
    text.chars().count()
}

// How many of so many more characters stand before a text.
fn before(place: Place, width: usize, more: usize) -> usize
    ensures { result ≡ padding.before place width more }
{
    match place {
        Place::Left => 0,
        Place::Middle => more / 2 + more % 2 * (width % 2),
        Place::Right => more,
    }
}

fn padded(
    alloc: Global,
    place: Place,
    width: usize,
    fill: &str,
    text: &str,
) -> Result<String, AllocError>
    ensures { IfOk result (λ t. string_bytes t ≡ padding.padded place width fill.now text.now) }
{
    let more = lacking(width, text);
    surrounded(alloc, before(place, width, more), more, fill, text)
}

// The text with so many characters before it, and the others behind it.
fn surrounded(
    alloc: Global,
    front: usize,
    more: usize,
    fill: &str,
    text: &str,
) -> Result<String, AllocError>
    ensures { IfOk result (λ t. string_bytes t ≡ padding.surrounded front more fill.now text.now) }
{
    let mut out = fill.repeat(alloc, front)?;
    out.push_str(text)?;
    out.push_str(&fill.repeat(alloc, more.saturating_sub(front))?)?;
    Ok(out)
}

fn zero_filled(alloc: Global, width: usize, text: &str) -> Result<String, AllocError>
    ensures { IfOk result (λ t. string_bytes t ≡ padding.zero_filled width text.now) }
{
    with_zeros(alloc, lacking(width, text), text)
}

// So many zeros between the sign and the rest.
fn with_zeros(alloc: Global, count: usize, text: &str) -> Result<String, AllocError>
    ensures { IfOk result (λ t. string_bytes t ≡ padding.with_zeros count text.now) }
{
    let (sign, digits) = text.split_at(sign_length(text));
    let mut out = String::from_str(alloc, sign)?;
    out.push_str(&"0".repeat(alloc, count)?)?;
    out.push_str(digits)?;
    Ok(out)
}

fn sign_length(text: &str) -> usize
    ensures { result ≡ padding.sign_length text.now }
{
    if text.starts_with('+') || text.starts_with('-') {
        1
    } else {
        0
    }
}
