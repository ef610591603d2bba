//! Numbers and decimals with digits behind a point.
ghost use Rattle.std.specs.Prelude.{◌≡◌, IfOk, option_map, string_bytes};
ghost use Rattle.std.specs.List.{after_first, before_first};
ghost use Rattle.template_builtins_arguments.specs.Answers.{TellsAs};
ghost use Rattle.template_builtins_formats.specs.Shown as shown;
ghost use Rattle.template_builtins_numbers.specs.Decimals.{is_point, without_minus};
ghost use Rattle.template_builtins_numbers.specs.Wholes as wholes;

use crate::directives::Directive;
use crate::filling::{joined, numeral, sign};
use std::alloc::{AllocError, Global};
use template_builtins_arguments::refusal;
use template_builtins_decimals::rounded_decimal;
use template_values_core::Value;
use template_values_errors::Error;

/// How many digits stand behind a point where no precision says otherwise.
pub const USUAL_PLACES: usize = 6;

/// A number or a decimal with so many digits behind its point as a directive says. Linear in the value's text, the width and the
/// precision.
///
/// # Errors
///
/// - [`ErrorKind::InvalidOperation`](template_values_errors::ErrorKind::InvalidOperation) at another value.
/// - [`ErrorKind::OutOfMemory`](template_values_errors::ErrorKind::OutOfMemory)
#[tactic(auto, unfolding(crate::specs::Shown::fixed_shown))]
pub(crate) fn fixed_shown(
    alloc: Global,
    directive: Directive,
    value: &Value,
) -> Result<String, Error>
    ensures { TellsAs string_bytes result (shown.fixed_shown directive value.now) }
{
    let text = fixed_of(alloc, places_of(directive), value)?;
    Ok(decimal_shown(alloc, directive, text.as_str())?)
}

fn places_of(directive: Directive) -> usize
    ensures { result ≡ shown.places_of directive }
{
    directive.precision.unwrap_or(USUAL_PLACES)
}

// The text of a decimal that is rounded to so many digits behind the point, or of a number with a 0 there.
#[tactic(auto, unfolding(crate::specs::Shown::fixed_of))]
fn fixed_of(alloc: Global, places: usize, value: &Value) -> Result<String, Error>
    ensures { TellsAs string_bytes result (shown.fixed_of places value.now) }
{
    match value.as_int() {
        Some(number) => Ok(format!(in alloc; "{number}.0")?),
        None => match value.as_str() {
            Some(text) => decimal_text(rounded_decimal(alloc, places, text)?),
            None => refusal(),
        },
    }
}

fn decimal_text(text: Option<String>) -> Result<String, Error>
    ensures { TellsAs string_bytes result (shown.decimal_text (option_map string_bytes text)) }
{
    match text {
        Some(text) => Ok(text),
        None => refusal(),
    }
}

#[tactic(auto, unfolding(crate::specs::Shown::decimal_shown))]
fn decimal_shown(alloc: Global, directive: Directive, text: &str) -> Result<String, AllocError>
    ensures { IfOk result (λ s. string_bytes s ≡ shown.decimal_shown directive text.now) }
{
    let (negative, digits) = split_sign(text);
    let digits = placed(
        alloc,
        directive.flags.alternate,
        places_of(directive),
        digits,
    )?;
    numeral(
        alloc,
        directive,
        sign(directive.flags, negative),
        digits.as_str(),
    )
}

// Whether a minus stands first, and what is behind it.
fn split_sign(text: &str) -> (bool, &str)
    ensures sign { result.0 ≡ wholes.is_negative text.entry.now }
    ensures digits { result.1.now ≡ without_minus text.entry.now }
{
    match text.strip_prefix('-') {
        Some(digits) => (true, digits),
        None => (false, text),
    }
}

// The digits of a decimal with so many of them behind the point.
#[tactic(auto, unfolding(crate::specs::Shown::placed))]
fn placed(alloc: Global, alternate: bool, places: usize, text: &str) -> Result<String, AllocError>
    ensures { IfOk result (λ s. string_bytes s ≡ shown.placed alternate places text.now) }
{
    let (whole, fraction) = split_point(text);
    let fraction = fraction_of(alloc, alternate, places, fraction)?;
    joined(alloc, whole, fraction.as_str())
}

// What is before the point, and what is behind it.
fn split_point(text: &str) -> (&str, &str)
    ensures whole { result.0.now ≡ before_first is_point text.entry.now }
    ensures fraction { result.1.now ≡ after_first is_point text.entry.now }
{
    match text.split_once('.') {
        Some(parts) => parts,
        None => (text, ""),
    }
}

// The point, and behind it digits with zeros up to so many.
fn fraction_of(
    alloc: Global,
    alternate: bool,
    places: usize,
    digits: &str,
) -> Result<String, AllocError>
    ensures { IfOk result (λ s. string_bytes s ≡ shown.fraction_of alternate places digits.now) }
{
    if places == 0 {
        return String::from_str(alloc, if alternate { "." } else { "" });
    }
    let mut text = String::from_str(alloc, ".")?;
    text.push_str(digits)?;
    let zeros = "0".repeat(alloc, places.saturating_sub(digits.len()))?;
    text.push_str(zeros.as_str())?;
    Ok(text)
}
