//! What is shown, filled up to a width.
ghost use Rattle.std.specs.Prelude.{◌≡◌, ◌++◌, IfOk, chars, encode_utf8_all, length, string_bytes, take};
ghost use Rattle.template_builtins_formats.specs.Filling as filling;

use crate::directives::{Directive, Flags};
use std::alloc::{AllocError, Global};

/// The text behind spaces, or before them, up to so many characters. Linear in its length and the width.
#[tactic(auto, unfolding(crate::specs::Filling::padded))]
pub(crate) fn padded(
    alloc: Global,
    left: bool,
    width: usize,
    text: &str,
) -> Result<String, AllocError>
    ensures { IfOk result (λ s. string_bytes s ≡ filling.padded left width text.now) }
{
    let spaces = " ".repeat(alloc, width.saturating_sub(character_count(text)))?;
    if left {
        joined(alloc, text, spaces.as_str())
    } else {
        joined(alloc, spaces.as_str(), text)
    }
}

/// One text behind another. Linear in their lengths.
pub(crate) fn joined(alloc: Global, first: &str, second: &str) -> Result<String, AllocError>
    ensures { IfOk result (λ s. string_bytes s ≡ first.now ++ second.now) }
{
    let mut text = String::from_str(alloc, first)?;
    text.push_str(second)?;
    Ok(text)
}

/// The sign of a number, or what stands in its place.
pub(crate) fn sign(flags: Flags, negative: bool) -> &'static str
    ensures { result.now ≡ filling.sign flags negative }
{
    if negative {
        "-"
    } else if flags.plus {
        "+"
    } else if flags.space {
        " "
    } else {
        ""
    }
}

/// The digits of a number behind a sign and a mark, up to the width. Linear in their length and the width.
#[tactic(auto, unfolding(crate::specs::Filling::numeral))]
pub(crate) fn numeral(
    alloc: Global,
    directive: Directive,
    head: &str,
    digits: &str,
) -> Result<String, AllocError>
    ensures { IfOk result (λ s. string_bytes s ≡ filling.numeral directive head.now digits.now) }
{
    let number = joined(alloc, head, digits)?;
    if directive.flags.zero && !directive.flags.left {
        let count = directive.width.saturating_sub(number.len());
        return with_zeros(alloc, head, count, digits);
    }
    padded(
        alloc,
        directive.flags.left,
        directive.width,
        number.as_str(),
    )
}

// Digits behind a text and so many zeros.
fn with_zeros(alloc: Global, head: &str, count: usize, digits: &str) -> Result<String, AllocError>
    ensures { IfOk result (λ s. string_bytes s ≡ head.now ++ (filling.zeros count ++ digits.now)) }
{
    let filled = behind_zeros(alloc, count, digits)?;
    joined(alloc, head, filled.as_str())
}

/// A text behind so many zeros.
fn behind_zeros(alloc: Global, count: usize, digits: &str) -> Result<String, AllocError>
    ensures { IfOk result (λ s. string_bytes s ≡ filling.zeros count ++ digits.now) }
{
    let zeros = "0".repeat(alloc, count)?;
    joined(alloc, zeros.as_str(), digits)
}

/// At least so many digits. Linear in their number.
pub(crate) fn at_least(
    alloc: Global,
    count: Option<usize>,
    digits: &str,
) -> Result<String, AllocError>
    ensures { IfOk result (λ s. string_bytes s ≡ filling.at_least count digits.now) }
{
    match count {
        None => String::from_str(alloc, digits),
        Some(count) => behind_zeros(alloc, count.saturating_sub(digits.len()), digits),
    }
}

/// The first characters of a text, at most as many as the precision of a directive, up to its width. Linear in the length and the
/// width.
pub(crate) fn padded_front(
    alloc: Global,
    directive: Directive,
    text: &str,
) -> Result<String, AllocError>
    ensures { IfOk result (λ s. string_bytes s
        ≡ filling.padded directive.flags.left directive.width (filling.at_most directive.precision text.now)) }
{
    let left = directive.flags.left;
    match directive.precision {
        None => padded(alloc, left, directive.width, text),
        Some(count) => {
            let front = first_characters(alloc, count, text)?;
            padded(alloc, left, directive.width, front.as_str())
        }
    }
}

fn first_characters(alloc: Global, count: usize, text: &str) -> Result<String, AllocError>
    ensures { IfOk result (λ s. string_bytes s ≡ encode_utf8_all (take count (chars text.now))) }
{
    text.chars().take(count).collect(alloc)
}

/// How many characters a text has.
pub(crate) fn character_count(text: &str) -> usize
    ensures { result ≡ length (chars text.now) }
{
    text.chars().count()
}
