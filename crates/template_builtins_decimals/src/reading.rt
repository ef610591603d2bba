//! Decimals: texts that are spelled as numbers of JSON.
ghost use Rattle.std.specs.Prelude.{◌≡◌, ◌==◌, ◌≤◌, IfSome, length, option_copied, option_map, slice_index};
ghost use Rattle.std.specs.Bool.{OnTrue};
ghost use Rattle.std.specs.List.{before_first, position, position_or_len};
ghost use Rattle.std.specs.Str.Parse.{AllDigits};
ghost use Rattle.template_builtins_decimals.specs.Seen.{HasDigits, seen};
ghost use Rattle.template_builtins_numbers.specs.Decimals as decimals;

use crate::numerals::{are_digits, is_negative, spaced_value, without_sign};

// An exponent lies within this, of either sign.
const EXPONENT_LIMIT: u128 = 40;

/// The digits of a decimal before and behind its point, which is then moved to the right by so many places.
#[derive(Clone, Copy)]
pub(crate) struct Decimal<'a> {
    pub(crate) negative: bool,
    pub(crate) whole: &'a [u8],
    pub(crate) fraction: &'a [u8],
    pub(crate) exponent: i8,
}

/// The decimal that a text writes, if it is spelled as a number of JSON with a small exponent. Linear in its length.
#[tactic(auto, unfolding(template_builtins_numbers::specs::Decimals::decimal_of))]
pub(crate) fn decimal_of(text: &[u8]) -> Option<Decimal<'_>>
    ensures decimal { option_map seen result ≡ decimals.decimal_of text.now }
    ensures digits { IfSome result HasDigits }
{
    let digits = without_minus(text);
    let mantissa = before_power(digits);
    decimal_in(
        is_negative(text),
        before_point(mantissa),
        behind_point(mantissa),
        behind_power(digits),
    )
}

fn decimal_in<'a>(
    negative: bool,
    whole: &'a [u8],
    fraction: Option<&'a [u8]>,
    exponent: Option<&'a [u8]>,
) -> Option<Decimal<'a>>
    ensures decimal { option_map seen result
        ≡ decimals.decimal_in negative whole.entry.now (option_copied fraction.entry) (option_copied exponent.entry) }
    ensures digits { IfSome result HasDigits }
{
    if !are_plain_digits(whole) {
        return None;
    }
    let fraction = fraction_in(fraction)?;
    let exponent = exponent_in(exponent)?;
    Some(Decimal {
        negative,
        whole,
        fraction,
        exponent,
    })
}

fn without_minus(text: &[u8]) -> &[u8]
    ensures { result.now ≡ decimals.without_minus text.now }
{
    if is_negative(text) {
        without_sign(text)
    } else {
        text
    }
}

#[tactic(auto, using(crate::proofs::Digits::digits_from_test))]
fn are_plain_digits(text: &[u8]) -> bool
    ensures plain { result ≡ decimals.are_plain_digits text.now }
    ensures digits { OnTrue result (AllDigits 10 text.now) }
{
    are_digits(10, text) && (text.len() == 1 || !begins_with_zero(text))
}

fn begins_with_zero(text: &[u8]) -> bool
    ensures { result ≡ (slice_index text.now 0 == 48) }
{
    match text {
        [first, ..] => *first == b'0',
        [] => false,
    }
}

#[tactic(auto, using(crate::proofs::Digits::digits_from_test))]
fn fraction_in(text: Option<&[u8]>) -> Option<&[u8]>
    ensures fraction { option_copied result ≡ decimals.fraction_in (option_copied text.entry) }
    ensures digits { IfSome result (λ f. AllDigits 10 f.now) }
{
    match text {
        None => Some(&[]),
        Some(text) => {
            if are_digits(10, text) {
                Some(text)
            } else {
                None
            }
        }
    }
}

fn exponent_in(text: Option<&[u8]>) -> Option<i8>
    ensures { result ≡ decimals.exponent_in (option_copied text.entry) }
{
    match text {
        None => Some(0),
        Some(text) => {
            let digits = without_sign(text);
            if are_digits(10, digits) {
                small_exponent(is_negative(text), spaced_value(10, digits))
            } else {
                None
            }
        }
    }
}

fn small_exponent(negative: bool, magnitude: Option<u128>) -> Option<i8>
    ensures { result ≡ decimals.small_counted negative magnitude }
{
    match magnitude {
        None => None,
        Some(magnitude) => exponent_of(negative, magnitude),
    }
}

fn exponent_of(negative: bool, magnitude: u128) -> Option<i8>
    ensures { result ≡ decimals.small_exponent negative magnitude }
{
    if magnitude > EXPONENT_LIMIT {
        return None;
    }
    let exponent = magnitude as i8;
    Some(if negative { -exponent } else { exponent })
}

fn is_point(byte: u8) -> bool
    ensures { result ≡ decimals.is_point byte }
{
    byte == b'.'
}

fn is_power(byte: u8) -> bool
    ensures { result ≡ decimals.is_power byte }
{
    byte == b'e' || byte == b'E'
}

// The place of the point, or the length where there is none.
fn point_in(text: &[u8]) -> usize
    ensures place { result ≡ position_or_len decimals.is_point text.now }
    ensures within { result ≤ length text.now }
{
    first_point(text).unwrap_or(text.len())
}

fn first_point(text: &[u8]) -> Option<usize>
    ensures { result ≡ position decimals.is_point text.now }
{
    text.iter().position(|byte| is_point(*byte))
}

fn before_point(text: &[u8]) -> &[u8]
    ensures { result.now ≡ before_first decimals.is_point text.now }
{
    &text[..point_in(text)]
}

fn behind_point(text: &[u8]) -> Option<&[u8]>
    ensures { option_copied result ≡ decimals.behind decimals.is_point text.now }
{
    let place = point_in(text);
    if place < text.len() {
        Some(&text[place + 1..])
    } else {
        None
    }
}

// The place of the letter of a power, or the length where there is none.
fn power_in(text: &[u8]) -> usize
    ensures place { result ≡ position_or_len decimals.is_power text.now }
    ensures within { result ≤ length text.now }
{
    first_power(text).unwrap_or(text.len())
}

fn first_power(text: &[u8]) -> Option<usize>
    ensures { result ≡ position decimals.is_power text.now }
{
    text.iter().position(|byte| is_power(*byte))
}

fn before_power(text: &[u8]) -> &[u8]
    ensures { result.now ≡ before_first decimals.is_power text.now }
{
    &text[..power_in(text)]
}

fn behind_power(text: &[u8]) -> Option<&[u8]>
    ensures { option_copied result ≡ decimals.behind decimals.is_power text.now }
{
    let place = power_in(text);
    if place < text.len() {
        Some(&text[place + 1..])
    } else {
        None
    }
}
