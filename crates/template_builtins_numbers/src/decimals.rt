//! Decimals: texts that are spelled as numbers of JSON.
ghost use Rattle.std.specs.Prelude.{◌≡◌, ◌==◌, ◌++◌, ◌<◌, ◌≤◌, ◌^◌, length, option_copied, option_map, slice_index, slice_index_or};
ghost use Rattle.std.specs.List.{before_first, position, position_or_len};
ghost use Rattle.std.specs.Str.Parse.{digits_value};
ghost use Rattle.template_builtins_numbers.specs.Decimals as decimals;
ghost use Rattle.template_builtins_numbers.specs.Seen.{seen};
ghost use Rattle.template_builtins_numbers.specs.Wholes.{IsCounted};

use crate::wholes::{are_digits, is_negative, signed, spaced_value, with_digit, without_sign};

// An exponent lies within this, of either sign.
const EXPONENT_LIMIT: u128 = 40;

/// The digits of a decimal before and behind its point, which is then moved to the right by so many places.
#[derive(Clone, Copy)]
pub(crate) struct Decimal<'a> {
    negative: bool,
    whole: &'a [u8],
    fraction: &'a [u8],
    exponent: i64,
}

/// The decimal that a text writes, if it is spelled as a number of JSON with a small exponent. Linear in its length.
#[tactic(auto, unfolding(crate::specs::Decimals::decimal_of))]
pub(crate) fn decimal_of(text: &[u8]) -> Option<Decimal<'_>>
    ensures { option_map seen result ≡ decimals.decimal_of text.now }
{
    let digits = without_minus(text);
    let mantissa = before_power(digits);
    decimal_in(
        is_negative(text),
        before_point(mantissa),
        behind_point(mantissa),
        behind_power(digits),
    )
}

fn decimal_in<'a>(
    negative: bool,
    whole: &'a [u8],
    fraction: Option<&'a [u8]>,
    exponent: Option<&'a [u8]>,
) -> Option<Decimal<'a>>
    ensures { option_map seen result
        ≡ decimals.decimal_in negative whole.entry.now (option_copied fraction.entry) (option_copied exponent.entry) }
{
    if !are_plain_digits(whole) {
        return None;
    }
    let fraction = fraction_in(fraction)?;
    let exponent = exponent_in(exponent)?;
    Some(Decimal {
        negative,
        whole,
        fraction,
        exponent,
    })
}

fn without_minus(text: &[u8]) -> &[u8]
    ensures { result.now ≡ decimals.without_minus text.now }
{
    if is_negative(text) {
        without_sign(text)
    } else {
        text
    }
}

fn are_plain_digits(text: &[u8]) -> bool
    ensures { result ≡ decimals.are_plain_digits text.now }
{
    are_digits(10, text) && (text.len() == 1 || !begins_with_zero(text))
}

fn begins_with_zero(text: &[u8]) -> bool
    ensures { result ≡ (slice_index text.now 0 == 48) }
{
    match text {
        [first, ..] => *first == b'0',
        [] => false,
    }
}

fn fraction_in(text: Option<&[u8]>) -> Option<&[u8]>
    ensures { option_copied result ≡ decimals.fraction_in (option_copied text.entry) }
{
    match text {
        None => Some(&[]),
        Some(text) => {
            if are_digits(10, text) {
                Some(text)
            } else {
                None
            }
        }
    }
}

fn exponent_in(text: Option<&[u8]>) -> Option<i64>
    ensures { result ≡ decimals.exponent_in (option_copied text.entry) }
{
    match text {
        None => Some(0),
        Some(text) => {
            let digits = without_sign(text);
            if are_digits(10, digits) {
                small_exponent(is_negative(text), spaced_value(10, digits))
            } else {
                None
            }
        }
    }
}

fn small_exponent(negative: bool, magnitude: Option<u128>) -> Option<i64>
    ensures { result ≡ decimals.small_counted negative magnitude }
{
    match magnitude {
        None => None,
        Some(magnitude) => exponent_of(negative, magnitude),
    }
}

fn exponent_of(negative: bool, magnitude: u128) -> Option<i64>
    ensures { result ≡ decimals.small_exponent negative magnitude }
{
    if magnitude > EXPONENT_LIMIT {
        return None;
    }
    let exponent = magnitude as i64;
    Some(if negative { -exponent } else { exponent })
}

fn is_point(byte: u8) -> bool
    ensures { result ≡ decimals.is_point byte }
{
    byte == b'.'
}

fn is_power(byte: u8) -> bool
    ensures { result ≡ decimals.is_power byte }
{
    byte == b'e' || byte == b'E'
}

// The place of the point, or the length where there is none.
fn point_in(text: &[u8]) -> usize
    ensures place { result ≡ position_or_len decimals.is_point text.now }
    ensures within { result ≤ length text.now }
{
    first_point(text).unwrap_or(text.len())
}

fn first_point(text: &[u8]) -> Option<usize>
    ensures { result ≡ position decimals.is_point text.now }
{
    text.iter().position(|byte| is_point(*byte))
}

fn before_point(text: &[u8]) -> &[u8]
    ensures { result.now ≡ before_first decimals.is_point text.now }
{
    &text[..point_in(text)]
}

fn behind_point(text: &[u8]) -> Option<&[u8]>
    ensures { option_copied result ≡ decimals.behind decimals.is_point text.now }
{
    let place = point_in(text);
    if place < text.len() {
        Some(&text[place + 1..])
    } else {
        None
    }
}

// The place of the letter of a power, or the length where there is none.
fn power_in(text: &[u8]) -> usize
    ensures place { result ≡ position_or_len decimals.is_power text.now }
    ensures within { result ≤ length text.now }
{
    first_power(text).unwrap_or(text.len())
}

fn first_power(text: &[u8]) -> Option<usize>
    ensures { result ≡ position decimals.is_power text.now }
{
    text.iter().position(|byte| is_power(*byte))
}

fn before_power(text: &[u8]) -> &[u8]
    ensures { result.now ≡ before_first decimals.is_power text.now }
{
    &text[..power_in(text)]
}

fn behind_power(text: &[u8]) -> Option<&[u8]>
    ensures { option_copied result ≡ decimals.behind decimals.is_power text.now }
{
    let place = power_in(text);
    if place < text.len() {
        Some(&text[place + 1..])
    } else {
        None
    }
}

impl Decimal<'_> {
    /// The part before the point, where it is a number of the language. Linear in the number of its digits.
    #[tactic(auto, using(crate::proofs::Digits::counted_signed), unfolding(crate::specs::Decimals::whole_part))]
    pub(crate) fn whole_part(&self) -> Option<i128>
        ensures { result ≡ decimals.whole_part (seen self.now) }
    {
        signed(self.negative, self.magnitude())
    }

    #[tactic(auto, unfolding(crate::specs::Decimals::whole_magnitude))]
    fn magnitude(&self) -> Option<u128>
        ensures { IsCounted result (decimals.whole_magnitude (seen self.now)) }
    {
        counted(
            self.whole,
            self.fraction,
            places_before(self.whole.len(), self.exponent),
        )
    }
}

// How many digits stand before the point once it is moved.
fn places_before(count: usize, exponent: i64) -> usize
    requires { count < 2 ^ 63 }
    ensures { result ≡ decimals.places_before count exponent }
{
    if exponent < 0 {
        count.saturating_sub(exponent.unsigned_abs() as usize)
    } else {
        count + exponent as usize
    }
}

// The number that the first digits write.
fn counted(whole: &[u8], fraction: &[u8], places: usize) -> Option<u128>
    ensures { IsCounted result (digits_value 10 (decimals.digits_before (whole.now ++ fraction.now) places)) }
{
    let mut total = 0;
    for place in 0..places {
        total = with_digit(total, 10, digit_at(whole, fraction, place))?;
    }
    Some(total)
}

// The digit at a place, and 0 behind them all.
fn digit_at(whole: &[u8], fraction: &[u8], place: usize) -> u8
    ensures { result ≡ slice_index_or (whole.now ++ fraction.now) place 48 }
{
    if place < whole.len() {
        whole[place]
    } else {
        *fraction.get(place - whole.len()).unwrap_or(&b'0')
    }
}
