//! The texts of decimals.
ghost use Rattle.std.specs.Prelude.{◌≡◌, ◌++◌, ◌<◌, IfOk, OnOk, length, string_bytes};
ghost use Rattle.std.specs.Str.Parse.{AllDigits, digits_value};
ghost use Rattle.template_builtins_decimals.specs.Fixed as fixed;

use crate::carrying::is_more;
use std::alloc::{AllocError, Global};
use std::str;

/// The text of the decimal that the digits write, of which so many stand behind the point. Linear in their number.
#[tactic(auto, unfolding(crate::specs::Fixed::fixed_text))]
pub(crate) fn fixed_text(
    alloc: Global,
    negative: bool,
    digits: &[u8],
    places: usize,
) -> Result<String, AllocError>
    requires digits { AllDigits 10 digits.now }
    requires places { places < length digits.now }
    ensures { IfOk result (λ s. string_bytes s ≡ fixed.fixed_text (fixed.figure negative (digits_value 10 digits.now) places)) }
{
    let (whole, fraction) = digits.split_at(digits.len() - places);
    let mut text = String::new(alloc);
    push_sign(&mut text, negative, digits)?;
    push_digits(&mut text, number_text(whole))?;
    text.push('.')?;
    push_digits(&mut text, at_least_one(without_zeros(fraction)))?;
    Ok(text)
}

fn push_sign(text: &mut String, negative: bool, digits: &[u8]) -> Result<(), AllocError>
    requires { AllDigits 10 digits.now }
    ensures { OnOk result (string_bytes text.new ≡ string_bytes text.old ++ fixed.sign negative (digits_value 10 digits.now)) }
{
    if negative && is_more(digits) {
        text.push('-')
    } else {
        Ok(())
    }
}

#[tactic(auto, using(crate::proofs::Digits::digits_utf8))]
fn push_digits(text: &mut String, digits: &[u8]) -> Result<(), AllocError>
    requires { AllDigits 10 digits.now }
    ensures { OnOk result (string_bytes text.new ≡ string_bytes text.old ++ digits.now) }
{
    text.push_str(unsafe { str::from_utf8_unchecked(digits) })
}

// Without the zeros at the front, but for the last digit.
fn number_text(digits: &[u8]) -> &[u8]
    requires digits { AllDigits 10 digits.now }
    requires some { 0 < length digits.now }
    ensures text { result.now ≡ fixed.number_text (digits_value 10 digits.now) }
    ensures digits { AllDigits 10 result.now }
{
    let mut start = 0;
    'front: while start + 1 < digits.len() {
        if digits[start] != b'0' {
            return &digits[start..];
        }
        start += 1;
    }
    &digits[start..]
}

fn without_zeros(digits: &[u8]) -> &[u8]
    requires { AllDigits 10 digits.now }
    ensures text { result.now ≡ fixed.without_zeros digits.now }
    ensures digits { AllDigits 10 result.now }
{
    let mut end = digits.len();
    'back: while end > 0 {
        if digits[end - 1] != b'0' {
            return &digits[..end];
        }
        end -= 1;
    }
    &[]
}

fn at_least_one(digits: &[u8]) -> &[u8]
    requires { AllDigits 10 digits.now }
    ensures text { result.now ≡ fixed.at_least_one digits.now }
    ensures digits { AllDigits 10 result.now }
{
    if digits.is_empty() { b"0" } else { digits }
}
