//! The digits of whole numbers.
ghost use Rattle.std.specs.Prelude.{◌≡◌, [], ◌∷◌, ◌++◌, ◌<◌, ◌≤◌, IfOk, OnOk, string_bytes};
ghost use Rattle.std.specs.Fmt.{digit_glyph};
ghost use Rattle.template_builtins_formats.specs.Digits as digits;

use crate::directives::Base;
use std::alloc::{AllocError, Global};

/// The digits of a number in a base. Linear in their number.
#[tactic(auto, unfolding(crate::specs::Digits::digits))]
pub(crate) fn digits(alloc: Global, base: Base, number: u128) -> Result<String, AllocError>
    ensures { IfOk result (λ s. string_bytes s ≡ digits.digits base number) }
{
    if number == 0 {
        return String::from_str(alloc, "0");
    }
    let mut text = String::new(alloc);
    push_digits(&mut text, base, number)?;
    Ok(text)
}

// A number of 128 bits has at most 43 digits.
fn push_digits(text: &mut String, base: Base, number: u128) -> Result<(), AllocError>
    ensures { OnOk result (string_bytes text.new ≡ string_bytes text.old ++ digits.some_digits base number) }
{
    if number == 0 {
        return Ok(());
    }
    let radix = radix_of(base);
    push_digits(text, base, number / radix)?;
    push_digit(text, base, (number % radix) as u8)
}

fn push_digit(text: &mut String, base: Base, digit: u8) -> Result<(), AllocError>
    requires { digit < 16 }
    ensures { OnOk result (string_bytes text.new ≡ string_bytes text.old ++ digit_glyph (digits.is_upper base) digit ∷ []) }
{
    text.push(digit_glyph(base, digit))
}

fn radix_of(base: Base) -> u128
    ensures radix { result ≡ digits.radix_of base }
    ensures least { 8 ≤ result }
    ensures most { result ≤ 16 }
{
    match base {
        Base::Decimal => 10,
        Base::LowerHex | Base::UpperHex => 16,
        Base::Octal => 8,
    }
}

fn is_upper(base: Base) -> bool
    ensures { result ≡ digits.is_upper base }
{
    match base {
        Base::UpperHex => true,
        Base::Decimal | Base::LowerHex | Base::Octal => false,
    }
}

// The figure or the letter of a digit.
fn digit_glyph(base: Base, digit: u8) -> char
    requires { digit < 16 }
    ensures glyph { result ≡ digit_glyph (digits.is_upper base) digit }
    ensures ascii { result < 128 }
{
    if digit < 10 {
        char::from(b'0' + digit)
    } else if is_upper(base) {
        char::from(b'A' - 10 + digit)
    } else {
        char::from(b'a' - 10 + digit)
    }
}

/// What marks a base.
pub(crate) fn mark_of(base: Base) -> &'static str
    ensures { result.now ≡ digits.mark_of base }
{
    match base {
        Base::Decimal => "",
        Base::LowerHex => "0x",
        Base::UpperHex => "0X",
        Base::Octal => "0o",
    }
}
