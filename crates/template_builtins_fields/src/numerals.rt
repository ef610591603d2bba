//! Whole numbers in several bases.
ghost use Rattle.std.specs.Prelude.{◌≡◌, [], ◌∷◌, ◌++◌, ◌<◌, ◌≤◌, IfOk, OnOk, map, string_bytes};
ghost use Rattle.std.specs.Fmt.{digit_glyph};
ghost use Rattle.std.specs.Int.Digits.{digits_of};
ghost use Rattle.template_builtins_fields.specs.Numerals as numerals;

use std::alloc::{AllocError, Global};

// A base, and the case of the letters among its digits.
#[derive(Clone, Copy)]
pub(crate) enum Base {
    Binary,
    Octal,
    Decimal,
    LowerHex,
    UpperHex,
}

impl Base {
    fn size(self) -> u128
        ensures is { result ≡ numerals.size_of self }
        ensures least { 2 ≤ result }
        ensures greatest { result ≤ 16 }
    {
        match self {
            Base::Binary => 2,
            Base::Octal => 8,
            Base::Decimal => 10,
            Base::LowerHex | Base::UpperHex => 16,
        }
    }

    fn is_upper(self) -> bool
        ensures { result ≡ numerals.is_upper self }
    {
        match self {
            Base::UpperHex => true,
            Base::Binary | Base::Octal | Base::Decimal | Base::LowerHex => false,
        }
    }
}

// The digits of a number.
#[tactic(auto, unfolding(crate::specs::Numerals::numeral))]
pub(crate) fn numeral(alloc: Global, base: Base, number: u128) -> Result<String, AllocError>
    ensures { IfOk result (λ s. string_bytes s ≡ numerals.numeral base number) }
{
    if number == 0 {
        return String::from_str(alloc, "0");
    }
    let mut digits = String::new(alloc);
    push_digits(base.size(), base.is_upper(), number, &mut digits)?;
    Ok(digits)
}

fn push_digits(base: u128, upper: bool, number: u128, out: &mut String) -> Result<(), AllocError>
    requires least { 2 ≤ base }
    requires greatest { base ≤ 16 }
    requires some { 0 < number }
    ensures { OnOk result (string_bytes out.new ≡ string_bytes out.old ++ map (digit_glyph upper) (digits_of base number)) }
{
    if number < base {
        return push_digit(upper, number, out);
    }
    push_digits(base, upper, number / base, out)?;
    push_digit(upper, number % base, out)
}

fn push_digit(upper: bool, value: u128, out: &mut String) -> Result<(), AllocError>
    requires { value < 16 }
    ensures { OnOk result (string_bytes out.new ≡ string_bytes out.old ++ map (digit_glyph upper) (value ∷ [])) }
{
    out.push(digit(upper, value as u8) as char)
}

fn digit(upper: bool, value: u8) -> u8
    requires { value < 16 }
    ensures { result ≡ digit_glyph upper value }
{
    if value < 10 {
        b'0' + value
    } else if upper {
        b'A' + (value - 10)
    } else {
        b'a' + (value - 10)
    }
}
