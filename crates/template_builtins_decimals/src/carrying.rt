//! Digits that are cut off, and what they carry over.
ghost use Rattle.std.specs.Prelude.{◌≡◌, ◌+◌, ◌*◌, ◌<◌, ◌==◌, ◌^◌, length, if◌then◌else◌, nat_le, nat_lt, not, slice_index};
ghost use Rattle.std.specs.List.{list_any};
ghost use Rattle.std.specs.Str.Parse.{AllDigits, digits_value};
ghost use Rattle.template_builtins_decimals.specs.Rounding as rounding;

use crate::rounding::Method;

/// Cuts the last digits off, and rounds what they write to units of ten to the power of their number. Linear in the number of digits.
pub(crate) fn round(method: Method, negative: bool, digits: &mut Vec<u8>, cut: usize)
    requires digits { AllDigits 10 digits.old.items }
    requires zero { slice_index digits.old.items 0 ≡ 48 }
    requires cut { cut < length digits.old.items }
    ensures value { digits_value 10 digits.new.items ≡ rounding.units_in method negative (digits_value 10 digits.old.items) (10 ^ cut) }
    ensures digits { AllDigits 10 digits.new.items }
    ensures length { length digits.new.items + cut ≡ length digits.old.items }
{
    let kept = digits.len() - cut;
    let adds = adds_unit(method, negative, &digits.as_slice()[kept..]);
    digits.truncate(kept);
    carry(adds, digits.as_mut_slice());
}

// One more where that is to be added.
fn carry(adds: bool, digits: &mut [u8])
    requires digits { AllDigits 10 digits.old }
    requires zero { slice_index digits.old 0 ≡ 48 }
    requires some { 0 < length digits.old }
    ensures value { digits_value 10 digits.new ≡ digits_value 10 digits.old + (if adds then 1 else 0) }
    ensures digits { AllDigits 10 digits.new }
{
    if adds {
        increment(digits);
    }
}

// Whether digits that are cut off count as one more.
fn adds_unit(method: Method, negative: bool, rest: &[u8]) -> bool
    requires { AllDigits 10 rest.now }
    ensures { result ≡ rounding.adds_unit method negative (digits_value 10 rest.now) (10 ^ length rest.now) }
{
    match method {
        Method::Common => is_half(rest),
        Method::Ceil => !negative && is_more(rest),
        Method::Floor => negative && is_more(rest),
    }
}

// Whether the digits write half of a unit or more.
#[tactic(auto, using(crate::proofs::Halves::half_none))]
fn is_half(rest: &[u8]) -> bool
    requires { AllDigits 10 rest.now }
    ensures { result ≡ nat_le (10 ^ length rest.now) (digits_value 10 rest.now * 2) }
{
    match rest {
        [first, ..] => *first >= b'5',
        [] => false,
    }
}

/// Whether the digits write more than 0.
#[tactic(auto, using(crate::proofs::Values::more_is_any))]
pub(crate) fn is_more(digits: &[u8]) -> bool
    requires { AllDigits 10 digits.now }
    ensures { result ≡ nat_lt 0 (digits_value 10 digits.now) }
{
    has_other_digit(digits)
}

fn has_other_digit(digits: &[u8]) -> bool
    ensures { result ≡ list_any (λ c. not (c == 48)) digits.now }
{
    digits.iter().any(|digit| *digit != b'0')
}

// One more.
fn increment(digits: &mut [u8])
    requires digits { AllDigits 10 digits.old }
    requires zero { slice_index digits.old 0 ≡ 48 }
    requires some { 0 < length digits.old }
    ensures value { digits_value 10 digits.new ≡ digits_value 10 digits.old + 1 }
    ensures digits { AllDigits 10 digits.new }
{
    let mut place = digits.len() - 1;
    'carried: while digits[place] == b'9' {
        digits[place] = b'0';
        place -= 1;
    }
    digits[place] += 1;
}
