//! Whole numbers, rounded to powers of ten.
ghost use Rattle.std.specs.Prelude.{◌≡◌, ℕ, ◌*◌, ◌<◌, ◌≤◌, ◌^◌, ◌&&◌, nat_lt, neg_ℤ, pos};
ghost use Rattle.template_builtins_decimals.specs.Rounding as rounding;
ghost use Rattle.template_builtins_numbers.specs.Wholes.{IsCounted, signed, signed_counted};
ghost use Rattle.template_values_operators.specs.Numbers.{in_range};

use crate::rounding::Method;

// No greater power of ten is a number of 128 bits.
const GREATEST_POWER: u128 = 38;

/// A number as it is, with a precision below 0 to that power of ten; none where that is out of range.
pub(crate) fn rounded_number(method: Method, precision: i128, number: i128) -> Option<i128>
    ensures { result ≡ rounding.rounded_number method precision number }
{
    if precision < 0 {
        to_power(method, precision.unsigned_abs(), number)
    } else {
        Some(number)
    }
}

#[tactic(auto, using(template_builtins_numbers::proofs::Digits::counted_signed))]
fn to_power(method: Method, power: u128, number: i128) -> Option<i128>
    requires { 0 < power }
    ensures { result ≡ rounding.to_power method power number }
{
    let negative = number < 0;
    signed_counted(
        negative,
        rounded_size(method, negative, number.unsigned_abs(), power),
    )
}

fn signed_counted(negative: bool, size: Option<u128>) -> Option<i128>
    ensures { result ≡ signed_counted negative size }
{
    match size {
        None => None,
        Some(size) => signed(negative, size),
    }
}

#[tactic(auto, unfolding(template_builtins_numbers::specs::Wholes::signed))]
fn signed(negative: bool, size: u128) -> Option<i128>
    ensures { result ≡ signed negative size }
{
    if negative {
        negated(size)
    } else {
        in_range(size)
    }
}

#[tactic(auto, using(template_builtins_numbers::proofs::Digits::negated_zero))]
fn negated(size: u128) -> Option<i128>
    ensures { result ≡ in_range (neg_ℤ (pos size)) }
{
    if size == 0 {
        return Some(0);
    }
    let before = in_range(size - 1)?;
    Some(-1 - before)
}

fn in_range(size: u128) -> Option<i128>
    ensures { result ≡ in_range (pos size) }
{
    if size <= i128::MAX as u128 {
        Some(size as i128)
    } else {
        None
    }
}

// A number without its sign, to a power of ten; none where that is no number of 128 bits.
#[tactic(auto, using(crate::proofs::Powers::power_fits, crate::proofs::Powers::power_some))]
fn rounded_size(method: Method, negative: bool, size: u128, power: u128) -> Option<u128>
    requires { size ≤ 2 ^ 127 }
    ensures { IsCounted result (rounding.units_in method negative size (10 ^ power) * 10 ^ power) }
{
    if power > GREATEST_POWER {
        to_great_power(method, negative, size)
    } else {
        Some(to_unit(method, negative, size, 10_u128.pow(power as u32)))
    }
}

// To a power past every number: 0, or the power itself.
fn to_great_power(method: Method, negative: bool, size: u128) -> Option<u128>
    requires { size ≤ 2 ^ 127 }
    ensures { (k : ℕ) → 38 < k → IsCounted result (rounding.units_in method negative size (10 ^ k) * 10 ^ k) }
{
    let adds = has_any(goes_away(method, negative), size);
    if adds { None } else { Some(0) }
}

fn has_any(away: bool, size: u128) -> bool
    ensures { result ≡ (away && nat_lt 0 size) }
{
    away && size > 0
}

// Whether a number, however small, is rounded away from zero.
fn goes_away(method: Method, negative: bool) -> bool
    ensures { result ≡ rounding.goes_away method negative }
{
    match method {
        Method::Common => false,
        Method::Ceil => !negative,
        Method::Floor => negative,
    }
}

fn to_unit(method: Method, negative: bool, size: u128, unit: u128) -> u128
    requires some { 0 < unit }
    requires unit { unit ≤ 10 ^ 38 }
    requires size { size ≤ 2 ^ 127 }
    ensures { result ≡ rounding.units_in method negative size unit * unit }
{
    let units = size / unit;
    if adds_unit(method, negative, size % unit, unit) {
        (units + 1) * unit
    } else {
        units * unit
    }
}

fn adds_unit(method: Method, negative: bool, rest: u128, unit: u128) -> bool
    requires { rest < 2 ^ 127 }
    ensures { result ≡ rounding.adds_unit method negative rest unit }
{
    match method {
        Method::Common => unit <= rest * 2,
        Method::Ceil => !negative && rest > 0,
        Method::Floor => negative && rest > 0,
    }
}
