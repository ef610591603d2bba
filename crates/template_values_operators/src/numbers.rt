//! The arithmetic of whole numbers from -2^127 to 2^127 - 1. A result out of that range is none.
ghost use Rattle.std.specs.Prelude.{◌≡◌, ◌<◌, ◌^◌, SomeIff};
ghost use Rattle.template_values_operators.specs.Numbers.{sum, difference, product, quotient, remainder, power, negation};

/// The sum.
#[inline(always)]
pub fn sum(left: i128, right: i128) -> Option<i128>
    ensures { result ≡ sum left right }
{
    left.checked_add(right)
}

/// The difference.
#[inline(always)]
pub fn difference(left: i128, right: i128) -> Option<i128>
    ensures { result ≡ difference left right }
{
    left.checked_sub(right)
}

/// The product.
#[inline(always)]
pub fn product(left: i128, right: i128) -> Option<i128>
    ensures { result ≡ product left right }
{
    left.checked_mul(right)
}

/// The Euclidean quotient; none at a zero divisor.
#[inline(always)]
pub fn quotient(left: i128, right: i128) -> Option<i128>
    ensures { result ≡ quotient left right }
{
    left.checked_div_euclid(right)
}

/// The Euclidean remainder; none at a zero divisor.
#[inline(always)]
pub fn remainder(left: i128, right: i128) -> Option<i128>
    ensures { result ≡ remainder left right }
{
    match right {
        0 => None,
        -1 => Some(0),
        _ => Some(left.rem_euclid(right)),
    }
}

/// The power; none at an exponent below 0 or from 2^32 on. At most 63 multiplications, two for each
/// binary digit of the exponent.
pub fn power(base: i128, exponent: i128) -> Option<i128>
    ensures { result ≡ power base exponent }
{
    let exponent = u32::try_from(exponent).ok()?;
    let size = size_of_power(base.unsigned_abs(), exponent)?;
    if base < 0 && exponent % 2 == 1 {
        0_i128.checked_sub_unsigned(size)
    } else {
        0_i128.checked_add_unsigned(size)
    }
}

/// The power by squaring; none from 2^128 on.
fn size_of_power(base: u128, exponent: u32) -> Option<u128>
    ensures { SomeIff result (base ^ exponent < 2 ^ 128) (base ^ exponent) }
{
    if exponent == 0 {
        return Some(1);
    }
    let mut power: u128 = 1;
    let mut square = base;
    let mut left = exponent;
    while 1 < left {
        if left % 2 == 1 {
            power = power.checked_mul(square)?;
        }
        square = square.checked_mul(square)?;
        left /= 2;
    }
    power.checked_mul(square)
}

/// The number with the other sign.
pub fn negation(number: i128) -> Option<i128>
    ensures { result ≡ negation number }
{
    number.checked_neg()
}
