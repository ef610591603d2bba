//! Numbers and decimals, rounded.
ghost use Rattle.std.specs.Prelude.{◌≡◌, ◌+◌, ◌-◌, ◌<◌, ◌≤◌, ◌^◌, ◌≤ℤ◌, IfOk, IfSome, option_copied, option_map, string_bytes};
ghost use Rattle.template_builtins_arguments.specs.Answers.{Tells};
ghost use Rattle.template_builtins_decimals.specs.Rounding as rounding;
ghost use Rattle.template_builtins_decimals.specs.Seen.{HasDigits, seen};
ghost use Rattle.template_builtins_numbers.specs.Values as values;

use crate::carrying::round;
use crate::figures::push_zeros;
use crate::numbers::rounded_number;
use crate::reading::{Decimal, decimal_of};
use crate::texts::fixed_text;
use std::alloc::{AllocError, Global};
use template_builtins_arguments::refusal;
use template_values_core::Value;
use template_values_errors::Error;

/// The least precision of a decimal: below it, it would put in more zeros than a width may have.
pub const LEAST_PRECISION: i128 = -16_777_216;

/// Which way a number is rounded.
#[derive(Clone, Copy)]
pub enum Method {
    /// Halves away from zero.
    Common,
    /// Up.
    Ceil,
    /// Down.
    Floor,
}

/// The method that an argument names, or the common one.
///
/// # Errors
///
/// [`ErrorKind::InvalidOperation`](template_values_errors::ErrorKind::InvalidOperation) at another value than the name of one.
pub(crate) fn method_from(given: Option<&Value>) -> Result<Method, Error>
    ensures { Tells result (rounding.method_from (option_copied given.entry)) }
{
    match given {
        None => Ok(Method::Common),
        Some(value) => method_named(value.as_str()),
    }
}

fn method_named(word: Option<&str>) -> Result<Method, Error>
    ensures { Tells result (rounding.method_named (option_copied word.entry)) }
{
    match word {
        Some(word) => method_called(word),
        None => refusal(),
    }
}

fn method_called(word: &str) -> Result<Method, Error>
    ensures { Tells result (rounding.method_called word.now) }
{
    if word == "common" {
        Ok(Method::Common)
    } else if word == "ceil" {
        Ok(Method::Ceil)
    } else if word == "floor" {
        Ok(Method::Floor)
    } else {
        refusal()
    }
}

/// A number or a decimal, rounded to so many places. Linear in the length of a text and of what is put in.
///
/// # Errors
///
/// - [`ErrorKind::InvalidOperation`](template_values_errors::ErrorKind::InvalidOperation) at another value, where the number is out
///   of range, and below the least precision of a decimal.
/// - [`ErrorKind::OutOfMemory`](template_values_errors::ErrorKind::OutOfMemory)
#[tactic(auto, unfolding(crate::specs::Rounding::rounded_value))]
pub(crate) fn rounded_value(
    alloc: Global,
    method: Method,
    precision: i128,
    value: &Value,
) -> Result<Value, Error>
    ensures { Tells result (rounding.rounded_value method precision value.now) }
{
    match value.as_int() {
        Some(number) => number_made(rounded_number(method, precision, number)),
        None => match value.as_str() {
            Some(text) => decimal_rounded(
                alloc,
                method,
                precision,
                decimal_of(text.trim().as_bytes()),
            ),
            None => refusal(),
        },
    }
}

/// The text of the decimal that a text writes, rounded to so many digits behind the point with halves away from zero, as the filter
/// `round` makes it; none where the text writes no decimal. Linear in the length of the text.
///
/// # Errors
///
/// [`AllocError`], if memory is refused.
pub fn rounded_decimal(
    alloc: Global,
    places: usize,
    text: &str,
) -> Result<Option<String>, AllocError>
    ensures { IfOk result (λ r. option_map string_bytes r ≡ rounding.rounded_decimal places text.now) }
{
    match decimal_of(text.trim().as_bytes()) {
        None => Ok(None),
        Some(decimal) => Ok(Some(rounded_text(alloc, Method::Common, places as i128, decimal)?)),
    }
}

fn number_made(number: Option<i128>) -> Result<Value, Error>
    ensures { Tells result (values.number_made number) }
{
    match number {
        None => refusal(),
        Some(number) => Ok(Value::from_int(number)),
    }
}

fn decimal_rounded(
    alloc: Global,
    method: Method,
    precision: i128,
    decimal: Option<Decimal<'_>>,
) -> Result<Value, Error>
    requires { IfSome decimal HasDigits }
    ensures { Tells result (rounding.decimal_rounded method precision (option_map seen decimal.entry)) }
{
    let Some(decimal) = decimal else {
        return refusal();
    };
    if LEAST_PRECISION <= precision {
        Value::from_text(rounded_text(alloc, method, precision, decimal)?)
    } else {
        refusal()
    }
}

// The text of a decimal, rounded to so many places.
fn rounded_text(
    alloc: Global,
    method: Method,
    precision: i128,
    decimal: Decimal<'_>,
) -> Result<String, AllocError>
    requires least { LEAST_PRECISION ≤ℤ precision }
    requires digits { HasDigits decimal }
    ensures { IfOk result (λ s. string_bytes s ≡ rounding.rounded_text method precision (seen decimal.entry)) }
{
    let behind = decimal.places();
    let cut = digits_cut(precision, behind);
    let zeros = zeros_put(precision);
    let mut digits = decimal.digits(alloc, behind + zeros + 1)?;
    round(method, decimal.negative, &mut digits, cut);
    push_zeros(alloc, &mut digits, zeros)?;
    let left = places_left(behind, cut);
    fixed_text(alloc, decimal.negative, digits.as_slice(), left)
}

fn places_left(places: usize, cut: usize) -> usize
    ensures { result ≡ places - cut }
{
    places.saturating_sub(cut)
}

// How many digits are cut off, where so many stand behind the point.
fn digits_cut(precision: i128, places: usize) -> usize
    requires precision { LEAST_PRECISION ≤ℤ precision }
    requires places { places < 2 ^ 63 + 2 ^ 8 }
    ensures cut { result ≡ rounding.digits_cut precision places }
    ensures most { result ≤ places + rounding.zeros_put precision }
{
    if precision < 0 {
        places + precision.unsigned_abs() as usize
    } else {
        (places as u128).saturating_sub(precision as u128) as usize
    }
}

// How many zeros stand in for digits before the point.
fn zeros_put(precision: i128) -> usize
    requires { LEAST_PRECISION ≤ℤ precision }
    ensures put { result ≡ rounding.zeros_put precision }
    ensures most { result ≤ 2 ^ 24 }
{
    if precision < 0 {
        precision.unsigned_abs() as usize
    } else {
        0
    }
}
