//! The operators that take numbers alone. Truth values count as 0 and 1, except for the minus
//! sign.
ghost use Rattle.std.specs.Prelude.{◌≡◌, [], ◌∷◌, Err};
ghost use Rattle.template_values_model.specs.Gives.{alone};
ghost use Rattle.template_values_operators.specs.Arithmetic.{difference_of, quotient_of, remainder_of, power_of, negation_of, number_or_refusal};

use crate::{difference, negation, power, quotient, remainder};
use template_values_core::Value;
use template_values_errors::{Error, ErrorKind};

/// `left - right`.
///
/// # Errors
///
/// [`ErrorKind::InvalidOperation`] where an operand is no number or the result is out of range.
pub fn sub(left: &Value, right: &Value) -> Result<Value, Error>
    ensures { result ≡ alone (difference_of left.now right.now) }
{
    match (left.as_number(), right.as_number()) {
        (Some(left), Some(right)) => number_or_refusal(difference(left, right)),
        _ => refusal(),
    }
}

/// `left / right`, which no values take, since there are no fractions.
///
/// # Errors
///
/// [`ErrorKind::InvalidOperation`] always.
pub fn div(_left: &Value, _right: &Value) -> Result<Value, Error>
    ensures { result ≡ Err (ErrorKind.InvalidOperation ∷ []) }
{
    refusal::<Value>()
}

/// `left // right`, the Euclidean quotient.
///
/// # Errors
///
/// [`ErrorKind::InvalidOperation`] where an operand is no number, the divisor is 0 or the result
/// is out of range.
pub fn int_div(left: &Value, right: &Value) -> Result<Value, Error>
    ensures { result ≡ alone (quotient_of left.now right.now) }
{
    match (left.as_number(), right.as_number()) {
        (Some(left), Some(right)) => number_or_refusal(quotient(left, right)),
        _ => refusal(),
    }
}

/// `left % right`, the Euclidean remainder.
///
/// # Errors
///
/// [`ErrorKind::InvalidOperation`] where an operand is no number or the divisor is 0.
pub fn rem(left: &Value, right: &Value) -> Result<Value, Error>
    ensures { result ≡ alone (remainder_of left.now right.now) }
{
    match (left.as_number(), right.as_number()) {
        (Some(left), Some(right)) => number_or_refusal(remainder(left, right)),
        _ => refusal(),
    }
}

/// `base ** exponent`, in at most two multiplications for each binary digit of the exponent.
///
/// # Errors
///
/// [`ErrorKind::InvalidOperation`] where an operand is no number, the exponent is below 0 or from
/// 2^32 on, or the result is out of range.
pub fn pow(base: &Value, exponent: &Value) -> Result<Value, Error>
    ensures { result ≡ alone (power_of base.now exponent.now) }
{
    match (base.as_number(), exponent.as_number()) {
        (Some(base), Some(exponent)) => number_or_refusal(power(base, exponent)),
        _ => refusal(),
    }
}

/// `-value`. Truth values have none.
///
/// # Errors
///
/// [`ErrorKind::InvalidOperation`] where the value is no whole number or the result is out of
/// range.
pub fn neg(value: &Value) -> Result<Value, Error>
    ensures { result ≡ alone (negation_of value.now) }
{
    match value.as_int() {
        Some(number) => number_or_refusal(negation(number)),
        None => refusal(),
    }
}

/// The number as a value, or the refusal where there is none.
pub(crate) fn number_or_refusal(number: Option<i128>) -> Result<Value, Error>
    ensures { result ≡ alone (number_or_refusal number) }
{
    match number {
        Some(number) => Ok(Value::from_int(number)),
        None => refusal(),
    }
}

/// The refusal of operands that an operator does not take.
///
/// # Errors
///
/// [`ErrorKind::InvalidOperation`] always.
pub fn refusal<T>() -> Result<T, Error>
    ensures { result ≡ Err (ErrorKind.InvalidOperation ∷ []) }
{
    Err(Error::new(ErrorKind::InvalidOperation))
}
