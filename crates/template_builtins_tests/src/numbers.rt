//! Multiples.
ghost use Rattle.std.specs.Prelude.{◌≡◌};
ghost use Rattle.template_builtins_arguments.specs.Answers.{Tells};
ghost use Rattle.template_builtins_tests.specs.Numbers as numbers;
ghost use Rattle.template_builtins_tests.specs.Tests as tests;

use template_builtins_arguments::{refusal, whole};
use template_values_core::Value;
use template_values_errors::Error;

// Whether the number is even.
pub(crate) fn is_even(number: i128) -> bool
    ensures { result ≡ numbers.is_multiple number 2 }
{
    number.unsigned_abs() % 2 == 0
}

// Whether the first value is a multiple of the second, which are numbers.
pub(crate) fn divides(value: &Value, divisor: &Value) -> Result<bool, Error>
    ensures { Tells result (tests.divides value.now divisor.now) }
{
    divided(whole(value)?, whole(divisor)?)
}

fn divided(number: i128, divisor: i128) -> Result<bool, Error>
    ensures { Tells result (numbers.divided number divisor) }
{
    let size = divisor.unsigned_abs();
    if size == 0 {
        return refusal();
    }
    Ok(number.unsigned_abs() % size == 0)
}
