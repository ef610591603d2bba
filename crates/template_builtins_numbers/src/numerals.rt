//! The whole number that a value stands for in a base.
ghost use Rattle.std.specs.Prelude.{◌≡◌, ◌≤◌, IfOk};
ghost use Rattle.template_builtins_arguments.specs.Answers.{Tells};
ghost use Rattle.template_builtins_numbers.specs.Numerals as numerals;

use crate::decimals::decimal_of;
use crate::wholes::whole_written;
use template_builtins_arguments::refusal;
use template_values_core::Value;
use template_values_errors::Error;

/// A base: a number from 2 to 36.
///
/// # Errors
///
/// [`ErrorKind::InvalidOperation`](template_values_errors::ErrorKind::InvalidOperation) at another number.
pub(crate) fn base_from(number: i128) -> Result<u32, Error>
    ensures told { Tells result (numerals.base_from number) }
    ensures least { IfOk result (λ base. 2 ≤ base) }
    ensures greatest { IfOk result (λ base. base ≤ 36) }
{
    if number < 2 || number > 36 {
        return refusal();
    }
    Ok(number as u32)
}

/// The whole number that a value stands for in a base, if it does. Linear in the length of a text.
#[tactic(auto, unfolding(crate::specs::Numerals::number_in))]
pub(crate) fn number_in(base: u32, value: &Value) -> Option<i128>
    requires least { 2 ≤ base }
    requires greatest { base ≤ 36 }
    ensures { result ≡ numerals.number_in base value.now }
{
    match value.as_number() {
        Some(number) => Some(number),
        None => match value.as_str() {
            Some(text) => number_written(base, text.trim().as_bytes()),
            None => None,
        },
    }
}

#[tactic(auto, unfolding(crate::specs::Numerals::number_written))]
fn number_written(base: u32, text: &[u8]) -> Option<i128>
    requires least { 2 ≤ base }
    requires greatest { base ≤ 36 }
    ensures { result ≡ numerals.number_written base text.now }
{
    match whole_written(base, text) {
        Some(number) => Some(number),
        None => decimal_written(base, text),
    }
}

#[tactic(auto, unfolding(crate::specs::Numerals::decimal_written))]
fn decimal_written(base: u32, text: &[u8]) -> Option<i128>
    ensures { result ≡ numerals.decimal_written base text.now }
{
    if base == 10 {
        whole_part_of(text)
    } else {
        None
    }
}

fn whole_part_of(text: &[u8]) -> Option<i128>
    ensures { result ≡ numerals.whole_part_of text.now }
{
    decimal_of(text)?.whole_part()
}
