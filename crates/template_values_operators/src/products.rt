//! `*`.
ghost use Rattle.std.specs.Prelude.{◌≡◌, ◌<◌, ◌≤◌, ◌*◌, IfSome, IfNone, OnSome};
ghost use Rattle.template_values_core.specs.Depth.{vals_depth};
ghost use Rattle.template_values_model.specs.Gives.{Gives, TellsFault};
ghost use Rattle.template_values_model.specs.Val.{vals_of};
ghost use Rattle.template_values_operators.specs.Rounds.{IsAsOften};
ghost use Rattle.template_values_operators.specs.Products.{product_of, repetition_of, text_repeated, list_repeated, count_of};

use crate::arithmetic::{number_or_refusal, refusal};
use crate::growth::push_copies;
use crate::kinds::{list_made, list_of};
use crate::product;
use std::alloc::Global;
use template_values_core::Value;
use template_values_errors::Error;
use template_values_model::{DEPTH_LIMIT, REPEATED_LIST_LIMIT, REPEATED_TEXT_LIMIT};

/// `left * right`: the product of two numbers, or, with a number from 0 on at either side, a text
/// or a list repeated. A repeated text is plain. Linear in the size of the result.
///
/// # Errors
///
/// [`ErrorKind::InvalidOperation`] at other operands, where the product is out of range, the
/// number is negative, or the result would have more than [`REPEATED_TEXT_LIMIT`] bytes or [`REPEATED_LIST_LIMIT`] items, and then
/// that kind alone; else [`ErrorKind::OutOfMemory`].
///
/// [`ErrorKind::InvalidOperation`]: template_values_errors::ErrorKind::InvalidOperation
/// [`ErrorKind::OutOfMemory`]: template_values_errors::ErrorKind::OutOfMemory
pub fn mul(alloc: Global, left: &Value, right: &Value) -> Result<Value, Error>
    ensures gives { Gives result (product_of left.now right.now) }
    ensures refused { TellsFault result (product_of left.now right.now) }
{
    match (left.as_number(), right.as_number()) {
        (Some(left), Some(right)) => number_or_refusal(product(left, right)),
        (Some(count), None) => repetition(alloc, count, right),
        (None, Some(count)) => repetition(alloc, count, left),
        (None, None) => refusal(),
    }
}

fn repetition(alloc: Global, count: i128, value: &Value) -> Result<Value, Error>
    ensures gives { Gives result (repetition_of count value.now) }
    ensures refused { TellsFault result (repetition_of count value.now) }
{
    let Some(count) = count_of(count) else {
        return refusal();
    };
    if let Some(text) = value.as_str() {
        return repeated_text(alloc, count, text);
    }
    if let Some(items) = list_of(value) {
        return repeated_list(alloc, count, items);
    }
    refusal()
}

fn count_of(number: i128) -> Option<u128>
    ensures { result ≡ count_of number }
{
    u128::try_from(number).ok()
}

fn repeated_text(alloc: Global, count: u128, text: &str) -> Result<Value, Error>
    ensures gives { Gives result (text_repeated count text.now) }
    ensures refused { TellsFault result (text_repeated count text.now) }
{
    let Some(rounds) = rounds(count, text.len(), REPEATED_TEXT_LIMIT) else {
        return refusal();
    };
    let mut repeated = String::with_capacity(alloc, rounds * text.len())?;
    for _round in 0..rounds {
        repeated.push_str(text)?;
    }
    Value::from_text(repeated)
}

fn repeated_list(alloc: Global, count: u128, items: &[Value]) -> Result<Value, Error>
    requires { vals_depth (vals_of items.now) < DEPTH_LIMIT }
    ensures gives { Gives result (list_repeated count items.now) }
    ensures refused { TellsFault result (list_repeated count items.now) }
{
    let Some(rounds) = rounds(count, items.len(), REPEATED_LIST_LIMIT) else {
        return refusal();
    };
    let mut repeated = Vec::with_capacity(alloc, rounds * items.len())?;
    for _round in 0..rounds {
        push_copies(&mut repeated, items)?;
    }
    list_made(alloc, repeated)
}

/// How often to go round, where the whole has at most this length: not at all for an empty part.
fn rounds(count: u128, length: usize, limit: usize) -> Option<usize>
    ensures past { IfNone result (limit < count * length) }
    ensures within { OnSome result (count * length ≤ limit) }
    ensures fits { IfSome result (λ n. n * length ≤ limit) }
    ensures same { IfSome result (λ n. IsAsOften n count length) }
{
    if length == 0 {
        return Some(0);
    }
    let count = usize::try_from(count).ok()?;
    if count <= limit / length {
        Some(count)
    } else {
        None
    }
}
