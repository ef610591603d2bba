//! `+`.
ghost use Rattle.std.specs.Prelude.{◌<◌, ◌++◌, Ok};
ghost use Rattle.template_values_model.specs.Gives.{Gives, TellsFault};
ghost use Rattle.template_values_model.specs.Val.{text, vals_of};
ghost use Rattle.template_values_core.specs.Depth.{vals_depth};
ghost use Rattle.template_values_operators.specs.Kinds.{list_made};
ghost use Rattle.template_values_operators.specs.Sums.{sum_of};

use crate::arithmetic::{number_or_refusal, refusal};
use crate::growth::push_copies;
use crate::kinds::list_made;
use crate::sum;
use std::alloc::Global;
use template_values_core::Value;
use template_values_errors::Error;
use template_values_model::DEPTH_LIMIT;

/// `left + right`: the sum of two numbers, the plain text of two texts, the list of the items of
/// two lists or tuples. Linear in the size of the result. What is refused is told by its kind alone,
/// never as want of memory.
///
/// # Errors
///
/// [`ErrorKind::InvalidOperation`] at other operands, or where the sum is out of range;
/// [`ErrorKind::OutOfMemory`].
///
/// [`ErrorKind::InvalidOperation`]: template_values_errors::ErrorKind::InvalidOperation
/// [`ErrorKind::OutOfMemory`]: template_values_errors::ErrorKind::OutOfMemory
pub fn add(alloc: Global, left: &Value, right: &Value) -> Result<Value, Error>
    ensures gives { Gives result (sum_of left.now right.now) }
    ensures refused { TellsFault result (sum_of left.now right.now) }
{
    if let (Some(left), Some(right)) = (left.as_number(), right.as_number()) {
        return number_or_refusal(sum(left, right));
    }
    if let (Some(left), Some(right)) = (left.as_str(), right.as_str()) {
        return joined_texts(alloc, left, right);
    }
    if let (Some(left), Some(right)) = (left.items(), right.items()) {
        return joined_items(alloc, left, right);
    }
    refusal()
}

fn joined_texts(alloc: Global, left: &str, right: &str) -> Result<Value, Error>
    ensures { Gives result (Ok (text (left.now ++ right.now))) }
{
    let length = left.len().saturating_add(right.len());
    let mut joined = String::with_capacity(alloc, length)?;
    joined.push_str(left)?;
    joined.push_str(right)?;
    Value::from_text(joined)
}

#[tactic(auto, using(crate::proofs::Shallow::joined_tells))]
fn joined_items(alloc: Global, left: &[Value], right: &[Value]) -> Result<Value, Error>
    requires left_shallow { vals_depth (vals_of left.now) < DEPTH_LIMIT }
    requires right_shallow { vals_depth (vals_of right.now) < DEPTH_LIMIT }
    ensures gives { Gives result (list_made (left.now ++ right.now)) }
    ensures refused { TellsFault result (list_made (left.now ++ right.now)) }
{
    let length = left.len().saturating_add(right.len());
    let mut joined = Vec::with_capacity(alloc, length)?;
    push_copies(&mut joined, left)?;
    push_copies(&mut joined, right)?;
    list_made(alloc, joined)
}
