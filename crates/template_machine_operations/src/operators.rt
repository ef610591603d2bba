//! The operators' events, and the truth of a value.
ghost use Rattle.std.specs.Prelude.{◌≡◌};
ghost use Rattle.template_values_forms.specs.Truth as truths;
ghost use Rattle.template_compiler_walk.specs.Operators.{operated, compared, inverted, negated};
ghost use Rattle.template_machine_meaning.specs.Undefined.{forbids_operator, forbids_link, forbids_truth};
ghost use Rattle.template_machine_meaning.specs.Replies.{guarded, kinded};
ghost use Rattle.template_machine_operations.specs.Answers.{Answers, answered};

use crate::undefined::{forbids_link, forbids_truth};
use crate::{forbids_operator, refusal};
use std::alloc::Global;
use template_compiler_tree::{BinOpKind, CompareOpKind};
use template_values_core::Value;
use template_values_errors::{Error, UndefinedBehavior};
use template_values_forms::Records;
use template_values_operations as values;

/// What the operator gives for its operands, of which the left one is given up. As dear as [`values::operate_owned`].
///
/// # Errors
///
/// [`ErrorKind::UndefinedError`] where the mode forbids to compare, join or seek an undefined operand;
/// else those of [`values::operate_owned`].
///
/// [`ErrorKind::UndefinedError`]: template_values_errors::ErrorKind::UndefinedError
pub fn operate<R: Records>(
    alloc: Global,
    mode: UndefinedBehavior,
    op: BinOpKind,
    left: Value,
    right: &Value,
    records: &R,
) -> Result<Value, Error>
    ensures { let forbidden = forbids_operator mode op left right.now in
        Answers result (guarded forbidden (kinded (operated (R.known records.now) op left right.now))) }
{
    if forbids_operator(mode, op, &left, right) {
        return refusal();
    }
    values::operate_owned(alloc, op, left, right, records)
}

/// Whether a comparison of a chain holds, as a truth value. As dear as [`values::compare`].
///
/// # Errors
///
/// [`ErrorKind::UndefinedError`] where the mode forbids to compare or seek an undefined operand; else
/// those of [`values::compare`].
///
/// [`ErrorKind::UndefinedError`]: template_values_errors::ErrorKind::UndefinedError
pub fn compare<R: Records>(
    mode: UndefinedBehavior,
    op: CompareOpKind,
    left: &Value,
    right: &Value,
    records: &R,
) -> Result<Value, Error>
    ensures { let forbidden = forbids_link mode op left.now right.now in
        result ≡ answered (guarded forbidden (kinded (compared (R.known records.now) op left.now right.now))) }
{
    if forbids_link(mode, op, left, right) {
        return refusal();
    }
    values::compare(op, left, right, records)
}

/// `not value`, as a truth value.
///
/// # Errors
///
/// [`ErrorKind::UndefinedError`] where the mode forbids to test an undefined value, and
/// [`ErrorKind::InvalidOperation`] at a foreign namespace.
///
/// [`ErrorKind::UndefinedError`]: template_values_errors::ErrorKind::UndefinedError
/// [`ErrorKind::InvalidOperation`]: template_values_errors::ErrorKind::InvalidOperation
pub fn invert<R: Records>(
    mode: UndefinedBehavior,
    value: &Value,
    records: &R,
) -> Result<Value, Error>
    ensures { let forbidden = forbids_truth mode value.now in
        result ≡ answered (guarded forbidden (kinded (inverted (R.known records.now) value.now))) }
{
    if forbids_truth(mode, value) {
        return refusal();
    }
    values::invert(value, records)
}

/// `-value`.
///
/// # Errors
///
/// [`ErrorKind::InvalidOperation`] where the value is no whole number, undefined and truth values among
/// them, or the result is out of range.
///
/// [`ErrorKind::InvalidOperation`]: template_values_errors::ErrorKind::InvalidOperation
pub fn negate(value: &Value) -> Result<Value, Error>
    ensures { result ≡ answered (kinded (negated value.now)) }
{
    values::negate(value)
}

/// Whether the value counts as true.
///
/// # Errors
///
/// As [`invert`].
pub fn truth_of<R: Records>(
    mode: UndefinedBehavior,
    value: &Value,
    records: &R,
) -> Result<bool, Error>
    ensures { let forbidden = forbids_truth mode value.now in
        result ≡ answered (guarded forbidden (kinded (truths.truth_of (R.known records.now) value.now))) }
{
    if forbids_truth(mode, value) {
        return refusal();
    }
    values::truth_of(value, records)
}
