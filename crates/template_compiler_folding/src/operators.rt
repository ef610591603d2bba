//! What operators give for operands that are known before a render runs.
ghost use Rattle.std.specs.Prelude.{◌≡◌, Result, Some, IfOk, IfErr, IsOk, IsSome, IsTrue, if◌then◌else◌};
ghost use Rattle.template_values_errors.specs.Memory.{NoMemory};
ghost use Rattle.template_values_model.specs.Fault.{Fault};
ghost use Rattle.template_values_model.specs.Gives.{Gives};
ghost use Rattle.template_values_model.specs.Val.{Val};
ghost use Rattle.template_values_forms.specs.Known.{nothing_known};
ghost use Rattle.template_values_forms.specs.Printed.{printed};
ghost use Rattle.template_compiler_tree.specs.declared.operators.BinOpKind.TheVariants.{Concat};
ghost use Rattle.template_compiler_walk.specs.Constants.{binary_constant, made};
ghost use Rattle.template_compiler_folding.specs.Folding.{unary_folded, binary_folded, comparison_folded, is_known_true};

use std::alloc::Global;
use template_compiler_tree::{BinOpKind, CompareOpKind, UnaryOpKind};
use template_values_core::{Content, Value};
use template_values_errors::{Error, ErrorKind};
use template_values_operations::{NoRecords, compare, invert, negate, operate_owned};

// The value that an operator gave; where it refused its operands there is none.
pub(crate) fn settled(outcome: Result<Value, Error>) -> Result<Option<Value>, Error>
    ensures settled { (answer : Result Val Fault) → Gives outcome answer → IfOk result (λ o. o ≡ made answer) }
    ensures refused { IfErr result NoMemory }
{
    match outcome {
        Ok(value) => Ok(Some(value)),
        Err(error) => match error.kind() {
            ErrorKind::OutOfMemory => Err(Error::new(ErrorKind::OutOfMemory)),
            _ => Ok(None),
        },
    }
}

/// The value of an operator before an operand whose value is known, where it gives one.
///
/// # Errors
///
/// [`ErrorKind::OutOfMemory`].
pub fn fold_unary(op: UnaryOpKind, operand: &Option<Value>) -> Result<Option<Value>, Error>
    ensures folded { IfOk result (λ o. o ≡ unary_folded op operand.now) }
    ensures refused { IfErr result NoMemory }
{
    match operand {
        Some(value) => match op {
            UnaryOpKind::Not => settled(invert(value, &NoRecords)),
            UnaryOpKind::Neg => settled(negate(value)),
        },
        None => Ok(None),
    }
}

/// The value of an operator between operands whose values are known, where it gives one. The left one is given up: where it is a
/// plain text that no other value shares, `~` makes this text longer in its place.
///
/// # Errors
///
/// [`ErrorKind::OutOfMemory`].
pub fn fold_binary(
    alloc: Global,
    op: BinOpKind,
    left: Option<Value>,
    right: &Option<Value>,
) -> Result<Option<Value>, Error>
    ensures folded { IfOk result (λ o. o ≡ binary_folded op left right.now) }
    ensures refused { IfErr result NoMemory }
{
    match left {
        Some(left) => match right {
            Some(right) => fold_values(alloc, op, left, right),
            None => Ok(None),
        },
        None => Ok(None),
    }
}

// `and` and `or` give one of their sides.
fn fold_values(
    alloc: Global,
    op: BinOpKind,
    left: Value,
    right: &Value,
) -> Result<Option<Value>, Error>
    ensures folded { IfOk result (λ o. o ≡ binary_constant op left right.now) }
    ensures refused { IfErr result NoMemory }
{
    match op {
        BinOpKind::ScAnd => chosen(!left.is_true(), left, right),
        BinOpKind::ScOr => chosen(left.is_true(), left, right),
        _ => settled(operate_owned(alloc, op, left, right, &NoRecords)),
    }
}

// The left side, where it is chosen; else the right one.
fn chosen(is_left: bool, left: Value, right: &Value) -> Result<Option<Value>, Error>
    ensures chosen { IfOk result (λ o. o ≡ Some (if is_left then left else right.now)) }
    ensures refused { IfErr result NoMemory }
{
    if is_left {
        return Ok(Some(left));
    }
    let value = right.copy()?;
    Ok(Some(value))
}

/// Whether `~` surely makes a constant of two operands: their values are known, and each is a text or a whole number.
pub fn joins(left: &Option<Value>, right: &Option<Value>) -> bool
    ensures { IsTrue result → IsSome (binary_folded Concat left.now right.now) }
{
    match left {
        Some(left) => match right {
            Some(right) => prints_alone(left) && prints_alone(right),
            None => false,
        },
        None => false,
    }
}

// Whether a value is a text or a whole number, which print whatever is known of records.
fn prints_alone(value: &Value) -> bool
    ensures { IsTrue result → IsOk (printed nothing_known value.now) }
{
    match value.content() {
        Content::Text(_) => true,
        Content::SafeText(_) => true,
        Content::Int(_) => true,
        _ => false,
    }
}

/// The value of a comparison of a chain between operands whose values are known, where it gives one.
///
/// # Errors
///
/// [`ErrorKind::OutOfMemory`].
pub fn fold_comparison(
    op: CompareOpKind,
    left: &Option<Value>,
    right: &Option<Value>,
) -> Result<Option<Value>, Error>
    ensures folded { IfOk result (λ o. o ≡ comparison_folded op left.now right.now) }
    ensures refused { IfErr result NoMemory }
{
    match left {
        Some(left) => match right {
            Some(right) => settled(compare(op, left, right, &NoRecords)),
            None => Ok(None),
        },
        None => Ok(None),
    }
}

/// Whether a chain of comparisons goes on behind one, of which the truth is given where it is known: it is known and true.
pub fn goes_on(holds: &Option<Value>) -> bool
    ensures { result ≡ is_known_true holds.now }
{
    match holds {
        Some(holds) => holds.is_true(),
        None => false,
    }
}
