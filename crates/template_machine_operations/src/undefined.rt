//! What may be done with an undefined value, under each mode.

ghost use Rattle.std.specs.Prelude.{◌≡◌, [], ◌∷◌, Err};
ghost use Rattle.template_values_operators.specs.Kinds.{is_undefined};
ghost use Rattle.template_machine_meaning.specs.Undefined.{is_loud, is_strict, is_half_strict, is_chainable, forbids_printing, forbids_iterating, forbids_truth, forbids_slicing, forbids_comparing, forbids_membership, forbids_operator, forbids_link};

use template_compiler_tree::{BinOpKind, CompareOpKind};
use template_values_core::{Content, Value};
use template_values_errors::{Error, ErrorKind, UndefinedBehavior};

/// The refusal of an undefined value.
pub fn refusal<T>() -> Result<T, Error>
    ensures { result ≡ Err (ErrorKind.UndefinedError ∷ []) }
{
    Err(Error::new(ErrorKind::UndefinedError))
}

/// Whether the value is undefined, and not the silent one.
fn is_loud(value: &Value) -> bool
    ensures { result ≡ is_loud value.now }
{
    match value.content() {
        Content::Undefined => true,
        _ => false,
    }
}

/// Whether the value is undefined, in either form.
pub fn is_undefined(value: &Value) -> bool
    ensures { result ≡ is_undefined value.now }
{
    match value.content() {
        Content::Undefined | Content::SilentUndefined => true,
        _ => false,
    }
}

fn is_strict(mode: UndefinedBehavior) -> bool
    ensures { result ≡ is_strict mode }
{
    match mode {
        UndefinedBehavior::Strict => true,
        _ => false,
    }
}

/// Whether undefined may be neither printed nor gone over.
fn is_half_strict(mode: UndefinedBehavior) -> bool
    ensures { result ≡ is_half_strict mode }
{
    match mode {
        UndefinedBehavior::SemiStrict | UndefinedBehavior::Strict => true,
        _ => false,
    }
}

/// Whether what undefined has under a name is undefined.
pub fn is_chainable(mode: UndefinedBehavior) -> bool
    ensures { result ≡ is_chainable mode }
{
    match mode {
        UndefinedBehavior::Chainable => true,
        _ => false,
    }
}

/// Whether the value may not be printed.
pub fn forbids_printing(mode: UndefinedBehavior, value: &Value) -> bool
    ensures { result ≡ forbids_printing mode value.now }
{
    is_half_strict(mode) && is_loud(value)
}

/// Whether the value may not be gone over.
pub fn forbids_iterating(mode: UndefinedBehavior, value: &Value) -> bool
    ensures { result ≡ forbids_iterating mode value.now }
{
    is_half_strict(mode) && is_loud(value)
}

/// Whether the value may not be tested for truth.
pub fn forbids_truth(mode: UndefinedBehavior, value: &Value) -> bool
    ensures { result ≡ forbids_truth mode value.now }
{
    is_strict(mode) && is_loud(value)
}

/// Whether no slice of the value may be asked for.
pub fn forbids_slicing(mode: UndefinedBehavior, value: &Value) -> bool
    ensures { result ≡ forbids_slicing mode value.now }
{
    is_strict(mode) && is_undefined(value)
}

fn forbids_comparing(mode: UndefinedBehavior, left: &Value, right: &Value) -> bool
    ensures { result ≡ forbids_comparing mode left.now right.now }
{
    is_strict(mode) && (is_loud(left) || is_loud(right))
}

fn forbids_membership(mode: UndefinedBehavior, left: &Value, right: &Value) -> bool
    ensures { result ≡ forbids_membership mode left.now right.now }
{
    (is_strict(mode) && is_loud(left)) || forbids_iterating(mode, right)
}

/// Whether the operator may not be asked for these operands. What is not asked refuses undefined by
/// itself.
pub fn forbids_operator(mode: UndefinedBehavior, op: BinOpKind, left: &Value, right: &Value) -> bool
    ensures { result ≡ forbids_operator mode op left.now right.now }
{
    match op {
        BinOpKind::Eq
        | BinOpKind::Ne
        | BinOpKind::Lt
        | BinOpKind::Lte
        | BinOpKind::Gt
        | BinOpKind::Gte
        | BinOpKind::Concat => forbids_comparing(mode, left, right),
        BinOpKind::In => forbids_membership(mode, left, right),
        _ => false,
    }
}

/// Whether a comparison of a chain may not be asked for these operands.
pub fn forbids_link(mode: UndefinedBehavior, op: CompareOpKind, left: &Value, right: &Value) -> bool
    ensures { result ≡ forbids_link mode op left.now right.now }
{
    match op {
        CompareOpKind::In | CompareOpKind::NotIn => forbids_membership(mode, left, right),
        _ => forbids_comparing(mode, left, right),
    }
}
