//! Operators behind their operands. Where an operator gives a constant, what was put for its operands is dropped again.
ghost use Rattle.std.specs.Prelude.{◌≡◌, [], ◌∷◌, IsNone, OnOk, IfOk, IfErr};
ghost use Rattle.template_compiler_code.specs.Code.{operate};
ghost use Rattle.template_compiler_code.specs.Listing.{code_in, TakesNoMore};
ghost use Rattle.template_compiler_codegen.specs.Expressions.{one, unary_code};
ghost use Rattle.template_compiler_folding.specs.Folding.{unary_folded, binary_folded};
ghost use Rattle.template_compiler_emission.specs.Leaps.{leap_of};
ghost use Rattle.template_compiler_emission.specs.Puts.{Puts, behind, held};
ghost use Rattle.template_compiler_expression_codegen.specs.Ends.{CutOr, Lands};

use crate::leaves::{hold, unless_refused};
use std::alloc::Global;
use template_compiler_code::Instructions;
use template_compiler_emission::{Leap, land, load, operator_instruction, push, unary_instruction};
use template_compiler_folding::{fold_binary, fold_unary, joins};
use template_compiler_tree::{BinOpKind, Span, UnaryOpKind};
use template_values_core::Value;
use template_values_errors::ErrorKind;

// An operator behind its operand, which is loaded where it was held back.
#[inline(always)]
pub(crate) fn end_unary<'source>(
    code: &mut Instructions<'source>,
    begins: usize,
    op: UnaryOpKind,
    operand: Option<Value>,
    from: Option<&Span>,
) -> Result<Option<Value>, ErrorKind>
    ensures constant { IfOk result (λ o. o ≡ unary_folded op operand) }
    ensures put { IfOk result (λ o. CutOr begins o code.old code.new (Puts (behind operand (one (unary_code op))) code.old code.new)) }
    ensures refused { IfErr result (λ kind. TakesNoMore (code_in code.new) (kind ∷ [])) }
{
    match unless_refused(fold_unary(op, &operand))? {
        Some(value) => {
            code.truncate(begins);
            Ok(Some(value))
        }
        None => {
            load(code, operand, from)?;
            push(code, unary_instruction(op), None)?;
            Ok(None)
        }
    }
}

// The same where the operand is constant.
#[inline(never)]
pub(crate) fn end_constant_unary<'source>(
    code: &mut Instructions<'source>,
    begins: usize,
    op: UnaryOpKind,
    value: &mut Option<Value>,
    from: Option<&Span>,
) -> Result<(), ErrorKind>
    ensures constant { OnOk result (value.new ≡ unary_folded op value.old) }
    ensures put { OnOk result
        (CutOr begins value.new code.old code.new (Puts (behind value.old (one (unary_code op))) code.old code.new)) }
    ensures refused { IfErr result (λ kind. TakesNoMore (code_in code.new) (kind ∷ [])) }
{
    let folded = end_unary(code, begins, op, value.take(), from)?;
    hold(value, folded);
    Ok(())
}

// Where the sides of a choice begin, and the jump between them whose target is told at their end.
#[derive(Drop)]
pub(crate) struct Choice {
    pub(crate) begins: usize,
    pub(crate) jump: u32,
    pub(crate) leap: Leap,
}

// `and` or `or` behind its right side, which is loaded where it was held back.
#[inline(always)]
pub(crate) fn end_choice<'source>(
    alloc: Global,
    code: &mut Instructions<'source>,
    choice: Choice,
    op: BinOpKind,
    left: Option<Value>,
    right: Option<Value>,
) -> Result<Option<Value>, ErrorKind>
    ensures constant { IfOk result (λ o. o ≡ binary_folded op left right) }
    ensures put { IfOk result
        (λ o. CutOr choice.begins o code.old code.new (Lands choice.jump choice.leap (held right) code.old code.new)) }
    ensures refused { IfErr result (λ kind. TakesNoMore (code_in code.new) (kind ∷ [])) }
{
    match unless_refused(fold_binary(alloc, op, left, &right))? {
        Some(value) => {
            code.truncate(choice.begins);
            Ok(Some(value))
        }
        None => {
            load(code, right, None)?;
            land(code, choice.jump, choice.leap);
            Ok(None)
        }
    }
}

// Another operator behind its right side, which is loaded where it was held back.
#[inline(always)]
pub(crate) fn end_operator<'source>(
    alloc: Global,
    code: &mut Instructions<'source>,
    begins: usize,
    op: BinOpKind,
    left: Option<Value>,
    right: Option<Value>,
) -> Result<Option<Value>, ErrorKind>
    requires { IsNone (leap_of op) }
    ensures constant { IfOk result (λ o. o ≡ binary_folded op left right) }
    ensures put { IfOk result (λ o. CutOr begins o code.old code.new (Puts (behind right (one (operate op))) code.old code.new)) }
    ensures refused { IfErr result (λ kind. TakesNoMore (code_in code.new) (kind ∷ [])) }
{
    if matches!(op, BinOpKind::Concat) && joins(&left, &right) {
        // The load of the left value goes first, so that nothing shares its text.
        code.truncate(begins);
        return unless_refused(fold_binary(alloc, op, left, &right));
    }
    match unless_refused(fold_binary(alloc, op, left, &right))? {
        Some(value) => {
            code.truncate(begins);
            Ok(Some(value))
        }
        None => {
            load(code, right, None)?;
            push(code, operator_instruction(op), None)?;
            Ok(None)
        }
    }
}
