//! What loops go over: with a condition, the list of the items that it holds for.
ghost use Rattle.std.specs.Prelude.{OnOk, IfErr};
ghost use Rattle.template_compiler_tree.specs.Tree.{given};
ghost use Rattle.template_compiler_tree.specs.View.{expression_of, optional_in};
ghost use Rattle.template_compiler_walk.specs.Runnable.{IsRunnable, IsRunnableIfGiven, IsTarget};
ghost use Rattle.template_compiler_code.specs.Code.{discard_top};
ghost use Rattle.template_compiler_code.specs.Listing.{code_in};
ghost use Rattle.template_compiler_codegen.specs.Expressions.{either_code, one};
ghost use Rattle.template_compiler_codegen.specs.Statements.{iterable_code, keep_code, kept_code};
ghost use Rattle.template_compiler_emission.specs.Puts.{Puts};
ghost use Rattle.template_compiler_statement_codegen.specs.Refusals.{Refuses};

use crate::puts::{compile_expr, put, reserve};
use crate::targets::store;
use std::alloc::Global;
use template_compiler_code::{Instruction, Instructions};
use template_compiler_emission::{Leap, land};
use template_compiler_tree::{Expr, Span};
use template_values_core::Value;
use template_values_errors::ErrorKind;

// A loop that only gathers has no variable.
const NO_LOOP_FLAGS: u8 = 0;

// What a loop goes over.
#[inline(always)]
pub(crate) fn compile_iterable<'source>(
    alloc: Global,
    code: &mut Instructions<'source>,
    target: &Expr<'source>,
    items: &Expr<'source>,
    condition: &Option<Expr<'source>>,
    span: &Span,
) -> Result<(), ErrorKind>
    requires target { IsTarget (expression_of target.now) }
    requires items { IsRunnable (expression_of items.now) }
    requires condition { IsRunnableIfGiven (optional_in condition.now) }
    ensures put { OnOk result
        (Puts (iterable_code (expression_of target.now) (expression_of items.now) (optional_in condition.now)) code.old code.new) }
    ensures refused { IfErr result (Refuses (code_in code.new)) }
{
    match condition {
        Some(condition) => compile_kept(alloc, code, target, items, condition, span),
        None => compile_expr(alloc, code, items),
    }
}

// The list of the items that a condition holds for, which are gathered in a counted run.
#[inline(never)]
fn compile_kept<'source>(
    alloc: Global,
    code: &mut Instructions<'source>,
    target: &Expr<'source>,
    items: &Expr<'source>,
    condition: &Expr<'source>,
    span: &Span,
) -> Result<(), ErrorKind>
    requires target { IsTarget (expression_of target.now) }
    requires items { IsRunnable (expression_of items.now) }
    requires condition { IsRunnable (expression_of condition.now) }
    ensures put { OnOk result
        (Puts (iterable_code (expression_of target.now) (expression_of items.now) (given (expression_of condition.now)))
        code.old code.new) }
    ensures refused { IfErr result (Refuses (code_in code.new)) }
{
    put(code, Instruction::UnpackLists(0), Some(*span))?;
    compile_expr(alloc, code, items)?;
    put(code, Instruction::PushLoop(NO_LOOP_FLAGS), None)?;
    compile_kept_rounds(alloc, code, target, condition, *span)?;
    put(code, Instruction::PopLoopFrame, None)?;
    put(code, Instruction::BuildList(None), None)
}

// The rounds: each item is stored in the target, and is kept where the condition holds.
#[inline(always)]
fn compile_kept_rounds<'source>(
    alloc: Global,
    code: &mut Instructions<'source>,
    target: &Expr<'source>,
    condition: &Expr<'source>,
    span: Span,
) -> Result<(), ErrorKind>
    requires target { IsTarget (expression_of target.now) }
    requires condition { IsRunnable (expression_of condition.now) }
    ensures put { OnOk result
        (Puts (kept_code (expression_of target.now) (expression_of condition.now)) code.old code.new) }
    ensures refused { IfErr result (Refuses (code_in code.new)) }
{
    let asks = reserve(code, Leap::Iterate, None)?;
    put(code, Instruction::DupTop, None)?;
    store(alloc, code, target)?;
    compile_expr(alloc, code, condition)?;
    keep_or_drop(code)?;
    put(code, Instruction::Jump(asks), Some(span))?;
    land(code, asks, Leap::Iterate);
    Ok(())
}

// An item is kept where the value above it is true, and else it is dropped.
#[inline(always)]
fn keep_or_drop<'source>(code: &mut Instructions<'source>) -> Result<(), ErrorKind>
    ensures put { OnOk result (Puts (either_code keep_code (one discard_top)) code.old code.new) }
    ensures refused { IfErr result (Refuses (code_in code.new)) }
{
    let drops = reserve(code, Leap::IfFalse, None)?;
    keep(code)?;
    let end = reserve(code, Leap::Always, None)?;
    land(code, drops, Leap::IfFalse);
    put(code, Instruction::DiscardTop, None)?;
    land(code, end, Leap::Always);
    Ok(())
}

// An item goes into the counted run below it.
#[inline(always)]
fn keep<'source>(code: &mut Instructions<'source>) -> Result<(), ErrorKind>
    ensures put { OnOk result (Puts keep_code code.old code.new) }
    ensures refused { IfErr result (Refuses (code_in code.new)) }
{
    put(code, Instruction::Swap, None)?;
    put(code, Instruction::LoadConst(Value::from_int(1)), None)?;
    put(code, Instruction::Add, None)
}
