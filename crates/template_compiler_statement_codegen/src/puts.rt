//! What is put behind the instructions. A refusal is told by its kind alone, which is small.
ghost use Rattle.std.specs.Prelude.{◌≡◌, ◌++◌, ◌∷◌, [], OnOk, IfOk, IfErr, length};
ghost use Rattle.template_compiler_tree.specs.View.{expression_of};
ghost use Rattle.template_compiler_walk.specs.Runnable.{IsRunnable, AreFilters};
ghost use Rattle.template_compiler_code.specs.View.{code_of};
ghost use Rattle.template_compiler_code.specs.Listing.{code_in};
ghost use Rattle.template_compiler_codegen.specs.Expressions.{one, expression_code, filters_code};
ghost use Rattle.template_compiler_emission.specs.Leaps.{leap_code};
ghost use Rattle.template_compiler_emission.specs.Puts.{Puts};
ghost use Rattle.template_compiler_expression_codegen.specs.Calls.{call_of};
ghost use Rattle.template_values_errors.specs.Causes.{IsHead};
ghost use Rattle.template_compiler_statement_codegen.specs.Refusals.{Refuses};

use std::alloc::Global;
use template_compiler_code::{Instruction, Instructions};
use template_compiler_emission::{Leap, push, push_leap};
use template_compiler_tree::{Call, Expr, Span, Spanned};
use template_values_errors::{Error, ErrorKind};

// Puts one instruction.
#[inline(always)]
pub(crate) fn put<'source>(
    code: &mut Instructions<'source>,
    instruction: Instruction<'source>,
    from: Option<Span>,
) -> Result<(), ErrorKind>
    ensures put { OnOk result (Puts (one (code_of instruction.entry)) code.old code.new) }
    ensures refused { IfErr result (Refuses (code_in code.new)) }
{
    push(code, instruction, from.as_ref())
}

// Puts a jump whose target is told later, and answers its place.
#[inline(always)]
pub(crate) fn reserve<'source>(
    code: &mut Instructions<'source>,
    leap: Leap,
    from: Option<Span>,
) -> Result<u32, ErrorKind>
    ensures place { IfOk result (λ place. place ≡ length (code_in code.old)) }
    ensures put { OnOk result (Puts (one (leap_code leap 0)) code.old code.new) }
    ensures refused { IfErr result (Refuses (code_in code.new)) }
{
    push_leap(code, leap, from.as_ref())
}

// Puts the code of an expression.
#[inline(always)]
pub(crate) fn compile_expr<'source>(
    alloc: Global,
    code: &mut Instructions<'source>,
    expr: &Expr<'source>,
) -> Result<(), ErrorKind>
    requires { IsRunnable (expression_of expr.now) }
    ensures put { OnOk result (Puts (expression_code (expression_of expr.now)) code.old code.new) }
    ensures refused { IfErr result (Refuses (code_in code.new)) }
{
    match template_compiler_expression_codegen::compile_expr(alloc, code, expr) {
        Ok(()) => Ok(()),
        Err(error) => Err(kind_of(error)),
    }
}

// Puts the code of a call.
#[inline(always)]
pub(crate) fn compile_call<'source>(
    alloc: Global,
    code: &mut Instructions<'source>,
    call: &Spanned<Call<'source>>,
) -> Result<(), ErrorKind>
    requires { IsRunnable (call_of call.now.node) }
    ensures put { OnOk result (Puts (expression_code (call_of call.now.node)) code.old code.new) }
    ensures refused { IfErr result (Refuses (code_in code.new)) }
{
    match template_compiler_expression_codegen::compile_call(alloc, code, call) {
        Ok(()) => Ok(()),
        Err(error) => Err(kind_of(error)),
    }
}

// Puts the code of the filters of a block.
#[inline(always)]
pub(crate) fn compile_filters<'source>(
    alloc: Global,
    code: &mut Instructions<'source>,
    filters: &Expr<'source>,
) -> Result<(), ErrorKind>
    requires { AreFilters (expression_of filters.now) }
    ensures put { OnOk result (Puts (filters_code (expression_of filters.now)) code.old code.new) }
    ensures refused { IfErr result (Refuses (code_in code.new)) }
{
    match template_compiler_expression_codegen::compile_filters(alloc, code, filters) {
        Ok(()) => Ok(()),
        Err(error) => Err(kind_of(error)),
    }
}

// Keeps an item behind the others.
#[inline(always)]
pub(crate) fn append<T: Drop>(items: &mut Vec<T>, item: T) -> Result<(), ErrorKind>
    ensures pushed { OnOk result (items.new.items ≡ items.old.items ++ item ∷ []) }
    ensures refused { IfErr result (λ kind. kind ≡ ErrorKind.OutOfMemory) }
{
    match items.push(item) {
        Ok(()) => Ok(()),
        Err(_refused) => Err(ErrorKind::OutOfMemory),
    }
}

// What a refusal tells first.
#[inline(always)]
fn kind_of(error: Error) -> ErrorKind
    ensures { IsHead error result }
{
    error.kind()
}
