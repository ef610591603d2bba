//! Calls whose last keyword argument is put apart: what stands before its value, and what stands behind it.
ghost use Rattle.std.specs.Prelude.{◌≡◌, [], ◌∷◌, OnOk, IfOk, IfErr};
ghost use Rattle.template_compiler_tree.specs.View.{arguments_in, expression_of};
ghost use Rattle.template_compiler_walk.specs.Runnable.{AreRunnableArguments, IsRunnable};
ghost use Rattle.template_compiler_code.specs.Listing.{code_in, TakesNoMore};
ghost use Rattle.template_compiler_code.specs.View.{code_of};
ghost use Rattle.template_compiler_emission.specs.Puts.{Puts};
ghost use Rattle.template_compiler_expression_codegen.specs.Begun.{ArgumentsBegin, IsBegun, arguments_begun, begun_code, called_with, ended_code, front_code, front_count};
ghost use Rattle.template_compiler_expression_codegen.specs.Calls.{call_of};

use crate::expressions;
use crate::leaves::{one_more, put_keyword, several_more};
use crate::stretches::{Stretches, put_map, put_merged, put_run, still_from};
use std::alloc::Global;
use std::borrow::CowStr;
use template_compiler_code::{Instruction, Instructions};
use template_compiler_emission::push;
use template_compiler_tree::{Call, CallArg, Expr, Span};
use template_values_errors::ErrorKind;

/// The arguments of a call that are put, all but its last keyword argument.
#[derive(Clone, Copy)]
pub struct BegunCall {
    pub(crate) passed: Stretches,
    pub(crate) named: Stretches,
}

/// Puts a call behind the instructions, up to the name of a last keyword argument. What is called is no block.
/// Linear in the call, besides what the operators of constant trees cost.
///
/// # Errors
///
/// Those of [`Instructions::add`].
pub fn begin_call<'source>(
    alloc: Global,
    code: &mut Instructions<'source>,
    call: &Call<'source>,
    last: &str,
    span: &Span,
) -> Result<BegunCall, ErrorKind>
    requires { IsRunnable (call_of call.now) }
    ensures begun { IfOk result (IsBegun (expression_of call.now.expr) (arguments_in call.now.args.items)) }
    ensures put { OnOk result
        (Puts (begun_code (expression_of call.now.expr) (arguments_in call.now.args.items) last.now) code.old code.new) }
    ensures refused { IfErr result (λ kind. TakesNoMore (code_in code.new) (kind ∷ [])) }
{
    let begins = code.len();
    let front = put_front(alloc, code, &call.expr, span)?;
    let told = still_from(code, begins, Some(span));
    begin_arguments(alloc, code, front, &call.args, last, told)
}

// What stands before the arguments. The answer is how many values it is.
fn put_front<'source>(
    alloc: Global,
    code: &mut Instructions<'source>,
    callee: &Expr<'source>,
    span: &Span,
) -> Result<u16, ErrorKind>
    requires { IsRunnable (expression_of callee.now) }
    ensures count { IfOk result (λ n. n ≡ front_count (expression_of callee.now)) }
    ensures put { OnOk result (Puts (front_code (expression_of callee.now)) code.old code.new) }
    ensures refused { IfErr result (λ kind. TakesNoMore (code_in code.new) (kind ∷ [])) }
{
    match callee {
        Expr::Var(_) => Ok(0),
        Expr::GetAttr(n) => {
            expressions::compile_expr(alloc, code, &n.node.expr, Some(span))?;
            Ok(1)
        }
        _ => {
            expressions::compile_expr(alloc, code, callee, Some(span))?;
            Ok(1)
        }
    }
}

// The arguments behind so many values, and the name of the last one.
fn begin_arguments<'source>(
    alloc: Global,
    code: &mut Instructions<'source>,
    front: u16,
    arguments: &[CallArg<'source>],
    last: &str,
    from: Option<&Span>,
) -> Result<BegunCall, ErrorKind>
    requires { AreRunnableArguments (arguments_in arguments.now) }
    ensures begun { IfOk result (ArgumentsBegin front (arguments_in arguments.now)) }
    ensures put { OnOk result (Puts (arguments_begun front (arguments_in arguments.now) last.now) code.old code.new) }
    ensures refused { IfErr result (λ kind. TakesNoMore (code_in code.new) (kind ∷ [])) }
{
    let begins = code.len();
    let passed = expressions::compile_positional(alloc, code, front, arguments, from)?;
    let told = still_from(code, begins, from);
    let named = expressions::compile_named(alloc, code, arguments, told)?;
    let told = still_from(code, begins, from);
    put_keyword(alloc, code, last, told)?;
    Ok(BegunCall { passed, named })
}

/// Puts the rest of a call behind the instructions, whose last keyword argument is put.
///
/// # Errors
///
/// Those of [`Instructions::add`].
pub fn end_call<'source>(
    code: &mut Instructions<'source>,
    call: &Call<'source>,
    begun: BegunCall,
) -> Result<(), ErrorKind>
    requires { IsBegun (expression_of call.now.expr) (arguments_in call.now.args.items) begun }
    ensures put { OnOk result
        (Puts (ended_code (expression_of call.now.expr) (arguments_in call.now.args.items)) code.old code.new) }
    ensures refused { IfErr result (λ kind. TakesNoMore (code_in code.new) (kind ∷ [])) }
{
    let BegunCall { passed, named } = begun;
    let entries = one_more(named.last)?;
    let maps = put_map(code, named.lists, entries)?;
    let merged = put_merged(code, maps, named.spread)?;
    let values = several_more(passed.last, merged)?;
    let count = put_run(code, passed.lists, values, passed.spread)?;
    push(code, call_instruction(&call.expr, count), None)
}

// The instruction that calls what is no block.
fn call_instruction<'source>(callee: &Expr<'source>, count: Option<u16>) -> Instruction<'source>
    ensures { code_of result ≡ called_with (expression_of callee.now) count }
{
    match callee {
        Expr::Var(n) => Instruction::CallFunction(CowStr::Borrowed(n.node.id), count),
        Expr::GetAttr(n) => Instruction::CallMethod(CowStr::Borrowed(n.node.name), count),
        _ => Instruction::CallObject(count),
    }
}
