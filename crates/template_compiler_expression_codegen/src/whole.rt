//! Whole expressions, which come from their span.
ghost use Rattle.std.specs.Prelude.{◌≡◌, [], ◌∷◌, Some, OnOk, IfOk, IfErr};
ghost use Rattle.template_compiler_tree.specs.View.{expression_of};
ghost use Rattle.template_compiler_walk.specs.Constants.{constant_of};
ghost use Rattle.template_compiler_walk.specs.Runnable.{IsRunnable};
ghost use Rattle.template_compiler_code.specs.Listing.{code_in, TakesNoMore};
ghost use Rattle.template_compiler_codegen.specs.Expressions.{expression_code};
ghost use Rattle.template_compiler_emission.specs.Puts.{Puts, unless};
ghost use Rattle.template_compiler_expression_codegen.specs.Calls.{call_of};
ghost use Rattle.template_compiler_expression_codegen.specs.Coded.{coded_left};

use crate::coded::is_block;
use crate::expressions;
use crate::leaves::first_from;
use std::alloc::Global;
use std::borrow::CowStr;
use template_compiler_code::{Instruction, Instructions};
use template_compiler_emission::push;
use template_compiler_tree::{Call, Expr, Span, Spanned};
use template_values_core::Value;
use template_values_errors::{Error, ErrorKind};

/// Puts the code of an expression behind the instructions; all of it comes from the span of the expression. Linear in
/// the expression, besides what the operators of constant trees cost.
///
/// # Errors
///
/// Those of [`Instructions::add`].
pub fn compile_expr<'source>(
    alloc: Global,
    code: &mut Instructions<'source>,
    expr: &Expr<'source>,
) -> Result<(), Error>
    requires { IsRunnable (expression_of expr.now) }
    ensures put { OnOk result (Puts (expression_code (expression_of expr.now)) code.old code.new) }
    ensures refused { IfErr result (TakesNoMore (code_in code.new)) }
{
    let put = match expr {
        Expr::Var(n) => push(
            code,
            Instruction::Lookup(CowStr::Borrowed(n.node.id)),
            Some(&n.span),
        ),
        _ => expressions::compile_expr(alloc, code, expr, Some(&expr.span())),
    };
    match put {
        Ok(()) => Ok(()),
        Err(kind) => Err(Error::new(kind)),
    }
}

/// The same of a call, whether it is an expression or stands alone.
///
/// # Errors
///
/// Those of [`Instructions::add`].
pub fn compile_call<'source>(
    alloc: Global,
    code: &mut Instructions<'source>,
    call: &Spanned<Call<'source>>,
) -> Result<(), Error>
    requires { IsRunnable (call_of call.now.node) }
    ensures put { OnOk result (Puts (expression_code (call_of call.now.node)) code.old code.new) }
    ensures refused { IfErr result (TakesNoMore (code_in code.new)) }
{
    match put_call(alloc, code, &call.node, &call.span) {
        Ok(()) => Ok(()),
        Err(kind) => Err(Error::new(kind)),
    }
}

// What a method is called of, or what is called where it is no name and no block, and then the call.
fn put_call<'source>(
    alloc: Global,
    code: &mut Instructions<'source>,
    call: &Call<'source>,
    span: &Span,
) -> Result<(), ErrorKind>
    requires { IsRunnable (call_of call.now) }
    ensures put { OnOk result (Puts (expression_code (call_of call.now)) code.old code.new) }
    ensures refused { IfErr result (λ kind. TakesNoMore (code_in code.new) (kind ∷ [])) }
{
    match &call.expr {
        Expr::Var(_) => expressions::compile_call(alloc, code, &mut None, call, Some(span)),
        Expr::GetAttr(method) => {
            let object = &method.node.expr;
            if is_block(call, object) {
                return expressions::compile_call(alloc, code, &mut None, call, Some(span));
            }
            put_behind(alloc, code, object, call, span)
        }
        called => put_behind(alloc, code, called, call, span),
    }
}

// A call behind its left part.
fn put_behind<'source>(
    alloc: Global,
    code: &mut Instructions<'source>,
    part: &Expr<'source>,
    call: &Call<'source>,
    span: &Span,
) -> Result<(), ErrorKind>
    requires runs { IsRunnable (call_of call.now) }
    requires part { IsRunnable (expression_of part.now) }
    requires left { Some (expression_of part.now) ≡ coded_left (call_of call.now) }
    ensures put { OnOk result (Puts (expression_code (call_of call.now)) code.old code.new) }
    ensures refused { IfErr result (λ kind. TakesNoMore (code_in code.new) (kind ∷ [])) }
{
    let mut left = expressions::fold_expr(alloc, code, part, Some(span))?;
    let told = first_from(1, &left, Some(span));
    expressions::compile_call(alloc, code, &mut left, call, told)
}

/// The value of an expression that is a constant tree, for which nothing is put; else its code is put
/// behind the instructions. Linear in the expression, besides what its operators cost.
///
/// # Errors
///
/// Those of [`Instructions::add`].
pub fn fold_expr<'source>(
    alloc: Global,
    code: &mut Instructions<'source>,
    expr: &Expr<'source>,
    from: Option<Span>,
) -> Result<Option<Value>, Error>
    requires { IsRunnable (expression_of expr.now) }
    ensures constant { IfOk result (λ o. o ≡ constant_of (expression_of expr.now)) }
    ensures put { IfOk result (λ o. Puts (unless o (expression_code (expression_of expr.now))) code.old code.new) }
    ensures refused { IfErr result (TakesNoMore (code_in code.new)) }
{
    match expressions::fold_expr(alloc, code, expr, from.as_ref()) {
        Ok(value) => Ok(value),
        Err(kind) => Err(Error::new(kind)),
    }
}
