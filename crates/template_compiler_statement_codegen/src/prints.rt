//! What a print writes: a value; or what a block, `super()`, or the rounds of a loop over a value write by themselves.
ghost use Rattle.std.specs.Prelude.{◌≡◌, OnOk, IfErr};
ghost use Rattle.template_compiler_tree.specs.Tree.{print};
ghost use Rattle.template_compiler_tree.specs.View.{arguments_in, expression_of};
ghost use Rattle.template_compiler_walk.specs.Runnable.{IsRunnable};
ghost use Rattle.template_compiler_walk.specs.Statements.{is_loop_name, is_super_name, printed_of, printed_rounds};
ghost use Rattle.template_compiler_code.specs.Code.{emit, fast_recurse};
ghost use Rattle.template_compiler_code.specs.Listing.{code_in};
ghost use Rattle.template_compiler_codegen.specs.Expressions.{then_code, one, expression_code};
ghost use Rattle.template_compiler_codegen.specs.Statements.{no_ways, statement_code};
ghost use Rattle.template_compiler_emission.specs.Puts.{Puts};
ghost use Rattle.template_compiler_expression_codegen.specs.Calls.{call_of};
ghost use Rattle.template_compiler_statement_codegen.specs.Printing.{printed_as, printed_named};
ghost use Rattle.template_compiler_statement_codegen.specs.Refusals.{Refuses};

use crate::puts::{compile_expr, put};
use std::alloc::Global;
use std::borrow::CowStr;
use template_compiler_code::{Instruction, Instructions};
use template_compiler_expression_codegen::has_no_arguments;
use template_compiler_tree::{Call, CallArg, CallType, Expr, Span};
use template_values_errors::ErrorKind;

// What a print writes.
#[derive(Clone, Copy)]
pub(crate) enum Printing<'ast, 'source> {
    Value,
    Block(&'source str),
    Super,
    Rounds(&'ast Expr<'source>),
}

// What is printed.
#[inline(never)]
pub(crate) fn compile_print<'source>(
    alloc: Global,
    code: &mut Instructions<'source>,
    expr: &Expr<'source>,
) -> Result<(), ErrorKind>
    requires { IsRunnable (expression_of expr.now) }
    ensures put { OnOk result (Puts (statement_code no_ways (print (expression_of expr.now))) code.old code.new) }
    ensures refused { IfErr result (Refuses (code_in code.new)) }
{
    match printing_of(expr) {
        Printing::Value => print_value(alloc, code, expr),
        Printing::Block(name) => {
            let name = CowStr::Borrowed(name);
            put(code, Instruction::CallBlock(name), Some(expr.span()))
        }
        Printing::Super => put(code, Instruction::FastSuper, Some(expr.span())),
        Printing::Rounds(value) => print_rounds(alloc, code, value, expr.span()),
    }
}

// A value.
#[inline(always)]
fn print_value<'source>(
    alloc: Global,
    code: &mut Instructions<'source>,
    expr: &Expr<'source>,
) -> Result<(), ErrorKind>
    requires { IsRunnable (expression_of expr.now) }
    ensures put { OnOk result (Puts (then_code (expression_code (expression_of expr.now)) (one emit)) code.old code.new) }
    ensures refused { IfErr result (Refuses (code_in code.new)) }
{
    compile_expr(alloc, code, expr)?;
    put(code, Instruction::Emit, None)
}

// The rounds of a loop over a value.
#[inline(always)]
fn print_rounds<'source>(
    alloc: Global,
    code: &mut Instructions<'source>,
    value: &Expr<'source>,
    span: Span,
) -> Result<(), ErrorKind>
    requires { IsRunnable (expression_of value.now) }
    ensures put { OnOk result
        (Puts (then_code (expression_code (expression_of value.now)) (one fast_recurse)) code.old code.new) }
    ensures refused { IfErr result (Refuses (code_in code.new)) }
{
    compile_expr(alloc, code, value)?;
    put(code, Instruction::FastRecurse, Some(span))
}

// What the print of an expression writes.
fn printing_of<'ast, 'source>(expr: &'ast Expr<'source>) -> Printing<'ast, 'source>
    ensures { printed_as result ≡ printed_of (expression_of expr.now) }
{
    match expr {
        Expr::Call(n) => call_printing(&n.node),
        Expr::Var(_) => Printing::Value,
        Expr::Const(_) => Printing::Value,
        Expr::Slice(_) => Printing::Value,
        Expr::UnaryOp(_) => Printing::Value,
        Expr::BinOp(_) => Printing::Value,
        Expr::Compare(_) => Printing::Value,
        Expr::IfExpr(_) => Printing::Value,
        Expr::Filter(_) => Printing::Value,
        Expr::Test(_) => Printing::Value,
        Expr::GetAttr(_) => Printing::Value,
        Expr::GetItem(_) => Printing::Value,
        Expr::List(_) => Printing::Value,
        Expr::Tuple(_) => Printing::Value,
        Expr::Map(_) => Printing::Value,
    }
}

// The same of a call.
fn call_printing<'ast, 'source>(call: &'ast Call<'source>) -> Printing<'ast, 'source>
    ensures { printed_as result ≡ printed_of (call_of call.now) }
{
    match call.identify_call() {
        CallType::Function(name) => named_printing(call, name),
        CallType::Method(_, _) => Printing::Value,
        CallType::Block(name) => Printing::Block(name),
        CallType::Object(_) => Printing::Value,
    }
}

// The same of a call of a name.
fn named_printing<'ast, 'source>(call: &'ast Call<'source>, name: &str) -> Printing<'ast, 'source>
    ensures { printed_as result ≡ printed_named name.now (arguments_in call.now.args.items) }
{
    if is_super(name) && has_no_arguments(call) {
        return Printing::Super;
    }
    if is_loop(name) {
        rounds_printing(&call.args)
    } else {
        Printing::Value
    }
}

// The same of a call of `loop` with arguments: its rounds run over one that is passed by its place, if there is no other.
fn rounds_printing<'ast, 'source>(arguments: &'ast [CallArg<'source>]) -> Printing<'ast, 'source>
    ensures { printed_as result ≡ printed_rounds (arguments_in arguments.now) }
{
    if arguments.len() != 1 {
        return Printing::Value;
    }
    match &arguments[0] {
        CallArg::Pos(value) => Printing::Rounds(value),
        CallArg::Kwarg(_, _) => Printing::Value,
        CallArg::PosSplat(_) => Printing::Value,
        CallArg::KwargSplat(_) => Printing::Value,
    }
}

// Whether what is called is the block that the running one stands for.
fn is_super(name: &str) -> bool
    ensures { result ≡ is_super_name name.now }
{
    name == "super"
}

// Whether what is called is the loop around the print.
fn is_loop(name: &str) -> bool
    ensures { result ≡ is_loop_name name.now }
{
    name == "loop"
}
