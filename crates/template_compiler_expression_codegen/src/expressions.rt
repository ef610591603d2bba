//! Expressions. A tree is gone along its left parts in a loop; its other parts nest at most 150 deep. The code of
//! an expression comes from one span: it is told with the first instruction that is put, and none is told with the
//! others, which come from where the one before them comes.
ghost use Rattle.std.specs.Prelude.{◌≡◌, [], ◌∷◌, IsNone, None, Some, OnOk, IfOk, IfErr, length, option_and_then};
ghost use Rattle.std.specs.Cow.{cow_str_bytes};
ghost use Rattle.template_values_model.specs.Val.{none, silent_undefined};
ghost use Rattle.template_compiler_tree.specs.Tree.{list_literal, tuple_literal, map_literal};
ghost use Rattle.template_compiler_tree.specs.View.{expression_of, optional_in, expressions_in, links_in, argument_of, arguments_in};
ghost use Rattle.template_compiler_walk.specs.Constants.{constant_of, chain_constant};
ghost use Rattle.template_compiler_walk.specs.Runnable.{IsRunnable, IsRunnableIfGiven, AreRunnable, AreRunnableArguments, IsRunnableChain, AreRunnableLinks};
ghost use Rattle.template_compiler_walk.specs.Statements.{number_of};
ghost use Rattle.template_compiler_code.specs.Code.{build_list, build_map, build_tuple, get_item, operate, slice};
ghost use Rattle.template_compiler_code.specs.Listing.{code_in, TakesNoMore};
ghost use Rattle.template_compiler_codegen.specs.Expressions.{one, then_code, skipped, either_code, unary_code, expression_code, optional_code, expressions_code, entries_code, codes_of, entry_count, chain_code, filter_code, passed_code, argument_count, keyword_count, keyword_cores};
ghost use Rattle.template_compiler_folding.specs.Folding.{unary_folded, binary_folded, comparison_folded};
ghost use Rattle.template_compiler_emission.specs.Leaps.{leap_code, leap_of};
ghost use Rattle.template_compiler_emission.specs.Puts.{Puts, unless, held, behind};
ghost use Rattle.template_compiler_expression_codegen.specs.Chains.{Grows, constant_behind, leaps_in, left_behind, link_code, linked_to};
ghost use Rattle.template_compiler_expression_codegen.specs.Own.{own_constant, own_code, call_code, test_code};
ghost use Rattle.template_compiler_expression_codegen.specs.Passing.{keywords_code, PassesByPlace, PassesByName, ArePassedByPlace, ArePassedByName};

use crate::chains::{Link, Linked, end_link, is_false, put_leap, tell_leaps};
use crate::coded::{coded_left, coded_spine, is_block};
use crate::leaves::{
    compile_attribute, copied_name, first_from, hold, hold_literal, let_go, load_held, one_more,
    put_block, put_keyword, put_literal, put_name, several_more, unless_refused,
};
use crate::operators::{Choice, end_choice, end_constant_unary, end_operator};
use crate::stretches::{Stretches, put_list, put_map, put_merged, put_run, still_from};
use std::alloc::Global;
use std::borrow::CowStr;
use template_compiler_code::{Instruction, Instructions};
use template_compiler_emission::{
    Leap, land, leap_of, load_copy, operator_instruction, push, push_leap, unary_instruction,
};
use template_compiler_folding::{fold_list, fold_map, fold_tuple};
use template_compiler_tree::{
    BinOpKind, Call, CallArg, CompareOp, Expr, Filter, Span, Test, UnaryOpKind,
};
use template_values_core::Value;
use template_values_errors::ErrorKind;

// How many left parts of an expression are gone along by calls. Most have fewer, and no list is made for them.
const NEAR: u32 = 8;

// The value of an expression that is a constant tree, for which nothing is put; else its code is put
// behind the instructions.
#[cycle(expression)]
pub(crate) fn fold_expr<'source>(
    alloc: Global,
    code: &mut Instructions<'source>,
    expr: &Expr<'source>,
    from: Option<&Span>,
) -> Result<Option<Value>, ErrorKind>
    requires { IsRunnable (expression_of expr.now) }
    ensures constant { IfOk result (λ o. o ≡ constant_of (expression_of expr.now)) }
    ensures put { IfOk result (λ o. Puts (unless o (expression_code (expression_of expr.now))) code.old code.new) }
    ensures refused { IfErr result (λ kind. TakesNoMore (code_in code.new) (kind ∷ [])) }
{
    let mut value = None;
    fold_left(alloc, code, expr, &mut value, NEAR, from)?;
    Ok(value)
}

// The same, where so many left parts are gone along by calls; what has more is gone along by a list. The constant stands
// at a place of the caller's then, where none stood. Most first operands are names, for which no constant is sought.
#[cycle(expression)]
#[inline(always)]
fn fold_left<'source>(
    alloc: Global,
    code: &mut Instructions<'source>,
    expr: &Expr<'source>,
    value: &mut Option<Value>,
    near: u32,
    from: Option<&Span>,
) -> Result<(), ErrorKind>
    requires runs { IsRunnable (expression_of expr.now) }
    requires none { value.old ≡ None }
    ensures constant { OnOk result (value.new ≡ constant_of (expression_of expr.now)) }
    ensures put { OnOk result (Puts (unless value.new (expression_code (expression_of expr.now))) code.old code.new) }
    ensures refused { IfErr result (λ kind. TakesNoMore (code_in code.new) (kind ∷ [])) }
{
    if let Expr::Var(n) = expr {
        return put_name(code, n.node.id, from);
    }
    fold_tree(alloc, code, expr, value, near, from)
}

// The same for what may have a left part.
#[cycle(expression)]
#[inline(never)]
fn fold_tree<'source>(
    alloc: Global,
    code: &mut Instructions<'source>,
    expr: &Expr<'source>,
    value: &mut Option<Value>,
    near: u32,
    from: Option<&Span>,
) -> Result<(), ErrorKind>
    requires runs { IsRunnable (expression_of expr.now) }
    requires none { value.old ≡ None }
    ensures constant { OnOk result (value.new ≡ constant_of (expression_of expr.now)) }
    ensures put { OnOk result (Puts (unless value.new (expression_code (expression_of expr.now))) code.old code.new) }
    ensures refused { IfErr result (λ kind. TakesNoMore (code_in code.new) (kind ∷ [])) }
{
    match coded_left(expr) {
        Some(part) => {
            if near == 0 {
                return fold_spine(alloc, code, expr, value, from);
            }
            fold_left(alloc, code, part, value, near - 1, from)?;
            let told = first_from(1, &*value, from);
            fold_node(alloc, code, expr, value, told)
        }
        None => fold_node(alloc, code, expr, value, from),
    }
}

// The same along a list of the left parts.
#[cycle(expression)]
#[inline(never)]
fn fold_spine<'source>(
    alloc: Global,
    code: &mut Instructions<'source>,
    expr: &Expr<'source>,
    value: &mut Option<Value>,
    from: Option<&Span>,
) -> Result<(), ErrorKind>
    requires runs { IsRunnable (expression_of expr.now) }
    requires none { value.old ≡ None }
    ensures constant { OnOk result (value.new ≡ constant_of (expression_of expr.now)) }
    ensures put { OnOk result (Puts (unless value.new (expression_code (expression_of expr.now))) code.old code.new) }
    ensures refused { IfErr result (λ kind. TakesNoMore (code_in code.new) (kind ∷ [])) }
{
    let nodes = unless_refused(coded_spine(alloc, expr))?;
    let mut i = 0;
    while i < nodes.len() {
        let told = first_from(i, &*value, from);
        fold_node(alloc, code, nodes[i], value, told)?;
        i += 1;
    }
    Ok(())
}

// Puts the code of an expression behind the instructions. Most are names, for which no constant is sought.
#[cycle(expression)]
pub(crate) fn compile_expr<'source>(
    alloc: Global,
    code: &mut Instructions<'source>,
    expr: &Expr<'source>,
    from: Option<&Span>,
) -> Result<(), ErrorKind>
    requires { IsRunnable (expression_of expr.now) }
    ensures put { OnOk result (Puts (expression_code (expression_of expr.now)) code.old code.new) }
    ensures refused { IfErr result (λ kind. TakesNoMore (code_in code.new) (kind ∷ [])) }
{
    match expr {
        Expr::Var(n) => put_name(code, n.node.id, from),
        Expr::Const(n) => put_literal(code, &n.node.value, from),
        _ => compile_tree(alloc, code, expr, from),
    }
}

// The same for what may be a constant tree.
#[cycle(expression)]
#[inline(never)]
fn compile_tree<'source>(
    alloc: Global,
    code: &mut Instructions<'source>,
    expr: &Expr<'source>,
    from: Option<&Span>,
) -> Result<(), ErrorKind>
    requires { IsRunnable (expression_of expr.now) }
    ensures put { OnOk result (Puts (expression_code (expression_of expr.now)) code.old code.new) }
    ensures refused { IfErr result (λ kind. TakesNoMore (code_in code.new) (kind ∷ [])) }
{
    let mut value = None;
    fold_tree(alloc, code, expr, &mut value, NEAR, from)?;
    load_held(code, &mut value, from)
}

// A node behind its left part, whose value is given where it was held back; the value of the node takes its place.
#[cycle(expression)]
#[inline(always)]
fn fold_node<'source>(
    alloc: Global,
    code: &mut Instructions<'source>,
    expr: &Expr<'source>,
    value: &mut Option<Value>,
    from: Option<&Span>,
) -> Result<(), ErrorKind>
    requires { IsRunnable (expression_of expr.now) }
    ensures constant { OnOk result (value.new ≡ own_constant value.old (expression_of expr.now)) }
    ensures put { OnOk result (Puts (unless value.new (own_code value.old (expression_of expr.now))) code.old code.new) }
    ensures refused { IfErr result (λ kind. TakesNoMore (code_in code.new) (kind ∷ [])) }
{
    match expr {
        Expr::Var(n) => {
            let_go(value);
            put_name(code, n.node.id, from)
        }
        Expr::Const(n) => hold_literal(value, &n.node.value),
        Expr::UnaryOp(n) => fold_unary_operator(alloc, code, n.node.op, &n.node.expr, value, from),
        Expr::BinOp(n) => match leap_of(n.node.op) {
            Some(leap) => fold_choice(alloc, code, n.node.op, leap, value, &n.node.right, from),
            None => fold_operator(alloc, code, n.node.op, value, &n.node.right, from),
        },
        Expr::IfExpr(n) => {
            let node = &n.node;
            let_go(value);
            compile_choice(
                alloc,
                code,
                &node.test_expr,
                &node.true_expr,
                &node.false_expr,
                from,
            )
        }
        Expr::GetAttr(n) => compile_attribute(code, value, n.node.name, from),
        Expr::GetItem(n) => compile_item(alloc, code, value, &n.node.subscript_expr, from),
        Expr::Filter(n) => compile_filter(alloc, code, value, &n.node, from),
        Expr::Test(n) => compile_test(alloc, code, value, &n.node, from),
        Expr::Call(n) => compile_call(alloc, code, value, &n.node, from),
        Expr::Slice(n) => {
            compile_slice(
                alloc,
                code,
                value,
                &n.node.start,
                &n.node.stop,
                &n.node.step,
                from,
            )
        }
        Expr::Compare(n) => fold_chain(alloc, code, value, &n.node.ops, from),
        Expr::List(n) => fold_list_literal(alloc, code, &n.node.items, value, from),
        Expr::Tuple(n) => fold_tuple_literal(alloc, code, &n.node.items, value, from),
        Expr::Map(n) => fold_map_literal(alloc, code, &n.node.keys, &n.node.values, value, from),
    }
}

// An operator before its operand.
#[cycle(expression)]
#[inline(never)]
fn fold_unary_operator<'source>(
    alloc: Global,
    code: &mut Instructions<'source>,
    op: UnaryOpKind,
    operand: &Expr<'source>,
    value: &mut Option<Value>,
    from: Option<&Span>,
) -> Result<(), ErrorKind>
    requires { IsRunnable (expression_of operand.now) }
    ensures constant { OnOk result (value.new ≡ unary_folded op (constant_of (expression_of operand.now))) }
    ensures put { OnOk result
        (Puts (unless value.new (then_code (expression_code (expression_of operand.now)) (one (unary_code op)))) code.old code.new) }
    ensures refused { IfErr result (λ kind. TakesNoMore (code_in code.new) (kind ∷ [])) }
{
    let begins = code.len();
    let_go(value);
    fold_left(alloc, code, operand, value, NEAR, from)?;
    if value.is_none() {
        return push(code, unary_instruction(op), None);
    }
    end_constant_unary(code, begins, op, value, from)
}

// `and` or `or` behind its left side, which is loaded before the right one, and dropped again where both
// are constant.
#[cycle(expression)]
#[inline(never)]
fn fold_choice<'source>(
    alloc: Global,
    code: &mut Instructions<'source>,
    op: BinOpKind,
    leap: Leap,
    value: &mut Option<Value>,
    right: &Expr<'source>,
    from: Option<&Span>,
) -> Result<(), ErrorKind>
    requires { IsRunnable (expression_of right.now) }
    ensures constant { OnOk result (value.new ≡ binary_folded op value.old (constant_of (expression_of right.now))) }
    ensures put { OnOk result
        (Puts (unless value.new (behind value.old (skipped (leap_code leap) (expression_code (expression_of right.now)))))
        code.old code.new) }
    ensures refused { IfErr result (λ kind. TakesNoMore (code_in code.new) (kind ∷ [])) }
{
    if value.is_some() {
        return fold_constant_choice(alloc, code, op, leap, value, right, from);
    }
    let jump = push_leap(code, leap, None)?;
    compile_expr(alloc, code, right, None)?;
    land(code, jump, leap);
    Ok(())
}

// The same behind a constant.
#[cycle(expression)]
#[inline(never)]
fn fold_constant_choice<'source>(
    alloc: Global,
    code: &mut Instructions<'source>,
    op: BinOpKind,
    leap: Leap,
    value: &mut Option<Value>,
    right: &Expr<'source>,
    from: Option<&Span>,
) -> Result<(), ErrorKind>
    requires { IsRunnable (expression_of right.now) }
    ensures constant { OnOk result (value.new ≡ binary_folded op value.old (constant_of (expression_of right.now))) }
    ensures put { OnOk result
        (Puts (unless value.new (behind value.old (skipped (leap_code leap) (expression_code (expression_of right.now)))))
        code.old code.new) }
    ensures refused { IfErr result (λ kind. TakesNoMore (code_in code.new) (kind ∷ [])) }
{
    let begins = code.len();
    load_copy(code, value, from)?;
    let jump = push_leap(code, leap, None)?;
    let constant = fold_expr(alloc, code, right, None)?;
    let choice = Choice { begins, jump, leap };
    let folded = end_choice(alloc, code, choice, op, value.take(), constant)?;
    hold(value, folded);
    Ok(())
}

// Another operator behind its left side, which is loaded before the right one, and dropped again where
// both are constant.
#[cycle(expression)]
#[inline(never)]
fn fold_operator<'source>(
    alloc: Global,
    code: &mut Instructions<'source>,
    op: BinOpKind,
    value: &mut Option<Value>,
    right: &Expr<'source>,
    from: Option<&Span>,
) -> Result<(), ErrorKind>
    requires right { IsRunnable (expression_of right.now) }
    requires op { IsNone (leap_of op) }
    ensures constant { OnOk result (value.new ≡ binary_folded op value.old (constant_of (expression_of right.now))) }
    ensures put { OnOk result
        (Puts (unless value.new (behind value.old (then_code (expression_code (expression_of right.now)) (one (operate op)))))
        code.old code.new) }
    ensures refused { IfErr result (λ kind. TakesNoMore (code_in code.new) (kind ∷ [])) }
{
    if value.is_some() {
        return fold_constant_operator(alloc, code, op, value, right, from);
    }
    compile_expr(alloc, code, right, None)?;
    push(code, operator_instruction(op), None)
}

// The same behind a constant.
#[cycle(expression)]
#[inline(never)]
fn fold_constant_operator<'source>(
    alloc: Global,
    code: &mut Instructions<'source>,
    op: BinOpKind,
    value: &mut Option<Value>,
    right: &Expr<'source>,
    from: Option<&Span>,
) -> Result<(), ErrorKind>
    requires right { IsRunnable (expression_of right.now) }
    requires op { IsNone (leap_of op) }
    ensures constant { OnOk result (value.new ≡ binary_folded op value.old (constant_of (expression_of right.now))) }
    ensures put { OnOk result
        (Puts (unless value.new (behind value.old (then_code (expression_code (expression_of right.now)) (one (operate op)))))
        code.old code.new) }
    ensures refused { IfErr result (λ kind. TakesNoMore (code_in code.new) (kind ∷ [])) }
{
    let begins = code.len();
    load_copy(code, value, from)?;
    let constant = fold_expr(alloc, code, right, None)?;
    let folded = end_operator(alloc, code, begins, op, value.take(), constant)?;
    hold(value, folded);
    Ok(())
}

// An expression that may be left out, for which a constant stands then.
#[cycle(expression)]
fn compile_optional<'source>(
    alloc: Global,
    code: &mut Instructions<'source>,
    expr: &Option<Expr<'source>>,
    missing: Value,
) -> Result<(), ErrorKind>
    requires { IsRunnableIfGiven (optional_in expr.now) }
    ensures put { OnOk result (Puts (optional_code missing (optional_in expr.now)) code.old code.new) }
    ensures refused { IfErr result (λ kind. TakesNoMore (code_in code.new) (kind ∷ [])) }
{
    match expr {
        Some(expr) => compile_expr(alloc, code, expr, None),
        None => push(code, Instruction::LoadConst(missing), None),
    }
}

// A test, and one of two values; the other one is undefined where it is left out.
#[cycle(expression)]
#[inline(never)]
fn compile_choice<'source>(
    alloc: Global,
    code: &mut Instructions<'source>,
    test: &Expr<'source>,
    branch: &Expr<'source>,
    otherwise: &Option<Expr<'source>>,
    from: Option<&Span>,
) -> Result<(), ErrorKind>
    requires test { IsRunnable (expression_of test.now) }
    requires branch { IsRunnable (expression_of branch.now) }
    requires otherwise { IsRunnableIfGiven (optional_in otherwise.now) }
    ensures put { OnOk result
        (Puts (then_code (expression_code (expression_of test.now))
        (either_code (expression_code (expression_of branch.now)) (optional_code silent_undefined (optional_in otherwise.now))))
        code.old code.new) }
    ensures refused { IfErr result (λ kind. TakesNoMore (code_in code.new) (kind ∷ [])) }
{
    compile_expr(alloc, code, test, from)?;
    let second = push_leap(code, Leap::IfFalse, None)?;
    compile_expr(alloc, code, branch, None)?;
    let end = push_leap(code, Leap::Always, None)?;
    land(code, second, Leap::IfFalse);
    compile_optional(alloc, code, otherwise, Value::silent_undefined())?;
    land(code, end, Leap::Always);
    Ok(())
}

// An item of the left part.
#[cycle(expression)]
#[inline(never)]
fn compile_item<'source>(
    alloc: Global,
    code: &mut Instructions<'source>,
    left: &mut Option<Value>,
    key: &Expr<'source>,
    from: Option<&Span>,
) -> Result<(), ErrorKind>
    requires { IsRunnable (expression_of key.now) }
    ensures taken { OnOk result (left.new ≡ None) }
    ensures put { OnOk result
        (Puts (behind left.old (then_code (expression_code (expression_of key.now)) (one get_item))) code.old code.new) }
    ensures refused { IfErr result (λ kind. TakesNoMore (code_in code.new) (kind ∷ [])) }
{
    load_held(code, left, from)?;
    compile_expr(alloc, code, key, None)?;
    push(code, Instruction::GetItem, None)
}

// A slice of the left part; a bound that is left out is none.
#[cycle(expression)]
#[inline(never)]
fn compile_slice<'source>(
    alloc: Global,
    code: &mut Instructions<'source>,
    left: &mut Option<Value>,
    start: &Option<Expr<'source>>,
    stop: &Option<Expr<'source>>,
    step: &Option<Expr<'source>>,
    from: Option<&Span>,
) -> Result<(), ErrorKind>
    requires start { IsRunnableIfGiven (optional_in start.now) }
    requires stop { IsRunnableIfGiven (optional_in stop.now) }
    requires step { IsRunnableIfGiven (optional_in step.now) }
    ensures taken { OnOk result (left.new ≡ None) }
    ensures put { OnOk result
        (Puts (behind left.old (then_code (optional_code none (optional_in start.now))
        (then_code (optional_code none (optional_in stop.now)) (then_code (optional_code none (optional_in step.now)) (one slice)))))
        code.old code.new) }
    ensures refused { IfErr result (λ kind. TakesNoMore (code_in code.new) (kind ∷ [])) }
{
    load_held(code, left, from)?;
    compile_optional(alloc, code, start, Value::none())?;
    compile_optional(alloc, code, stop, Value::none())?;
    compile_optional(alloc, code, step, Value::none())?;
    push(code, Instruction::Slice, None)
}

// A call, of a name or a block, or behind its left part: of a method of that part, or of that part itself.
#[cycle(expression)]
#[inline(never)]
pub(crate) fn compile_call<'source>(
    alloc: Global,
    code: &mut Instructions<'source>,
    left: &mut Option<Value>,
    call: &Call<'source>,
    from: Option<&Span>,
) -> Result<(), ErrorKind>
    requires { AreRunnableArguments (arguments_in call.now.args.items) }
    ensures taken { OnOk result (left.new ≡ None) }
    ensures put { OnOk result
        (Puts (call_code left.old (expression_of call.now.expr) (arguments_in call.now.args.items)) code.old code.new) }
    ensures refused { IfErr result (λ kind. TakesNoMore (code_in code.new) (kind ∷ [])) }
{
    match &call.expr {
        Expr::Var(n) => {
            let_go(left);
            let count = compile_arguments(alloc, code, 0, &call.args, from)?;
            let told = first_from(call.args.len(), left, from);
            let name = CowStr::Borrowed(n.node.id);
            push(code, Instruction::CallFunction(name, count), told)
        }
        Expr::GetAttr(n) => {
            let method = &n.node;
            if is_block(call, &method.expr) {
                let_go(left);
                return put_block(code, method.name, from);
            }
            load_held(code, left, from)?;
            let count = compile_arguments(alloc, code, 1, &call.args, None)?;
            let name = CowStr::Borrowed(method.name);
            push(code, Instruction::CallMethod(name, count), None)
        }
        _ => {
            load_held(code, left, from)?;
            let count = compile_arguments(alloc, code, 1, &call.args, None)?;
            push(code, Instruction::CallObject(count), None)
        }
    }
}

// A filter behind its value.
#[cycle(expression)]
#[inline(never)]
pub(crate) fn compile_filter<'source>(
    alloc: Global,
    code: &mut Instructions<'source>,
    left: &mut Option<Value>,
    filter: &Filter<'source>,
    from: Option<&Span>,
) -> Result<(), ErrorKind>
    requires { AreRunnableArguments (arguments_in filter.now.args.items) }
    ensures taken { OnOk result (left.new ≡ None) }
    ensures put { OnOk result
        (Puts (behind left.old (filter_code (cow_str_bytes filter.now.name) (arguments_in filter.now.args.items))) code.old code.new) }
    ensures refused { IfErr result (λ kind. TakesNoMore (code_in code.new) (kind ∷ [])) }
{
    let begins = code.len();
    load_held(code, left, from)?;
    let told = still_from(code, begins, from);
    let count = compile_arguments(alloc, code, 1, &filter.args, told)?;
    let name = copied_name(&filter.name)?;
    let told = still_from(code, begins, from);
    push(code, Instruction::ApplyFilter(name, count, u8::MAX), told)
}

// A test behind its value.
#[cycle(expression)]
#[inline(never)]
fn compile_test<'source>(
    alloc: Global,
    code: &mut Instructions<'source>,
    left: &mut Option<Value>,
    test: &Test<'source>,
    from: Option<&Span>,
) -> Result<(), ErrorKind>
    requires { AreRunnableArguments (arguments_in test.now.args.items) }
    ensures taken { OnOk result (left.new ≡ None) }
    ensures put { OnOk result
        (Puts (behind left.old (test_code (cow_str_bytes test.now.name) (arguments_in test.now.args.items))) code.old code.new) }
    ensures refused { IfErr result (λ kind. TakesNoMore (code_in code.new) (kind ∷ [])) }
{
    load_held(code, left, from)?;
    let count = compile_arguments(alloc, code, 1, &test.args, None)?;
    let name = copied_name(&test.name)?;
    push(code, Instruction::PerformTest(name, count, u8::MAX), None)
}

// The arguments behind so many values at the front: those that are passed by their place, and behind them a map of those
// that are passed by a name, where there are any; where one is spread, all of them become one counted run. The answer is
// how many values they are with those at the front, or none for a run.
#[cycle(expression)]
fn compile_arguments<'source>(
    alloc: Global,
    code: &mut Instructions<'source>,
    front: u16,
    arguments: &[CallArg<'source>],
    from: Option<&Span>,
) -> Result<Option<u16>, ErrorKind>
    requires { AreRunnableArguments (arguments_in arguments.now) }
    ensures count { IfOk result (λ count. count ≡ argument_count front (arguments_in arguments.now)) }
    ensures put { OnOk result (Puts (passed_code front (arguments_in arguments.now)) code.old code.new) }
    ensures refused { IfErr result (λ kind. TakesNoMore (code_in code.new) (kind ∷ [])) }
{
    let begins = code.len();
    let passed = compile_positional(alloc, code, front, arguments, from)?;
    let told = still_from(code, begins, from);
    let named = compile_keywords(alloc, code, arguments, told)?;
    let count = several_more(passed.last, named)?;
    put_run(code, passed.lists, count, passed.spread)
}

// The arguments that are passed by their place, behind so many values at the front.
#[cycle(expression)]
pub(crate) fn compile_positional<'source>(
    alloc: Global,
    code: &mut Instructions<'source>,
    front: u16,
    arguments: &[CallArg<'source>],
    from: Option<&Span>,
) -> Result<Stretches, ErrorKind>
    requires { AreRunnableArguments (arguments_in arguments.now) }
    ensures put { IfOk result (λ after. ArePassedByPlace front (arguments_in arguments.now) after code.old code.new) }
    ensures refused { IfErr result (λ kind. TakesNoMore (code_in code.new) (kind ∷ [])) }
{
    let begins = code.len();
    let mut so_far = Stretches {
        lists: 0,
        last: front,
        spread: false,
    };
    for argument in arguments {
        let told = still_from(code, begins, from);
        so_far = compile_value(alloc, code, argument, so_far, told)?;
    }
    Ok(so_far)
}

// An argument that is passed by its place, behind those so far; another one is passed over.
#[cycle(expression)]
fn compile_value<'source>(
    alloc: Global,
    code: &mut Instructions<'source>,
    argument: &CallArg<'source>,
    so_far: Stretches,
    from: Option<&Span>,
) -> Result<Stretches, ErrorKind>
    requires { AreRunnableArguments (arguments_in (argument.now ∷ [])) }
    ensures put { IfOk result (λ after. PassesByPlace (argument_of argument.now) so_far after code.old code.new) }
    ensures refused { IfErr result (λ kind. TakesNoMore (code_in code.new) (kind ∷ [])) }
{
    match argument {
        CallArg::Pos(expr) => {
            compile_expr(alloc, code, expr, from)?;
            let last = one_more(so_far.last)?;
            Ok(Stretches {
                lists: so_far.lists,
                last,
                spread: so_far.spread,
            })
        }
        CallArg::PosSplat(expr) => {
            let begins = code.len();
            let before = put_list(code, so_far.lists, so_far.last, from)?;
            let told = still_from(code, begins, from);
            compile_expr(alloc, code, expr, told)?;
            let lists = one_more(before)?;
            Ok(Stretches {
                lists,
                last: 0,
                spread: true,
            })
        }
        CallArg::Kwarg(_, _) => Ok(so_far),
        CallArg::KwargSplat(_) => Ok(so_far),
    }
}

// The arguments that are passed by a name, as one keyword map, if there are any. The answer is how many maps there are.
#[cycle(expression)]
fn compile_keywords<'source>(
    alloc: Global,
    code: &mut Instructions<'source>,
    arguments: &[CallArg<'source>],
    from: Option<&Span>,
) -> Result<u16, ErrorKind>
    requires { AreRunnableArguments (arguments_in arguments.now) }
    ensures count { IfOk result (λ n. n ≡ keyword_count (keyword_cores (arguments_in arguments.now))) }
    ensures put { OnOk result (Puts (keywords_code (keyword_cores (arguments_in arguments.now))) code.old code.new) }
    ensures refused { IfErr result (λ kind. TakesNoMore (code_in code.new) (kind ∷ [])) }
{
    let named = compile_named(alloc, code, arguments, from)?;
    let maps = put_map(code, named.lists, named.last)?;
    put_merged(code, maps, named.spread)
}

// The arguments that are passed by a name, each behind it.
#[cycle(expression)]
pub(crate) fn compile_named<'source>(
    alloc: Global,
    code: &mut Instructions<'source>,
    arguments: &[CallArg<'source>],
    from: Option<&Span>,
) -> Result<Stretches, ErrorKind>
    requires { AreRunnableArguments (arguments_in arguments.now) }
    ensures put { IfOk result (λ after. ArePassedByName (arguments_in arguments.now) after code.old code.new) }
    ensures refused { IfErr result (λ kind. TakesNoMore (code_in code.new) (kind ∷ [])) }
{
    let begins = code.len();
    let mut so_far = Stretches {
        lists: 0,
        last: 0,
        spread: false,
    };
    for argument in arguments {
        let told = still_from(code, begins, from);
        so_far = compile_entry(alloc, code, argument, so_far, told)?;
    }
    Ok(so_far)
}

// An argument that is passed by a name, behind those so far; another one is passed over.
#[cycle(expression)]
fn compile_entry<'source>(
    alloc: Global,
    code: &mut Instructions<'source>,
    argument: &CallArg<'source>,
    so_far: Stretches,
    from: Option<&Span>,
) -> Result<Stretches, ErrorKind>
    requires { AreRunnableArguments (arguments_in (argument.now ∷ [])) }
    ensures put { IfOk result (λ after. PassesByName (argument_of argument.now) so_far after code.old code.new) }
    ensures refused { IfErr result (λ kind. TakesNoMore (code_in code.new) (kind ∷ [])) }
{
    match argument {
        CallArg::Kwarg(name, expr) => {
            put_keyword(alloc, code, name, from)?;
            compile_expr(alloc, code, expr, None)?;
            let last = one_more(so_far.last)?;
            Ok(Stretches {
                lists: so_far.lists,
                last,
                spread: so_far.spread,
            })
        }
        CallArg::KwargSplat(expr) => {
            let before = put_map(code, so_far.lists, so_far.last)?;
            compile_expr(alloc, code, expr, from)?;
            let maps = one_more(before)?;
            Ok(Stretches {
                lists: maps,
                last: 0,
                spread: true,
            })
        }
        CallArg::Pos(_) => Ok(so_far),
        CallArg::PosSplat(_) => Ok(so_far),
    }
}

// The expressions, from the first to the last.
#[cycle(expression)]
fn compile_items<'source>(
    alloc: Global,
    code: &mut Instructions<'source>,
    items: &[Expr<'source>],
    from: Option<&Span>,
) -> Result<(), ErrorKind>
    requires { AreRunnable (expressions_in items.now) }
    ensures put { OnOk result (Puts (expressions_code (expressions_in items.now)) code.old code.new) }
    ensures refused { IfErr result (λ kind. TakesNoMore (code_in code.new) (kind ∷ [])) }
{
    let mut told = from;
    for item in items {
        compile_expr(alloc, code, item, told)?;
        told = None;
    }
    Ok(())
}

// The keys, each before the value at its place.
#[cycle(expression)]
fn compile_entries<'source>(
    alloc: Global,
    code: &mut Instructions<'source>,
    keys: &[Expr<'source>],
    values: &[Expr<'source>],
    from: Option<&Span>,
) -> Result<usize, ErrorKind>
    requires keys { AreRunnable (expressions_in keys.now) }
    requires values { AreRunnable (expressions_in values.now) }
    ensures count { IfOk result (λ count. count ≡ entry_count (expressions_in keys.now) (codes_of (expressions_in values.now))) }
    ensures put { OnOk result
        (Puts (entries_code (expressions_in keys.now) (codes_of (expressions_in values.now))) code.old code.new) }
    ensures refused { IfErr result (λ kind. TakesNoMore (code_in code.new) (kind ∷ [])) }
{
    let mut told = from;
    for (i, key) in keys.iter().enumerate() {
        if values.len() <= i {
            return Ok(i);
        }
        compile_expr(alloc, code, key, told)?;
        compile_expr(alloc, code, &values[i], None)?;
        told = None;
    }
    Ok(keys.len())
}

// A list of literals is a constant.
#[cycle(expression)]
#[inline(never)]
fn fold_list_literal<'source>(
    alloc: Global,
    code: &mut Instructions<'source>,
    items: &[Expr<'source>],
    value: &mut Option<Value>,
    from: Option<&Span>,
) -> Result<(), ErrorKind>
    requires { AreRunnable (expressions_in items.now) }
    ensures constant { OnOk result (value.new ≡ constant_of (list_literal (expressions_in items.now))) }
    ensures put { OnOk result (Puts (unless value.new
        (then_code (expressions_code (expressions_in items.now)) (one (build_list (Some (number_of (expressions_in items.now)))))))
        code.old code.new) }
    ensures refused { IfErr result (λ kind. TakesNoMore (code_in code.new) (kind ∷ [])) }
{
    match unless_refused(fold_list(alloc, items))? {
        Some(found) => {
            hold(value, Some(found));
            Ok(())
        }
        None => {
            let_go(value);
            compile_items(alloc, code, items, from)?;
            push(code, Instruction::BuildList(Some(items.len())), None)
        }
    }
}

// A tuple of literals is a constant.
#[cycle(expression)]
#[inline(never)]
fn fold_tuple_literal<'source>(
    alloc: Global,
    code: &mut Instructions<'source>,
    items: &[Expr<'source>],
    value: &mut Option<Value>,
    from: Option<&Span>,
) -> Result<(), ErrorKind>
    requires { AreRunnable (expressions_in items.now) }
    ensures constant { OnOk result (value.new ≡ constant_of (tuple_literal (expressions_in items.now))) }
    ensures put { OnOk result (Puts (unless value.new
        (then_code (expressions_code (expressions_in items.now)) (one (build_tuple (Some (number_of (expressions_in items.now)))))))
        code.old code.new) }
    ensures refused { IfErr result (λ kind. TakesNoMore (code_in code.new) (kind ∷ [])) }
{
    match unless_refused(fold_tuple(alloc, items))? {
        Some(found) => {
            hold(value, Some(found));
            Ok(())
        }
        None => {
            let_go(value);
            compile_items(alloc, code, items, from)?;
            push(code, Instruction::BuildTuple(Some(items.len())), None)
        }
    }
}

// A map of literals is a constant.
#[cycle(expression)]
#[inline(never)]
fn fold_map_literal<'source>(
    alloc: Global,
    code: &mut Instructions<'source>,
    keys: &[Expr<'source>],
    values: &[Expr<'source>],
    value: &mut Option<Value>,
    from: Option<&Span>,
) -> Result<(), ErrorKind>
    requires keys { AreRunnable (expressions_in keys.now) }
    requires values { AreRunnable (expressions_in values.now) }
    ensures constant { OnOk result (value.new ≡ constant_of (map_literal (expressions_in keys.now) (expressions_in values.now))) }
    ensures put { OnOk result (Puts (unless value.new
        (then_code (entries_code (expressions_in keys.now) (codes_of (expressions_in values.now)))
        (one (build_map (entry_count (expressions_in keys.now) (codes_of (expressions_in values.now)))))))
        code.old code.new) }
    ensures refused { IfErr result (λ kind. TakesNoMore (code_in code.new) (kind ∷ [])) }
{
    match unless_refused(fold_map(alloc, keys, values))? {
        Some(found) => {
            hold(value, Some(found));
            Ok(())
        }
        None => {
            let_go(value);
            let count = compile_entries(alloc, code, keys, values, from)?;
            push(code, Instruction::BuildMap(count), None)
        }
    }
}

// A comparison behind the value at its left; it is put, be it constant or not.
#[cycle(expression)]
fn compile_link<'source>(
    alloc: Global,
    code: &mut Instructions<'source>,
    left: &Option<Value>,
    link: &CompareOp<'source>,
) -> Result<Link, ErrorKind>
    requires { IsRunnable (expression_of link.now.expr) }
    ensures holds { IfOk result (λ l. l.holds ≡ comparison_folded link.now.op left.now (constant_of (expression_of link.now.expr))) }
    ensures left { IfOk result (λ l. l.left ≡ left_behind l.holds (constant_of (expression_of link.now.expr))) }
    ensures put { OnOk result (Puts (link_code link.now.op (expression_of link.now.expr)) code.old code.new) }
    ensures refused { IfErr result (λ kind. TakesNoMore (code_in code.new) (kind ∷ [])) }
{
    let right = fold_expr(alloc, code, &link.expr, None)?;
    end_link(code, left, link.op, right)
}

// The comparisons behind the first one, each behind a leap whose target is told later, up to one that is
// constant and false.
#[cycle(expression)]
fn compile_links<'source>(
    alloc: Global,
    code: &mut Instructions<'source>,
    first: Link,
    links: &[CompareOp<'source>],
) -> Result<Linked, ErrorKind>
    requires links { AreRunnableLinks (links_in links.now) }
    requires first { first.holds ≡ None → first.left ≡ None }
    ensures constant { IfOk result (λ l. l.holds ≡ constant_behind first.holds first.left (links_in links.now)) }
    ensures leaps { IfOk result (λ l. l.holds ≡ None → l.leaps.items ≡ leaps_in (links_in links.now) (length (code_in code.old))) }
    ensures put { IfOk result (λ l. l.holds ≡ None → Puts (linked_to 0 (links_in links.now)) code.old code.new) }
    ensures grown { OnOk result (Grows code.old code.new) }
    ensures refused { IfErr result (λ kind. TakesNoMore (code_in code.new) (kind ∷ [])) }
{
    let mut link = first;
    let mut leaps = Vec::new(alloc);
    for next in links {
        if is_false(&link.holds) {
            let Link { holds, .. } = link;
            return Ok(Linked { holds, leaps });
        }
        put_leap(code, &mut leaps)?;
        link = compile_link(alloc, code, &link.left, next)?;
    }
    let Link { holds, .. } = link;
    Ok(Linked { holds, leaps })
}

// The comparisons behind the first operand. Where they are constant, what is put is to be dropped again.
#[cycle(expression)]
fn compile_chain<'source>(
    alloc: Global,
    code: &mut Instructions<'source>,
    left: &Option<Value>,
    links: &[CompareOp<'source>],
) -> Result<Option<Value>, ErrorKind>
    requires { IsRunnableChain (links_in links.now) }
    ensures constant { IfOk result (λ o. o ≡ option_and_then (λ v. chain_constant v (links_in links.now)) left.now) }
    ensures put { IfOk result (λ o. o ≡ None → Puts (chain_code (links_in links.now)) code.old code.new) }
    ensures grown { OnOk result (Grows code.old code.new) }
    ensures refused { IfErr result (λ kind. TakesNoMore (code_in code.new) (kind ∷ [])) }
{
    let (first, later) = match links.split_first() {
        Some(parts) => parts,
        None => unreachable!(),
    };
    let link = compile_link(alloc, code, left, first)?;
    let Linked { holds, leaps } = compile_links(alloc, code, link, later)?;
    match holds {
        Some(holds) => Ok(Some(holds)),
        None => {
            tell_leaps(code, leaps);
            push(code, Instruction::Swap, None)?;
            push(code, Instruction::DiscardTop, None)?;
            Ok(None)
        }
    }
}

// The comparisons behind the first operand, which are dropped again where they are constant.
#[cycle(expression)]
#[inline(never)]
fn fold_chain<'source>(
    alloc: Global,
    code: &mut Instructions<'source>,
    value: &mut Option<Value>,
    links: &[CompareOp<'source>],
    from: Option<&Span>,
) -> Result<(), ErrorKind>
    requires { IsRunnableChain (links_in links.now) }
    ensures constant { OnOk result (value.new ≡ option_and_then (λ v. chain_constant v (links_in links.now)) value.old) }
    ensures put { OnOk result (Puts (unless value.new (behind value.old (chain_code (links_in links.now)))) code.old code.new) }
    ensures refused { IfErr result (λ kind. TakesNoMore (code_in code.new) (kind ∷ [])) }
{
    let begins = code.len();
    load_copy(code, value, from)?;
    match compile_chain(alloc, code, value, links)? {
        Some(holds) => {
            code.truncate(begins);
            hold(value, Some(holds));
            Ok(())
        }
        None => {
            let_go(value);
            Ok(())
        }
    }
}
