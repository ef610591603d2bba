//! Statements. Bodies nest at most 150 deep; a chain of `elif`, which may be as long as the source, is gone
//! along in a loop.
ghost use Rattle.std.specs.Prelude.{◌≡◌, ◌++◌, [], true, false, length, OnOk, IfOk, IfErr};
ghost use Rattle.template_compiler_tree.specs.Tree.{auto_escape, filter_block, for_loop, set_block, with_block};
ghost use Rattle.template_compiler_tree_statements.specs.View.{statement_of, assignments_in};
ghost use Rattle.template_compiler_tree.specs.View.{arguments_in, expression_of, optional_in};
ghost use Rattle.template_compiler_walk.specs.Runnable.{IsRunnable, IsRunnableIfGiven, AreFilters, IsTarget, AreAssignments, IsRunnableStatement, AreRunnableStatements};
ghost use Rattle.template_compiler_walk.specs.Statements.{caller_name};
ghost use Rattle.template_compiler_code.specs.Code.{call_block, discard_top, emit, emit_raw, include, load_blocks};
ghost use Rattle.template_compiler_code.specs.Listing.{code_in, TakesNoMore};
ghost use Rattle.template_compiler_codegen.specs.Expressions.{then_code, one, expression_code, filters_code};
ghost use Rattle.template_compiler_codegen.specs.Statements.{loop_end_code, loop_flags, no_ways, own_ways, rounds_code, statement_code, statements_code, target_code};
ghost use Rattle.template_compiler_emission.specs.Puts.{Keeps, Puts};
ghost use Rattle.template_compiler_expression_codegen.specs.Begun.{begun_code, ended_code};
ghost use Rattle.template_compiler_expression_codegen.specs.Calls.{call_of};
ghost use Rattle.template_compiler_statement_codegen.specs.Breaks.{breaks_in, led, loop_end_places};
ghost use Rattle.template_compiler_tree_parts.specs.Listed.{statements_in};
ghost use Rattle.template_compiler_statement_codegen.specs.Macros.{call_block_of, calling_code, declared_code, macro_of};
ghost use Rattle.template_compiler_statement_codegen.specs.Filtered.{AreFiltersIfGiven, filtered_store};
ghost use Rattle.template_compiler_statement_codegen.specs.Listed.{IsRunnableTree, body_in, condition_of};
ghost use Rattle.template_compiler_statement_codegen.specs.Refusals.{Refuses};
ghost use Rattle.template_compiler_statement_codegen.specs.Rounds.{Lowers, LowersBody, LowersStatement, LowersBranch, LowersChain, capturing, closed_code, closed_places, closing_code, places_in, ways_of};

use crate::imports::{compile_from_import, compile_import};
use crate::iterables::compile_iterable;
use crate::macros::{make_macro, store_parameters};
use crate::prints::compile_print;
use crate::puts::{append, compile_call, compile_expr, compile_filters, put, reserve};
use crate::rounds::{Closing, Round, put_break, put_continue};
use crate::targets::{store, store_all};
use crate::tell_breaks;
use std::alloc::Global;
use std::borrow::CowStr;
use template_compiler_code::{
    CaptureMode, Instruction, Instructions, LOOP_FLAG_RECURSIVE, LOOP_FLAG_WITH_LOOP_VAR,
};
use template_compiler_emission::{Leap, land};
use template_compiler_expression_codegen::{begin_call, end_call};
use template_compiler_tree::{Call, CallType, Expr, Span, Spanned};
use template_compiler_tree_statements::{ForLoop, IfCond, Macro, Stmt};
use template_values_errors::{Error, ErrorKind};

/// Puts the code of a whole template behind the instructions. Linear in the template, besides what the
/// operators of constant trees cost.
///
/// # Errors
///
/// Those of [`Instructions::add`].
pub fn compile_template<'source>(
    alloc: Global,
    code: &mut Instructions<'source>,
    tree: &Stmt<'source>,
) -> Result<(), Error>
    requires { IsRunnableTree (statement_of tree.now) }
    ensures put { OnOk result (Puts (statements_code no_ways (body_in (statement_of tree.now))) code.old code.new) }
    ensures refused { IfErr result (TakesNoMore (code_in code.new)) }
{
    compile_statements(alloc, code, children(tree))
}

/// The same of the statements of a stream: of a whole template, or of a block's body.
///
/// # Errors
///
/// Those of [`Instructions::add`].
pub fn compile_statements<'source>(
    alloc: Global,
    code: &mut Instructions<'source>,
    body: &[Stmt<'source>],
) -> Result<(), Error>
    requires { AreRunnableStatements false (statements_in body.now) }
    ensures put { OnOk result (Puts (statements_code no_ways (statements_in body.now)) code.old code.new) }
    ensures refused { IfErr result (TakesNoMore (code_in code.new)) }
{
    let mut round = Round::new(alloc, 0);
    match compile_body(alloc, code, &mut round, body) {
        Ok(()) => Ok(()),
        Err(kind) => Err(Error::new(kind)),
    }
}

/// The statements of a whole template.
pub fn children<'ast, 'source>(tree: &'ast Stmt<'source>) -> &'ast [Stmt<'source>]
    requires { IsRunnableTree (statement_of tree.now) }
    ensures { statements_in result.now ≡ body_in (statement_of tree.now) }
{
    match tree {
        Stmt::Template(n) => return &n.node.children,
        Stmt::EmitExpr(_) => unreachable!(),
        Stmt::EmitRaw(_) => unreachable!(),
        Stmt::ForLoop(_) => unreachable!(),
        Stmt::IfCond(_) => unreachable!(),
        Stmt::WithBlock(_) => unreachable!(),
        Stmt::Set(_) => unreachable!(),
        Stmt::SetBlock(_) => unreachable!(),
        Stmt::AutoEscape(_) => unreachable!(),
        Stmt::FilterBlock(_) => unreachable!(),
        Stmt::Block(_) => unreachable!(),
        Stmt::Import(_) => unreachable!(),
        Stmt::FromImport(_) => unreachable!(),
        Stmt::Extends(_) => unreachable!(),
        Stmt::Include(_) => unreachable!(),
        Stmt::Macro(_) => unreachable!(),
        Stmt::CallBlock(_) => unreachable!(),
        Stmt::Continue(_) => unreachable!(),
        Stmt::Break(_) => unreachable!(),
        Stmt::Do(_) => unreachable!(),
    }
}

// The statements of a body, from the first to the last.
#[cycle(statement)]
fn compile_body<'source>(
    alloc: Global,
    code: &mut Instructions<'source>,
    round: &mut Round,
    body: &[Stmt<'source>],
) -> Result<(), ErrorKind>
    requires { AreRunnableStatements true (statements_in body.now) }
    ensures lowered { OnOk result (LowersBody (statements_in body.now) code.old code.new round.old round.new) }
    ensures refused { IfErr result (Refuses (code_in code.new)) }
{
    for statement in body {
        compile_statement(alloc, code, round, statement)?;
    }
    Ok(())
}

// A statement. Most are texts.
#[cycle(statement)]
#[inline(always)]
fn compile_statement<'source>(
    alloc: Global,
    code: &mut Instructions<'source>,
    round: &mut Round,
    statement: &Stmt<'source>,
) -> Result<(), ErrorKind>
    requires { IsRunnableStatement true (statement_of statement.now) }
    ensures lowered { OnOk result (LowersStatement (statement_of statement.now) code.old code.new round.old round.new) }
    ensures refused { IfErr result (Refuses (code_in code.new)) }
{
    match statement {
        Stmt::EmitRaw(n) => compile_text(code, n.node.raw, n.span),
        _ => compile_any(alloc, code, round, statement),
    }
}

// The same, each kind by a function of its own.
#[cycle(statement)]
#[inline(never)]
fn compile_any<'source>(
    alloc: Global,
    code: &mut Instructions<'source>,
    round: &mut Round,
    statement: &Stmt<'source>,
) -> Result<(), ErrorKind>
    requires { IsRunnableStatement true (statement_of statement.now) }
    ensures lowered { OnOk result (LowersStatement (statement_of statement.now) code.old code.new round.old round.new) }
    ensures refused { IfErr result (Refuses (code_in code.new)) }
{
    match statement {
        Stmt::EmitRaw(n) => compile_text_apart(code, n.node.raw, &n.span),
        Stmt::EmitExpr(n) => compile_print(alloc, code, &n.node.expr),
        Stmt::Set(n) => compile_set(alloc, code, &n.node.target, &n.node.expr),
        Stmt::Include(n) => compile_include(alloc, code, &n.node.name, n.node.ignore_missing),
        Stmt::Block(n) => compile_block(code, n.node.name, &n.span),
        Stmt::Import(n) => compile_import(alloc, code, &n.node.expr, &n.node.name, &n.span),
        Stmt::FromImport(n) => compile_from_import(alloc, code, &n.node, &n.span),
        Stmt::Extends(n) => compile_extends(alloc, code, &n.node.name),
        Stmt::Do(n) => compile_do(alloc, code, &n.node.call),
        Stmt::IfCond(n) => compile_condition(alloc, code, round, n),
        Stmt::ForLoop(n) => compile_loop(alloc, code, round, &n.node, &n.span),
        Stmt::WithBlock(n) => {
            compile_with(
                alloc,
                code,
                round,
                &n.node.assignments,
                &n.node.body,
                &n.span,
            )
        }
        Stmt::SetBlock(n) => {
            let node = &n.node;
            compile_set_block(
                alloc,
                code,
                round,
                &node.target,
                &node.filter,
                &node.body,
                &n.span,
            )
        }
        Stmt::FilterBlock(n) => {
            let node = &n.node;
            compile_filter_block(alloc, code, round, &node.filter, &node.body, &n.span)
        }
        Stmt::AutoEscape(n) => {
            compile_auto_escape(alloc, code, round, &n.node.enabled, &n.node.body, &n.span)
        }
        Stmt::Continue(n) => put_continue(code, &*round, &n.span),
        Stmt::Break(n) => put_break(code, round, &n.span),
        Stmt::Macro(n) => compile_macro(alloc, code, &n.node, &n.span),
        Stmt::CallBlock(n) => compile_call_block(alloc, code, &n.node.call, &n.node.macro_decl),
        Stmt::Template(_) => unreachable!(),
    }
}

// A text, which is written as it stands.
#[inline(always)]
fn compile_text<'source>(
    code: &mut Instructions<'source>,
    text: &'source str,
    span: Span,
) -> Result<(), ErrorKind>
    ensures put { OnOk result (Puts (one (emit_raw text.now)) code.old code.new) }
    ensures refused { IfErr result (Refuses (code_in code.new)) }
{
    put(
        code,
        Instruction::EmitRaw(CowStr::Borrowed(text)),
        Some(span),
    )
}

// The same by a call.
#[inline(never)]
fn compile_text_apart<'source>(
    code: &mut Instructions<'source>,
    text: &'source str,
    span: &Span,
) -> Result<(), ErrorKind>
    ensures put { OnOk result (Puts (one (emit_raw text.now)) code.old code.new) }
    ensures refused { IfErr result (Refuses (code_in code.new)) }
{
    compile_text(code, text, *span)
}

// A value that is stored in a target.
#[inline(never)]
fn compile_set<'source>(
    alloc: Global,
    code: &mut Instructions<'source>,
    target: &Expr<'source>,
    expr: &Expr<'source>,
) -> Result<(), ErrorKind>
    requires target { IsTarget (expression_of target.now) }
    requires expr { IsRunnable (expression_of expr.now) }
    ensures put { OnOk result
        (Puts (then_code (expression_code (expression_of expr.now)) (target_code (expression_of target.now))) code.old code.new) }
    ensures refused { IfErr result (Refuses (code_in code.new)) }
{
    compile_expr(alloc, code, expr)?;
    store(alloc, code, target)
}

// A template that is run here.
#[inline(never)]
fn compile_include<'source>(
    alloc: Global,
    code: &mut Instructions<'source>,
    name: &Expr<'source>,
    ignore_missing: bool,
) -> Result<(), ErrorKind>
    requires { IsRunnable (expression_of name.now) }
    ensures put { OnOk result
        (Puts (then_code (expression_code (expression_of name.now)) (one (include ignore_missing))) code.old code.new) }
    ensures refused { IfErr result (Refuses (code_in code.new)) }
{
    compile_expr(alloc, code, name)?;
    put(code, Instruction::Include(ignore_missing), None)
}

// A block, which runs here. Its body is a stream of its own.
#[inline(never)]
fn compile_block<'source>(
    code: &mut Instructions<'source>,
    name: &'source str,
    span: &Span,
) -> Result<(), ErrorKind>
    ensures put { OnOk result (Puts (one (call_block name.now)) code.old code.new) }
    ensures refused { IfErr result (Refuses (code_in code.new)) }
{
    let name = CowStr::Borrowed(name);
    put(code, Instruction::CallBlock(name), Some(*span))
}

// The template that this one extends.
#[inline(never)]
fn compile_extends<'source>(
    alloc: Global,
    code: &mut Instructions<'source>,
    name: &Expr<'source>,
) -> Result<(), ErrorKind>
    requires { IsRunnable (expression_of name.now) }
    ensures put { OnOk result
        (Puts (then_code (expression_code (expression_of name.now)) (one load_blocks)) code.old code.new) }
    ensures refused { IfErr result (Refuses (code_in code.new)) }
{
    compile_expr(alloc, code, name)?;
    put(code, Instruction::LoadBlocks, None)
}

// A call whose value is dropped.
#[inline(never)]
fn compile_do<'source>(
    alloc: Global,
    code: &mut Instructions<'source>,
    call: &Spanned<Call<'source>>,
) -> Result<(), ErrorKind>
    requires { IsRunnable (call_of call.now.node) }
    ensures put { OnOk result
        (Puts (then_code (expression_code (call_of call.now.node)) (one discard_top)) code.old code.new) }
    ensures refused { IfErr result (Refuses (code_in code.new)) }
{
    compile_call(alloc, code, call)?;
    put(code, Instruction::DiscardTop, None)
}

// A body inside of what is closed behind it.
#[cycle(statement)]
fn compile_closed<'source>(
    alloc: Global,
    code: &mut Instructions<'source>,
    round: &mut Round,
    closing: Closing,
    body: &[Stmt<'source>],
    span: &Span,
) -> Result<(), ErrorKind>
    requires { AreRunnableStatements true (statements_in body.now) }
    ensures lowered { OnOk result
        (Lowers (closed_code (closing_code closing) (ways_of round.old) (statements_in body.now))
        (closed_places (closing_code closing) (ways_of round.old) (statements_in body.now)) code.old code.new round.old round.new) }
    ensures refused { IfErr result (Refuses (code_in code.new)) }
{
    let open = round.closings.len();
    append(&mut round.closings, closing)?;
    compile_body(alloc, code, round, body)?;
    round.closings.truncate(open);
    put(code, closing.instruction(), Some(*span))
}

// A frame with assignments, around a body.
#[cycle(statement)]
#[inline(never)]
fn compile_with<'source>(
    alloc: Global,
    code: &mut Instructions<'source>,
    round: &mut Round,
    assignments: &[(Expr<'source>, Expr<'source>)],
    body: &[Stmt<'source>],
    span: &Span,
) -> Result<(), ErrorKind>
    requires assignments { AreAssignments (assignments_in assignments.now) }
    requires body { AreRunnableStatements true (statements_in body.now) }
    ensures lowered { OnOk result
        (LowersStatement (with_block (assignments_in assignments.now) (statements_in body.now)) code.old code.new round.old round.new) }
    ensures refused { IfErr result (Refuses (code_in code.new)) }
{
    put(code, Instruction::PushWith, Some(*span))?;
    store_all(alloc, code, assignments)?;
    compile_closed(alloc, code, round, Closing::Frame, body, span)
}

// The text of a body, which is stored in a target, behind the filters, if there are any.
#[cycle(statement)]
#[inline(never)]
fn compile_set_block<'source>(
    alloc: Global,
    code: &mut Instructions<'source>,
    round: &mut Round,
    target: &Expr<'source>,
    filters: &Option<Expr<'source>>,
    body: &[Stmt<'source>],
    span: &Span,
) -> Result<(), ErrorKind>
    requires target { IsTarget (expression_of target.now) }
    requires filters { AreFiltersIfGiven (optional_in filters.now) }
    requires body { AreRunnableStatements true (statements_in body.now) }
    ensures lowered { OnOk result
        (LowersStatement (set_block (expression_of target.now) (optional_in filters.now) (statements_in body.now))
        code.old code.new round.old round.new) }
    ensures refused { IfErr result (Refuses (code_in code.new)) }
{
    put(
        code,
        Instruction::BeginCapture(CaptureMode::Capture),
        Some(*span),
    )?;
    compile_captured(alloc, code, round, body)?;
    put(code, Instruction::EndCapture, Some(*span))?;
    store_filtered(alloc, code, filters, target)
}

// What the filters make of the value on top, if there are any, is stored in a target.
fn store_filtered<'source>(
    alloc: Global,
    code: &mut Instructions<'source>,
    filters: &Option<Expr<'source>>,
    target: &Expr<'source>,
) -> Result<(), ErrorKind>
    requires filters { AreFiltersIfGiven (optional_in filters.now) }
    requires target { IsTarget (expression_of target.now) }
    ensures put { OnOk result (Puts (filtered_store (optional_in filters.now) (expression_of target.now)) code.old code.new) }
    ensures refused { IfErr result (Refuses (code_in code.new)) }
{
    match filters {
        Some(filters) => {
            compile_filters(alloc, code, filters)?;
            store(alloc, code, target)
        }
        None => store(alloc, code, target),
    }
}

// The text of a body, which is printed behind the filters.
#[cycle(statement)]
#[inline(never)]
fn compile_filter_block<'source>(
    alloc: Global,
    code: &mut Instructions<'source>,
    round: &mut Round,
    filters: &Expr<'source>,
    body: &[Stmt<'source>],
    span: &Span,
) -> Result<(), ErrorKind>
    requires filters { AreFilters (expression_of filters.now) }
    requires body { AreRunnableStatements true (statements_in body.now) }
    ensures lowered { OnOk result
        (LowersStatement (filter_block (expression_of filters.now) (statements_in body.now)) code.old code.new round.old round.new) }
    ensures refused { IfErr result (Refuses (code_in code.new)) }
{
    put(
        code,
        Instruction::BeginCapture(CaptureMode::Capture),
        Some(*span),
    )?;
    compile_captured(alloc, code, round, body)?;
    put(code, Instruction::EndCapture, Some(*span))?;
    print_filtered(alloc, code, filters)
}

// What the filters make of the value on top is printed.
fn print_filtered<'source>(
    alloc: Global,
    code: &mut Instructions<'source>,
    filters: &Expr<'source>,
) -> Result<(), ErrorKind>
    requires { AreFilters (expression_of filters.now) }
    ensures put { OnOk result (Puts (then_code (filters_code (expression_of filters.now)) (one emit)) code.old code.new) }
    ensures refused { IfErr result (Refuses (code_in code.new)) }
{
    compile_filters(alloc, code, filters)?;
    put(code, Instruction::Emit, None)
}

// A body whose text is captured: what leaves it ends the capture, and drops the text.
#[cycle(statement)]
fn compile_captured<'source>(
    alloc: Global,
    code: &mut Instructions<'source>,
    round: &mut Round,
    body: &[Stmt<'source>],
) -> Result<(), ErrorKind>
    requires { AreRunnableStatements true (statements_in body.now) }
    ensures lowered { OnOk result
        (Lowers (statements_code (capturing (ways_of round.old)) (statements_in body.now))
        (breaks_in (capturing (ways_of round.old)) (statements_in body.now)) code.old code.new round.old round.new) }
    ensures refused { IfErr result (Refuses (code_in code.new)) }
{
    let open = round.closings.len();
    append(&mut round.closings, Closing::Text)?;
    append(&mut round.closings, Closing::Capture)?;
    compile_body(alloc, code, round, body)?;
    round.closings.truncate(open);
    Ok(())
}

// Another escape, around a body.
#[cycle(statement)]
#[inline(never)]
fn compile_auto_escape<'source>(
    alloc: Global,
    code: &mut Instructions<'source>,
    round: &mut Round,
    enabled: &Expr<'source>,
    body: &[Stmt<'source>],
    span: &Span,
) -> Result<(), ErrorKind>
    requires enabled { IsRunnable (expression_of enabled.now) }
    requires body { AreRunnableStatements true (statements_in body.now) }
    ensures lowered { OnOk result
        (LowersStatement (auto_escape (expression_of enabled.now) (statements_in body.now)) code.old code.new round.old round.new) }
    ensures refused { IfErr result (Refuses (code_in code.new)) }
{
    compile_expr(alloc, code, enabled)?;
    put(code, Instruction::PushAutoEscape, None)?;
    compile_closed(alloc, code, round, Closing::AutoEscape, body, span)
}

// A macro, which is stored under its name.
#[cycle(statement)]
#[inline(never)]
fn compile_macro<'source>(
    alloc: Global,
    code: &mut Instructions<'source>,
    declared: &Macro<'source>,
    span: &Span,
) -> Result<(), ErrorKind>
    requires { IsRunnableStatement true (macro_of declared.now) }
    ensures put { OnOk result (Puts (statement_code no_ways (macro_of declared.now)) code.old code.new) }
    ensures refused { IfErr result (Refuses (code_in code.new)) }
{
    compile_declared(alloc, code, declared.name, declared, span)?;
    let name = CowStr::Borrowed(declared.name);
    put(code, Instruction::StoreLocal(name), None)
}

// A call whose value is printed. What stands in the block is made a macro, which is its last keyword argument, but where
// a block is called.
#[cycle(statement)]
#[inline(never)]
fn compile_call_block<'source>(
    alloc: Global,
    code: &mut Instructions<'source>,
    call: &Spanned<Call<'source>>,
    declared: &Spanned<Macro<'source>>,
) -> Result<(), ErrorKind>
    requires { IsRunnableStatement true (call_block_of call.now.node declared.now.node) }
    ensures put { OnOk result
        (Puts (statement_code no_ways (call_block_of call.now.node declared.now.node)) code.old code.new) }
    ensures refused { IfErr result (Refuses (code_in code.new)) }
{
    compile_called(alloc, code, call, declared)?;
    put(code, Instruction::Emit, None)
}

// Its call.
#[cycle(statement)]
fn compile_called<'source>(
    alloc: Global,
    code: &mut Instructions<'source>,
    call: &Spanned<Call<'source>>,
    declared: &Spanned<Macro<'source>>,
) -> Result<(), ErrorKind>
    requires { IsRunnableStatement true (call_block_of call.now.node declared.now.node) }
    ensures put { OnOk result (Puts (calling_code call.now.node declared.now.node) code.old code.new) }
    ensures refused { IfErr result (Refuses (code_in code.new)) }
{
    match call.node.identify_call() {
        CallType::Block(_) => compile_call(alloc, code, call),
        _ => compile_with_caller(alloc, code, call, declared),
    }
}

// A call with a macro as its last keyword argument.
#[cycle(statement)]
fn compile_with_caller<'source>(
    alloc: Global,
    code: &mut Instructions<'source>,
    call: &Spanned<Call<'source>>,
    declared: &Spanned<Macro<'source>>,
) -> Result<(), ErrorKind>
    requires call { IsRunnable (call_of call.now.node) }
    requires declared { IsRunnableStatement true (macro_of declared.now.node) }
    ensures put { OnOk result
        (Puts (then_code (begun_code (expression_of call.now.node.expr) (arguments_in call.now.node.args.items) caller_name)
        (then_code (declared_code caller_name declared.now.node)
        (ended_code (expression_of call.now.node.expr) (arguments_in call.now.node.args.items)))) code.old code.new) }
    ensures refused { IfErr result (Refuses (code_in code.new)) }
{
    let begun = begin_call(alloc, code, &call.node, "caller", &call.span)?;
    compile_declared(alloc, code, "caller", &declared.node, &declared.span)?;
    end_call(code, &call.node, begun)
}

// A macro, which is on top then. Its body runs where it is called, and is leapt over where it is made.
#[cycle(statement)]
fn compile_declared<'source>(
    alloc: Global,
    code: &mut Instructions<'source>,
    name: &'source str,
    declared: &Macro<'source>,
    span: &Span,
) -> Result<(), ErrorKind>
    requires { IsRunnableStatement true (macro_of declared.now) }
    ensures put { OnOk result (Puts (declared_code name.now declared.now) code.old code.new) }
    ensures refused { IfErr result (Refuses (code_in code.new)) }
{
    let leap = reserve(code, Leap::Always, Some(*span))?;
    let begins = code.len() as u32;
    store_parameters(alloc, code, &declared.args, &declared.defaults)?;
    let mut round = Round::new(alloc, 0);
    compile_body(alloc, code, &mut round, &declared.body)?;
    put(code, Instruction::Return, Some(*span))?;
    land(code, leap, Leap::Always);
    make_macro(alloc, code, name, declared, begins)
}

// A loop: what it goes over, its rounds, and what runs where no item was given.
#[cycle(statement)]
#[inline(never)]
fn compile_loop<'source>(
    alloc: Global,
    code: &mut Instructions<'source>,
    round: &mut Round,
    node: &ForLoop<'source>,
    span: &Span,
) -> Result<(), ErrorKind>
    requires target { IsTarget (expression_of node.now.target) }
    requires items { IsRunnable (expression_of node.now.iter) }
    requires condition { IsRunnableIfGiven (optional_in node.now.filter_expr) }
    requires body { AreRunnableStatements true (statements_in node.now.body.items) }
    requires otherwise { AreRunnableStatements true (statements_in node.now.else_body.items) }
    ensures lowered { OnOk result
        (LowersStatement (for_loop (expression_of node.now.target) (expression_of node.now.iter) (optional_in node.now.filter_expr)
        node.now.recursive
        (statements_in node.now.body.items) (statements_in node.now.else_body.items))
        code.old code.new round.old round.new) }
    ensures refused { IfErr result (Refuses (code_in code.new)) }
{
    compile_iterable(
        alloc,
        code,
        &node.target,
        &node.iter,
        &node.filter_expr,
        span,
    )?;
    put(
        code,
        Instruction::PushLoop(loop_flags(node.recursive)),
        None,
    )?;
    compile_rounds(alloc, code, &node.target, &node.body, *span)?;
    compile_loop_end(alloc, code, round, &node.else_body)
}

// A loop has its variable; its rounds may be called again or not.
fn loop_flags(recursive: bool) -> u8
    ensures { result ≡ loop_flags recursive }
{
    if recursive {
        LOOP_FLAG_WITH_LOOP_VAR + LOOP_FLAG_RECURSIVE
    } else {
        LOOP_FLAG_WITH_LOOP_VAR
    }
}

// The rounds of a loop, whose ways out are its own. They ask where the items come from, and go back where the loop
// does.
#[cycle(statement)]
#[inline(always)]
fn compile_rounds<'source>(
    alloc: Global,
    code: &mut Instructions<'source>,
    target: &Expr<'source>,
    body: &[Stmt<'source>],
    span: Span,
) -> Result<(), ErrorKind>
    requires target { IsTarget (expression_of target.now) }
    requires body { AreRunnableStatements true (statements_in body.now) }
    ensures put { OnOk result
        (Puts (rounds_code (target_code (expression_of target.now)) (λ break_to continue_to. statements_code
        (own_ways break_to continue_to) (statements_in body.now)))
        code.old code.new) }
    ensures refused { IfErr result (Refuses (code_in code.new)) }
{
    let asks = reserve(code, Leap::Iterate, None)?;
    store(alloc, code, target)?;
    let mut round = Round::new(alloc, asks);
    compile_body(alloc, code, &mut round, body)?;
    put(code, Instruction::Jump(asks), Some(span))?;
    land(code, asks, Leap::Iterate);
    let Round { breaks, .. } = round;
    tell_breaks(code, breaks);
    Ok(())
}

// What stands behind the rounds of a loop, and comes from where these go back.
#[cycle(statement)]
#[inline(always)]
fn compile_loop_end<'source>(
    alloc: Global,
    code: &mut Instructions<'source>,
    round: &mut Round,
    otherwise: &[Stmt<'source>],
) -> Result<(), ErrorKind>
    requires { AreRunnableStatements true (statements_in otherwise.now) }
    ensures lowered { OnOk result
        (Lowers (loop_end_code (statements_in otherwise.now) (statements_code (ways_of round.old) (statements_in otherwise.now)))
        (loop_end_places (statements_in otherwise.now) (breaks_in (ways_of round.old) (statements_in otherwise.now)))
        code.old code.new round.old round.new) }
    ensures refused { IfErr result (Refuses (code_in code.new)) }
{
    if otherwise.is_empty() {
        return put(code, Instruction::PopLoopFrame, None);
    }
    put(code, Instruction::PushDidNotIterate, None)?;
    put(code, Instruction::PopLoopFrame, None)?;
    let end = reserve(code, Leap::IfFalse, None)?;
    compile_body(alloc, code, round, otherwise)?;
    land(code, end, Leap::IfFalse);
    Ok(())
}

// A condition, with the chain of `elif` behind it, where there is one.
#[cycle(statement)]
#[inline(never)]
fn compile_condition<'source>(
    alloc: Global,
    code: &mut Instructions<'source>,
    round: &mut Round,
    first: &Box<Spanned<IfCond<'source>>>,
) -> Result<(), ErrorKind>
    requires { IsRunnableStatement true (condition_of first.now.value.node) }
    ensures lowered { OnOk result (LowersStatement (condition_of first.now.value.node) code.old code.new round.old round.new) }
    ensures refused { IfErr result (Refuses (code_in code.new)) }
{
    if has_elif(&first.node.false_body) {
        compile_elifs(alloc, code, round, first)
    } else {
        compile_alone(alloc, code, round, &first.node, first.span)
    }
}

// Whether an else part is an `elif`.
fn has_elif(other: &[Stmt<'_>]) -> bool {
    if other.len() != 1 {
        return false;
    }
    match &other[0] {
        Stmt::IfCond(_) => true,
        _ => false,
    }
}

// A condition with its else part, which a jump behind its branch leads past.
#[cycle(statement)]
#[inline(always)]
fn compile_alone<'source>(
    alloc: Global,
    code: &mut Instructions<'source>,
    round: &mut Round,
    condition: &IfCond<'source>,
    span: Span,
) -> Result<(), ErrorKind>
    requires { IsRunnableStatement true (condition_of condition.now) }
    ensures lowered { OnOk result (LowersStatement (condition_of condition.now) code.old code.new round.old round.new) }
    ensures refused { IfErr result (Refuses (code_in code.new)) }
{
    let end = compile_branch(alloc, code, round, condition, span)?;
    compile_body(alloc, code, round, &condition.false_body)?;
    tell_end(code, end);
    Ok(())
}

// Tells the jump at a place, where there is one, that it leads behind the last instruction.
#[inline(always)]
fn tell_end<'source>(code: &mut Instructions<'source>, end: Option<u32>)
    ensures told { code_in code.new ≡ led (length (code_in code.old)) (places_in end) (code_in code.old) }
    ensures same { Keeps code.old code.new }
{
    if let Some(place) = end {
        land(code, place, Leap::Always);
    }
}

// A chain of `elif`: each jump behind a branch leads to its end.
#[cycle(statement)]
#[inline(never)]
fn compile_elifs<'source>(
    alloc: Global,
    code: &mut Instructions<'source>,
    round: &mut Round,
    first: &Box<Spanned<IfCond<'source>>>,
) -> Result<(), ErrorKind>
    requires { IsRunnableStatement true (condition_of first.now.value.node) }
    ensures lowered { OnOk result (LowersStatement (condition_of first.now.value.node) code.old code.new round.old round.new) }
    ensures refused { IfErr result (Refuses (code_in code.new)) }
{
    let mut ends = Vec::new(alloc);
    compile_chain(alloc, code, round, first, &mut ends)?;
    tell_breaks(code, ends);
    Ok(())
}

// The branches of the chain, and its last else part. Keeps the places of the jumps behind branches.
#[cycle(statement)]
fn compile_chain<'source>(
    alloc: Global,
    code: &mut Instructions<'source>,
    round: &mut Round,
    first: &Box<Spanned<IfCond<'source>>>,
    ends: &mut Vec<u32>,
) -> Result<(), ErrorKind>
    requires runs { IsRunnableStatement true (condition_of first.now.value.node) }
    requires none { ends.old.items ≡ [] }
    ensures lowered { OnOk result (LowersChain first.now.value.node ends.new.items code.old code.new round.old round.new) }
    ensures refused { IfErr result (Refuses (code_in code.new)) }
{
    let mut at = first;
    loop {
        let node = &at.node;
        let end = compile_branch(alloc, code, round, node, at.span)?;
        keep(ends, end)?;
        let other = &node.false_body;
        if other.len() != 1 {
            return compile_body(alloc, code, round, other);
        }
        at = match &other[0] {
            Stmt::IfCond(n) => n,
            _ => return compile_body(alloc, code, round, other),
        };
    }
}

// A test, and the branch that runs where it holds. Where an else part follows, a jump leads past it, whose
// target is told later, and whose place is answered.
#[cycle(statement)]
#[inline(always)]
fn compile_branch<'source>(
    alloc: Global,
    code: &mut Instructions<'source>,
    round: &mut Round,
    condition: &IfCond<'source>,
    span: Span,
) -> Result<Option<u32>, ErrorKind>
    requires { IsRunnableStatement true (condition_of condition.now) }
    ensures lowered { IfOk result (λ end. LowersBranch condition.now (places_in end) code.old code.new round.old round.new) }
    ensures refused { IfErr result (Refuses (code_in code.new)) }
{
    compile_expr(alloc, code, &condition.expr)?;
    let next = reserve(code, Leap::IfFalse, None)?;
    compile_body(alloc, code, round, &condition.true_body)?;
    if condition.false_body.is_empty() {
        land(code, next, Leap::IfFalse);
        return Ok(None);
    }
    let end = reserve(code, Leap::Always, Some(span))?;
    land(code, next, Leap::IfFalse);
    Ok(Some(end))
}

// Keeps a place, where there is one.
fn keep(places: &mut Vec<u32>, place: Option<u32>) -> Result<(), ErrorKind>
    ensures kept { OnOk result (places.new.items ≡ places.old.items ++ places_in place) }
    ensures refused { IfErr result (λ kind. kind ≡ ErrorKind.OutOfMemory) }
{
    if let Some(place) = place {
        return append(places, place);
    }
    Ok(())
}
