//! The forms of statements.
use crate::expressions::{optional, part};
use crate::forms::{Form, open, word, word_if};
use crate::leaves::{assignments, leaf, open_call, parts};
use template_compiler_tree_statements::{
    AutoEscape, Block, CallBlock, FilterBlock, ForLoop, IfCond, Macro, SetBlock, Stmt, WithBlock,
};
use template_values_errors::ErrorKind;

/// The statement in its form, with so many levels left, `TooLarge` where none is; a template is the list of its
/// statements.
#[cycle(statements)]
pub(crate) fn statement(stmt: &Stmt, out: &mut Form, left: u32) {
    if left == 0 {
        return out.refuse(ErrorKind::TooLarge);
    }
    node(stmt, out, left - 1);
    out.place(stmt.span());
}

// Whole templates, and what steers; all others are heads with a body, or none.
#[cycle(statements)]
fn node(stmt: &Stmt, out: &mut Form, left: u32) {
    match stmt {
        Stmt::Template(n) => list(n.node.children.as_slice(), out, left),
        Stmt::ForLoop(n) => for_loop(&n.node, out, left),
        Stmt::IfCond(n) => condition(&n.node, out, left),
        Stmt::WithBlock(n) => with_block(&n.node, out, left),
        Stmt::Macro(n) => macro_form(&n.node, out, left),
        Stmt::CallBlock(n) => call_block(&n.node, out, left),
        _ => with_head(stmt, out, left),
    }
}

#[cycle(statements)]
fn with_head(stmt: &Stmt, out: &mut Form, left: u32) {
    match stmt {
        Stmt::SetBlock(n) => set_block(&n.node, out, left),
        Stmt::AutoEscape(n) => auto_escape(&n.node, out, left),
        Stmt::FilterBlock(n) => filter_block(&n.node, out, left),
        Stmt::Block(n) => block(&n.node, out, left),
        _ => leaf(stmt, out, left),
    }
}

#[cycle(statements)]
fn list(body: &[Stmt], out: &mut Form, left: u32) {
    out.push('[');
    let mut first = true;
    for stmt in body {
        if !first {
            out.push(' ');
        }
        first = false;
        statement(stmt, out, left);
    }
    out.push(']');
}

#[cycle(statements)]
fn body(body: &[Stmt], out: &mut Form, left: u32) {
    out.push(' ');
    list(body, out, left);
}

// The last body of a statement, and the end of its form.
#[cycle(statements)]
fn last_body(last: &[Stmt], out: &mut Form, left: u32) {
    body(last, out, left);
    out.push(')');
}

#[cycle(statements)]
fn for_loop(for_loop: &ForLoop, out: &mut Form, left: u32) {
    open("for", out);
    part(&for_loop.target, out, left);
    part(&for_loop.iter, out, left);
    optional(for_loop.filter_expr.as_ref(), out, left);
    word_if(for_loop.recursive, "recursive", out);
    body(for_loop.body.as_slice(), out, left);
    last_body(for_loop.else_body.as_slice(), out, left);
}

#[cycle(statements)]
fn condition(condition: &IfCond, out: &mut Form, left: u32) {
    open("if", out);
    part(&condition.expr, out, left);
    body(condition.true_body.as_slice(), out, left);
    last_body(condition.false_body.as_slice(), out, left);
}

#[cycle(statements)]
fn with_block(with_block: &WithBlock, out: &mut Form, left: u32) {
    open("with", out);
    assignments(with_block.assignments.as_slice(), out, left);
    last_body(with_block.body.as_slice(), out, left);
}

#[cycle(statements)]
fn set_block(set_block: &SetBlock, out: &mut Form, left: u32) {
    open("set-block", out);
    part(&set_block.target, out, left);
    optional(set_block.filter.as_ref(), out, left);
    last_body(set_block.body.as_slice(), out, left);
}

#[cycle(statements)]
fn auto_escape(auto_escape: &AutoEscape, out: &mut Form, left: u32) {
    open("autoescape", out);
    part(&auto_escape.enabled, out, left);
    last_body(auto_escape.body.as_slice(), out, left);
}

#[cycle(statements)]
fn filter_block(filter_block: &FilterBlock, out: &mut Form, left: u32) {
    open("filter-block", out);
    part(&filter_block.filter, out, left);
    last_body(filter_block.body.as_slice(), out, left);
}

#[cycle(statements)]
fn block(block: &Block, out: &mut Form, left: u32) {
    open("block", out);
    word(block.name, out);
    word_if(block.required, "required", out);
    last_body(block.body.as_slice(), out, left);
}

#[cycle(statements)]
fn macro_form(macro_decl: &Macro, out: &mut Form, left: u32) {
    open("macro", out);
    word(macro_decl.name, out);
    parts(macro_decl.args.as_slice(), out, left);
    parts(macro_decl.defaults.as_slice(), out, left);
    last_body(macro_decl.body.as_slice(), out, left);
}

#[cycle(statements)]
fn call_block(call_block: &CallBlock, out: &mut Form, left: u32) {
    open_call("call-block", &call_block.call, out, left);
    out.push(' ');
    macro_form(&call_block.macro_decl.node, out, left);
    out.place(call_block.macro_decl.span);
    out.push(')');
}
