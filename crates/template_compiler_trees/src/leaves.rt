//! The forms of statements without a body, and of what stands in the heads of the others.
use crate::expressions::{call, entry, expression, optional, pair, part, single};
use crate::forms::{Form, UNKNOWN, open, quoted, word_if};
use template_compiler_tree::{Call, Expr, Spanned};
use template_compiler_tree_statements::{Do, FromImport, Include, Stmt};

/// A statement without a body.
pub(crate) fn leaf(stmt: &Stmt, out: &mut Form, left: u32) {
    match stmt {
        Stmt::EmitRaw(n) => quoted(n.node.raw, out),
        Stmt::EmitExpr(n) => single("print", &n.node.expr, out, left),
        Stmt::Set(n) => pair("set", &n.node.target, &n.node.expr, out, left),
        Stmt::Include(n) => include(&n.node, out, left),
        Stmt::Continue(_) => out.push_str("continue"),
        Stmt::Break(_) => out.push_str("break"),
        _ => rarer_leaf(stmt, out, left),
    }
}

fn rarer_leaf(stmt: &Stmt, out: &mut Form, left: u32) {
    match stmt {
        Stmt::Import(n) => pair("import", &n.node.expr, &n.node.name, out, left),
        Stmt::FromImport(n) => from_import(&n.node, out, left),
        Stmt::Extends(n) => single("extends", &n.node.name, out, left),
        Stmt::Do(n) => do_call(&n.node, out, left),
        _ => out.push_str(UNKNOWN),
    }
}

fn from_import(import: &FromImport, out: &mut Form, left: u32) {
    open("from", out);
    part(&import.expr, out, left);
    for (name, alias) in &import.names {
        imported(name, alias.as_ref(), out, left);
    }
    out.push(')');
}

fn imported(name: &Expr, alias: Option<&Expr>, out: &mut Form, left: u32) {
    out.push_str(" (");
    expression(name, out, left);
    optional(alias, out, left);
    out.push(')');
}

fn include(include: &Include, out: &mut Form, left: u32) {
    open("include", out);
    part(&include.name, out, left);
    word_if(include.ignore_missing, "ignore", out);
    out.push(')');
}

fn do_call(do_call: &Do, out: &mut Form, left: u32) {
    open_call("do", &do_call.call, out, left);
    out.push(')');
}

/// A head with a call, before what else is in it.
pub(crate) fn open_call(head: &str, called: &Box<Spanned<Call>>, out: &mut Form, left: u32) {
    open(head, out);
    out.push(' ');
    call(&called.node, out, left);
    out.place(called.span);
}

/// Expressions in brackets, behind what stands there.
pub(crate) fn parts(exprs: &[Expr], out: &mut Form, left: u32) {
    out.push_str(" [");
    let mut first = true;
    for expr in exprs {
        if !first {
            out.push(' ');
        }
        first = false;
        expression(expr, out, left);
    }
    out.push(']');
}

/// Targets with their values, each pair in parentheses.
pub(crate) fn assignments(pairs: &[(Expr, Expr)], out: &mut Form, left: u32) {
    for pair in pairs {
        entry(&pair.0, &pair.1, out, left);
    }
}
