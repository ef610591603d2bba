//! What is asked of trees besides their forms.
use crate::forms::{ABSENT, Form, word};
use template_compiler_tree::{CallType, Expr};
use template_compiler_tree_statements::Stmt;

/// How many statements a template has.
pub(crate) fn statement_count(tree: &Stmt<'_>, out: &mut Form) {
    match tree {
        Stmt::Template(template) => out.push_number(template.node.children.len() as i128),
        _ => out.push_str(ABSENT),
    }
}

/// What an expression calls, where it is a call.
pub(crate) fn callee(expr: &Expr<'_>, out: &mut Form) {
    match expr {
        Expr::Call(call) => write_callee(call.node.identify_call(), out),
        _ => out.push_str(ABSENT),
    }
}

fn write_callee(callee: CallType<'_, '_>, out: &mut Form) {
    match callee {
        CallType::Function(name) => write_both("function", name, out),
        CallType::Method(object, name) => write_method(object.description(), name, out),
        CallType::Block(name) => write_both("block", name, out),
        CallType::Object(object) => write_both("value of", object.description(), out),
    }
}

fn write_method(object: &str, name: &str, out: &mut Form) {
    write_both("method", name, out);
    write_both(" of", object, out)
}

fn write_both(what: &str, name: &str, out: &mut Form) {
    out.push_str(what);
    word(name, out);
}
