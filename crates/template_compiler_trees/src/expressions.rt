//! The forms of expressions.
use crate::forms::{
    ABSENT, Form, UNKNOWN, binary_word, comparison_word, open, quoted, unary_word, word,
};
use template_compiler_tree::{
    Call, CallArg, Compare, CompareOp, Expr, Filter, GetAttr, IfExpr, Map, Slice, Test,
};
use template_values_core::{Content, Value};
use template_values_errors::ErrorKind;

/// The expression in its form, with so many levels left; `TooLarge` where none is.
#[cycle(expressions)]
pub(crate) fn expression(expr: &Expr, out: &mut Form, left: u32) {
    if left == 0 {
        return out.refuse(ErrorKind::TooLarge);
    }
    node(expr, out, left - 1);
    out.place(expr.span());
}

// Names, literals, operators, look-ups and calls.
#[cycle(expressions)]
fn node(expr: &Expr, out: &mut Form, left: u32) {
    match expr {
        Expr::Var(n) => out.push_str(n.node.id),
        Expr::Const(n) => constant(&n.node.value, out),
        Expr::UnaryOp(n) => single(unary_word(n.node.op), &n.node.expr, out, left),
        Expr::BinOp(n) => pair(
            binary_word(n.node.op),
            &n.node.left,
            &n.node.right,
            out,
            left,
        ),
        Expr::GetAttr(n) => attribute(&n.node, out, left),
        Expr::GetItem(n) => pair("item", &n.node.expr, &n.node.subscript_expr, out, left),
        Expr::Call(n) => call(&n.node, out, left),
        _ => rarer(expr, out, left),
    }
}

// The others.
#[cycle(expressions)]
fn rarer(expr: &Expr, out: &mut Form, left: u32) {
    match expr {
        Expr::Slice(n) => slice(&n.node, out, left),
        Expr::Compare(n) => chain(&n.node, out, left),
        Expr::IfExpr(n) => choice(&n.node, out, left),
        Expr::Filter(n) => filter(&n.node, out, left),
        Expr::Test(n) => test(&n.node, out, left),
        Expr::List(n) => group("list", n.node.items.as_slice(), out, left),
        Expr::Tuple(n) => group("tuple", n.node.items.as_slice(), out, left),
        Expr::Map(n) => map(&n.node, out, left),
        _ => out.push_str(UNKNOWN),
    }
}

// A constant of a kind that literals have.
fn constant(value: &Value, out: &mut Form) {
    match value.content() {
        Content::None => out.push_str("none"),
        Content::Truth(true) => out.push_str("true"),
        Content::Truth(false) => out.push_str("false"),
        Content::Int(number) => out.push_number(number),
        Content::Text(text) => quoted(text, out),
        _ => out.push_str(UNKNOWN),
    }
}

/// The expression behind what stands there.
#[cycle(expressions)]
pub(crate) fn part(expr: &Expr, out: &mut Form, left: u32) {
    out.push(' ');
    expression(expr, out, left);
}

/// The expression behind what stands there, or the sign for what is left out.
#[cycle(expressions)]
pub(crate) fn optional(expr: Option<&Expr>, out: &mut Form, left: u32) {
    match expr {
        Some(expr) => part(expr, out, left),
        None => word(ABSENT, out),
    }
}

/// A head with one part.
#[cycle(expressions)]
pub(crate) fn single(head: &str, expr: &Expr, out: &mut Form, left: u32) {
    open(head, out);
    part(expr, out, left);
    out.push(')');
}

/// A head with two parts.
#[cycle(expressions)]
pub(crate) fn pair(head: &str, first: &Expr, second: &Expr, out: &mut Form, left: u32) {
    open(head, out);
    part(first, out, left);
    part(second, out, left);
    out.push(')');
}

#[cycle(expressions)]
fn slice(slice: &Slice, out: &mut Form, left: u32) {
    open("slice", out);
    part(&slice.expr, out, left);
    optional(slice.start.as_ref(), out, left);
    optional(slice.stop.as_ref(), out, left);
    optional(slice.step.as_ref(), out, left);
    out.push(')');
}

#[cycle(expressions)]
fn chain(compare: &Compare, out: &mut Form, left: u32) {
    open("chain", out);
    part(&compare.expr, out, left);
    links(compare.ops.as_slice(), out, left);
    out.push(')');
}

#[cycle(expressions)]
fn links(links: &[CompareOp], out: &mut Form, left: u32) {
    for link in links {
        out.push(' ');
        single(comparison_word(link.op), &link.expr, out, left);
    }
}

#[cycle(expressions)]
fn choice(choice: &IfExpr, out: &mut Form, left: u32) {
    open("cond", out);
    part(&choice.test_expr, out, left);
    part(&choice.true_expr, out, left);
    optional(choice.false_expr.as_ref(), out, left);
    out.push(')');
}

#[cycle(expressions)]
fn filter(filter: &Filter, out: &mut Form, left: u32) {
    open("filter", out);
    word(filter.name.as_str(), out);
    optional(filter.expr.as_ref(), out, left);
    arguments(filter.args.as_slice(), out, left);
    out.push(')');
}

#[cycle(expressions)]
fn test(test: &Test, out: &mut Form, left: u32) {
    open("test", out);
    word(test.name.as_str(), out);
    part(&test.expr, out, left);
    arguments(test.args.as_slice(), out, left);
    out.push(')');
}

#[cycle(expressions)]
fn attribute(attribute: &GetAttr, out: &mut Form, left: u32) {
    open("attr", out);
    part(&attribute.expr, out, left);
    word(attribute.name, out);
    out.push(')');
}

/// A call without its place.
#[cycle(expressions)]
pub(crate) fn call(call: &Call, out: &mut Form, left: u32) {
    open("call", out);
    part(&call.expr, out, left);
    arguments(call.args.as_slice(), out, left);
    out.push(')');
}

// The arguments of a call, each behind what stands there.
#[cycle(expressions)]
fn arguments(args: &[CallArg], out: &mut Form, left: u32) {
    for arg in args {
        argument(arg, out, left);
    }
}

#[cycle(expressions)]
fn argument(arg: &CallArg, out: &mut Form, left: u32) {
    match arg {
        CallArg::Pos(expr) => part(expr, out, left),
        CallArg::Kwarg(name, expr) => named(name, expr, out, left),
        CallArg::PosSplat(expr) => spread("splat", expr, out, left),
        CallArg::KwargSplat(expr) => spread("kwsplat", expr, out, left),
    }
}

#[cycle(expressions)]
fn named(name: &str, expr: &Expr, out: &mut Form, left: u32) {
    word("(=", out);
    word(name, out);
    part(expr, out, left);
    out.push(')');
}

#[cycle(expressions)]
fn spread(head: &str, expr: &Expr, out: &mut Form, left: u32) {
    out.push(' ');
    single(head, expr, out, left);
}

#[cycle(expressions)]
fn group(head: &str, items: &[Expr], out: &mut Form, left: u32) {
    open(head, out);
    for item in items {
        part(item, out, left);
    }
    out.push(')');
}

#[cycle(expressions)]
fn map(map: &Map, out: &mut Form, left: u32) {
    open("map", out);
    for place in 0..map.keys.len() {
        if let (Some(key), Some(value)) = (map.keys.get(place), map.values.get(place)) {
            entry(key, value, out, left);
        }
    }
    out.push(')');
}

// Two parts without a head, behind what stands there.
#[cycle(expressions)]
pub(crate) fn entry(first: &Expr, second: &Expr, out: &mut Form, left: u32) {
    out.push_str(" (");
    expression(first, out, left);
    part(second, out, left);
    out.push(')');
}
