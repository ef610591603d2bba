//! The left parts of an expression in the order of their code. There may be as many as the source is long.
ghost use Rattle.std.specs.Prelude.{◌≡◌, ◌<◌, ◌≤◌, ◌&&◌, All, IfOk, IfSome, map, option_map};
ghost use Rattle.template_compiler_tree.specs.Kinds.{is_self_name, is_empty};
ghost use Rattle.template_compiler_tree.specs.View.{expression_of, arguments_in};
ghost use Rattle.template_compiler_tree.specs.declared.expressions.Expr.{size-Expr};
ghost use Rattle.template_compiler_expression_codegen.specs.Coded.{coded_left, coded_spine};

use std::alloc::{AllocError, Global};
use template_compiler_tree::{Call, Expr};

// The left part whose code stands first in the expression's. It is the part that begins where the expression begins,
// but of a call: that of a name or a block has no such part, and that of a method has the object, whose attribute is
// not read.
pub(crate) fn coded_left<'a, 'source>(expr: &'a Expr<'source>) -> Option<&'a Expr<'source>>
    ensures left { option_map (λ part. expression_of part.now) result ≡ coded_left (expression_of expr.now) }
    ensures smaller { IfSome result (λ part. size-Expr part.now < size-Expr expr.now) }
{
    match expr {
        Expr::Call(n) => match &n.node.expr {
            Expr::Var(_) => None,
            Expr::GetAttr(method) => {
                let object = &method.node.expr;
                if is_block(&n.node, object) {
                    None
                } else {
                    Some(object)
                }
            }
            called => Some(called),
        },
        Expr::Slice(n) => Some(&n.node.expr),
        Expr::BinOp(n) => Some(&n.node.left),
        Expr::Compare(n) => Some(&n.node.expr),
        Expr::Filter(n) => match &n.node.expr {
            Some(part) => Some(part),
            None => None,
        },
        Expr::Test(n) => Some(&n.node.expr),
        Expr::GetAttr(n) => Some(&n.node.expr),
        Expr::GetItem(n) => Some(&n.node.expr),
        Expr::Var(_) => None,
        Expr::Const(_) => None,
        Expr::UnaryOp(_) => None,
        Expr::IfExpr(_) => None,
        Expr::List(_) => None,
        Expr::Tuple(_) => None,
        Expr::Map(_) => None,
    }
}

// Whether an attribute of the object is called as a block is: the object is `self`, and there are no arguments.
pub(crate) fn is_block(call: &Call<'_>, object: &Expr<'_>) -> bool
    ensures { result ≡ (is_self_name (expression_of object.now) && is_empty (arguments_in call.now.args.items)) }
{
    if !is_self(object) {
        return false;
    }
    has_no_arguments(call)
}

// Whether the expression is the name `self`.
fn is_self(object: &Expr<'_>) -> bool
    ensures { result ≡ is_self_name (expression_of object.now) }
{
    match object {
        Expr::Var(n) => n.node.id == "self",
        _ => false,
    }
}

/// Whether nothing is passed.
pub fn has_no_arguments(call: &Call<'_>) -> bool
    ensures { result ≡ is_empty (arguments_in call.now.args.items) }
{
    call.args.as_slice().is_empty()
}

// The expression, the left part whose code stands first in its own, that one's and so on, the last one first: what puts
// code goes along this list, and calls itself for the other parts alone. Linear in its length.
pub(crate) fn coded_spine<'a, 'source>(
    alloc: Global,
    expr: &'a Expr<'source>,
) -> Result<Vec<&'a Expr<'source>>, AllocError>
    ensures nodes { IfOk result (λ ns. map (λ n. expression_of n.now) ns.items ≡ coded_spine (expression_of expr.now)) }
    ensures depth { IfOk result (λ ns. All (λ n. size-Expr n.now ≤ size-Expr expr.now) ns.items) }
{
    let mut passed = Vec::new(alloc);
    let mut left_part = Some(expr);
    while let Some(part) = left_part {
        passed.push(part)?;
        left_part = coded_left(part);
    }
    passed.reverse();
    Ok(passed)
}
