//! The left chain of an expression, which may be as long as the source.
ghost use Rattle.std.specs.Prelude.{◌≡◌, ◌≤◌, All, IfOk, map};
ghost use Rattle.template_compiler_tree_parts.specs.Spine.{spine_of};
ghost use Rattle.template_compiler_tree.specs.View.{expression_of};
ghost use Rattle.template_compiler_tree.specs.declared.expressions.Expr.{size-Expr};

use std::alloc::{AllocError, Global};
use template_compiler_tree::Expr;

/// The expression, its left part, that one's left part and so on, the last one first: what goes over a
/// tree goes along this list, and calls itself for the other parts alone. Linear in its length.
///
/// # Errors
///
/// Want of memory.
pub fn spine<'a, 'source>(
    alloc: Global,
    expr: &'a Expr<'source>,
) -> Result<Vec<&'a Expr<'source>>, AllocError>
    ensures nodes { IfOk result (λ ns. map (λ n. expression_of n.now) ns.items ≡ spine_of (expression_of expr.now)) }
    ensures depth { IfOk result (λ ns. All (λ n. size-Expr n.now ≤ size-Expr expr.now) ns.items) }
{
    let mut passed = Vec::new(alloc);
    let mut at = expr;
    loop {
        passed.push(at)?;
        at = match at {
            Expr::Slice(n) => &n.node.expr,
            Expr::BinOp(n) => &n.node.left,
            Expr::Compare(n) => &n.node.expr,
            Expr::Filter(n) => match &n.node.expr {
                Some(part) => part,
                None => break,
            },
            Expr::Test(n) => &n.node.expr,
            Expr::GetAttr(n) => &n.node.expr,
            Expr::GetItem(n) => &n.node.expr,
            Expr::Call(n) => &n.node.expr,
            Expr::Var(_) => break,
            Expr::Const(_) => break,
            Expr::UnaryOp(_) => break,
            Expr::IfExpr(_) => break,
            Expr::List(_) => break,
            Expr::Tuple(_) => break,
            Expr::Map(_) => break,
        };
    }
    passed.reverse();
    Ok(passed)
}
