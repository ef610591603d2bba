//! What is asked of one node of a tree: the part that begins where it begins; and samples of nodes.

ghost use Rattle.std.specs.Prelude.{◌≡◌, ◌<◌, IfSome, option_map};
ghost use Rattle.template_compiler_tree.specs.View.{expression_of};
ghost use Rattle.template_compiler_tree.specs.declared.expressions.Expr.{size-Expr};
ghost use Rattle.template_compiler_tree_parts.specs.Left.{left_of};

use template_compiler_tree::Expr;

/// The part that begins where the expression begins, and takes no level of nesting: the object of an
/// attribute, the value of a filter, the left side of an operator.
pub fn left<'a, 'source>(expr: &'a Expr<'source>) -> Option<&'a Expr<'source>>
    ensures left { option_map (λ part. expression_of part.now) result ≡ left_of (expression_of expr.now) }
    ensures smaller { IfSome result (λ part. size-Expr part.now < size-Expr expr.now) }
{
    match expr {
        Expr::Slice(n) => Some(&n.node.expr),
        Expr::BinOp(n) => Some(&n.node.left),
        Expr::Compare(n) => Some(&n.node.expr),
        Expr::Filter(n) => match &n.node.expr {
            Some(part) => Some(part),
            None => None,
        },
        Expr::Test(n) => Some(&n.node.expr),
        Expr::GetAttr(n) => Some(&n.node.expr),
        Expr::GetItem(n) => Some(&n.node.expr),
        Expr::Call(n) => Some(&n.node.expr),
        Expr::Var(_) => None,
        Expr::Const(_) => None,
        Expr::UnaryOp(_) => None,
        Expr::IfExpr(_) => None,
        Expr::List(_) => None,
        Expr::Tuple(_) => None,
        Expr::Map(_) => None,
    }
}
