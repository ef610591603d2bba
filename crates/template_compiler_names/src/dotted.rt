//! The dotted names behind the left parts of an expression.
ghost use Rattle.std.specs.Prelude.{◌≡◌, OnOk};
ghost use Rattle.template_compiler_tree.specs.View.{expression_of};
ghost use Rattle.template_compiler_names.specs.Dotted.{fields_left, fields_of};

use std::alloc::AllocError;
use template_compiler_tree::Expr;

/// Puts down the dotted names behind the left part of an expression that has these behind it: with the name of an
/// attribute one more, the last one first, and with any other expression none.
///
/// # Errors
///
/// Want of memory.
pub fn go_left<'source>(
    behind: &mut Vec<&'source str>,
    expr: &Expr<'source>,
) -> Result<(), AllocError>
    ensures { OnOk result (fields_of behind.new.items ≡ fields_left (expression_of expr.now) (fields_of behind.old.items)) }
{
    match expr {
        Expr::GetAttr(n) => behind.push(n.node.name)?,
        _ => behind.clear(),
    }
    Ok(())
}
