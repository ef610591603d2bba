//! Small trees of names.
ghost use Rattle.std.specs.Prelude.{◌≡◌, IfOk};
ghost use Rattle.template_compiler_tree.specs.Tree.{variable, binary, map_literal, no_expressions, expressions_more};
ghost use Rattle.template_compiler_tree.specs.View.{expression_of};

use std::alloc::{AllocError, Global};
use template_compiler_tree::{BinOpKind, Expr, Span};

/// `left - right`.
///
/// # Errors
///
/// Want of memory.
pub fn difference<'source>(
    alloc: Global,
    left: &'source str,
    right: &'source str,
) -> Result<Expr<'source>, AllocError>
    ensures { IfOk result (λ e. expression_of e ≡ binary BinOpKind.Sub (variable left.now) (variable right.now)) }
{
    let at = Span::default();
    let (left, right) = (Expr::variable(left, at), Expr::variable(right, at));
    Expr::binary(alloc, BinOpKind::Sub, left, right, at)
}

/// `{key: value}`.
///
/// # Errors
///
/// Want of memory.
pub fn one_entry<'source>(
    alloc: Global,
    key: &'source str,
    value: &'source str,
) -> Result<Expr<'source>, AllocError>
    ensures { IfOk result (λ e. expression_of e
        ≡ map_literal (expressions_more (variable key.now) no_expressions) (expressions_more (variable value.now) no_expressions)) }
{
    let at = Span::default();
    let keys = vec![in alloc; Expr::variable(key, at)]?;
    let values = vec![in alloc; Expr::variable(value, at)]?;
    Expr::map(alloc, keys, values, at)
}
