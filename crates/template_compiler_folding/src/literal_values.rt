//! The values of literals.

ghost use Rattle.std.specs.Prelude.{◌≡◌, IfOk, IfErr, option_map};
ghost use Rattle.template_values_errors.specs.Memory.{NoMemory};
ghost use Rattle.template_compiler_tree.specs.View.{expression_of, expressions_in};
ghost use Rattle.template_compiler_walk.specs.Constants.{literal_of, literals_of};

use std::alloc::Global;
use template_compiler_tree::Expr;
use template_values_core::Value;
use template_values_errors::Error;

// The value of a literal.
fn literal<'a, 'source>(expr: &'a Expr<'source>) -> Option<&'a Value>
    ensures { option_map (λ value. value.now) result ≡ literal_of (expression_of expr.now) }
{
    match expr {
        Expr::Const(n) => Some(&n.node.value),
        _ => None,
    }
}

/// The values of expressions, where each one is a literal. Linear in their number.
///
/// # Errors
///
/// [`ErrorKind::OutOfMemory`](template_values_errors::ErrorKind::OutOfMemory).
pub fn literals<'source>(
    alloc: Global,
    exprs: &[Expr<'source>],
) -> Result<Option<Vec<Value>>, Error>
    ensures literals { IfOk result (λ o. option_map (λ values. values.items) o ≡ literals_of (expressions_in exprs.now)) }
    ensures refused { IfErr result NoMemory }
{
    let mut values = Vec::new(alloc);
    for expr in exprs {
        match literal(expr) {
            Some(value) => values.push(value.copy()?)?,
            None => return Ok(None),
        }
    }
    Ok(Some(values))
}
