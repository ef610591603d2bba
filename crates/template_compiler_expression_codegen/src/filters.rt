//! The filters of blocks.
ghost use Rattle.std.specs.Prelude.{[], ◌∷◌, OnOk, IfErr};
ghost use Rattle.template_compiler_tree.specs.View.{expression_of};
ghost use Rattle.template_compiler_walk.specs.Runnable.{AreFilters};
ghost use Rattle.template_compiler_code.specs.Listing.{code_in, TakesNoMore};
ghost use Rattle.template_compiler_codegen.specs.Expressions.{filters_code};
ghost use Rattle.template_compiler_emission.specs.Puts.{Puts};
ghost use Rattle.template_compiler_expression_codegen.specs.Filters.{IsLastRunnable, last_code};

use crate::coded::coded_spine;
use crate::expressions::compile_filter;
use crate::leaves::unless_refused;
use std::alloc::Global;
use template_compiler_code::Instructions;
use template_compiler_tree::{Expr, Span};
use template_values_errors::{Error, ErrorKind};

/// Puts the code of the filters of a block behind the instructions: the first one over the value on top, each other one
/// over what the one before it gives. It comes from the span of the last one. Linear in the filters, besides what the
/// operators of constant trees cost.
///
/// # Errors
///
/// Those of [`Instructions::add`].
pub fn compile_filters<'source>(
    alloc: Global,
    code: &mut Instructions<'source>,
    filters: &Expr<'source>,
) -> Result<(), Error>
    requires { AreFilters (expression_of filters.now) }
    ensures put { OnOk result (Puts (filters_code (expression_of filters.now)) code.old code.new) }
    ensures refused { IfErr result (TakesNoMore (code_in code.new)) }
{
    match put_filters(alloc, code, filters, &filters.span()) {
        Ok(()) => Ok(()),
        Err(kind) => Err(Error::new(kind)),
    }
}

// The same along a list of them, of which there may be as many as the source is long.
fn put_filters<'source>(
    alloc: Global,
    code: &mut Instructions<'source>,
    filters: &Expr<'source>,
    span: &Span,
) -> Result<(), ErrorKind>
    requires { AreFilters (expression_of filters.now) }
    ensures put { OnOk result (Puts (filters_code (expression_of filters.now)) code.old code.new) }
    ensures refused { IfErr result (λ kind. TakesNoMore (code_in code.new) (kind ∷ [])) }
{
    let nodes = unless_refused(coded_spine(alloc, filters))?;
    let mut i = 0;
    while i < nodes.len() {
        put_filter(alloc, code, nodes[i], span)?;
        i += 1;
    }
    Ok(())
}

// The last of some filters, over the value on top.
fn put_filter<'source>(
    alloc: Global,
    code: &mut Instructions<'source>,
    filter: &Expr<'source>,
    span: &Span,
) -> Result<(), ErrorKind>
    requires { IsLastRunnable (expression_of filter.now) }
    ensures put { OnOk result (Puts (last_code (expression_of filter.now)) code.old code.new) }
    ensures refused { IfErr result (λ kind. TakesNoMore (code_in code.new) (kind ∷ [])) }
{
    match filter {
        Expr::Filter(n) => compile_filter(alloc, code, &mut None, &n.node, Some(span)),
        Expr::Var(_) => Ok(()),
        Expr::Const(_) => Ok(()),
        Expr::Slice(_) => Ok(()),
        Expr::UnaryOp(_) => Ok(()),
        Expr::BinOp(_) => Ok(()),
        Expr::Compare(_) => Ok(()),
        Expr::IfExpr(_) => Ok(()),
        Expr::Test(_) => Ok(()),
        Expr::GetAttr(_) => Ok(()),
        Expr::GetItem(_) => Ok(()),
        Expr::Call(_) => Ok(()),
        Expr::List(_) => Ok(()),
        Expr::Tuple(_) => Ok(()),
        Expr::Map(_) => Ok(()),
    }
}
