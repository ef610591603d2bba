//! The values of constant trees. A tree is gone along its left parts in a loop; its other parts nest at most 150 deep.
ghost use Rattle.std.specs.Prelude.{◌≡◌, IfOk, IfErr, option_and_then};
ghost use Rattle.template_values_errors.specs.Memory.{NoMemory};
ghost use Rattle.template_compiler_tree.specs.View.{expression_of, links_in};
ghost use Rattle.template_compiler_walk.specs.Constants.{constant_of, chain_constant};
ghost use Rattle.template_compiler_folding.specs.Folding.{binary_folded};
ghost use Rattle.template_compiler_folding.specs.Nodes.{node_constant};

use crate::{fold_binary, fold_comparison, fold_list, fold_map, fold_tuple, fold_unary, goes_on};
use std::alloc::Global;
use template_compiler_tree::{BinOpKind, CompareOp, Expr};
use template_compiler_tree_parts::spine;
use template_values_core::Value;
use template_values_errors::Error;

/// The value of an expression that is a constant tree, and none of another one: literals, containers of literals, and
/// what operators give for constant trees; where an operator refuses its operands, the tree is no constant. A chain of
/// comparisons ends at the first one that is false: `1 > 2 > x` is constant. Linear in the expression, besides what its
/// operators cost.
///
/// # Errors
///
/// [`ErrorKind::OutOfMemory`](template_values_errors::ErrorKind::OutOfMemory).
#[cycle(constant)]
pub fn as_const(alloc: Global, expr: &Expr<'_>) -> Result<Option<Value>, Error>
    ensures constant { IfOk result (λ value. value ≡ constant_of (expression_of expr.now)) }
    ensures refused { IfErr result NoMemory }
{
    let nodes = spine(alloc, expr)?;
    let mut constant = None;
    let mut i = 0;
    while i < nodes.len() {
        constant = node_constant(alloc, nodes[i], constant)?;
        i += 1;
    }
    Ok(constant)
}

// The value of a node, from that of its left part.
#[cycle(constant)]
fn node_constant(
    alloc: Global,
    expr: &Expr<'_>,
    left: Option<Value>,
) -> Result<Option<Value>, Error>
    ensures constant { IfOk result (λ o. o ≡ node_constant left (expression_of expr.now)) }
    ensures refused { IfErr result NoMemory }
{
    match expr {
        Expr::Const(n) => {
            let value = n.node.value.copy()?;
            Ok(Some(value))
        }
        Expr::UnaryOp(n) => {
            let operand = as_const(alloc, &n.node.expr)?;
            fold_unary(n.node.op, &operand)
        }
        Expr::BinOp(n) => operator_constant(alloc, n.node.op, left, &n.node.right),
        Expr::Compare(n) => chain_constant(alloc, left, &n.node.ops),
        Expr::List(n) => fold_list(alloc, &n.node.items),
        Expr::Tuple(n) => fold_tuple(alloc, &n.node.items),
        Expr::Map(n) => fold_map(alloc, &n.node.keys, &n.node.values),
        _ => Ok(None),
    }
}

// The value of an operator behind its left side. The right side is read only where the left one is constant.
#[cycle(constant)]
fn operator_constant(
    alloc: Global,
    op: BinOpKind,
    left: Option<Value>,
    right: &Expr<'_>,
) -> Result<Option<Value>, Error>
    ensures constant { IfOk result (λ o. o ≡ binary_folded op left (constant_of (expression_of right.now))) }
    ensures refused { IfErr result NoMemory }
{
    if left.is_none() {
        return Ok(None);
    }
    let right = as_const(alloc, right)?;
    fold_binary(alloc, op, left, &right)
}

// The value of a chain's comparisons behind its first operand: that of the first one that is false, else of the last
// one. Where one that is reached is no constant, neither is the chain.
#[cycle(constant)]
fn chain_constant(
    alloc: Global,
    first: Option<Value>,
    links: &[CompareOp<'_>],
) -> Result<Option<Value>, Error>
    ensures constant { IfOk result (λ o. o ≡ option_and_then (λ v. chain_constant v (links_in links.now)) first) }
    ensures refused { IfErr result NoMemory }
{
    if first.is_none() {
        return Ok(None);
    }
    let mut left = first;
    let mut holds = None;
    for link in links {
        let right = as_const(alloc, &link.expr)?;
        holds = fold_comparison(link.op, &left, &right)?;
        if !goes_on(&holds) {
            return Ok(holds);
        }
        left = right;
    }
    Ok(holds)
}
