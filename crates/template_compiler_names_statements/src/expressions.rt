//! The names in expressions. A tree is gone along its left parts in a loop; its other parts nest at most 150 deep.
ghost use Rattle.std.specs.Prelude.{◌≡◌, ◌<◌, ◌≤◌, ℕ, false, List, [], IfOk, IfSome, OnOk, option_map};
ghost use Rattle.template_compiler_tree.specs.View.{expression_of, expressions_in, links_in, optional_in, argument_of, arguments_in};
ghost use Rattle.template_compiler_tree.specs.declared.expressions.Expr.{size-Expr};
ghost use Rattle.template_compiler_tree_parts.specs.Spine.{left_of};
ghost use Rattle.template_compiler_names.specs.Names.{place_in, place_if_given, place_in_one, place_in_links, place_in_arguments, place_in_argument};
ghost use Rattle.template_compiler_names.specs.Among.{nothing};
ghost use Rattle.template_compiler_names.specs.Dotted.{fields_of};
ghost use Rattle.template_compiler_names.specs.Goes.{Goes};
ghost use Rattle.template_compiler_names_statements.specs.Parts.{place_beside};

use std::alloc::AllocError;
use template_compiler_names::{Names, go_left};
use template_compiler_tree::{CallArg, CompareOp, Expr};
use template_compiler_tree_parts::left;

/// Uses the names in an expression.
///
/// # Errors
///
/// Want of memory.
#[cycle(expression)]
pub fn use_expression<'source>(
    names: &mut Names<'source>,
    expr: &Expr<'source>,
) -> Result<(), AllocError>
    ensures { OnOk result (Goes (λ places. place_in places (expression_of expr.now)) nothing names.old names.new) }
{
    match expr {
        Expr::Var(n) => names.find_alone(n.node.id),
        Expr::Const(_) => Ok(()),
        _ => {
            if names.nested {
                use_dotted(names, expr)
            } else {
                use_plain(names, expr)
            }
        }
    }
}

// The same where the dotted names behind a name are told too.
#[cycle(expression)]
#[inline(never)]
fn use_dotted<'source>(names: &mut Names<'source>, expr: &Expr<'source>) -> Result<(), AllocError>
    ensures { OnOk result (Goes (λ places. place_in places (expression_of expr.now)) nothing names.old names.new) }
{
    let mut behind = Vec::new(names.alloc);
    let mut left_part = Some(expr);
    while let Some(part) = left_part {
        use_others(names, part, &behind)?;
        go_left(&mut behind, part)?;
        left_part = left(part);
    }
    Ok(())
}

// The same where names alone are told.
#[cycle(expression)]
#[inline(never)]
fn use_plain<'source>(names: &mut Names<'source>, expr: &Expr<'source>) -> Result<(), AllocError>
    requires { names.old.nested ≡ false }
    ensures { OnOk result (Goes (λ places. place_in places (expression_of expr.now)) nothing names.old names.new) }
{
    let mut left_part = Some(expr);
    while let Some(part) = left_part {
        left_part = use_part(names, part)?;
    }
    Ok(())
}

// Uses the names in an expression beside its left part, which it gives.
#[cycle(expression)]
#[inline(always)]
fn use_part<'a, 'source>(
    names: &mut Names<'source>,
    expr: &'a Expr<'source>,
) -> Result<Option<&'a Expr<'source>>, AllocError>
    ensures uses { OnOk result (Goes (λ places. place_beside places [] (expression_of expr.now)) nothing names.old names.new) }
    ensures left { IfOk result (λ part. option_map (λ left. expression_of left.now) part ≡ left_of (expression_of expr.now)) }
    ensures smaller { IfOk result (λ part. IfSome part (λ left. size-Expr left.now < size-Expr expr.now)) }
{
    match expr {
        Expr::Var(n) => {
            names.find_alone(n.node.id)?;
            Ok(None)
        }
        Expr::Const(_) => Ok(None),
        Expr::GetAttr(n) => Ok(Some(&n.node.expr)),
        Expr::UnaryOp(n) => {
            use_expression(names, &n.node.expr)?;
            Ok(None)
        }
        Expr::BinOp(n) => {
            use_expression(names, &n.node.right)?;
            Ok(Some(&n.node.left))
        }
        Expr::GetItem(n) => {
            use_expression(names, &n.node.subscript_expr)?;
            Ok(Some(&n.node.expr))
        }
        _ => {
            use_others(names, expr, &[])?;
            Ok(left(expr))
        }
    }
}

// Uses the names in an expression beside its left part, where it has these dotted names behind it.
#[cycle(expression)]
#[inline(never)]
fn use_others<'source>(
    names: &mut Names<'source>,
    expr: &Expr<'source>,
    behind: &[&'source str],
) -> Result<(), AllocError>
    ensures { OnOk result (Goes (λ places. place_beside places (fields_of behind.now) (expression_of expr.now)) nothing
        names.old names.new) }
{
    match expr {
        Expr::Var(n) => names.find(n.node.id, behind),
        Expr::Slice(n) => {
            use_optional(names, &n.node.start)?;
            use_optional(names, &n.node.stop)?;
            use_optional(names, &n.node.step)
        }
        Expr::UnaryOp(n) => use_expression(names, &n.node.expr),
        Expr::BinOp(n) => use_expression(names, &n.node.right),
        Expr::Compare(n) => use_links(names, &n.node.ops),
        Expr::IfExpr(n) => {
            use_expression(names, &n.node.test_expr)?;
            use_expression(names, &n.node.true_expr)?;
            use_optional(names, &n.node.false_expr)
        }
        Expr::Filter(n) => use_arguments(names, &n.node.args),
        Expr::Test(n) => use_arguments(names, &n.node.args),
        Expr::GetItem(n) => use_expression(names, &n.node.subscript_expr),
        Expr::Call(n) => use_arguments(names, &n.node.args),
        Expr::List(n) => use_items(names, &n.node.items),
        Expr::Tuple(n) => use_items(names, &n.node.items),
        Expr::Map(n) => {
            use_items(names, &n.node.keys)?;
            use_items(names, &n.node.values)
        }
        Expr::Const(_) => Ok(()),
        Expr::GetAttr(_) => Ok(()),
    }
}

/// Uses the names in an expression, if there is one.
///
/// # Errors
///
/// Want of memory.
#[cycle(expression)]
pub fn use_optional<'source>(
    names: &mut Names<'source>,
    expr: &Option<Expr<'source>>,
) -> Result<(), AllocError>
    ensures { OnOk result (Goes (λ places. place_if_given places (optional_in expr.now)) nothing names.old names.new) }
{
    match expr {
        Some(expr) => use_expression(names, expr),
        None => Ok(()),
    }
}

#[cycle(expression)]
fn use_items<'source>(names: &mut Names<'source>, items: &[Expr<'source>]) -> Result<(), AllocError>
    ensures { OnOk result (Goes (λ places. place_in_one places (expressions_in items.now)) nothing names.old names.new) }
{
    for item in items {
        use_expression(names, item)?;
    }
    Ok(())
}

#[cycle(expression)]
fn use_links<'source>(
    names: &mut Names<'source>,
    links: &[CompareOp<'source>],
) -> Result<(), AllocError>
    ensures { OnOk result (Goes (λ places. place_in_links places (links_in links.now)) nothing names.old names.new) }
{
    for link in links {
        use_expression(names, &link.expr)?;
    }
    Ok(())
}

/// Uses the names in the arguments of a call.
///
/// # Errors
///
/// Want of memory.
#[cycle(expression)]
pub fn use_arguments<'source>(
    names: &mut Names<'source>,
    arguments: &[CallArg<'source>],
) -> Result<(), AllocError>
    ensures { OnOk result (Goes (λ places. place_in_arguments places (arguments_in arguments.now)) nothing names.old names.new) }
{
    for argument in arguments {
        use_argument(names, argument)?;
    }
    Ok(())
}

#[cycle(expression)]
fn use_argument<'source>(
    names: &mut Names<'source>,
    argument: &CallArg<'source>,
) -> Result<(), AllocError>
    ensures { OnOk result (Goes (λ places. place_in_argument places (argument_of argument.now)) nothing names.old names.new) }
{
    match argument {
        CallArg::Pos(expr) => use_expression(names, expr),
        CallArg::Kwarg(_, expr) => use_expression(names, expr),
        CallArg::PosSplat(expr) => use_expression(names, expr),
        CallArg::KwargSplat(expr) => use_expression(names, expr),
    }
}
