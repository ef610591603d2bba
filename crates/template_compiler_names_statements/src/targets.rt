//! The names that targets, assignments and imports store.
ghost use Rattle.std.specs.Prelude.{◌≡◌, ◌≤◌, ◌||◌, false, length, take, OnOk};
ghost use Rattle.template_compiler_tree.specs.View.{expression_of, expressions_in, optional_in};
ghost use Rattle.template_compiler_tree_statements.specs.View.{assignments_in, imports_in};
ghost use Rattle.template_compiler_names.specs.Names.{is_imported, is_stored_in, is_stored_in_one, place_in_target, place_of_arguments, place_in_targets, place_in, place_from};
ghost use Rattle.template_compiler_names.specs.Among.{nothing};
ghost use Rattle.template_compiler_names.specs.Goes.{Goes, no_place};
ghost use Rattle.template_compiler_names_statements.specs.Stores.{backwards, place_in_first, is_assigned, is_bound};

use crate::expressions::use_expression;
use std::alloc::AllocError;
use template_compiler_names::Names;
use template_compiler_tree::Expr;

// Stores the names of a target.
#[cycle(bound)]
fn bind_target<'source>(
    names: &mut Names<'source>,
    target: &Expr<'source>,
) -> Result<(), AllocError>
    ensures { OnOk result (Goes no_place (λ name. is_stored_in name (expression_of target.now)) names.old names.new) }
{
    match target {
        Expr::Var(n) => names.store(n.node.id),
        Expr::List(n) => bind_targets(names, &n.node.items),
        Expr::Const(_) => Ok(()),
        Expr::Slice(_) => Ok(()),
        Expr::UnaryOp(_) => Ok(()),
        Expr::BinOp(_) => Ok(()),
        Expr::Compare(_) => Ok(()),
        Expr::IfExpr(_) => Ok(()),
        Expr::Filter(_) => Ok(()),
        Expr::Test(_) => Ok(()),
        Expr::GetAttr(_) => Ok(()),
        Expr::GetItem(_) => Ok(()),
        Expr::Call(_) => Ok(()),
        Expr::Tuple(_) => Ok(()),
        Expr::Map(_) => Ok(()),
    }
}

#[cycle(bound)]
fn bind_targets<'source>(
    names: &mut Names<'source>,
    targets: &[Expr<'source>],
) -> Result<(), AllocError>
    ensures { OnOk result (Goes no_place (λ name. is_stored_in_one name (expressions_in targets.now)) names.old names.new) }
{
    for target in targets {
        bind_target(names, target)?;
    }
    Ok(())
}

/// Uses the first names of dotted targets, and stores the others.
///
/// # Errors
///
/// Want of memory.
#[cycle(assigned)]
pub fn assign_target<'source>(
    names: &mut Names<'source>,
    target: &Expr<'source>,
) -> Result<(), AllocError>
    ensures { OnOk result (Goes (λ places. place_in_target places (expression_of target.now))
        (λ name. is_stored_in name (expression_of target.now)) names.old names.new) }
{
    match target {
        Expr::Var(n) => names.store(n.node.id),
        Expr::List(n) => assign_targets(names, &n.node.items),
        Expr::GetAttr(_) => use_expression(names, target),
        Expr::Const(_) => Ok(()),
        Expr::Slice(_) => Ok(()),
        Expr::UnaryOp(_) => Ok(()),
        Expr::BinOp(_) => Ok(()),
        Expr::Compare(_) => Ok(()),
        Expr::IfExpr(_) => Ok(()),
        Expr::Filter(_) => Ok(()),
        Expr::Test(_) => Ok(()),
        Expr::GetItem(_) => Ok(()),
        Expr::Call(_) => Ok(()),
        Expr::Tuple(_) => Ok(()),
        Expr::Map(_) => Ok(()),
    }
}

#[cycle(assigned)]
fn assign_targets<'source>(
    names: &mut Names<'source>,
    targets: &[Expr<'source>],
) -> Result<(), AllocError>
    ensures { OnOk result (Goes (λ places. place_in_targets places (expressions_in targets.now))
        (λ name. is_stored_in_one name (expressions_in targets.now)) names.old names.new) }
{
    for target in targets {
        assign_target(names, target)?;
    }
    Ok(())
}

/// Uses a value, then its target.
///
/// # Errors
///
/// Want of memory.
pub fn assign<'source>(
    names: &mut Names<'source>,
    target: &Expr<'source>,
    value: &Expr<'source>,
) -> Result<(), AllocError>
    ensures { OnOk result (Goes (λ places. place_in places (expression_of value.now) || place_in_target places (expression_of target.now))
        (λ name. is_stored_in name (expression_of target.now)) names.old names.new) }
{
    use_expression(names, value)?;
    assign_target(names, target)
}

/// Uses each value, then its target.
///
/// # Errors
///
/// Want of memory.
pub fn use_assignments<'source>(
    names: &mut Names<'source>,
    assignments: &[(Expr<'source>, Expr<'source>)],
) -> Result<(), AllocError>
    ensures { OnOk result (Goes (λ places. place_from places (assignments_in assignments.now) false)
        (λ name. is_assigned name (assignments_in assignments.now)) names.old names.new) }
{
    for assignment in assignments {
        assign(names, &assignment.0, &assignment.1)?;
    }
    Ok(())
}

/// Stores each imported name, or the other name that is given for it.
///
/// # Errors
///
/// Want of memory.
pub fn bind_imports<'source>(
    names: &mut Names<'source>,
    imports: &[(Expr<'source>, Option<Expr<'source>>)],
) -> Result<(), AllocError>
    ensures { OnOk result (Goes no_place (λ name. is_imported name (imports_in imports.now)) names.old names.new) }
{
    for import in imports {
        bind_import(names, &import.0, &import.1)?;
    }
    Ok(())
}

fn bind_import<'source>(
    names: &mut Names<'source>,
    name: &Expr<'source>,
    alias: &Option<Expr<'source>>,
) -> Result<(), AllocError>
    ensures { OnOk result (Goes no_place (λ id. is_bound id (expression_of name.now) (optional_in alias.now)) names.old names.new) }
{
    match alias {
        Some(alias) => bind_target(names, alias),
        None => bind_target(names, name),
    }
}

/// Goes along the arguments of a macro, from the last to the first: uses its default, if it has one, and then stores it.
///
/// # Errors
///
/// Want of memory.
pub fn bind_arguments<'source>(
    names: &mut Names<'source>,
    arguments: &[Expr<'source>],
    defaults: &[Expr<'source>],
) -> Result<(), AllocError>
    ensures { OnOk result (Goes (λ places. place_of_arguments places (backwards arguments.now) (backwards defaults.now) false)
        (λ name. is_stored_in_one name (backwards arguments.now)) names.old names.new) }
{
    let mut given = defaults.len();
    let mut at = arguments.len();
    while at > 0 {
        at -= 1;
        use_last(names, defaults, given)?;
        given = given.saturating_sub(1);
        bind_target(names, &arguments[at])?;
    }
    Ok(())
}

// Uses the last of the first defaults.
fn use_last<'source>(
    names: &mut Names<'source>,
    defaults: &[Expr<'source>],
    given: usize,
) -> Result<(), AllocError>
    requires { given ≤ length defaults.now }
    ensures { OnOk result (Goes (λ places. place_in_first places (backwards (take given defaults.now))) nothing names.old names.new) }
{
    if given == 0 {
        return Ok(());
    }
    let last = given - 1;
    use_expression(names, &defaults[last])
}
