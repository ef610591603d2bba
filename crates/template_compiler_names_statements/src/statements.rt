//! The names in statements. A chain of `elif` is gone along in a loop; other bodies nest at most 150 deep.
ghost use Rattle.std.specs.Prelude.{◌≡◌, OnOk};
ghost use Rattle.template_compiler_tree.specs.View.{expressions_in};
ghost use Rattle.template_compiler_tree_statements.specs.View.{statement_of};
ghost use Rattle.template_compiler_tree_parts.specs.Listed.{statements_in};
ghost use Rattle.template_compiler_names.specs.Names.{is_stored_by, place_by, place_of_macro, place_within};
ghost use Rattle.template_compiler_names.specs.Among.{nothing};
ghost use Rattle.template_compiler_names.specs.Goes.{Goes};
ghost use Rattle.template_compiler_names_statements.specs.Stores.{is_stored_among};
ghost use Rattle.template_compiler_names_statements.specs.Choices.{choice_of, loop_of, with_of};

use crate::parts::{begin_loop, end_set_block, use_call};
use crate::{assign, bind_arguments, bind_imports, use_assignments, use_expression};
use std::alloc::AllocError;
use template_compiler_names::Names;
use template_compiler_tree::{Expr, Spanned};
use template_compiler_tree_statements::{ForLoop, IfCond, Stmt, WithBlock};

// The statements of a region, one behind the other.
#[cycle(statement)]
#[inline(always)]
fn use_statements<'source>(
    names: &mut Names<'source>,
    body: &[Stmt<'source>],
) -> Result<(), AllocError>
    ensures { OnOk result (Goes (λ places. place_within places (statements_in body.now))
        (λ name. is_stored_among name (statements_in body.now)) names.old names.new) }
{
    for statement in body {
        use_statement(names, statement)?;
    }
    Ok(())
}

/// Uses the names in the statements of a region of its own.
///
/// # Errors
///
/// Want of memory.
#[cycle(statement)]
#[inline(never)]
pub fn use_region<'source>(
    names: &mut Names<'source>,
    body: &[Stmt<'source>],
) -> Result<(), AllocError>
    ensures { OnOk result (Goes (λ places. place_within places (statements_in body.now)) nothing names.old names.new) }
{
    if body.is_empty() {
        return Ok(());
    }
    let around = names.open()?;
    use_statements(names, body)?;
    names.close(around);
    Ok(())
}

// A loop: its body is a region, in which its target is stored.
#[cycle(statement)]
#[inline(never)]
fn use_loop<'source>(
    names: &mut Names<'source>,
    node: &Box<Spanned<ForLoop<'source>>>,
) -> Result<(), AllocError>
    ensures { OnOk result (Goes (λ places. place_by places (loop_of node.now)) nothing names.old names.new) }
{
    use_expression(names, &node.node.iter)?;
    let around = names.open()?;
    begin_loop(names, &node.node)?;
    use_statements(names, &node.node.body)?;
    names.close(around);
    use_region(names, &node.node.else_body)
}

// An `if`, and those that are alone in its else part.
#[cycle(statement)]
#[inline(never)]
fn use_chain<'source>(
    names: &mut Names<'source>,
    first: &Box<Spanned<IfCond<'source>>>,
) -> Result<(), AllocError>
    ensures { OnOk result (Goes (λ places. place_by places (choice_of first.now)) nothing names.old names.new) }
{
    let mut at = first;
    loop {
        let node = &at.node;
        use_expression(names, &node.expr)?;
        use_region(names, &node.true_body)?;
        let other = &node.false_body;
        if other.len() != 1 {
            return use_region(names, other);
        }
        at = match &other[0] {
            Stmt::IfCond(n) => n,
            _ => return use_region(names, other),
        };
    }
}

// A region that begins with assignments.
#[cycle(statement)]
#[inline(never)]
fn use_with<'source>(
    names: &mut Names<'source>,
    node: &Box<Spanned<WithBlock<'source>>>,
) -> Result<(), AllocError>
    ensures { OnOk result (Goes (λ places. place_by places (with_of node.now)) nothing names.old names.new) }
{
    let around = names.open()?;
    use_assignments(names, &node.node.assignments)?;
    use_statements(names, &node.node.body)?;
    names.close(around);
    Ok(())
}

/// Uses the names in a macro: in the defaults of its arguments and in its body, in a region of its own where `caller` is
/// stored.
///
/// # Errors
///
/// Want of memory.
#[cycle(statement)]
#[inline(never)]
pub fn use_macro<'source>(
    names: &mut Names<'source>,
    body: &[Stmt<'source>],
    arguments: &[Expr<'source>],
    defaults: &[Expr<'source>],
) -> Result<(), AllocError>
    ensures { OnOk result (Goes (λ places. place_of_macro places (expressions_in arguments.now) (expressions_in defaults.now)
        (place_within places (statements_in body.now))) nothing names.old names.new) }
{
    let around = names.open()?;
    names.store("caller")?;
    bind_arguments(names, arguments, defaults)?;
    use_statements(names, body)?;
    names.close(around);
    Ok(())
}

/// Uses the names in a statement, and stores those that it stores, in the region where it stands.
///
/// # Errors
///
/// Want of memory.
#[cycle(statement)]
#[inline(always)]
pub fn use_statement<'source>(
    names: &mut Names<'source>,
    statement: &Stmt<'source>,
) -> Result<(), AllocError>
    ensures { OnOk result (Goes (λ places. place_by places (statement_of statement.now))
        (λ name. is_stored_by name (statement_of statement.now)) names.old names.new) }
{
    match statement {
        Stmt::EmitRaw(_) => Ok(()),
        Stmt::EmitExpr(n) => use_expression(names, &n.node.expr),
        Stmt::IfCond(n) => use_chain(names, n),
        Stmt::ForLoop(n) => use_loop(names, n),
        _ => use_other(names, statement),
    }
}

// The same of any statement.
#[cycle(statement)]
#[inline(never)]
fn use_other<'source>(
    names: &mut Names<'source>,
    statement: &Stmt<'source>,
) -> Result<(), AllocError>
    ensures { OnOk result (Goes (λ places. place_by places (statement_of statement.now))
        (λ name. is_stored_by name (statement_of statement.now)) names.old names.new) }
{
    match statement {
        Stmt::Template(n) => use_region(names, &n.node.children),
        Stmt::EmitExpr(n) => use_expression(names, &n.node.expr),
        Stmt::EmitRaw(_) => Ok(()),
        Stmt::ForLoop(n) => use_loop(names, n),
        Stmt::IfCond(n) => use_chain(names, n),
        Stmt::WithBlock(n) => use_with(names, n),
        Stmt::Set(n) => assign(names, &n.node.target, &n.node.expr),
        Stmt::SetBlock(n) => {
            use_region(names, &n.node.body)?;
            end_set_block(names, &n.node)
        }
        Stmt::AutoEscape(n) => {
            use_expression(names, &n.node.enabled)?;
            use_region(names, &n.node.body)
        }
        Stmt::FilterBlock(n) => {
            use_region(names, &n.node.body)?;
            use_expression(names, &n.node.filter)
        }
        Stmt::Block(n) => use_region(names, &n.node.body),
        Stmt::Import(n) => assign(names, &n.node.name, &n.node.expr),
        Stmt::FromImport(n) => {
            use_expression(names, &n.node.expr)?;
            bind_imports(names, &n.node.names)
        }
        Stmt::Extends(n) => use_expression(names, &n.node.name),
        Stmt::Include(n) => use_expression(names, &n.node.name),
        Stmt::Macro(n) => {
            let node = &n.node;
            use_macro(names, &node.body, &node.args, &node.defaults)?;
            names.store(node.name)
        }
        Stmt::CallBlock(n) => {
            use_call(names, &n.node.call.node)?;
            let declared = &n.node.macro_decl.node;
            use_macro(names, &declared.body, &declared.args, &declared.defaults)
        }
        Stmt::Continue(_) => Ok(()),
        Stmt::Break(_) => Ok(()),
        Stmt::Do(n) => use_call(names, &n.node.call.node),
    }
}
