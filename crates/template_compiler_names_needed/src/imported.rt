//! The names that statements import.
ghost use Rattle.std.specs.Prelude.{◌≡◌, ℕ, not, List, IfOk, refl};
ghost use Rattle.template_compiler_tree.specs.View.{expression_of};
ghost use Rattle.template_compiler_tree_statements.specs.View.{imports_in, statement_of};
ghost use Rattle.template_compiler_tree_parts.specs.Kinds.{is_import, is_template};
ghost use Rattle.template_compiler_tree_parts.specs.Listed.{statements_in};
ghost use Rattle.template_compiler_walk.specs.Imported.{is_imported, is_name, is_one_of};
ghost use Rattle.template_compiler_names.specs.Among.{is_among, just};
ghost use Rattle.template_compiler_names_needed.specs.Needed.{Takes, own_imports};

use std::alloc::{AllocError, Global};
use template_compiler_tree::Expr;
use template_compiler_tree_parts::{Picks, pick_among};
use template_compiler_tree_statements::Stmt;

// The statements that import names of others; a template inside another keeps its own.
struct Imports;

impl Picks for Imports {
    ghost enters = { λ statement. not (is_template statement) };

    ghost picks = { is_import };

    fn enters(statement: &Stmt<'_>) -> bool {
        match statement {
            Stmt::Template(_) => false,
            _ => true,
        }
    }

    fn picks(statement: &Stmt<'_>) -> bool {
        matches!(statement, Stmt::FromImport(_))
    }

    ghost passes_text = { λ text. refl };

    ghost passes_print = { λ e. refl };
}

/// The names that statements import from others; one that is imported again may stand there again. Linear.
///
/// # Errors
///
/// Want of memory.
pub fn imported_names<'source>(
    alloc: Global,
    body: &[Stmt<'source>],
) -> Result<Vec<&'source str>, AllocError>
    ensures { IfOk result (λ names. (name : List ℕ) → is_among names.items name ≡ is_imported name (statements_in body.now)) }
{
    let statements = pick_among::<Imports>(alloc, body)?;
    let mut names = Vec::new(alloc);
    for i in 0..statements.len() {
        take_imports(&mut names, statements[i])?;
    }
    Ok(names)
}

// The names that a statement imports itself.
fn take_imports<'source>(
    names: &mut Vec<&'source str>,
    statement: &Stmt<'source>,
) -> Result<(), AllocError>
    ensures { IfOk result (λ _. Takes (own_imports (statement_of statement.now)) names.old.items names.new.items) }
{
    match statement {
        Stmt::FromImport(n) => take_names(names, &n.node.names),
        _ => Ok(()),
    }
}

// The names among imports.
fn take_names<'source>(
    names: &mut Vec<&'source str>,
    imports: &[(Expr<'source>, Option<Expr<'source>>)],
) -> Result<(), AllocError>
    ensures { IfOk result (λ _. Takes (λ name. is_one_of name (imports_in imports.now)) names.old.items names.new.items) }
{
    for import in imports {
        take_name(names, &import.0)?;
    }
    Ok(())
}

// An expression, where it is a name.
fn take_name<'source>(names: &mut Vec<&'source str>, name: &Expr<'source>) -> Result<(), AllocError>
    ensures { IfOk result (λ _. Takes (λ id. is_name id (expression_of name.now)) names.old.items names.new.items) }
{
    match name {
        Expr::Var(n) => put_name(names, n.node.id),
        Expr::Const(_) => Ok(()),
        Expr::Slice(_) => Ok(()),
        Expr::UnaryOp(_) => Ok(()),
        Expr::BinOp(_) => Ok(()),
        Expr::Compare(_) => Ok(()),
        Expr::IfExpr(_) => Ok(()),
        Expr::Filter(_) => Ok(()),
        Expr::Test(_) => Ok(()),
        Expr::GetAttr(_) => Ok(()),
        Expr::GetItem(_) => Ok(()),
        Expr::Call(_) => Ok(()),
        Expr::List(_) => Ok(()),
        Expr::Tuple(_) => Ok(()),
        Expr::Map(_) => Ok(()),
    }
}

fn put_name<'source>(names: &mut Vec<&'source str>, name: &'source str) -> Result<(), AllocError>
    ensures { IfOk result (λ _. Takes (just name.now) names.old.items names.new.items) }
{
    names.push(name)?;
    Ok(())
}
