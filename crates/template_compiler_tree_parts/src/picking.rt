//! A walk along the statements of a tree. A chain of `elif` is gone along in a loop; other bodies nest at most 150 deep.
ghost use Rattle.std.specs.Prelude.{◌≡◌, ◌++◌, ℕ, Bool, false, List, IfOk, IsTrue};
ghost use Rattle.template_compiler_tree.specs.Tree.{Expression, Statement, print, raw};
ghost use Rattle.template_compiler_tree_statements.specs.View.{statement_of};
ghost use Rattle.template_compiler_tree_parts.specs.Listed.{statements_in};
ghost use Rattle.template_compiler_tree_parts.specs.Within.{IsPrinted, picked, picked_among, picked_of, trees_of};

use crate::bodies::{body_of, other_of};
use std::alloc::{AllocError, Global};
use template_compiler_tree_statements::Stmt;

/// Which statements a walk takes, and into which it goes.
pub trait Picks {
    ghost enters: { Statement → Bool };

    ghost picks: { Statement → Bool };

    /// Whether the walk goes into the bodies of the statement.
    fn enters(statement: &Stmt<'_>) -> bool
        ensures { result ≡ enters (statement_of statement.now) };

    /// Whether the walk takes the statement.
    fn picks(statement: &Stmt<'_>) -> bool
        ensures { result ≡ picks (statement_of statement.now) };

    ghost passes_text: { (text : List ℕ) → picks (raw text) ≡ false };

    ghost passes_print: { (e : Expression) → picks (print e) ≡ false };
}

/// The statements that are picked among those of a body and all that stand in them, in order of place: each comes before
/// those in its bodies. Linear, with memory for those that are picked.
///
/// # Errors
///
/// Want of memory.
pub fn pick_among<'tree, 'source, P: Picks>(
    alloc: Global,
    body: &'tree [Stmt<'source>],
) -> Result<Vec<&'tree Stmt<'source>>, AllocError>
    ensures { IfOk result (λ taken. trees_of taken.items ≡ picked_among P.picks P.enters (statements_in body.now)) }
{
    let mut taken = Vec::new(alloc);
    take_among::<P>(&mut taken, body)?;
    Ok(taken)
}

/// The same of a statement and all that stand in it.
///
/// # Errors
///
/// Want of memory.
pub fn pick_of<'tree, 'source, P: Picks>(
    alloc: Global,
    statement: &'tree Stmt<'source>,
) -> Result<Vec<&'tree Stmt<'source>>, AllocError>
    ensures { IfOk result (λ taken. trees_of taken.items ≡ picked_of P.picks P.enters (statement_of statement.now)) }
{
    let mut taken = Vec::new(alloc);
    take_of::<P>(&mut taken, statement)?;
    Ok(taken)
}

// Takes of the statements of a body. Most are texts and prints, of which none is picked.
#[cycle(walk)]
fn take_among<'tree, 'source, P: Picks>(
    taken: &mut Vec<&'tree Stmt<'source>>,
    body: &'tree [Stmt<'source>],
) -> Result<(), AllocError>
    ensures { IfOk result (λ _. trees_of taken.new.items ≡ trees_of taken.old.items
        ++ picked_among P.picks P.enters (statements_in body.now)) }
{
    for statement in body {
        if !is_printed(statement) {
            take_of::<P>(taken, statement)?;
        }
    }
    Ok(())
}

// Takes of a statement and of those in its bodies.
#[cycle(walk)]
fn take_of<'tree, 'source, P: Picks>(
    taken: &mut Vec<&'tree Stmt<'source>>,
    statement: &'tree Stmt<'source>,
) -> Result<(), AllocError>
    ensures { IfOk result (λ _. trees_of taken.new.items ≡ trees_of taken.old.items
        ++ picked_of P.picks P.enters (statement_of statement.now)) }
{
    let mut at = statement;
    loop {
        take_one::<P>(taken, at)?;
        if !P::enters(at) {
            return Ok(());
        }
        take_among::<P>(taken, body_of(at))?;
        let other = other_of(at);
        if other.len() != 1 {
            return take_among::<P>(taken, other);
        }
        at = &other[0];
    }
}

// Takes the statement itself, where it is picked.
#[inline(always)]
fn take_one<'tree, 'source, P: Picks>(
    taken: &mut Vec<&'tree Stmt<'source>>,
    statement: &'tree Stmt<'source>,
) -> Result<(), AllocError>
    ensures { IfOk result (λ _. trees_of taken.new.items ≡ trees_of taken.old.items ++ picked P.picks (statement_of statement.now)) }
{
    if P::picks(statement) {
        taken.push(statement)?;
    }
    Ok(())
}

// Whether the statement is a text or a print, as most are.
#[inline(always)]
fn is_printed<'source>(statement: &Stmt<'source>) -> bool
    ensures { IsTrue result → IsPrinted (statement_of statement.now) }
{
    matches!(statement, Stmt::EmitExpr(_) | Stmt::EmitRaw(_))
}
