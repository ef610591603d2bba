//! The units of a template, in order of place.
ghost use Rattle.std.specs.Prelude.{◌≡◌, ◌++◌, ◌∷◌, [], IfOk, refl, true};
ghost use Rattle.template_compiler_tree.specs.View.{expression_of};
ghost use Rattle.template_compiler_tree_statements.specs.View.{statement_of};
ghost use Rattle.template_compiler_tree_parts.specs.Listed.{statements_in};
ghost use Rattle.template_compiler_names_closures.specs.Bodies.{is_part, own_part};
ghost use Rattle.template_compiler_names_closures.specs.Units.{part_of, parts_in, rounds_of, units_among, units_of};

use crate::Unit;
use std::alloc::{AllocError, Global};
use template_compiler_tree_parts::{Picks, pick_among, pick_of};
use template_compiler_tree_statements::{ForLoop, Stmt};

// The statements that are units, wherever they stand.
struct UnitStatements;

impl Picks for UnitStatements {
    ghost enters = { λ statement. true };

    ghost picks = { is_part };

    fn enters(_statement: &Stmt<'_>) -> bool {
        true
    }

    fn picks(statement: &Stmt<'_>) -> bool {
        match statement {
            Stmt::Template(_) => true,
            Stmt::Block(_) => true,
            Stmt::ForLoop(n) => n.node.recursive,
            _ => false,
        }
    }

    ghost passes_text = { λ text. refl };

    ghost passes_print = { λ e. refl };
}

/// The units of a tree, in order of place: the template first, then each block and each recursive loop, those inside
/// others too. Linear.
///
/// # Errors
///
/// Want of memory.
pub fn units<'tree, 'source>(
    alloc: Global,
    tree: &'tree Stmt<'source>,
) -> Result<Vec<Unit<'tree, 'source>>, AllocError>
    ensures { IfOk result (λ units. parts_in units.items ≡ units_of (statement_of tree.now)) }
{
    let statements = pick_of::<UnitStatements>(alloc, tree)?;
    let mut found = Vec::new(alloc);
    for i in 0..statements.len() {
        take_own(&mut found, statements[i])?;
    }
    Ok(found)
}

/// The units in statements, in order of place: each block and each recursive loop, those inside others too. Linear.
///
/// # Errors
///
/// Want of memory.
pub fn units_among<'tree, 'source>(
    alloc: Global,
    body: &'tree [Stmt<'source>],
) -> Result<Vec<Unit<'tree, 'source>>, AllocError>
    ensures { IfOk result (λ units. parts_in units.items ≡ units_among (statements_in body.now)) }
{
    let statements = pick_among::<UnitStatements>(alloc, body)?;
    let mut found = Vec::new(alloc);
    for i in 0..statements.len() {
        take_own(&mut found, statements[i])?;
    }
    Ok(found)
}

// The unit that a statement is itself, if it is one.
fn take_own<'tree, 'source>(
    found: &mut Vec<Unit<'tree, 'source>>,
    statement: &'tree Stmt<'source>,
) -> Result<(), AllocError>
    ensures { IfOk result (λ _. parts_in found.new.items ≡ parts_in found.old.items ++ own_part (statement_of statement.now)) }
{
    match statement {
        Stmt::Template(n) => take(found, Unit::Template(&n.node)),
        Stmt::Block(n) => take(found, Unit::Block(&n.node)),
        Stmt::ForLoop(n) => take_rounds(found, &n.node),
        _ => Ok(()),
    }
}

// The rounds of a loop, if it is recursive.
fn take_rounds<'tree, 'source>(
    found: &mut Vec<Unit<'tree, 'source>>,
    node: &'tree ForLoop<'source>,
) -> Result<(), AllocError>
    ensures { IfOk result (λ _. parts_in found.new.items
        ≡ parts_in found.old.items ++ rounds_of node.now.recursive (expression_of node.now.target) (statements_in node.now.body.items)) }
{
    if node.recursive {
        return take(found, Unit::Loop(node));
    }
    Ok(())
}

// A unit goes behind those that were found.
#[tactic(auto, using(crate::proofs::Taking::one_pushed))]
fn take<'tree, 'source>(
    found: &mut Vec<Unit<'tree, 'source>>,
    unit: Unit<'tree, 'source>,
) -> Result<(), AllocError>
    ensures { IfOk result (λ _. parts_in found.new.items ≡ parts_in found.old.items ++ part_of unit.entry ∷ []) }
{
    found.push(unit)?;
    Ok(())
}
