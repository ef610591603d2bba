//! What of a template is gone over by itself, and the names that it uses.
ghost use Rattle.std.specs.Prelude.{◌≡◌, ℕ, List, IfOk, OnOk};
ghost use Rattle.std.specs.BTreeSet.{contains_text};
ghost use Rattle.template_compiler_tree.specs.View.{expression_of};
ghost use Rattle.template_compiler_tree_parts.specs.Listed.{statements_in};
ghost use Rattle.template_compiler_names.specs.Among.{nothing};
ghost use Rattle.template_compiler_names.specs.Goes.{Goes};
ghost use Rattle.template_compiler_names_closures.specs.Units.{is_used_by_part, part_of, place_in_part, place_in_rounds, rounds};

use crate::begin::begin;
use std::alloc::{AllocError, Global};
use std::collections::BTreeSet;
use template_compiler_names::Names;
use template_compiler_names_statements::{assign_target, use_region};
use template_compiler_tree_statements::{Block, ForLoop, Template};

/// What of a template is gone over by itself: where it runs is not told by where it stands.
#[derive(Clone, Copy)]
pub enum Unit<'tree, 'source> {
    /// The body of the template, with its blocks where they stand.
    Template(&'tree Template<'source>),
    /// The body of a block.
    Block(&'tree Block<'source>),
    /// The rounds of a recursive loop: its target, then its body.
    Loop(&'tree ForLoop<'source>),
}

/// The names that a unit uses, each once, in order. Takes what
/// [`find_macro_closure`](crate::find_macro_closure) takes.
///
/// # Errors
///
/// Want of memory.
pub fn used_names(alloc: Global, unit: &Unit<'_, '_>) -> Result<BTreeSet<String>, AllocError>
    ensures { IfOk result (λ names. (name : List ℕ) → contains_text names name ≡ is_used_by_part name (part_of unit.now)) }
{
    let mut names = begin(alloc)?;
    use_unit(&mut names, unit)?;
    names.into_found()
}

fn use_unit<'source>(names: &mut Names<'source>, unit: &Unit<'_, 'source>) -> Result<(), AllocError>
    ensures { OnOk result (Goes (λ places. place_in_part places (part_of unit.now)) nothing names.old names.new) }
{
    match unit {
        Unit::Template(node) => use_region(names, &node.children),
        Unit::Block(node) => use_region(names, &node.body),
        Unit::Loop(node) => use_rounds(names, node),
    }
}

/// Uses the names in a unit, where that is the rounds of a loop.
///
/// # Errors
///
/// Want of memory.
pub fn use_loop_rounds<'source>(
    names: &mut Names<'source>,
    unit: &Unit<'_, 'source>,
) -> Result<(), AllocError>
    ensures { OnOk result (Goes (λ places. place_in_rounds places (part_of unit.now)) nothing names.old names.new) }
{
    match unit {
        Unit::Template(_) => Ok(()),
        Unit::Block(_) => Ok(()),
        Unit::Loop(node) => use_rounds(names, node),
    }
}

// In the body of a loop its target and `loop` are stored.
fn use_rounds<'source>(
    names: &mut Names<'source>,
    node: &ForLoop<'source>,
) -> Result<(), AllocError>
    ensures { OnOk result (Goes (λ places.
        place_in_part places (rounds (expression_of node.now.target) (statements_in node.now.body.items))) nothing
        names.old names.new) }
{
    let around = names.open()?;
    assign_target(names, &node.target)?;
    names.store_loop()?;
    use_region(names, &node.body)?;
    names.close(around);
    Ok(())
}
