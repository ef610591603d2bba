//! The recursive loops in statements.
ghost use Rattle.std.specs.Prelude.{◌≡◌, ℕ, List, IfOk};
ghost use Rattle.template_compiler_tree_parts.specs.Listed.{statements_in};
ghost use Rattle.template_machine_meaning.specs.Isolation.{is_used_by_rounds};
ghost use Rattle.template_compiler_names.specs.Names.{anywhere};
ghost use Rattle.template_compiler_names_closures.specs.Units.{part_of, parts_in};
ghost use Rattle.template_compiler_names_needed.specs.Needed.{has_whole, is_whole, place_in_loops};

use std::alloc::{AllocError, Global};
use template_compiler_names_closures::{Unit, units_among};
use template_compiler_tree_statements::Stmt;

/// The blocks and the recursive loops in statements, those inside others too, in order: what their loops use by
/// themselves is what those of the statements do. A template that stands in another, which no grammar reads, is refused
/// as want of memory is. Linear.
///
/// # Errors
///
/// Want of memory.
pub fn recursive_loops<'tree, 'source>(
    alloc: Global,
    body: &'tree [Stmt<'source>],
) -> Result<Vec<Unit<'tree, 'source>>, AllocError>
    ensures { IfOk result (λ loops. (name : List ℕ) →
        place_in_loops (anywhere name) loops.items ≡ is_used_by_rounds name (statements_in body.now)) }
{
    let units = units_among(alloc, body)?;
    if holds_template(&units) {
        return Err(AllocError);
    }
    Ok(units)
}

// Whether one of the units is a template.
fn holds_template(units: &[Unit<'_, '_>]) -> bool
    ensures { result ≡ has_whole (parts_in units.now) }
{
    for unit in units {
        if is_template(unit) {
            return true;
        }
    }
    false
}

fn is_template(unit: &Unit<'_, '_>) -> bool
    ensures { result ≡ is_whole (part_of unit.now) }
{
    match unit {
        Unit::Template(_) => true,
        Unit::Block(_) => false,
        Unit::Loop(_) => false,
    }
}
