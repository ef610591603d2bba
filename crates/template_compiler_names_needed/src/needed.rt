//! The names that a whole template takes of its context.
ghost use Rattle.std.specs.Prelude.{◌≡◌, ℕ, List, IfOk, OnErr, OnOk};
ghost use Rattle.std.specs.BTreeSet.{contains_text};
ghost use Rattle.template_compiler_tree_parts.specs.Listed.{statements_in};
ghost use Rattle.template_machine_meaning.specs.Isolation.{is_needed};
ghost use Rattle.template_compiler_names.specs.Among.{Adds};
ghost use Rattle.template_compiler_names_statements.specs.Found.{AddsSome};
ghost use Rattle.template_compiler_names_needed.specs.Needed.{is_used_by_one, needed_by};

use crate::blocks;
use crate::imported::imported_names;
use crate::rounds::recursive_loops;
use std::alloc::{AllocError, Global};
use std::collections::BTreeSet;
use template_compiler_names::{Names, add_each};
use template_compiler_names_closures::use_loop_rounds;
use template_compiler_names_statements::{add_names, use_region};
use template_compiler_tree_statements::Stmt;

/// The names that a template needs: those that it uses, those that one of its blocks, or of its recursive loops, uses by
/// itself, and those that it imports from others. Takes a look-up for each place of use in each of the regions around it
/// and, once for each block and each recursive loop around it too, and memory for each name.
///
/// # Errors
///
/// Want of memory; a template inside another, of which the grammar reads none, is refused as that.
pub fn find_needed(alloc: Global, body: &[Stmt<'_>]) -> Result<BTreeSet<String>, AllocError>
    ensures { IfOk result (λ names. (name : List ℕ) → contains_text names name ≡ is_needed name (statements_in body.now)) }
{
    let imported = imported_names(alloc, body)?;
    let mut names = find_used(alloc, body)?;
    add_each(alloc, &mut names, &imported)?;
    Ok(names)
}

// The names that a body uses, or one of the blocks or of the recursive loops in it by itself.
fn find_used(alloc: Global, body: &[Stmt<'_>]) -> Result<BTreeSet<String>, AllocError>
    ensures { IfOk result (λ names. (name : List ℕ) → contains_text names name ≡ is_used_by_one name (statements_in body.now)) }
{
    let nodes = blocks(alloc, body)?;
    let loops = recursive_loops(alloc, body)?;
    let mut names = Names::new(alloc, false);
    names.store("self")?;
    names.store("super")?;
    use_region(&mut names, body)?;
    for i in 0..nodes.len() {
        use_region(&mut names, &nodes[i].body)?;
    }
    for j in 0..loops.len() {
        use_loop_rounds(&mut names, &loops[j])?;
    }
    names.into_found()
}

/// Adds the names that a template needs to a set of names. Takes what [`find_needed`] takes, and a look-up in the set and
/// memory for each of the names.
///
/// # Errors
///
/// Those of [`find_needed`]; then the set has its old names, and some of those that the template needs.
pub fn add_needed(
    alloc: Global,
    names: &mut BTreeSet<String>,
    body: &[Stmt<'_>],
) -> Result<(), AllocError>
    ensures added { OnOk result (Adds (needed_by (statements_in body.now)) names.old names.new) }
    ensures partial { OnErr result (AddsSome (needed_by (statements_in body.now)) names.old names.new) }
{
    let needed = find_needed(alloc, body)?;
    add_names(names, needed)
}
