//! Owned sets of names, to which templates add theirs.
ghost use Rattle.std.specs.Prelude.{OnErr, OnOk};
ghost use Rattle.std.specs.BTreeSet.{contains_text};
ghost use Rattle.template_compiler_tree_statements.specs.View.{statement_of};
ghost use Rattle.template_compiler_names.specs.Among.{Adds};
ghost use Rattle.template_compiler_names_statements.specs.Found.{AddsJust, AddsSome, uses};

use crate::undeclared::find_undeclared;
use std::alloc::{AllocError, Global};
use std::collections::BTreeSet;
use template_compiler_names::add_text;
use template_compiler_tree_statements::Stmt;

/// Adds the names that a template uses to a set of names. Takes what [`find_undeclared`] takes, and a
/// look-up in the set and memory for each of the names.
///
/// # Errors
///
/// Want of memory; then the set has its old names, and some of those that the template uses.
pub fn add_undeclared(
    alloc: Global,
    names: &mut BTreeSet<String>,
    tree: &Stmt<'_>,
) -> Result<(), AllocError>
    ensures added { OnOk result (AddsJust (statement_of tree.now) names.old names.new) }
    ensures partial { OnErr result (AddsSome (uses (statement_of tree.now)) names.old names.new) }
{
    let used = find_undeclared(alloc, tree, false)?;
    add_names(names, used)
}

/// Adds the names of a set to another. Takes a look-up in it and memory for each of them.
///
/// # Errors
///
/// Want of memory; then the set has its old names, and some of the others.
pub fn add_names(names: &mut BTreeSet<String>, used: BTreeSet<String>) -> Result<(), AllocError>
    ensures added { OnOk result (Adds (contains_text used) names.old names.new) }
    ensures partial { OnErr result (AddsSome (contains_text used) names.old names.new) }
{
    for name in used {
        add_text(names, name)?;
    }
    Ok(())
}
