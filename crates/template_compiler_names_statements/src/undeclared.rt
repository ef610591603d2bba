//! The names that a whole template uses.
ghost use Rattle.std.specs.Prelude.{◌≡◌, ◌↔◌, ℕ, List, IfOk, IsTrue};
ghost use Rattle.template_compiler_tree.specs.Tree.{Statements};
ghost use Rattle.template_compiler_tree_statements.specs.View.{statement_of};
ghost use Rattle.template_compiler_names.specs.Names.{along, is_used, uses_place};
ghost use Rattle.template_compiler_names_statements.specs.Found.{HasJust};

use crate::use_statement;
use std::alloc::{AllocError, Global};
use std::collections::BTreeSet;
use template_compiler_names::Names;
use template_compiler_tree_statements::Stmt;

/// The names that a template uses, each once, in order; where `track_nested`, each with the dotted names that
/// stand directly behind it at a place of use, as `bar.baz`. Takes a look-up for each place of use in each of
/// the regions around it, which are 300 at most, and memory for each text.
///
/// # Errors
///
/// Want of memory.
pub fn find_undeclared(
    alloc: Global,
    tree: &Stmt<'_>,
    track_nested: bool,
) -> Result<BTreeSet<String>, AllocError>
    ensures { IfOk result (HasJust track_nested (statement_of tree.now)) }
{
    let mut names = Names::new(alloc, track_nested);
    names.store("self")?;
    names.store("super")?;
    use_statement(&mut names, tree)?;
    names.into_found()
}

/// A law: the names that a template is told to use are the first ones of those with dotted names behind them.
pub fn first_segments()
    ensures { (tree : Statements) (name : List ℕ) → IsTrue (is_used name tree)
        ↔ ((fields : List (List ℕ)) × IsTrue (uses_place (along name fields) tree)) }
{}
