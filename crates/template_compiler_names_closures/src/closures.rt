//! The names that a macro encloses, and whether it takes a caller.
ghost use Rattle.std.specs.Prelude.{◌≡◌, ℕ, List, IfOk, OnOk, map, string_bytes};
ghost use Rattle.std.specs.BTreeSet.{contains_text, keys};
ghost use Rattle.template_compiler_tree.specs.View.{expressions_in};
ghost use Rattle.template_compiler_tree_parts.specs.Listed.{statements_in};
ghost use Rattle.template_compiler_names.specs.Among.{nothing};
ghost use Rattle.template_compiler_names.specs.Goes.{Goes};
ghost use Rattle.template_compiler_names.specs.Names.{place_of_arguments, place_within, reversed};
ghost use Rattle.template_compiler_tree.specs.Tree.{no_expressions};
ghost use Rattle.template_compiler_names_closures.specs.Closures.{enclosed_names, encloses, uses_caller};

use crate::begin::begin;
use std::alloc::{AllocError, Global};
use std::collections::BTreeSet;
use template_compiler_names::Names;
use template_compiler_names_statements::{bind_arguments, use_region};
use template_compiler_tree_statements::Macro;

/// What a macro uses of what surrounds it.
#[derive(Drop)]
pub struct MacroUses {
    /// The names that it encloses, each once, in order.
    pub enclosed: BTreeSet<String>,
    /// Whether it takes a caller: whether a default of its arguments or its body uses `caller`.
    pub caller: bool,
}

/// The names that a macro encloses, each once, in order: those that the defaults of its arguments and its body use, its
/// own name too where they use it, and never `caller`, `self` or `super`. Takes a look-up for each place of use in each
/// of the regions around it, which are 300 at most, and memory for each name.
///
/// # Errors
///
/// Want of memory.
pub fn find_macro_closure(
    alloc: Global,
    declared: &Macro<'_>,
) -> Result<BTreeSet<String>, AllocError>
    ensures names { IfOk result (λ names. (name : List ℕ) → contains_text names name
        ≡ encloses (expressions_in declared.now.args.items) (expressions_in declared.now.defaults.items)
        (statements_in declared.now.body.items) name) }
    ensures listed { IfOk result (λ names. map string_bytes (keys names)
        ≡ enclosed_names (expressions_in declared.now.args.items) (expressions_in declared.now.defaults.items)
        (statements_in declared.now.body.items)) }
{
    let MacroUses { enclosed, .. } = find_macro_uses(alloc, declared)?;
    Ok(enclosed)
}

/// The same, and whether the macro takes a caller.
///
/// # Errors
///
/// Want of memory.
pub fn find_macro_uses(alloc: Global, declared: &Macro<'_>) -> Result<MacroUses, AllocError>
    ensures names { IfOk result (λ uses. (name : List ℕ) → contains_text uses.enclosed name
        ≡ encloses (expressions_in declared.now.args.items) (expressions_in declared.now.defaults.items)
        (statements_in declared.now.body.items) name) }
    ensures listed { IfOk result (λ uses. map string_bytes (keys uses.enclosed)
        ≡ enclosed_names (expressions_in declared.now.args.items) (expressions_in declared.now.defaults.items)
        (statements_in declared.now.body.items)) }
    ensures caller { IfOk result (λ uses. uses.caller
        ≡ uses_caller (expressions_in declared.now.args.items) (expressions_in declared.now.defaults.items)
        (statements_in declared.now.body.items)) }
{
    let mut names = begin(alloc)?;
    use_declared(&mut names, declared)?;
    let mut enclosed = names.into_found()?;
    let caller = enclosed.remove("caller");
    Ok(MacroUses { enclosed, caller })
}

// Uses the names in a macro: in the defaults of its arguments, the last one first, and in its body.
fn use_declared<'source>(
    names: &mut Names<'source>,
    declared: &Macro<'source>,
) -> Result<(), AllocError>
    ensures { OnOk result (Goes (λ places. place_of_arguments places (reversed (expressions_in declared.now.args.items) no_expressions)
        (reversed (expressions_in declared.now.defaults.items) no_expressions)
        (place_within places (statements_in declared.now.body.items))) nothing names.old names.new) }
{
    let around = names.open()?;
    bind_arguments(names, &declared.args, &declared.defaults)?;
    use_region(names, &declared.body)?;
    names.close(around);
    Ok(())
}
