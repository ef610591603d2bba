//! Names of files.
ghost use Rattle.std.specs.Prelude.{◌≡◌, ◌↔◌, ◌++◌, ℕ, List, IfOk, string_bytes};
ghost use Rattle.std.specs.List.{Contains};
ghost use Rattle.std.specs.List.Sorted.{IsStrictlySortedBy};
ghost use Rattle.std.specs.Cmp.Lexicographic.{slice_cmp};
ghost use Rattle.std.specs.Ordering.{nat_cmp};
ghost use Rattle.template_program_files.specs.Views.{names_in};

use std::alloc::{AllocError, Global};

/// One text behind another.
pub(crate) fn together(alloc: Global, first: &str, second: &str) -> Result<String, AllocError>
    ensures { IfOk result (λ text. string_bytes text ≡ first.now ++ second.now) }
{
    let mut text = String::from_str(alloc, first)?;
    text.push_str(second)?;
    Ok(text)
}

/// The names in the order of their bytes, each once.
pub(crate) fn ordered(mut names: Vec<String>) -> Result<Vec<String>, AllocError>
    ensures ascending { IfOk result (λ all. IsStrictlySortedBy (slice_cmp nat_cmp) (names_in all.items)) }
    ensures same { IfOk result (λ all. (name : List ℕ) → Contains (names_in all.items) name ↔ Contains (names_in names.items) name) }
{
    names.sort()?;
    names.dedup();
    Ok(names)
}
