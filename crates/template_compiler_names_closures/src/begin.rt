//! Walks that tell names alone.
ghost use Rattle.std.specs.Prelude.{◌≡◌, ℕ, List, IfOk, false};
ghost use Rattle.template_compiler_names.specs.Goes.{knows, tells};
ghost use Rattle.template_compiler_names.specs.Names.{is_stored_everywhere};

use std::alloc::{AllocError, Global};
use template_compiler_names::Names;

// Nothing is found, and what is stored everywhere is known.
pub(crate) fn begin<'source>(alloc: Global) -> Result<Names<'source>, AllocError>
    ensures alone { IfOk result (λ names. names.nested ≡ false) }
    ensures found { IfOk result (λ names. (text : List ℕ) → tells names text ≡ false) }
    ensures known { IfOk result (λ names. (name : List ℕ) → knows names name ≡ is_stored_everywhere name) }
{
    let mut names = Names::new(alloc, false);
    names.store("self")?;
    names.store("super")?;
    Ok(names)
}
