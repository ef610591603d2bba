//! Names that differ from one another.
ghost use Rattle.std.specs.Prelude.{◌≡◌, ◌||◌, List, ℕ, not, bytes_eq, IfOk};
ghost use Rattle.template_compiler_sources.specs.Seen.{has_seen};
ghost use Rattle.template_compiler_sources.specs.Waiting.{texts_in};
ghost use Rattle.template_compiler_grammar.specs.TemplateTrees.{are_distinct};

use std::alloc::{AllocError, Global};
use std::collections::BTreeSet;

/// Whether no name stands twice. Takes n log n comparisons for n names.
///
/// # Errors
///
/// Want of memory.
pub fn are_distinct(alloc: Global, names: &[&str]) -> Result<bool, AllocError>
    ensures { IfOk result (λ distinct. distinct ≡ are_distinct (texts_in names.now)) }
{
    let mut seen = BTreeSet::new(alloc);
    for name in names {
        if !see(&mut seen, name)? {
            return Ok(false);
        }
    }
    Ok(true)
}

// Whether the name was not seen before; it is now.
fn see<'a>(seen: &mut BTreeSet<&'a str>, name: &'a str) -> Result<bool, AllocError>
    ensures new { IfOk result (λ added. added ≡ not (has_seen seen.old name.now)) }
    ensures seen { IfOk result (λ added. (q : List ℕ) → has_seen seen.new q ≡ (bytes_eq q name.now || has_seen seen.old q)) }
{
    Ok(seen.insert(name)?)
}
