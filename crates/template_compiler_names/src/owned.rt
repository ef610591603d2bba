//! Owned sets of names.
ghost use Rattle.std.specs.Prelude.{◌≡◌, ℕ, List, OnErr, OnOk, string_bytes};
ghost use Rattle.std.specs.BTreeSet.{contains_text};
ghost use Rattle.template_compiler_names.specs.Among.{Adds, is_among, just};

use std::alloc::{AllocError, Global};
use std::collections::BTreeSet;

/// Adds a name to a set of names. Takes a look-up in the set, and memory where the name is new there.
///
/// # Errors
///
/// Want of memory; the set is then as it was.
pub fn add_name(alloc: Global, names: &mut BTreeSet<String>, name: &str) -> Result<(), AllocError>
    ensures added { OnOk result (Adds (just name.now) names.old names.new) }
    ensures unchanged { OnErr result ((q : List ℕ) → contains_text names.new q ≡ contains_text names.old q) }
{
    if !names.contains(name) {
        add_text(names, String::from_str(alloc, name)?)?;
    }
    Ok(())
}

/// Adds a text to a set of them, which takes it over.
///
/// # Errors
///
/// Want of memory; the set is then as it was.
pub fn add_text(names: &mut BTreeSet<String>, text: String) -> Result<(), AllocError>
    ensures added { OnOk result (Adds (just (string_bytes text)) names.old names.new) }
    ensures unchanged { OnErr result ((q : List ℕ) → contains_text names.new q ≡ contains_text names.old q) }
{
    names.insert(text)?;
    Ok(())
}

/// Adds each of the names to a set of names. Takes a look-up in the set for each, and memory for each that is new there.
///
/// # Errors
///
/// Want of memory.
pub fn add_each(
    alloc: Global,
    names: &mut BTreeSet<String>,
    added: &[&str],
) -> Result<(), AllocError>
    ensures { OnOk result (Adds (is_among added.now) names.old names.new) }
{
    for name in added {
        add_name(alloc, names, name)?;
    }
    Ok(())
}
