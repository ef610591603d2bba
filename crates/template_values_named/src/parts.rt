//! What a map of names has.
ghost use Rattle.std.specs.Prelude.{◌≡◌, ◌||◌, ℕ, List, IsTrue, IfOk, IfErr, OnErr, OnOk, bytes_eq, is_some, map};
ghost use Rattle.std.specs.BTreeSet.{contains_text};
ghost use Rattle.std.specs.Cmp.Lexicographic.{slice_cmp};
ghost use Rattle.std.specs.List.Sorted.{IsStrictlySortedBy};
ghost use Rattle.std.specs.Map.Iter.{deref_pair};
ghost use Rattle.std.specs.Ordering.{nat_cmp};
ghost use Rattle.template_values_errors.specs.Memory.{NoMemory};
ghost use Rattle.template_values_named.specs.Named.{local_at, named_in};

use std::alloc::Global;
use std::collections::{BTreeMap, BTreeSet};
use template_values_core::Value;
use template_values_errors::Error;

// The names with their values, in the order of the names.
pub(crate) fn entries_of(
    alloc: Global,
    named: &BTreeMap<String, Value>,
) -> Result<Vec<(&str, &Value)>, Error>
    ensures all { IfOk result (λ entries. map deref_pair entries.items ≡ named_in named.now) }
    ensures ordered { IfOk result (λ entries. IsStrictlySortedBy (slice_cmp nat_cmp) (map (λ e. e.0.now) entries.items)) }
    ensures refused { IfErr result NoMemory }
{
    let mut entries = Vec::new(alloc);
    for (name, value) in named {
        entries.push((name.as_str(), value))?;
    }
    Ok(entries)
}

// Adds the names. At an error some of them may have been added, and no others.
pub(crate) fn add_names(
    alloc: Global,
    names: &mut BTreeSet<String>,
    named: &BTreeMap<String, Value>,
) -> Result<(), Error>
    ensures added { OnOk result ((q : List ℕ) → contains_text names.new q
        ≡ (contains_text names.old q || is_some (local_at q (named_in named.now)))) }
    ensures kept { OnErr result ((q : List ℕ) → IsTrue (contains_text names.old q) → IsTrue (contains_text names.new q)) }
    ensures others { OnErr result ((q : List ℕ) → IsTrue (contains_text names.new q)
        → IsTrue (contains_text names.old q || is_some (local_at q (named_in named.now)))) }
    ensures refused { IfErr result NoMemory }
{
    for (name, _value) in named {
        add_name(alloc, names, name.as_str())?;
    }
    Ok(())
}

// Adds a name. At an error the names are as they were.
fn add_name(alloc: Global, names: &mut BTreeSet<String>, name: &str) -> Result<(), Error>
    ensures added { OnOk result ((q : List ℕ) → contains_text names.new q ≡ (contains_text names.old q || bytes_eq name.now q)) }
    ensures unchanged { OnErr result ((q : List ℕ) → contains_text names.new q ≡ contains_text names.old q) }
    ensures refused { IfErr result NoMemory }
{
    names.insert(String::from_str(alloc, name)?)?;
    Ok(())
}
