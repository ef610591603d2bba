//! What stands under names, and uses names.
ghost use Rattle.std.specs.Prelude.{◌≡◌, ◌↔◌, ◌⊎◌, ◌||◌, ℕ, List, Bool, IsTrue, IfErr, OnErr, OnOk};
ghost use Rattle.std.specs.BTreeSet.{contains_text};
ghost use Rattle.template_values_errors.specs.Memory.{NoMemory};
ghost use Rattle.template_machine_environment_histories.specs.Using.{IsUsedByOne};

use std::alloc::Global;
use std::collections::{BTreeMap, BTreeSet};
use template_values_errors::Error;

/// What uses names.
pub trait UsesNames {
    // Whether it uses a name.
    ghost uses: { Self → List ℕ → Bool };

    /// Adds the names that it uses to a set of names.
    ///
    /// # Errors
    ///
    /// [`ErrorKind::OutOfMemory`](template_values_errors::ErrorKind::OutOfMemory); some of the names may then have been
    /// added, and no others.
    fn add_names(&self, alloc: Global, names: &mut BTreeSet<String>) -> Result<(), Error>
        ensures added { OnOk result ((name : List ℕ) →
            contains_text names.new name ≡ (contains_text names.old name || uses self.now name)) }
        ensures kept { OnErr result ((name : List ℕ) → IsTrue (contains_text names.old name) → IsTrue (contains_text names.new name)) }
        ensures others { OnErr result ((name : List ℕ) → IsTrue (contains_text names.new name)
            → IsTrue (contains_text names.old name || uses self.now name)) }
        ensures refused { IfErr result NoMemory };
}

/// Adds the names that all use that stand to a set of names.
///
/// # Errors
///
/// [`ErrorKind::OutOfMemory`](template_values_errors::ErrorKind::OutOfMemory); some of the names may then have been
/// added, and no others.
pub fn add_names_of_all<T: UsesNames>(
    alloc: Global,
    standing: &BTreeMap<String, T>,
    names: &mut BTreeSet<String>,
) -> Result<(), Error>
    ensures added { OnOk result ((name : List ℕ) → IsTrue (contains_text names.new name)
        ↔ (IsTrue (contains_text names.old name) ⊎ IsUsedByOne T.uses standing.now name)) }
    ensures kept { OnErr result ((name : List ℕ) → IsTrue (contains_text names.old name) → IsTrue (contains_text names.new name)) }
    ensures others { OnErr result ((name : List ℕ) → IsTrue (contains_text names.new name)
        → IsTrue (contains_text names.old name) ⊎ IsUsedByOne T.uses standing.now name) }
    ensures refused { IfErr result NoMemory }
{
    for (_name, one) in standing {
        one.add_names(alloc, names)?;
    }
    Ok(())
}
