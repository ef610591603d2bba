//! Compiled templates by their names.
ghost use Rattle.std.specs.Prelude.{◌≡◌, ℕ, List, true, false, ◌↔◌, ◌⊎◌, IsTrue, None, Some, OnOk, OnErr, IfErr, bytes_eq, if◌then◌else◌, option_copied, map};
ghost use Rattle.std.specs.BTreeMap.{get_by_text};
ghost use Rattle.std.specs.BTreeSet.{contains_text};
ghost use Rattle.std.specs.Cmp.Lexicographic.{slice_cmp};
ghost use Rattle.std.specs.List.{find};
ghost use Rattle.std.specs.List.Sorted.{IsStrictlySortedBy};
ghost use Rattle.std.specs.Map.Iter.{ShowsInOrder, deref};
ghost use Rattle.std.specs.Option.{ForSome};
ghost use Rattle.std.specs.Ordering.{nat_cmp};
ghost use Rattle.template_values_errors.specs.Memory.{NoMemory};

use crate::CompiledTemplate;
use std::alloc::Global;
use std::collections::btree_map::Values;
use std::collections::{BTreeMap, BTreeSet};
use template_machine_environment_histories::{add_names_of_all, put_under};
use template_values_errors::{Error, ErrorKind};

/// Compiled templates, each under its own name.
#[derive(Drop)]
pub struct CompiledTemplates<'source> {
    by_name: BTreeMap<String, CompiledTemplate<'source>>,
    // Each stands under its own name.
    ghost named: { (name : List ℕ) → ForSome (get_by_text by_name name) (λ t. t.name ≡ name) },
}

impl<'source> CompiledTemplates<'source> {
    ghost use Rattle.template_compiled.specs.Compiled.{IsFaithful, Compiled};
    ghost use Rattle.template_compiled.specs.Standing.{IsUsedByOne, compiled_at, all_in};

    /// No templates.
    pub fn new(alloc: Global) -> CompiledTemplates<'source>
        ensures { (name : List ℕ) → compiled_at result name ≡ None }
    {
        CompiledTemplates {
            by_name: BTreeMap::new(alloc),
        }
    }

    /// The template goes in the place of one that stands under its name. Takes a look-up among the names.
    ///
    /// # Errors
    ///
    /// [`ErrorKind::OutOfMemory`]; the templates are then as they were.
    pub fn insert(
        &mut self,
        alloc: Global,
        template: CompiledTemplate<'source>,
    ) -> Result<(), Error>
        requires { IsFaithful template }
        ensures stands { OnOk result ((name : List ℕ)
            → compiled_at self.new name ≡ (if bytes_eq template.entry.name name then Some template.entry else compiled_at self.old name)) }
        ensures refused { IfErr result NoMemory }
        ensures unchanged { OnErr result ((name : List ℕ) → compiled_at self.new name ≡ compiled_at self.old name) }
    {
        let name = String::from_str(alloc, template.name()).map_err(|_refused| Error::new(
            ErrorKind::OutOfMemory,
        ))?;
        put_under(&mut self.by_name, name, template)?;
        Ok(())
    }

    /// No template stands under the name any more. Takes a look-up among the names.
    pub fn remove(&mut self, name: &str)
        ensures { (other : List ℕ)
            → compiled_at self.new other ≡ (if bytes_eq name.now other then None else compiled_at self.old other) }
    {
        let _removed = self.by_name.remove(name);
    }

    /// No template stands any more. Linear in what stood.
    pub fn clear(&mut self)
        ensures { (name : List ℕ) → compiled_at self.new name ≡ None }
    {
        self.by_name.clear();
    }

    /// The template that stands under a name, if one does. Takes a look-up among the names.
    pub fn get(&self, name: &str) -> Option<&CompiledTemplate<'source>>
        ensures found { option_copied result ≡ compiled_at self.now name.now }
    {
        self.by_name.get(name)
    }

    /// Adds the names that the templates use to a set of names. Reads each source once more, in time linear in its
    /// length, and takes a look-up for each place of use.
    ///
    /// # Errors
    ///
    /// [`ErrorKind::OutOfMemory`]; some of the names may then have been added, and no others.
    pub fn add_undeclared(&self, alloc: Global, names: &mut BTreeSet<String>) -> Result<(), Error>
        ensures added { OnOk result ((name : List ℕ) → IsTrue (contains_text names.new name)
            ↔ (IsTrue (contains_text names.old name) ⊎ IsUsedByOne self.now name)) }
        ensures kept { OnErr result ((name : List ℕ) → IsTrue (contains_text names.old name) → IsTrue (contains_text names.new name)) }
        ensures others { OnErr result ((name : List ℕ) → IsTrue (contains_text names.new name)
            → IsTrue (contains_text names.old name) ⊎ IsUsedByOne self.now name) }
        ensures refused { IfErr result NoMemory }
    {
        add_names_of_all(alloc, &self.by_name, names)
    }

    /// All that stand, by order of their names by bytes.
    pub fn values(&self) -> Values<'_, String, CompiledTemplate<'source>>
        ensures rest { result ≡ all_in self.now }
        ensures runs { ShowsInOrder (deref {X = Compiled}) }

        // The names ascend, and each look-up finds the one of that name.
        ensures ordered { IsStrictlySortedBy (slice_cmp nat_cmp) (map (λ t. t.name) (all_in self.now)) }
        ensures found { (name : List ℕ) → find (λ t. bytes_eq name t.name) (all_in self.now) ≡ compiled_at self.now name }
    {
        self.by_name.values()
    }
}
