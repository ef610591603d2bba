//! Values under names that all runs know.
ghost use Rattle.std.specs.Prelude.{◌≡◌, ◌||◌, ℕ, List, [], None, Some, IsTrue, IfOk, IfErr, OnOk, OnErr, bytes_eq, false, if◌then◌else◌, is_some, map, option_copied};
ghost use Rattle.std.specs.BTreeSet.{contains_text};
ghost use Rattle.std.specs.Cmp.Lexicographic.{slice_cmp};
ghost use Rattle.std.specs.List.Sorted.{IsStrictlySortedBy};
ghost use Rattle.std.specs.Map.Iter.{deref_pair};
ghost use Rattle.std.specs.Ordering.{nat_cmp};
ghost use Rattle.template_values_errors.specs.Memory.{NoMemory};
ghost use Rattle.template_machine_meaning.specs.World.{local_at};
ghost use Rattle.template_machine_tables.specs.Globals.{own_globals, with_global, without_global};

use crate::functions::OwnFunction;
use std::alloc::Global;
use std::collections::BTreeSet;
use std::marker::Model;
use template_values_core::Value;
use template_values_errors::Error;
use template_values_named::NamedValues;

/// What an environment gives to each run: its number; whether it has functions by itself; and names with their values, which a
/// template finds where no frame knows the name.
#[derive(Drop)]
pub struct Globals {
    environment: u64,
    has_own: bool,
    named: NamedValues,
}

impl Model for Globals {
    ghost use Rattle.template_machine_meaning.specs.World as worlds;
    ghost use Rattle.template_machine_tables.specs.GlobalCodes.{globals_code};

    ghost Value = { worlds.Globals };

    ghost coded = { globals_code };

    ghost view = { λ g. record { environment = g.environment; has_own = g.has_own; named = g.named } };
}

impl Globals {
    /// No names, and no functions, for the environment of a number.
    pub fn empty(alloc: Global, id: u64) -> Globals
        ensures { result ≡ record { environment = id; has_own = false; named = [] } }
    {
        Globals {
            environment: id,
            has_own: false,
            named: NamedValues::new(alloc),
        }
    }

    /// The functions that the environment of a number has by itself, under their names.
    ///
    /// # Errors
    ///
    /// [`ErrorKind::OutOfMemory`](template_values_errors::ErrorKind::OutOfMemory)
    pub fn with_functions(alloc: Global, id: u64) -> Result<Globals, Error>
        ensures made { IfOk result (λ globals. globals ≡ own_globals id) }
        ensures refused { IfErr result NoMemory }
    {
        let mut globals = Globals {
            environment: id,
            has_own: true,
            named: NamedValues::new(alloc),
        };
        for function in OwnFunction::ALL {
            globals.insert(
                alloc,
                function.name(),
                Value::function(id, function.number()),
            )?;
        }
        Ok(globals)
    }

    /// The number of the environment.
    #[inline]
    pub fn environment(&self) -> u64
        ensures { result ≡ self.now.environment }
    {
        self.environment
    }

    /// Whether the environment has functions by itself, which can be called.
    #[inline]
    pub fn has_own(&self) -> bool
        ensures { result ≡ self.now.has_own }
    {
        self.has_own
    }

    /// The value of a name, if it has one. Logarithmic in the number of names.
    pub fn get(&self, name: &str) -> Option<&Value>
        ensures { option_copied result ≡ local_at name.now self.now.named }
    {
        self.named.get(name)
    }

    /// From now on the name has the value, in the place of one that it had. Logarithmic in the number of names.
    ///
    /// # Errors
    ///
    /// [`ErrorKind::OutOfMemory`](template_values_errors::ErrorKind::OutOfMemory); the names then have the values that they had.
    pub fn insert(&mut self, alloc: Global, name: &str, value: Value) -> Result<(), Error>
        ensures put { OnOk result (self.new ≡ with_global name.now value self.old) }
        ensures found { OnOk result ((other : List ℕ)
            → local_at other self.new.named ≡ (if bytes_eq name.now other then Some value else local_at other self.old.named)) }
        ensures environment { self.new.environment ≡ self.old.environment }
        ensures own { self.new.has_own ≡ self.old.has_own }
        ensures refused { IfErr result NoMemory }
        ensures unchanged { OnErr result (self.new ≡ self.old) }
    {
        let _replaced = self.named.insert(alloc, name, value)?;
        Ok(())
    }

    /// From now on the name has no value. Logarithmic in the number of names; takes no memory.
    pub fn remove(&mut self, name: &str)
        ensures removed { self.new ≡ without_global name.now self.old }
        ensures found { (other : List ℕ)
            → local_at other self.new.named ≡ (if bytes_eq name.now other then None else local_at other self.old.named) }
        ensures environment { self.new.environment ≡ self.old.environment }
        ensures own { self.new.has_own ≡ self.old.has_own }
    {
        let _removed = self.named.remove(name);
    }

    /// The names with their values, in the order of the names by bytes. Linear in their number.
    ///
    /// # Errors
    ///
    /// [`ErrorKind::OutOfMemory`](template_values_errors::ErrorKind::OutOfMemory)
    pub fn entries(&self, alloc: Global) -> Result<Vec<(&str, &Value)>, Error>
        ensures all { IfOk result (λ entries. map deref_pair entries.items ≡ self.now.named) }
        ensures ordered { IfOk result (λ entries. IsStrictlySortedBy (slice_cmp nat_cmp) (map (λ e. e.0.now) entries.items)) }
        ensures refused { IfErr result NoMemory }
    {
        self.named.entries(alloc)
    }

    /// Adds the names to a set of names. Takes a look-up in the set for each name.
    ///
    /// # Errors
    ///
    /// [`ErrorKind::OutOfMemory`](template_values_errors::ErrorKind::OutOfMemory); some of the names may then have been added,
    /// and no others.
    pub fn add_names(&self, alloc: Global, names: &mut BTreeSet<String>) -> Result<(), Error>
        ensures added { OnOk result ((q : List ℕ) → contains_text names.new q
            ≡ (contains_text names.old q || is_some (local_at q self.now.named))) }
        ensures kept { OnErr result ((q : List ℕ) → IsTrue (contains_text names.old q) → IsTrue (contains_text names.new q)) }
        ensures others { OnErr result ((q : List ℕ) → IsTrue (contains_text names.new q)
            → IsTrue (contains_text names.old q || is_some (local_at q self.now.named))) }
        ensures refused { IfErr result NoMemory }
    {
        self.named.add_names(alloc, names)
    }
}
