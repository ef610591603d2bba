//! Values under names, in the order of the names.
ghost use Rattle.std.specs.Prelude.{◌≡◌, ◌||◌, ℕ, List, [], None, Some, IsTrue, IfOk, IfErr, OnOk, OnErr, bytes_eq, if◌then◌else◌, is_some, map, option_copied, string_bytes};
ghost use Rattle.std.specs.BTreeSet.{contains_text};
ghost use Rattle.std.specs.Cmp.Lexicographic.{slice_cmp};
ghost use Rattle.std.specs.List.Sorted.{IsStrictlySortedBy};
ghost use Rattle.std.specs.Map.{remove_entry};
ghost use Rattle.std.specs.Map.Iter.{deref_pair};
ghost use Rattle.std.specs.Ordering.{nat_cmp};
ghost use Rattle.template_values_errors.specs.Memory.{NoMemory};
ghost use Rattle.template_values_named.specs.Named.{PutsSome, local_at, pairs_named, with_named, with_all_named};

use crate::parts::{add_names, entries_of};
use std::alloc::Global;
use std::collections::{BTreeMap, BTreeSet};
use std::marker::Model;
use template_values_core::Value;
use template_values_errors::Error;

/// Names, each with a value. A contract sees them in the order of the names by bytes, each name once.
#[derive(Drop)]
pub struct NamedValues {
    values: BTreeMap<String, Value>,
}

impl Model for NamedValues {
    ghost use Rattle.std.specs.Prelude.{ℕ, List};
    ghost use Rattle.template_values_model.specs.Val.{Val};
    ghost use Rattle.template_values_named.specs.Codes.{named_code};
    ghost use Rattle.template_values_named.specs.Named.{named_in};

    ghost Value = { List (List ℕ × Val) };

    ghost coded = { named_code };

    ghost view = { λ n. named_in n.values };
}

impl NamedValues {
    /// No names.
    pub fn new(alloc: Global) -> NamedValues
        ensures { result ≡ [] }
    {
        NamedValues {
            values: BTreeMap::new(alloc),
        }
    }

    /// The value of a name, if it has one. Logarithmic in the number of names.
    pub fn get(&self, name: &str) -> Option<&Value>
        ensures { option_copied result ≡ local_at name.now self.now }
    {
        self.values.get(name)
    }

    /// From now on the name has the value. Gives the value in whose place it stands, if there was one. Logarithmic in the number
    /// of names.
    ///
    /// # Errors
    ///
    /// [`ErrorKind::OutOfMemory`](template_values_errors::ErrorKind::OutOfMemory); the names then have the values that they had.
    pub fn insert(
        &mut self,
        alloc: Global,
        name: &str,
        value: Value,
    ) -> Result<Option<Value>, Error>
        ensures put { OnOk result (self.new ≡ with_named name.now value self.old) }
        ensures found { OnOk result ((other : List ℕ)
            → local_at other self.new ≡ (if bytes_eq name.now other then Some value else local_at other self.old)) }
        ensures replaced { IfOk result (λ replaced. replaced ≡ local_at name.now self.old) }
        ensures refused { IfErr result NoMemory }
        ensures unchanged { OnErr result (self.new ≡ self.old) }
    {
        let owned = String::from_str(alloc, name)?;
        self.insert_owned(owned, value)
    }

    /// As [`insert`](NamedValues::insert), of a name that is handed over.
    ///
    /// # Errors
    ///
    /// [`ErrorKind::OutOfMemory`](template_values_errors::ErrorKind::OutOfMemory); the names then have the values that they had.
    pub fn insert_owned(&mut self, name: String, value: Value) -> Result<Option<Value>, Error>
        ensures put { OnOk result (self.new ≡ with_named (string_bytes name) value self.old) }
        ensures found { OnOk result ((other : List ℕ)
            → local_at other self.new ≡ (if bytes_eq (string_bytes name) other then Some value else local_at other self.old)) }
        ensures replaced { IfOk result (λ replaced. replaced ≡ local_at (string_bytes name) self.old) }
        ensures refused { IfErr result NoMemory }
        ensures unchanged { OnErr result (self.new ≡ self.old) }
    {
        Ok(self.values.insert(name, value)?)
    }

    /// Gives each of the names its value, in turn: of equal names the last value stands. Takes time logarithmic in the number of
    /// names for each.
    ///
    /// # Errors
    ///
    /// [`ErrorKind::OutOfMemory`](template_values_errors::ErrorKind::OutOfMemory); some of the first may then have their values,
    /// and no others.
    pub fn insert_all(&mut self, values: Vec<(String, Value)>) -> Result<(), Error>
        ensures put { OnOk result (self.new ≡ with_all_named (pairs_named values.items) self.old) }
        ensures partial { OnErr result (PutsSome (pairs_named values.items) self.old self.new) }
        ensures refused { IfErr result NoMemory }
    {
        for (name, value) in values {
            self.put(name, value)?;
        }
        Ok(())
    }

    /// From now on the name has no value. Gives the one that it had. Logarithmic in the number of names; takes no memory.
    pub fn remove(&mut self, name: &str) -> Option<Value>
        ensures removed { self.new ≡ remove_entry (bytes_eq name.now) self.old }
        ensures found { (other : List ℕ)
            → local_at other self.new ≡ (if bytes_eq name.now other then None else local_at other self.old) }
        ensures had { result ≡ local_at name.now self.old }
    {
        self.values.remove(name)
    }

    /// The names with their values, in the order of the names by bytes. Linear in their number.
    ///
    /// # Errors
    ///
    /// [`ErrorKind::OutOfMemory`](template_values_errors::ErrorKind::OutOfMemory)
    pub fn entries(&self, alloc: Global) -> Result<Vec<(&str, &Value)>, Error>
        ensures all { IfOk result (λ entries. map deref_pair entries.items ≡ self.now) }
        ensures ordered { IfOk result (λ entries. IsStrictlySortedBy (slice_cmp nat_cmp) (map (λ e. e.0.now) entries.items)) }
        ensures refused { IfErr result NoMemory }
    {
        entries_of(alloc, &self.values)
    }

    /// Adds the names to a set of names. Takes a look-up in the set for each name.
    ///
    /// # Errors
    ///
    /// [`ErrorKind::OutOfMemory`](template_values_errors::ErrorKind::OutOfMemory); some of the names may then have been added,
    /// and no others.
    pub fn add_names(&self, alloc: Global, names: &mut BTreeSet<String>) -> Result<(), Error>
        ensures added { OnOk result ((q : List ℕ)
            → contains_text names.new q ≡ (contains_text names.old q || is_some (local_at q self.now))) }
        ensures kept { OnErr result ((q : List ℕ) → IsTrue (contains_text names.old q) → IsTrue (contains_text names.new q)) }
        ensures others { OnErr result ((q : List ℕ) → IsTrue (contains_text names.new q)
            → IsTrue (contains_text names.old q || is_some (local_at q self.now))) }
        ensures refused { IfErr result NoMemory }
    {
        add_names(alloc, names, &self.values)
    }

    // As `insert_owned`, where nobody asks for what stood there.
    fn put(&mut self, name: String, value: Value) -> Result<(), Error>
        ensures put { OnOk result (self.new ≡ with_named (string_bytes name) value self.old) }
        ensures refused { IfErr result NoMemory }
        ensures unchanged { OnErr result (self.new ≡ self.old) }
    {
        let _replaced = self.insert_owned(name, value)?;
        Ok(())
    }
}
