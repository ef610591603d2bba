//! The namespaces of a run.
ghost use Rattle.std.specs.Prelude.{◌≡◌, ◌++◌, ◌∷◌, [], IsSome, IfSome, IfOk, IfErr, OnErr, OnOk, is_some, length, option_map, slice_get, slice_set};
ghost use Rattle.std.specs.BTreeMap.{insert_entry};
ghost use Rattle.template_values_errors.specs.Memory.{NoMemory};
ghost use Rattle.template_values_model.specs.Val.{text};
ghost use Rattle.template_values_core.specs.Order.{val_cmp};
ghost use Rattle.template_values_core.specs.Shape.{pairs_in};

use crate::namespace::Namespace;
use std::alloc::Global;
use std::marker::Model;
use template_values_core::{Entry, Value};
use template_values_errors::Error;

/// What the namespaces hold that a run made, each under its number: the first one has the number 0. A contract sees the entries
/// of each.
#[derive(Drop)]
pub struct Namespaces {
    made: Vec<Namespace>,
}

impl Model for Namespaces {
    ghost use Rattle.std.specs.Prelude.{List};
    ghost use Rattle.template_values_model.specs.Val.{Val};
    ghost use Rattle.template_machine_tables.specs.RecordCodes.{namespaces_code};

    ghost Value = { List (List (Val × Val)) };

    ghost coded = { namespaces_code };

    ghost view = { λ n. n.made.items };
}

impl Namespaces {
    /// No namespaces.
    pub fn new(alloc: Global) -> Namespaces
        ensures { result ≡ [] }
    {
        Namespaces {
            made: Vec::new(alloc),
        }
    }

    /// Makes a namespace of the entries, which stand in the order of their keys, each key once, and gives its number. Takes
    /// constant time, unless the room for namespaces grows.
    ///
    /// # Errors
    ///
    /// [`ErrorKind::OutOfMemory`]; the namespaces are then as they were.
    ///
    /// [`ErrorKind::OutOfMemory`]: template_values_errors::ErrorKind::OutOfMemory
    pub fn make(&mut self, entries: Vec<Entry>) -> Result<usize, Error>
        ensures number { IfOk result (λ number. number ≡ length self.old) }
        ensures made { OnOk result (self.new ≡ self.old ++ pairs_in entries.items ∷ []) }
        ensures refused { IfErr result NoMemory }
        ensures unchanged { OnErr result (self.new ≡ self.old) }
    {
        let number = self.made.len();
        self.made.push(Namespace::new(entries))?;
        Ok(number)
    }

    /// Whether there is a namespace of that number.
    pub fn has(&self, number: usize) -> bool
        ensures { result ≡ is_some (slice_get self.now number) }
    {
        number < self.made.len()
    }

    /// What the namespace of a number holds, in the order of its keys; none where there is no such namespace.
    pub fn entries(&self, number: usize) -> Option<&[Entry]>
        ensures { option_map (λ es. pairs_in es.now) result ≡ slice_get self.now number }
    {
        match self.made.get(number) {
            Some(namespace) => Some(namespace.entries()),
            None => None,
        }
    }

    /// From now on the namespace of the number has the value under the name: a key that is there stays, and nothing is
    /// allocated; a new one goes to its place in the order of keys. Linear in the number of entries of that namespace.
    ///
    /// # Errors
    ///
    /// [`ErrorKind::OutOfMemory`]; the namespaces are then as they were.
    ///
    /// [`ErrorKind::OutOfMemory`]: template_values_errors::ErrorKind::OutOfMemory
    pub fn put(
        &mut self,
        alloc: Global,
        number: usize,
        name: &str,
        value: Value,
    ) -> Result<(), Error>
        requires { IsSome (slice_get self.old number) }
        ensures put { OnOk result (IfSome (slice_get self.old number)
            (λ entries. self.new ≡ slice_set self.old number (insert_entry val_cmp entries (text name.now) value))) }
        ensures refused { IfErr result NoMemory }
        ensures unchanged { OnErr result (self.new ≡ self.old) }
    {
        self.made[number].put(alloc, name, value)
    }
}
