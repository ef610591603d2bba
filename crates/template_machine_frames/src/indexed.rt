//! Many locals, found by their order.
ghost use Rattle.std.specs.Prelude.{◌≡◌, ℕ, List, ◌++◌, ◌||◌, [], None, is_some, IfErr, OnOk, OnErr, option_copied};
ghost use Rattle.std.specs.BTreeSet.{contains_text};
ghost use Rattle.template_values_errors.specs.Memory.{NoMemory};
ghost use Rattle.template_values_core.specs.Shape.{pairs_in};
ghost use Rattle.template_machine_meaning.specs.Modules.{public_locals};
ghost use Rattle.template_machine_meaning.specs.World.{local_at, put_local};
ghost use Rattle.template_machine_frames.specs.Names.{exports_of};

use crate::local::{Local, add_exports, add_names, add_public};
use std::alloc::Global;
use std::collections::{BTreeMap, BTreeSet};
use std::marker::Model;
use template_values_core::{Entry, Value};
use template_values_errors::Error;

/// Names with their values, in the order in which they were stored first; and beside them, where each name stands, by which it
/// is found.
pub(crate) struct Indexed<'env> {
    locals: Vec<Local<'env>>,
    places: BTreeMap<&'env str, usize>,
}

// By hand: what drops a frame would else prove anew how each of these parts is dropped.
impl<'env> Drop for Indexed<'env> {
    fn drop(self) {
        let Indexed {
            locals: _,
            places: _,
        } = self;
    }
}

impl<'env> Model for Indexed<'env> {
    ghost use Rattle.std.specs.Prelude.{ℕ, List};
    ghost use Rattle.template_values_model.specs.Val.{Val};
    ghost use Rattle.template_machine_frames.specs.Codes.{locals_code};

    ghost Value = { List (List ℕ × Val) };

    ghost coded = { locals_code };

    ghost use Rattle.template_machine_frames.specs.Locals.{locals_of, TellPlaces};

    ghost view = { λ i. locals_of i.locals.items };

    ghost invariant = { λ i. TellPlaces i.places i.locals.items };
}

impl<'env> Indexed<'env> {
    /// No names.
    pub(crate) fn new(alloc: Global) -> Indexed<'env>
        ensures { result ≡ [] }
    {
        Indexed {
            locals: Vec::new(alloc),
            places: BTreeMap::new(alloc),
        }
    }

    /// The value of a name. Logarithmic in the number of names.
    pub(crate) fn get(&self, name: &str) -> Option<&Value>
        ensures { option_copied result ≡ local_at name.now self.now }
    {
        match self.places.get(name) {
            Some(place) => Some(&self.locals[*place].value),
            None => None,
        }
    }

    /// From now on the name has the value. Logarithmic in the number of names.
    ///
    /// # Errors
    ///
    /// [`ErrorKind::OutOfMemory`]; the names then have the values that they had.
    ///
    /// [`ErrorKind::OutOfMemory`]: template_values_errors::ErrorKind::OutOfMemory
    pub(crate) fn insert(&mut self, name: &'env str, value: Value) -> Result<(), Error>
        ensures stored { OnOk result (self.new ≡ put_local name.now value self.old) }
        ensures refused { IfErr result NoMemory }
        ensures unchanged { OnErr result (self.new ≡ self.old) }
    {
        match self.places.get(name) {
            Some(place) => {
                let place = *place;
                self.locals[place].set(value);
                Ok(())
            }
            None => self.add(name, value),
        }
    }

    // The same of a name that is new.
    fn add(&mut self, name: &'env str, value: Value) -> Result<(), Error>
        requires { local_at name.now self.old ≡ None }
        ensures stored { OnOk result (self.new ≡ put_local name.now value self.old) }
        ensures refused { IfErr result NoMemory }
        ensures unchanged { OnErr result (self.new ≡ self.old) }
    {
        self.locals.reserve(1)?;
        self.places.insert(name, self.locals.len())?;
        self.locals.push_reserved(Local { name, value });
        Ok(())
    }

    // Adds the names.
    pub(crate) fn add_names(&self, alloc: Global, names: &mut BTreeSet<String>) -> Result<(), Error>
        ensures added { OnOk result ((q : List ℕ) → contains_text names.new q
            ≡ (contains_text names.old q || is_some (local_at q self.now))) }
        ensures refused { IfErr result NoMemory }
    {
        add_names(alloc, names, self.locals.as_slice())
    }

    // Adds the names that do not begin with `_`.
    pub(crate) fn add_exports(
        &self,
        alloc: Global,
        names: &mut BTreeSet<String>,
    ) -> Result<(), Error>
        ensures added { OnOk result ((q : List ℕ) → contains_text names.new q ≡ (contains_text names.old q || exports_of self.now q)) }
        ensures refused { IfErr result NoMemory }
    {
        add_exports(alloc, names, self.locals.as_slice())
    }

    // Adds the names that do not begin with `_`, as texts, each with its value.
    pub(crate) fn add_public(&self, alloc: Global, entries: &mut Vec<Entry>) -> Result<(), Error>
        ensures added { OnOk result (pairs_in entries.new.items ≡ pairs_in entries.old.items ++ public_locals self.now) }
        ensures refused { IfErr result NoMemory }
    {
        add_public(alloc, entries, self.locals.as_slice())
    }
}
