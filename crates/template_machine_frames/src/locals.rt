//! The locals of a frame.
ghost use Rattle.std.specs.Prelude.{◌≡◌, ◌==◌, ℕ, List, ◌++◌, ◌||◌, [], length, is_some, IfErr, OnOk, OnErr, option_copied};
ghost use Rattle.std.specs.BTreeSet.{contains_text};
ghost use Rattle.template_values_errors.specs.Memory.{NoMemory};
ghost use Rattle.template_values_core.specs.Shape.{pairs_in};
ghost use Rattle.template_machine_meaning.specs.Modules.{public_locals};
ghost use Rattle.template_machine_meaning.specs.World.{local_at, put_local};
ghost use Rattle.template_machine_frames.specs.Names.{exports_of};

use crate::further::Further;
use crate::growth::push_growing;
use crate::local::{Local, add_exports, add_names, add_public, drop_last, find, position};
use std::alloc::Global;
use std::collections::BTreeSet;
use std::marker::Model;
use template_values_core::{Entry, Value};
use template_values_errors::{Error, ErrorKind};

// So many names are looked through one by one, or more where memory was given for more.
const FEW: usize = 16;

/// Names with their values. The first few of them are looked through one by one, which is soonest where there are no
/// others; further ones are found by their order.
#[derive(Drop)]
pub struct Locals<'env> {
    few: Vec<Local<'env>>,
    further: Further<'env>,
}

impl<'env> Model for Locals<'env> {
    ghost use Rattle.std.specs.Prelude.{ℕ, List, ◌++◌};
    ghost use Rattle.template_values_model.specs.Val.{Val};
    ghost use Rattle.template_machine_frames.specs.Codes.{locals_code};

    ghost Value = { List (List ℕ × Val) };

    ghost coded = { locals_code };

    ghost use Rattle.template_machine_frames.specs.Locals.{locals_of, StandBehind};

    ghost view = { λ l. locals_of l.few.items ++ l.further };

    ghost invariant = { λ l. StandBehind l.few l.further };
}

impl<'env> Locals<'env> {
    /// No names.
    pub fn new(alloc: Global) -> Locals<'env>
        ensures { result ≡ [] }
    {
        Locals {
            few: Vec::new(alloc),
            further: Further::new(alloc),
        }
    }

    /// The value of a name. Looks through the first sixteen names; where there are more, logarithmic in their number.
    #[inline(always)]
    pub fn get(&self, name: &str) -> Option<&Value>
        ensures { option_copied result ≡ local_at name.now self.now }
    {
        match find(self.few.as_slice(), name) {
            Some(local) => Some(&local.value),
            None => self.further.get(name),
        }
    }

    /// From now on the name has the value. Looks through the first sixteen names; where there are more, logarithmic in their
    /// number.
    ///
    /// # Errors
    ///
    /// [`ErrorKind::OutOfMemory`]; the names then have the values that they had.
    ///
    /// [`ErrorKind::OutOfMemory`]: template_values_errors::ErrorKind::OutOfMemory
    #[inline(always)]
    pub fn insert(&mut self, name: &'env str, value: Value) -> Result<(), Error>
        ensures stored { OnOk result (self.new ≡ put_local name.now value self.old) }
        ensures refused { IfErr result NoMemory }
        ensures unchanged { OnErr result (self.new ≡ self.old) }
    {
        match position(self.few.as_slice(), name) {
            Some(place) => {
                self.few[place].set(value);
                Ok(())
            }
            None => {
                if self.few.len() < self.few.capacity() {
                    self.few.push_reserved(Local { name, value });
                    Ok(())
                } else if FEW <= self.few.len() {
                    self.further.insert(name, value)
                } else if push_growing(&mut self.few, Local { name, value }) {
                    Ok(())
                } else {
                    Err(Error::new(ErrorKind::OutOfMemory))
                }
            }
        }
    }

    // Adds the names.
    pub(crate) fn add_names(&self, alloc: Global, names: &mut BTreeSet<String>) -> Result<(), Error>
        ensures added { OnOk result ((q : List ℕ) → contains_text names.new q
            ≡ (contains_text names.old q || is_some (local_at q self.now))) }
        ensures refused { IfErr result NoMemory }
    {
        add_names(alloc, names, self.few.as_slice())?;
        self.further.add_names(alloc, names)
    }

    // Adds the names that do not begin with `_`.
    pub(crate) fn add_exports(
        &self,
        alloc: Global,
        names: &mut BTreeSet<String>,
    ) -> Result<(), Error>
        ensures added { OnOk result ((q : List ℕ) → contains_text names.new q ≡ (contains_text names.old q || exports_of self.now q)) }
        ensures refused { IfErr result NoMemory }
    {
        add_exports(alloc, names, self.few.as_slice())?;
        self.further.add_exports(alloc, names)
    }

    // Adds the names that do not begin with `_`, as texts, each with its value.
    pub(crate) fn add_public(&self, alloc: Global, entries: &mut Vec<Entry>) -> Result<(), Error>
        ensures added { OnOk result (pairs_in entries.new.items ≡ pairs_in entries.old.items ++ public_locals self.now) }
        ensures refused { IfErr result NoMemory }
    {
        add_public(alloc, entries, self.few.as_slice())?;
        self.further.add_public(alloc, entries)
    }

    // Whether there are no names.
    #[inline(always)]
    pub(crate) fn is_empty(&self) -> bool
        ensures { result ≡ (length self.now == 0) }
    {
        self.few.is_empty()
    }

    /// No names any more.
    #[inline(always)]
    pub fn clear(&mut self)
        ensures { self.new ≡ [] }
    {
        // There are mostly one or two, which go sooner alone.
        drop_last(&mut self.few);
        drop_last(&mut self.few);
        if !self.few.is_empty() {
            self.few.clear();
            self.further.clear();
        }
    }
}
