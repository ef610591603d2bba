//! The locals of a frame beyond its first few.
ghost use Rattle.std.specs.Prelude.{◌≡◌, ℕ, List, ◌++◌, ◌||◌, [], is_some, IfErr, OnOk, OnErr, option_copied};
ghost use Rattle.std.specs.BTreeSet.{contains_text};
ghost use Rattle.template_values_errors.specs.Memory.{NoMemory};
ghost use Rattle.template_values_core.specs.Shape.{pairs_in};
ghost use Rattle.template_machine_meaning.specs.Modules.{public_locals};
ghost use Rattle.template_machine_meaning.specs.World.{local_at, put_local};
ghost use Rattle.template_machine_frames.specs.Names.{exports_of};

use crate::indexed::Indexed;
use std::alloc::Global;
use std::collections::BTreeSet;
use std::marker::Model;
use template_values_core::{Entry, Value};
use template_values_errors::Error;

/// Names with their values, which take memory only where there is a name: most frames have none of them.
#[derive(Drop)]
pub(crate) struct Further<'env> {
    alloc: Global,
    indexed: Option<Box<Indexed<'env>>>,
}

impl<'env> Model for Further<'env> {
    ghost use Rattle.std.specs.Prelude.{ℕ, List};
    ghost use Rattle.template_values_model.specs.Val.{Val};
    ghost use Rattle.template_machine_frames.specs.Codes.{locals_code};
    ghost use Rattle.template_machine_frames.specs.Further.{locals_in};

    ghost Value = { List (List ℕ × Val) };

    ghost coded = { locals_code };

    ghost view = { λ f. locals_in f.indexed };
}

impl<'env> Further<'env> {
    /// No names.
    pub(crate) fn new(alloc: Global) -> Further<'env>
        ensures { result ≡ [] }
    {
        Further {
            alloc,
            indexed: None,
        }
    }

    /// The value of a name. Logarithmic in the number of names.
    #[inline(always)]
    pub(crate) fn get(&self, name: &str) -> Option<&Value>
        ensures { option_copied result ≡ local_at name.now self.now }
    {
        match &self.indexed {
            Some(indexed) => indexed.get(name),
            None => None,
        }
    }

    /// From now on the name has the value. Logarithmic in the number of names.
    ///
    /// # Errors
    ///
    /// [`ErrorKind::OutOfMemory`]; the names then have the values that they had.
    ///
    /// [`ErrorKind::OutOfMemory`]: template_values_errors::ErrorKind::OutOfMemory
    #[cold]
    #[inline(never)]
    pub(crate) fn insert(&mut self, name: &'env str, value: Value) -> Result<(), Error>
        ensures stored { OnOk result (self.new ≡ put_local name.now value self.old) }
        ensures refused { IfErr result NoMemory }
        ensures unchanged { OnErr result (self.new ≡ self.old) }
    {
        match &mut self.indexed {
            Some(indexed) => indexed.insert(name, value),
            None => {
                let mut indexed = Indexed::new(self.alloc);
                indexed.insert(name, value)?;
                self.indexed = Some(Box::new(self.alloc, indexed)?);
                Ok(())
            }
        }
    }

    // Adds the names.
    pub(crate) fn add_names(&self, alloc: Global, names: &mut BTreeSet<String>) -> Result<(), Error>
        ensures added { OnOk result ((q : List ℕ) → contains_text names.new q
            ≡ (contains_text names.old q || is_some (local_at q self.now))) }
        ensures refused { IfErr result NoMemory }
    {
        match &self.indexed {
            Some(indexed) => indexed.add_names(alloc, names),
            None => Ok(()),
        }
    }

    // Adds the names that do not begin with `_`.
    pub(crate) fn add_exports(
        &self,
        alloc: Global,
        names: &mut BTreeSet<String>,
    ) -> Result<(), Error>
        ensures added { OnOk result ((q : List ℕ) → contains_text names.new q ≡ (contains_text names.old q || exports_of self.now q)) }
        ensures refused { IfErr result NoMemory }
    {
        match &self.indexed {
            Some(indexed) => indexed.add_exports(alloc, names),
            None => Ok(()),
        }
    }

    // Adds the names that do not begin with `_`, as texts, each with its value.
    pub(crate) fn add_public(&self, alloc: Global, entries: &mut Vec<Entry>) -> Result<(), Error>
        ensures added { OnOk result (pairs_in entries.new.items ≡ pairs_in entries.old.items ++ public_locals self.now) }
        ensures refused { IfErr result NoMemory }
    {
        match &self.indexed {
            Some(indexed) => indexed.add_public(alloc, entries),
            None => Ok(()),
        }
    }

    /// No names any more.
    pub(crate) fn clear(&mut self)
        ensures { self.new ≡ [] }
    {
        self.indexed = None;
    }
}
