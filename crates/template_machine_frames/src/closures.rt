//! What macros see of the scopes in which they were made.
ghost use Rattle.std.specs.Prelude.{◌≡◌, ℕ, List, ◌∷◌, ◌++◌, ◌||◌, [], Some, IsSome, IfSome, IfErr, IfOk, OnErr, OnOk, is_some, length, option_copied, slice_get, slice_set};
ghost use Rattle.std.specs.BTreeSet.{contains_text};
ghost use Rattle.template_values_errors.specs.Memory.{NoMemory};
ghost use Rattle.template_machine_meaning.specs.World.{closure_of, local_at, put_local};

use crate::locals::Locals;
use std::alloc::Global;
use std::collections::BTreeSet;
use std::marker::Model;
use template_values_core::Value;
use template_values_errors::{Error, ErrorKind};

/// What closures hold, each under its number: the first one has the number 0.
#[derive(Drop)]
pub struct Closures<'env> {
    made: Vec<Locals<'env>>,
}

impl<'env> Model for Closures<'env> {
    ghost use Rattle.std.specs.Prelude.{List};
    ghost use Rattle.template_machine_meaning.specs.World.{Bindings};
    ghost use Rattle.template_machine_frames.specs.Codes.{closures_code};

    ghost Value = { List Bindings };

    ghost coded = { closures_code };

    ghost view = { λ c. c.made.items };
}

impl<'env> Closures<'env> {
    /// No closures.
    pub fn new(alloc: Global) -> Closures<'env>
        ensures { result ≡ [] }
    {
        Closures {
            made: Vec::new(alloc),
        }
    }

    /// Makes a closure that holds nothing, and gives its number. Takes constant time, unless the room for closures grows.
    ///
    /// # Errors
    ///
    /// [`ErrorKind::OutOfMemory`]; the closures are then as they were.
    pub fn make(&mut self, alloc: Global) -> Result<u32, Error>
        ensures number { IfOk result (λ number. number ≡ length self.old) }
        ensures made { OnOk result (self.new ≡ self.old ++ [] ∷ []) }
        ensures refused { IfErr result NoMemory }
        ensures unchanged { OnErr result (self.new ≡ self.old) }
    {
        let count = self.made.len();
        if count > 0xffff_ffff {
            return Err(Error::new(ErrorKind::OutOfMemory));
        }
        self.made.push(Locals::new(alloc))?;
        Ok(count as u32)
    }

    /// Whether there is a closure of that number.
    pub fn has(&self, number: u32) -> bool
        ensures { result ≡ is_some (slice_get self.now number) }
    {
        (number as usize) < self.made.len()
    }

    /// What the closure of a number has under a name; none where there is no such closure. Looks through the first sixteen names;
    /// where there are more, logarithmic in their number.
    pub fn get(&self, number: u32, name: &str) -> Option<&Value>
        ensures { option_copied result ≡ local_at name.now (closure_of self.now (Some number)) }
    {
        match self.made.get(number as usize) {
            Some(names) => names.get(name),
            None => None,
        }
    }

    /// From now on the name has the value in the closure of the number. As dear as [`Closures::get`].
    ///
    /// # Errors
    ///
    /// [`ErrorKind::OutOfMemory`]; the closures are then as they were.
    pub fn put(&mut self, number: u32, name: &'env str, value: Value) -> Result<(), Error>
        requires { IsSome (slice_get self.old number) }
        ensures put { OnOk result (IfSome (slice_get self.old number)
            (λ held. self.new ≡ slice_set self.old number (put_local name.now value held))) }
        ensures refused { IfErr result NoMemory }
        ensures unchanged { OnErr result (self.new ≡ self.old) }
    {
        self.made[number as usize].insert(name, value)
    }

    // Adds the names that the closure of a number holds.
    pub(crate) fn add_names(
        &self,
        alloc: Global,
        number: u32,
        names: &mut BTreeSet<String>,
    ) -> Result<(), Error>
        ensures added { OnOk result ((q : List ℕ) → contains_text names.new q
            ≡ (contains_text names.old q || is_some (local_at q (closure_of self.now (Some number))))) }
        ensures refused { IfErr result NoMemory }
    {
        match self.made.get(number as usize) {
            Some(held) => held.add_names(alloc, names),
            None => Ok(()),
        }
    }
}
