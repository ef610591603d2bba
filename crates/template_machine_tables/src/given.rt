//! What `changed` was called with.
ghost use Rattle.std.specs.Prelude.{◌≡◌, ◌==◌, [], IfErr, OnErr, OnOk, length, option_map};
ghost use Rattle.template_values_errors.specs.Memory.{NoMemory};
ghost use Rattle.template_machine_meaning.specs.Calls.{are_as_before};
ghost use Rattle.template_machine_meaning.specs.World.{drop_given, given_at, put_given};

use crate::call::{Call, position};
use std::alloc::Global;
use std::marker::Model;
use template_values_core::Value;
use template_values_errors::Error;

/// What `changed` was called with last for each loop, by the loop's number. What it costs to find one is linear in the
/// number of loops that have called it.
#[derive(Drop)]
pub struct Given {
    calls: Vec<Call>,
}

impl Model for Given {
    ghost use Rattle.std.specs.Prelude.{ℕ, List};
    ghost use Rattle.template_values_model.specs.Val.{Val};
    ghost use Rattle.template_machine_tables.specs.RecordCodes.{given_code};

    ghost Value = { List (ℕ × List Val) };

    ghost coded = { given_code };

    ghost view = { λ g. g.calls.items };
}

impl Given {
    /// No calls.
    pub fn new(alloc: Global) -> Given
        ensures { result ≡ [] }
    {
        Given {
            calls: Vec::new(alloc),
        }
    }

    /// Whether no loop has called.
    #[inline(always)]
    pub fn is_empty(&self) -> bool
        ensures { result ≡ (length self.now == 0) }
    {
        self.calls.is_empty()
    }

    /// The arguments of the last call for the loop of a number, if there was one.
    pub fn at(&self, number: usize) -> Option<&[Value]>
        ensures { option_map (λ args. args.now) result ≡ given_at number self.now }
    {
        match position(self.calls.as_slice(), number) {
            Some(place) => Some(self.calls[place].args()),
            None => None,
        }
    }

    /// Whether the arguments are equal to those of the last call for the loop of a number, where there was one. Takes as many
    /// comparisons of values as there are arguments.
    pub fn are_as_before(&self, number: usize, args: &[Value]) -> bool
        ensures { result ≡ are_as_before args.now (given_at number self.now) }
    {
        match self.at(number) {
            Some(before) => args == before,
            None => false,
        }
    }

    /// From now on these are the arguments of the last call for the loop of the number.
    ///
    /// # Errors
    ///
    /// [`ErrorKind::OutOfMemory`]; the calls are then as they were.
    ///
    /// [`ErrorKind::OutOfMemory`]: template_values_errors::ErrorKind::OutOfMemory
    pub fn put(&mut self, number: usize, args: Vec<Value>) -> Result<(), Error>
        ensures put { OnOk result (self.new ≡ put_given number args.items self.old) }
        ensures refused { IfErr result NoMemory }
        ensures unchanged { OnErr result (self.new ≡ self.old) }
    {
        match position(self.calls.as_slice(), number) {
            Some(place) => {
                self.calls[place] = Call::new(number, args);
                Ok(())
            }
            None => {
                self.calls.push(Call::new(number, args))?;
                Ok(())
            }
        }
    }

    /// The loop of the number leaves nothing behind.
    pub fn forget(&mut self, number: usize)
        ensures { self.new ≡ drop_given number self.old }
    {
        match position(self.calls.as_slice(), number) {
            Some(place) => {
                let _gone = self.calls.remove(place);
            }
            None => {}
        }
    }
}
