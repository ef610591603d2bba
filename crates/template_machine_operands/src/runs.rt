//! Counted runs of values among the operands, and closures.
ghost use Rattle.std.specs.Prelude.{◌≡◌, ◌≢◌, ◌∷◌, [], not, IsTrue, IfOk, IfErr, OnOk, OnErr};
ghost use Rattle.template_values_errors.specs.Memory.{NoMemory};
ghost use Rattle.template_compiler_code.specs.Code.{closure, counted};
ghost use Rattle.template_compiler_code.specs.Steps.{handed, values_in};
ghost use Rattle.template_machine_operands.specs.Operands.{operands_in, CountsNext, CountsOne, GoesInto, LacksClosure, LacksRun, RefusesCounting, RefusesHanded, RefusesNext};

use crate::Operands;
use std::alloc::Global;
use std::mem;
use template_values_core::Value;
use template_values_errors::{Error, ErrorKind};

// A counted run, with what goes into it next, or a closure in its place; and the values below it.
#[derive(Drop)]
pub(crate) struct Run {
    values: Vec<Value>,
    next: Next,
    below: Vec<Value>,
}

// What goes into a counted run next: nothing yet, or a value. Or a closure stands in the place of the run, which then has no values.
#[derive(Drop)]
pub(crate) enum Next {
    Free,
    Waits(Value),
    Closure(Option<u32>),
}

impl Next {
    ghost use Rattle.template_machine_operands.specs.declared.runs.Next.TheVariants.{Free};

    // Whether nothing goes into a run next.
    fn is_free(&self) -> bool
        ensures yes { IsTrue result → self.now ≡ Free }
        ensures no { IsTrue (not result) → self.now ≢ Free }
    {
        match self {
            Next::Free => true,
            _ => false,
        }
    }
}

impl Run {
    ghost use Rattle.template_machine_operands.specs.declared.runs.Next.TheVariants.{Free, Waits};

    // A value goes into it next, where none does yet.
    fn count_next(&mut self, value: Value) -> Result<(), Error>
        ensures next { OnOk result (self.new.next ≡ Waits value) }
        ensures free { OnOk result (self.old.next ≡ Free) }
        ensures taken { OnErr result (self.old.next ≢ Free) }
        ensures unchanged { OnErr result (self.new.next ≡ self.old.next) }
        ensures values { self.new.values.items ≡ self.old.values.items }
        ensures below { self.new.below.items ≡ self.old.below.items }
        ensures kind { IfErr result (λ kinds. kinds ≡ ErrorKind.BadStream ∷ []) }
    {
        if !self.next.is_free() {
            return Err(Error::new(ErrorKind::BadStream));
        }
        self.next = Next::Waits(value);
        Ok(())
    }

    // The value that goes into it next goes into it.
    fn count_one(&mut self) -> Result<(), Error>
        ensures counted { OnOk result (GoesInto self.old.next self.old.values.items self.new.values.items) }
        ensures next { OnOk result (self.new.next ≡ Free) }
        ensures refused { IfErr result (RefusesNext self.old.next) }
        ensures unchanged { OnErr result (self.new.next ≡ self.old.next) }
        ensures values { OnErr result (self.new.values.items ≡ self.old.values.items) }
        ensures below { self.new.below.items ≡ self.old.below.items }
    {
        match mem::replace(&mut self.next, Next::Free) {
            Next::Waits(value) => match self.values.push(value) {
                Ok(()) => Ok(()),
                Err(refused) => {
                    self.next = Next::Waits(refused.value);
                    Err(Error::new(ErrorKind::OutOfMemory))
                }
            },
            other => {
                self.next = other;
                Err(Error::new(ErrorKind::BadStream))
            }
        }
    }
}

impl Operands {
    /// A counted run of the values goes on top.
    ///
    /// # Errors
    ///
    /// [`ErrorKind::OutOfMemory`]; the operands are then as they were.
    pub fn push_run(&mut self, alloc: Global, values: Vec<Value>) -> Result<(), Error>
        ensures pushed { OnOk result (operands_in self.new ≡ counted values.items ∷ operands_in self.old) }
        ensures refused { IfErr result NoMemory }
        ensures unchanged { OnErr result (operands_in self.new ≡ operands_in self.old) }
    {
        if self.runs.reserve(1).is_err() {
            return Err(Error::new(ErrorKind::OutOfMemory));
        }
        let run = Run {
            values,
            next: Next::Free,
            below: mem::replace(&mut self.values, Vec::new(alloc)),
        };
        self.runs.push_reserved(run);
        Ok(())
    }

    /// A value goes into the counted run on top next.
    ///
    /// # Errors
    ///
    /// [`ErrorKind::BadStream`] where none is on top, or another value goes into it next; the operands are then as
    /// they were.
    pub fn count_next(&mut self, value: Value) -> Result<(), Error>
        ensures next { OnOk result (CountsNext value (operands_in self.old) (operands_in self.new)) }
        ensures none { OnErr result (LacksRun (operands_in self.old)) }
        ensures unchanged { OnErr result (operands_in self.new ≡ operands_in self.old) }
        ensures kind { IfErr result (λ kinds. kinds ≡ ErrorKind.BadStream ∷ []) }
    {
        if !self.values.is_empty() {
            return Err(Error::new(ErrorKind::BadStream));
        }
        match self.runs.last_mut() {
            Some(uppermost) => uppermost.count_next(value),
            None => Err(Error::new(ErrorKind::BadStream)),
        }
    }

    /// The value that goes into the counted run on top next goes into it.
    ///
    /// # Errors
    ///
    /// [`ErrorKind::BadStream`] where none is on top, or no value goes into it next; [`ErrorKind::OutOfMemory`]. The
    /// operands are then as they were.
    pub fn count_one(&mut self) -> Result<(), Error>
        ensures counted { OnOk result (CountsOne (operands_in self.old) (operands_in self.new)) }
        ensures refused { IfErr result (RefusesCounting (operands_in self.old)) }
        ensures unchanged { OnErr result (operands_in self.new ≡ operands_in self.old) }
    {
        if !self.values.is_empty() {
            return Err(Error::new(ErrorKind::BadStream));
        }
        match self.runs.last_mut() {
            Some(uppermost) => uppermost.count_one(),
            None => Err(Error::new(ErrorKind::BadStream)),
        }
    }

    /// Takes the values of the counted run on top, the first that went into it first.
    ///
    /// # Errors
    ///
    /// [`ErrorKind::BadStream`] where none is on top, or a value goes into it next; the operands are then as they
    /// were.
    pub fn take_run(&mut self) -> Result<Vec<Value>, Error>
        ensures taken { IfOk result (λ vs. operands_in self.old ≡ counted vs.items ∷ operands_in self.new) }
        ensures none { OnErr result (LacksRun (operands_in self.old)) }
        ensures unchanged { OnErr result (operands_in self.new ≡ operands_in self.old) }
        ensures kind { IfErr result (λ kinds. kinds ≡ ErrorKind.BadStream ∷ []) }
    {
        if !self.values.is_empty() {
            return Err(Error::new(ErrorKind::BadStream));
        }
        match self.runs.pop() {
            Some(
                Run {
                    values,
                    next: Next::Free,
                    below,
                },
            ) => {
                self.values = below;
                Ok(values)
            }
            Some(run) => {
                self.runs.push_reserved(run);
                Err(Error::new(ErrorKind::BadStream))
            }
            None => Err(Error::new(ErrorKind::BadStream)),
        }
    }

    /// The number of a closure goes on top, or that there is none.
    ///
    /// # Errors
    ///
    /// [`ErrorKind::OutOfMemory`]; the operands are then as they were.
    pub fn push_closure(&mut self, alloc: Global, number: Option<u32>) -> Result<(), Error>
        ensures pushed { OnOk result (operands_in self.new ≡ closure number ∷ operands_in self.old) }
        ensures refused { IfErr result NoMemory }
        ensures unchanged { OnErr result (operands_in self.new ≡ operands_in self.old) }
    {
        if self.runs.reserve(1).is_err() {
            return Err(Error::new(ErrorKind::OutOfMemory));
        }
        let run = Run {
            values: Vec::new(alloc),
            next: Next::Closure(number),
            below: mem::replace(&mut self.values, Vec::new(alloc)),
        };
        self.runs.push_reserved(run);
        Ok(())
    }

    /// Takes the closure on top.
    ///
    /// # Errors
    ///
    /// [`ErrorKind::BadStream`] where none is on top; the operands are then as they were.
    pub fn take_closure(&mut self) -> Result<Option<u32>, Error>
        ensures taken { IfOk result (λ number. operands_in self.old ≡ closure number ∷ operands_in self.new) }
        ensures none { OnErr result (LacksClosure (operands_in self.old)) }
        ensures unchanged { OnErr result (operands_in self.new ≡ operands_in self.old) }
        ensures kind { IfErr result (λ kinds. kinds ≡ ErrorKind.BadStream ∷ []) }
    {
        if !self.values.is_empty() {
            return Err(Error::new(ErrorKind::BadStream));
        }
        match self.runs.pop() {
            Some(
                Run {
                    values: _,
                    next: Next::Closure(number),
                    below,
                },
            ) => {
                self.values = below;
                Ok(number)
            }
            Some(run) => {
                self.runs.push_reserved(run);
                Err(Error::new(ErrorKind::BadStream))
            }
            None => Err(Error::new(ErrorKind::BadStream)),
        }
    }

    /// Takes so many values from the top, the lowest first, or those of the counted run on top where the count is left
    /// out. As [`Operands::take_many`] and [`Operands::take_run`].
    ///
    /// # Errors
    ///
    /// Those of [`Operands::take_many`] and [`Operands::take_run`]. The operands are then as they were.
    pub fn take_handed(&mut self, count: Option<usize>) -> Result<Vec<Value>, Error>
        ensures taken { IfOk result (λ vs. handed count (operands_in self.old) ≡ Some (vs.items, operands_in self.new)) }
        ensures refused { IfErr result (RefusesHanded count (operands_in self.old)) }
        ensures unchanged { OnErr result (operands_in self.new ≡ operands_in self.old) }
    {
        match count {
            Some(count) => self.take_many(count),
            None => self.take_run(),
        }
    }

    /// Takes the uppermost value, and lets the counted runs and closures above it go. Linear in their number.
    ///
    /// # Errors
    ///
    /// [`ErrorKind::BadStream`] where there is no value; nothing is left then.
    pub fn take_uppermost(&mut self) -> Result<Value, Error>
        ensures taken { IfOk result (λ v. values_in (operands_in self.old) ≡ v ∷ values_in (operands_in self.new)) }
        ensures none { OnErr result (values_in (operands_in self.old) ≡ []) }
        ensures left { OnErr result (operands_in self.new ≡ []) }
        ensures kind { IfErr result (λ kinds. kinds ≡ ErrorKind.BadStream ∷ []) }
    {
        while self.values.is_empty() {
            match self.runs.pop() {
                Some(run) => self.values = run.below,
                None => return Err(Error::new(ErrorKind::BadStream)),
            }
        }
        self.take()
    }
}
