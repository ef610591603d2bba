//! A fuel that is counted down along instructions.
ghost use Rattle.std.specs.Prelude.{◌≡◌, ◌≤◌, ◌+◌, ◌∷◌, [], Some, IfErr, OnOk, OnErr};
ghost use Rattle.template_compiler_code.specs.Prices.{price_of};
ghost use Rattle.template_compiler_code.specs.View.{code_of};
ghost use Rattle.template_machine_going.specs.Paying.{IsSpent, Paid};

use template_compiler_code::Instruction;
use template_values_errors::{Error, ErrorKind};

/// Counts a fuel down along the instructions that a run takes.
#[derive(Drop)]
pub struct FuelTracker {
    fuel: u64,
    left: u64,
    ghost within: { left ≤ fuel },
}

impl FuelTracker {
    ghost use Rattle.template_machine_going.specs.Trackers.{fuel_in, remaining_in};

    /// A fuel of which nothing is consumed.
    pub fn new(fuel: u64) -> FuelTracker
        ensures fuel { fuel_in result ≡ fuel }
        ensures remaining { remaining_in result ≡ fuel }
    {
        FuelTracker { fuel, left: fuel }
    }

    /// Takes the price of an instruction. A fuel n lets n - 1 steps run, and a fuel of 0 none; what costs nothing always
    /// runs.
    ///
    /// # Errors
    ///
    /// [`ErrorKind::OutOfFuel`] where nothing is left behind the step; then nothing is left from then on.
    pub fn track(&mut self, instruction: &Instruction<'_>) -> Result<(), Error>
        ensures paid { OnOk result
            (Paid (price_of (code_of instruction.now)) (Some (remaining_in self.old)) (Some (remaining_in self.new))) }
        ensures priced { OnErr result (price_of (code_of instruction.now) ≡ 1) }
        ensures spent { OnErr result (IsSpent (Some (remaining_in self.old))) }
        ensures nothing { OnErr result (remaining_in self.new ≡ 0) }
        ensures kind { IfErr result (λ kinds. kinds ≡ ErrorKind.OutOfFuel ∷ []) }
        ensures fuel { fuel_in self.new ≡ fuel_in self.old }
    {
        let price = instruction.price();
        if price == 0 {
            return Ok(());
        }
        self.left = self.left.saturating_sub(price);
        if self.left == 0 {
            return Err(Error::new(ErrorKind::OutOfFuel));
        }
        Ok(())
    }

    /// What is left of the fuel.
    pub fn remaining(&self) -> u64
        ensures { result ≡ remaining_in self.now }
    {
        self.left
    }

    /// What was consumed of the fuel.
    pub fn consumed(&self) -> u64
        ensures { result + remaining_in self.now ≡ fuel_in self.now }
    {
        self.fuel - self.left
    }
}
