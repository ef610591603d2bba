//! Macros that are made.
ghost use Rattle.std.specs.Prelude.{◌≡◌, ℕ, List};
ghost use Rattle.template_compiler_process.specs.Process.{Counts};
ghost use Rattle.template_compiler_code.specs.Code.{Operand, build_macro, enclose, get_closure};
ghost use Rattle.template_compiler_code.specs.Counting.{takes_caller};
ghost use Rattle.template_machine_meaning.specs.Surroundings.{Programs};
ghost use Rattle.template_machine_operands.specs.Operands.{operands_in};
ghost use Rattle.template_machine_steps.specs.Performs.{Performs, PerformsBehind};

use std::alloc::Global;
use template_compiler_code::MACRO_CALLER;
use template_machine_operands::Operands;
use template_machine_state::State;
use template_values_errors::{Error, ErrorKind};
use template_values_items::Items;

/// The closure that the innermost frame writes holds the name. As dear as [`State::enclose`].
///
/// # Errors
///
/// [`ErrorKind::OutOfMemory`], and [`ErrorKind::BadStream`] where there is no frame, which no verified code meets.
pub fn enclose<'env>(alloc: Global, name: &'env str, state: &mut State<'env>) -> Result<(), Error>
    ensures { (s : Programs) (operands : List Operand) → Performs s (enclose name.now) operands state.old result operands state.new }
{
    if !state.has_frame() {
        return Err(Error::new(ErrorKind::BadStream));
    }
    state.enclose(alloc, name)
}

/// Gives the closure that the innermost frame writes, if it writes one.
///
/// # Errors
///
/// As [`enclose`].
pub fn get_closure(alloc: Global, state: &State<'_>, operands: &mut Operands) -> Result<(), Error>
    ensures { (s : Programs) →
        Performs s get_closure (operands_in operands.old) state.now result (operands_in operands.new) state.now }
{
    if !state.has_frame() {
        return Err(Error::new(ErrorKind::BadStream));
    }
    operands.push_closure(alloc, state.closure())
}

/// Takes a list of texts, and a closure from below it, and gives the macro that they make: under a name, with a caller where its
/// flags say so, and with its number among the macros of the stream that runs.
///
/// # Errors
///
/// [`ErrorKind::OutOfMemory`], and [`ErrorKind::BadStream`] where operands are missing, which no verified code meets.
pub fn build_macro<'env>(
    name: &'env str,
    flags: u8,
    number: usize,
    state: &mut State<'env>,
    operands: &mut Operands,
) -> Result<(), Error>
    ensures { (s : Programs) (offset : ℕ) (before : Counts) → before.macros ≡ number →
        PerformsBehind before s (build_macro name.now offset flags) (operands_in operands.old) state.old
        result (operands_in operands.new) state.new }
{
    let names = operands.take()?;
    let closure = operands.take_closure()?;
    let arguments = Items::items_of(names);
    let built = state.build_macro(name, arguments, takes_caller(flags), number, closure)?;
    operands.push(built)
}

// Whether a macro of these flags takes a caller.
fn takes_caller(flags: u8) -> bool
    ensures { result ≡ takes_caller flags }
{
    flags & MACRO_CALLER == MACRO_CALLER
}
