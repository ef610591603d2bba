//! Frames.
ghost use Rattle.std.specs.Prelude.{ℕ, List, Option};
ghost use Rattle.template_compiler_code.specs.Code.{Operand, push_with, pop_frame};
ghost use Rattle.template_values_errors.specs.declared.modes.UndefinedBehavior.{UndefinedBehavior};
ghost use Rattle.template_machine_meaning.specs.Surroundings.{Programs};
ghost use Rattle.template_machine_steps.specs.Performs.{Performs, ruled};

use std::alloc::Global;
use template_machine_state::State;
use template_values_errors::{Error, ErrorKind};

/// Opens a frame.
///
/// # Errors
///
/// [`ErrorKind::InvalidOperation`] where the limit leaves no room for it, and [`ErrorKind::OutOfMemory`].
pub fn push_with(alloc: Global, limit: usize, state: &mut State<'_>) -> Result<(), Error>
    ensures { (program : Programs) (mode : UndefinedBehavior) (operands : List Operand) →
        Performs (ruled program limit mode) push_with operands state.old result operands state.new }
{
    state.open_frame(alloc, limit)
}

/// Closes the innermost frame, where that is none of a caller's.
///
/// # Errors
///
/// [`ErrorKind::BadStream`] where there is no such frame, which no verified code meets.
pub fn pop_frame(state: &mut State<'_>) -> Result<(), Error>
    ensures { (s : Programs) (operands : List Operand) → Performs s pop_frame operands state.old result operands state.new }
{
    if !state.has_own_frame() {
        return Err(Error::new(ErrorKind::BadStream));
    }
    state.close_frame();
    Ok(())
}
