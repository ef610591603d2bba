//! Escapes.
ghost use Rattle.template_compiler_code.specs.Code.{Operand, push_auto_escape, pop_auto_escape};
ghost use Rattle.template_machine_meaning.specs.Surroundings.{Programs};
ghost use Rattle.template_machine_operands.specs.Operands.{operands_in};
ghost use Rattle.template_machine_steps.specs.Performs.{Performs};
ghost use Rattle.std.specs.Prelude.{List};

use template_machine_operands::Operands;
use template_machine_operations::escape_named;
use template_machine_state::State;
use template_values_errors::{Error, ErrorKind};

/// Takes a value, and escapes as it says from now on.
///
/// # Errors
///
/// Those of [`escape_named`], [`ErrorKind::OutOfMemory`], and [`ErrorKind::BadStream`] where the operand is
/// missing, which no verified code meets.
pub fn push_auto_escape(state: &mut State<'_>, operands: &mut Operands) -> Result<(), Error>
    ensures { (s : Programs) →
        Performs s push_auto_escape (operands_in operands.old) state.old result (operands_in operands.new) state.new }
{
    let value = operands.take()?;
    let rule = escape_named(state.first_escape(), &value)?;
    state.open_escape(rule)
}

/// Escapes again as before.
///
/// # Errors
///
/// [`ErrorKind::BadStream`] where no escape was opened, which no verified code meets.
pub fn pop_auto_escape(state: &mut State<'_>) -> Result<(), Error>
    ensures { (s : Programs) (operands : List Operand) → Performs s pop_auto_escape operands state.old result operands state.new }
{
    if !state.has_escape() {
        return Err(Error::new(ErrorKind::BadStream));
    }
    state.close_escape();
    Ok(())
}
