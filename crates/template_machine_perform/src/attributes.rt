//! Attributes that are set.
ghost use Rattle.template_compiler_code.specs.Code.{set_attr};
ghost use Rattle.template_machine_meaning.specs.Surroundings.{Programs};
ghost use Rattle.template_machine_operands.specs.Operands.{operands_in};
ghost use Rattle.template_machine_steps.specs.Performs.{Performs};

use std::alloc::Global;
use template_machine_operands::Operands;
use template_machine_state::State;
use template_values_errors::Error;

/// Takes a value, and a holder from above it, which has the value under the name from now on. As dear as
/// [`State::set_attribute`].
///
/// # Errors
///
/// Those of [`State::set_attribute`], and [`ErrorKind::BadStream`] where operands are missing, which no verified code meets.
///
/// [`ErrorKind::BadStream`]: template_values_errors::ErrorKind::BadStream
#[cold]
#[inline(never)]
pub fn set_attr(
    alloc: Global,
    name: &str,
    state: &mut State<'_>,
    operands: &mut Operands,
) -> Result<(), Error>
    ensures { (s : Programs) → Performs s (set_attr name.now) (operands_in operands.old) state.old
        result (operands_in operands.new) state.new }
{
    let (value, holder) = operands.take_two()?;
    state.set_attribute(alloc, name, value, &holder)
}
