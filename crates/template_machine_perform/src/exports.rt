//! What a frame exports.
ghost use Rattle.template_compiler_code.specs.Code.{export_locals};
ghost use Rattle.template_machine_meaning.specs.Surroundings.{Programs};
ghost use Rattle.template_machine_operands.specs.Operands.{operands_in};
ghost use Rattle.template_machine_steps.specs.Performs.{Performs};

use std::alloc::Global;
use template_machine_operands::Operands;
use template_machine_operations as values;
use template_machine_state::State;
use template_values_errors::{Error, ErrorKind};

/// Takes what a capture ended with, and gives the module of its text and of the names of the innermost frame with copies of their
/// values, but for those names that begin with `_`. As dear as [`State::public_locals`] and [`values::module_from`].
///
/// # Errors
///
/// Those of [`values::module_from`], and [`ErrorKind::BadStream`] where the operand or the frame is missing, which no verified
/// code meets.
pub fn export_locals(alloc: Global, state: &State<'_>, operands: &mut Operands) -> Result<(), Error>
    ensures { (s : Programs) →
        Performs s export_locals (operands_in operands.old) state.now result (operands_in operands.new) state.now }
{
    let written = operands.take()?;
    if !state.has_frame() {
        return Err(Error::new(ErrorKind::BadStream));
    }
    let names = state.public_locals(alloc)?;
    let module = values::module_from(alloc, names, &written)?;
    operands.push(module)
}
