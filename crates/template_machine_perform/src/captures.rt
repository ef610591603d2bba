//! Captures.
ghost use Rattle.std.specs.Prelude.{List};
ghost use Rattle.template_compiler_code.specs.Code.{Operand, begin_capture, end_capture};
ghost use Rattle.template_compiler_code.specs.View.{is_kept};
ghost use Rattle.template_machine_meaning.specs.Surroundings.{Programs};
ghost use Rattle.template_machine_operands.specs.Operands.{operands_in};
ghost use Rattle.template_machine_steps.specs.Performs.{Performs};

use std::alloc::Global;
use template_compiler_code::CaptureMode;
use template_machine_operands::Operands;
use template_machine_state::State;
use template_values_errors::{Error, ErrorKind};

/// Begins a capture.
///
/// # Errors
///
/// [`ErrorKind::OutOfMemory`]
pub fn begin_capture(alloc: Global, mode: CaptureMode, state: &mut State<'_>) -> Result<(), Error>
    ensures { (s : Programs) (operands : List Operand) →
        Performs s (begin_capture (is_kept mode)) operands state.old result operands state.new }
{
    match mode {
        CaptureMode::Capture => state.begin_capture(alloc, true),
        CaptureMode::Discard => state.begin_capture(alloc, false),
    }
}

/// Ends the innermost capture, and gives what it ends with.
///
/// # Errors
///
/// [`ErrorKind::OutOfMemory`], and [`ErrorKind::BadStream`] where no capture is open, which no verified code meets.
pub fn end_capture(state: &mut State<'_>, operands: &mut Operands) -> Result<(), Error>
    ensures { (s : Programs) →
        Performs s end_capture (operands_in operands.old) state.old result (operands_in operands.new) state.new }
{
    if !state.has_capture() {
        return Err(Error::new(ErrorKind::BadStream));
    }
    let value = state.end_capture()?;
    operands.push(value)
}
