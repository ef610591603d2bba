//! Instructions that write.
ghost use Rattle.std.specs.Prelude.{◌≡◌, ◌<◌, ◌∷◌, [], ℕ, suc, length, List, Option, None};
ghost use Rattle.template_compiler_code.specs.Code.{Operand, single, emit_raw, emit};
ghost use Rattle.template_machine_meaning.specs.Surroundings.{Programs};
ghost use Rattle.template_machine_operands.specs.Operands.{operands_in};
ghost use Rattle.template_machine_operations.specs.Outcomes.{TellsFailures};
ghost use Rattle.template_machine_steps.specs.Performs.{Performs, ruled};
ghost use Rattle.template_machine_perform.specs.Performs.{StepsWriting};

use std::alloc::Global;
use template_machine_operands::Operands;
use template_machine_operations as values;
use template_machine_state::State;
use template_machine_surroundings::{NullWriter, Sink};
use template_values_core::Value;
use template_values_errors::{Error, UndefinedBehavior};

/// Writes a text of the template: into the innermost capture, or into the sink where none is open.
///
/// # Errors
///
/// [`ErrorKind::OutOfMemory`] and [`ErrorKind::WriteFailure`]; the sink has then taken a beginning of the text.
///
/// [`ErrorKind::OutOfMemory`]: template_values_errors::ErrorKind::OutOfMemory
/// [`ErrorKind::WriteFailure`]: template_values_errors::ErrorKind::WriteFailure
#[inline(always)]
pub fn emit_raw<S: Sink>(text: &str, state: &mut State<'_>, sink: &mut S) -> Result<(), Error>
    ensures steps { (s : Programs) (operands : List Operand) →
        StepsWriting s (emit_raw text.now) operands state.old (S.taken sink.old) result suc operands state.new (S.taken sink.new) }
    ensures failures { TellsFailures result (S.failures sink.old) (S.failures sink.new) }
{
    if state.has_capture() {
        return capture_text(text, state);
    }
    values::write(text, sink)
}

// The innermost capture takes a text of the template.
#[inline(never)]
fn capture_text(text: &str, state: &mut State<'_>) -> Result<(), Error>
    requires { 0 < length state.old.captures }
    ensures { (s : Programs) (operands : List Operand) →
        Performs s (emit_raw text.now) operands state.old result operands state.new }
{
    state.capture(text)
}

/// Takes a value, and prints it under the escape in force, into the innermost capture or the sink, for a host that has no
/// formatter. Its text may be made in `scratch`, which loses what it holds and keeps its room.
///
/// # Errors
///
/// Those of [`values::print`]; and [`ErrorKind::BadStream`] where there is no value.
///
/// [`ErrorKind::BadStream`]: template_values_errors::ErrorKind::BadStream
#[inline(always)]
pub fn emit<S: Sink>(
    alloc: Global,
    mode: UndefinedBehavior,
    state: &mut State<'_>,
    operands: &mut Operands,
    scratch: &mut String,
    sink: &mut S,
) -> Result<(), Error>
    ensures steps { (program : Programs) (limit : ℕ) → program.around.callables.formats ≡ None →
        StepsWriting (ruled program limit mode) emit (operands_in operands.old) state.old (S.taken sink.old)
        result suc (operands_in operands.new) state.new (S.taken sink.new) }
    ensures failures { TellsFailures result (S.failures sink.old) (S.failures sink.new) }
{
    let value = operands.take()?;
    if state.has_capture() {
        return capture_value(alloc, mode, state, &value, scratch);
    }
    emit_value(mode, state, &value, scratch, sink)
}

// Prints a value under the escape in force into the innermost capture. Its text, if it keeps one, is out of the capture
// meanwhile, since the value may need what the state knows of records.
#[inline(never)]
fn capture_value(
    alloc: Global,
    mode: UndefinedBehavior,
    state: &mut State<'_>,
    value: &Value,
    scratch: &mut String,
) -> Result<(), Error>
    requires { 0 < length state.old.captures }
    ensures { (program : Programs) (limit : ℕ) (below : List Operand) → program.around.callables.formats ≡ None →
        Performs (ruled program limit mode) emit (single value.now ∷ below) state.old result below state.new }
{
    let escape = state.auto_escape();
    match state.take_captured(alloc) {
        Some(mut text) => {
            let done = values::print(mode, escape, value, &*state, scratch, &mut text);
            state.put_captured(text);
            done
        }
        None => values::print(mode, escape, value, &*state, scratch, &mut NullWriter),
    }
}

/// Prints a value where it stands, under the escape in force, where no capture is open, as [`emit`] prints one that it takes.
///
/// # Errors
///
/// Those of [`values::print`].
#[inline(always)]
pub fn emit_value<S: Sink>(
    mode: UndefinedBehavior,
    state: &State<'_>,
    value: &Value,
    scratch: &mut String,
    sink: &mut S,
) -> Result<(), Error>
    requires { state.now.captures ≡ [] }
    ensures steps { (program : Programs) (limit : ℕ) (below : List Operand) → program.around.callables.formats ≡ None →
        StepsWriting (ruled program limit mode) emit (single value.now ∷ below) state.now (S.taken sink.old)
        result suc below state.now (S.taken sink.new) }
    ensures failures { TellsFailures result (S.failures sink.old) (S.failures sink.new) }
{
    let escape = state.auto_escape();
    values::print(mode, escape, value, state, scratch, sink)
}
