//! Values that are printed as a user's own says.
ghost use Rattle.std.specs.Prelude.{◌≡◌, ◌∷◌, List, Option, suc, string_bytes};
ghost use Rattle.template_values_model.specs.Val.{Val};
ghost use Rattle.template_callables.specs.Callables.{Formatted, View};
ghost use Rattle.template_callables.specs.Callbacks.{FormatsUnder};
ghost use Rattle.template_callables.specs.Formats.{Formats};
ghost use Rattle.template_compiler_code.specs.Code.{Operand, emit, single};
ghost use Rattle.template_machine_going.specs.Told.{CountsFailures};
ghost use Rattle.template_machine_meaning.specs.Keys.{Around};
ghost use Rattle.template_machine_meaning.specs.Surroundings.{Programs, text_reply, written_reply};
ghost use Rattle.template_machine_operands.specs.Operands.{operands_in};
ghost use Rattle.template_machine_steps.specs.Performs.{StepsHeardWriting};
ghost use Rattle.template_machine_calls.specs.Formatted.{IsMade, formatted_by, formatted_in, outside, printed_as};
ghost use Rattle.template_machine_calls.specs.Hosted.{around_under, hosted};
ghost use Rattle.template_machine_calls.specs.Left.{Replied};

use crate::rules::Rules;
use std::alloc::Global;
use template_callables::{Callbacks, FormatAnswer};
use template_machine_going::Stop;
use template_machine_operands::Operands;
use template_machine_operations as values;
use template_machine_operations::forbids_printing;
use template_machine_state::State;
use template_machine_surroundings::Sink;
use template_values_core::Value;
use template_values_errors::{Error, ErrorKind};

/// Takes a value, and prints it as the host's formatter says, or under the escape in force where there is none: into the
/// innermost capture, or into the sink where none is open. Its text may be made in `scratch`, which loses what it holds. As dear
/// as the formatter, and linear in the text.
///
/// # Errors
///
/// Those of [`format_value`]; [`ErrorKind::WriteFailure`] where the sink failed, which has then taken a beginning of the text; and
/// [`ErrorKind::BadStream`] where there is no value, which no verified code meets.
///
/// [`ErrorKind::WriteFailure`]: template_values_errors::ErrorKind::WriteFailure
/// [`ErrorKind::BadStream`]: template_values_errors::ErrorKind::BadStream
#[cold]
#[inline(never)]
pub fn emit_formatted<H: Callbacks, S: Sink>(
    rules: Rules<'_>,
    host: &H,
    state: &mut State<'_>,
    operands: &mut Operands,
    scratch: &mut String,
    sink: &mut S,
) -> Result<(), Stop>
    ensures steps { (program : Programs) →
        StepsHeardWriting (hosted rules.entry (H.callables host.now) program) emit (operands_in operands.old) state.old (S.taken sink.old)
        result suc (operands_in operands.new) state.new (S.taken sink.new) }
    ensures failures { CountsFailures result (S.failures sink.old) (S.failures sink.new) }
{
    let value = operands.take()?;
    make_formatted(rules, host, &*state, &value, scratch)?;
    put_text(scratch.as_str(), state, sink)
}

/// The text that a value is printed as: as the host's formatter says, or under the escape in force where there is none. As dear as
/// the formatter, and linear in the text.
///
/// # Errors
///
/// [`ErrorKind::UndefinedError`] where an undefined value may not be printed; the fault that the formatter answers with; what the
/// escape refuses the value with; [`ErrorKind::OutOfMemory`].
///
/// [`ErrorKind::UndefinedError`]: template_values_errors::ErrorKind::UndefinedError
/// [`ErrorKind::OutOfMemory`]: template_values_errors::ErrorKind::OutOfMemory
pub fn format_value<H: Callbacks>(
    alloc: Global,
    rules: Rules<'_>,
    host: &H,
    state: &State<'_>,
    value: &Value,
) -> Result<String, Stop>
    ensures { (a : Around) → let around = around_under rules.entry (H.callables host.now) a in
        let w = outside state.now in
        Replied (λ text after. text_reply after (string_bytes text)) (written_reply around w value.now) result w }
{
    let mut text = String::new(alloc);
    make_formatted(rules, host, state, value, &mut text)?;
    Ok(text)
}

// Makes that text in the place of what `text` holds.
//
// # Errors
//
// Those of `format_value`.
fn make_formatted<H: Callbacks>(
    rules: Rules<'_>,
    host: &H,
    state: &State<'_>,
    value: &Value,
    text: &mut String,
) -> Result<(), Stop>
    ensures { (a : Around) → let around = around_under rules.entry (H.callables host.now) a in
        IsMade (printed_as around state.now value.now) result (string_bytes text.new) }
{
    if forbids_printing(rules.undefined, value) {
        return Err(Stop::Fault(Error::new(ErrorKind::UndefinedError)));
    }
    let view = state.view(rules.name, rules.undefined);
    let answer = host.format(&view, value);
    make_answered(answer, state, value, text)
}

// The same of a formatter's answer, or of none.
//
// # Errors
//
// The answer's fault; else those of `values::make_text`.
fn make_answered(
    answer: Option<FormatAnswer>,
    state: &State<'_>,
    value: &Value,
    text: &mut String,
) -> Result<(), Stop>
    ensures { (formats : Option (View → Val → Formatted)) (view : View) → FormatsUnder formats view value.now answer →
        IsMade (formatted_by state.now view value.now formats) result (string_bytes text.new) }
{
    match answer {
        Some(given) => make_given(given, state, text),
        None => Ok(values::make_text(value, state.auto_escape(), state, text)?),
    }
}

// The same of a formatter's answer.
//
// # Errors
//
// As `make_answered`.
fn make_given(answer: FormatAnswer, state: &State<'_>, text: &mut String) -> Result<(), Stop>
    ensures { (stated : Formatted) → Formats stated answer → IsMade (formatted_in state.now stated) result (string_bytes text.new) }
{
    match answer {
        FormatAnswer::Raw(raw) => {
            *text = raw;
            Ok(())
        }
        FormatAnswer::Escaped(other) => {
            Ok(values::make_text(&other, state.auto_escape(), state, text)?)
        }
        FormatAnswer::Fault(error) => Err(error.into()),
    }
}

// The text of a printed value goes into the innermost capture, or into the sink where none is open.
//
// # Errors
//
// `OutOfMemory`, and `WriteFailure` where the sink failed, which has then taken a beginning of the text.
fn put_text<S: Sink>(text: &str, state: &mut State<'_>, sink: &mut S) -> Result<(), Stop>
    ensures steps { (s : Programs) (v : Val) (below : List Operand) → written_reply s.around state.old v ≡ text_reply state.old text.now →
        StepsHeardWriting s emit (single v ∷ below) state.old (S.taken sink.old) result suc below state.new (S.taken sink.new) }
    ensures failures { CountsFailures result (S.failures sink.old) (S.failures sink.new) }
{
    if state.has_capture() {
        return Ok(state.capture(text)?);
    }
    match values::write(text, sink) {
        Ok(()) => Ok(()),
        Err(error) => Err(Stop::of_writing(error)),
    }
}
