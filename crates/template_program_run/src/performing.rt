//! The run of a request over a buffered output.
ghost use Rattle.std.specs.Prelude.{◌≡◌, [], option_map};
ghost use Rattle.template_program_parts.specs.Context.{text_pairs};
ghost use Rattle.template_program_run.specs.Expressions.{asked_in};
ghost use Rattle.template_program_run.specs.Given.{given_in};
ghost use Rattle.template_program_run.specs.Served.{served_under};
ghost use Rattle.template_program_run.specs.Starts.{PerformsRequest, RunsFlushed, TellsError, TellsOutcome};

use crate::evaluating::{Expression, answer};
use crate::inputs::Inputs;
use crate::options::Options;
use crate::parts::ContextParts;
use crate::refusals::tell_refusal;
use crate::telling::{tell_error, tell_memory};
use std::alloc::Global;
use template_machine_surroundings::StateIds;
use template_program_output::{Buffered, Output};
use template_program_parts::{MEMORY, Outcome, after_flush, status_of};
use template_program_places::write_placed;
use template_values_errors::Error;

/// How many bytes are held back before they are written to the output.
const BUFFER: usize = 8192;

/// Runs the request over a buffer, which is flushed after a fault too, and tells a fault on one line, with its places behind it
/// where they are asked for.
pub(crate) fn perform<O: Output, F: Output>(
    alloc: Global,
    options: Options<'_>,
    expression: Option<Expression<'_>>,
    inputs: &Inputs,
    context: ContextParts<'_>,
    out: O,
    fault: &mut F,
) -> (u8, O)
    ensures { PerformsRequest (option_map asked_in expression.entry) inputs.now.request (served_under options.entry)
        (text_pairs inputs.now.templates.items)
        (given_in context.entry) (O.shown out) (O.shown result.1)
        (F.shown fault.old) (F.shown fault.new) result.0 }
{
    let Ok(buffer) = Vec::with_capacity(alloc, BUFFER) else {
        tell_memory(fault);
        return (MEMORY, out);
    };
    let (outcome, out) = run_flushed(alloc, options, expression, inputs, context, out, buffer);
    tell_outcome(alloc, options.tells_where, inputs, &outcome, fault);
    (status_of(&outcome), out)
}

// Runs the request over an empty buffer, and flushes what it has written.
fn run_flushed<O: Output>(
    alloc: Global,
    options: Options<'_>,
    expression: Option<Expression<'_>>,
    inputs: &Inputs,
    context: ContextParts<'_>,
    out: O,
    buffer: Vec<u8>,
) -> (Outcome, O)
    requires { buffer.items ≡ [] }
    ensures { RunsFlushed (option_map asked_in expression.entry) inputs.now.request (served_under options.entry)
        (text_pairs inputs.now.templates.items)
        (given_in context.entry) (O.shown out) (O.shown result.1) result.0 }
{
    let mut ids = StateIds::new(0);
    let mut sink = Buffered::new(out, buffer);
    let outcome = answer(
        alloc,
        expression,
        &inputs.request,
        options,
        inputs.templates.as_slice(),
        context,
        &mut ids,
        &mut sink,
    );
    let outcome = after_flush(outcome, sink.flush());
    (outcome, sink.into_output())
}

// Writes the fault line of an outcome, if it has one, and the places behind it where they are asked for.
fn tell_outcome<F: Output>(
    alloc: Global,
    tells_where: bool,
    inputs: &Inputs,
    outcome: &Outcome,
    fault: &mut F,
)
    ensures { TellsOutcome tells_where outcome.now (F.shown fault.old) (F.shown fault.new) }
{
    match outcome {
        Outcome::Done => {}
        Outcome::Context(error) => {
            tell_refusal(alloc, tells_where, &inputs.context, error, fault);
        }
        Outcome::Render(error) | Outcome::Template(error) => {
            tell_outcome_error(alloc, tells_where, inputs, error, fault);
        }
    }
}

fn tell_outcome_error<F: Output>(
    alloc: Global,
    tells_where: bool,
    inputs: &Inputs,
    error: &Error,
    fault: &mut F,
)
    ensures { TellsError tells_where error.now (F.shown fault.old) (F.shown fault.new) }
{
    if tells_where {
        write_placed(alloc, fault, error, inputs.templates.as_slice());
    } else {
        tell_error(fault, error);
    }
}
