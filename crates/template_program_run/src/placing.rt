//! The run of a request over the output, or over a file in its place.
ghost use Rattle.std.specs.Prelude.{option_map};
ghost use Rattle.template_program_parts.specs.Context.{text_pairs};
ghost use Rattle.template_program_run.specs.Expressions.{asked_in};
ghost use Rattle.template_program_run.specs.Given.{given_in};
ghost use Rattle.template_program_run.specs.Served.{served_under};
ghost use Rattle.template_program_run.specs.Starts.{PerformsInto, PerformsTo};

use crate::evaluating::Expression;
use crate::inputs::Inputs;
use crate::options::Options;
use crate::parts::ContextParts;
use crate::performing::perform;
use crate::telling::refuse_file;
use std::alloc::Global;
use template_program_files::{Placing, Writer, write_file};
use template_program_output::Output;

/// Runs the request over the output; or over the file at `path`, if one is given, which takes its place when all is
/// written.
pub(crate) fn perform_to<R: Placing + AllocGlobal, O: Output, F: Output>(
    rt: &R,
    path: Option<&str>,
    options: Options<'_>,
    expression: Option<Expression<'_>>,
    inputs: &Inputs,
    context: ContextParts<'_>,
    out: O,
    fault: &mut F,
) -> (u8, O)
    ensures { PerformsTo (option_map asked_in expression.entry) (option_map (λ path. path.now) path.entry) (R.fresh rt.now)
        (R.placed rt.now) inputs.now.request
        (served_under options.entry) (text_pairs inputs.now.templates.items) (given_in context.entry)
        (O.shown out) (O.shown result.1) (F.shown fault.old) (F.shown fault.new) result.0 }
{
    match path {
        Some(path) => (
            perform_into(rt, path, options, expression, inputs, context, fault),
            out,
        ),
        None => perform(rt.alloc(), options, expression, inputs, context, out, fault),
    }
}

// Runs the request over the file at `path`.
fn perform_into<R: Placing + AllocGlobal, F: Output>(
    rt: &R,
    path: &str,
    options: Options<'_>,
    expression: Option<Expression<'_>>,
    inputs: &Inputs,
    context: ContextParts<'_>,
    fault: &mut F,
) -> u8
    ensures { PerformsInto (option_map asked_in expression.entry) (R.fresh rt.now path.now) (R.placed rt.now path.now) inputs.now.request
        (served_under options.entry)
        (text_pairs inputs.now.templates.items) (given_in context.entry)
        (F.shown fault.old) (F.shown fault.new) result }
{
    let performer = Performer {
        alloc: rt.alloc(),
        options,
        expression,
        inputs,
        context,
    };
    match write_file(rt, path, &performer, fault) {
        Ok(status) => status,
        Err(refused) => refuse_file(rt.alloc(), refused, options.tells_where, path, fault),
    }
}

// A request that is run over an output.
#[derive(Drop)]
struct Performer<'a> {
    alloc: Global,
    options: Options<'a>,
    expression: Option<Expression<'a>>,
    inputs: &'a Inputs,
    context: ContextParts<'a>,
}

impl Writer for Performer<'_> {
    ghost use Rattle.template_program_parts.specs.Context.{text_pairs};
    ghost use Rattle.std.specs.Prelude.{option_map};
    ghost use Rattle.template_program_run.specs.Expressions.{asked_in};
    ghost use Rattle.template_program_run.specs.Given.{given_in};
    ghost use Rattle.template_program_run.specs.Served.{served_under};
    ghost use Rattle.template_program_run.specs.Starts.{PerformsRequest};

    ghost writes = { λ performer out out_after fault fault_after status. PerformsRequest (option_map asked_in performer.expression)
        performer.inputs.now.request
        (served_under performer.options) (text_pairs performer.inputs.now.templates.items)
        (given_in performer.context) out out_after fault fault_after status };

    fn write_to<O: Output, F: Output>(&self, out: O, fault: &mut F) -> (u8, O) {
        perform(
            self.alloc,
            self.options,
            self.expression,
            self.inputs,
            self.context,
            out,
            fault,
        )
    }
}
