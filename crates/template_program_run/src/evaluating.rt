//! The answer to a request by an expression, in place of its main template.
ghost use Rattle.std.specs.Prelude.{◌≡◌, option_map};
ghost use Rattle.template_program_parts.specs.Context.{text_pairs};
ghost use Rattle.template_program_parts.specs.declared.command.Command.TheVariants as asked;
ghost use Rattle.template_program_run.specs.Expressions.{AnswersAsked, AnswersExpression, asked_in};
ghost use Rattle.template_program_run.specs.Given.{given_in};
ghost use Rattle.template_program_run.specs.Ids.{behind_request};
ghost use Rattle.template_program_run.specs.Served.{served_under};

use crate::additions::environment_of;
use crate::options::Options;
use crate::parts::ContextParts;
use crate::request::Request;
use crate::running::{context_of, leave, run_with};
use std::alloc::Global;
use template_machine_surroundings::{Sink, StateIds};
use template_program_expression::evaluate;
use template_program_parts::Outcome;

/// An expression whose value is written in place of a main template.
#[derive(Clone, Copy, Debug)]
pub struct Expression<'a> {
    /// Its text.
    pub text: &'a str,
    /// Whether its value is written as JSON, and not as it prints.
    pub as_json: bool,
}

/// Does what [`run_with`] does, with the value of an expression in place of the main template: it is evaluated over the
/// context, in the environment of the templates, under no escape, and written with a newline. No template need stand.
///
/// Takes one state id for the environment, and one more for the evaluation. A refused context takes none, and a refused text
/// the first alone.
///
/// # Errors
///
/// [`Outcome::Context`] where the context is refused, then [`Outcome::Template`] where a template or the text is refused, no
/// state id is left, or the environment cannot be made for want of memory; [`Outcome::Render`] where the evaluation ends with
/// a fault, its value has no such text, or that cannot be written. Until the last nothing is written.
pub fn evaluate_with<S: Sink>(
    alloc: Global,
    expression: Expression<'_>,
    request: &Request,
    options: Options<'_>,
    templates: &[(String, String)],
    context: ContextParts<'_>,
    ids: &mut StateIds,
    sink: &mut S,
) -> Outcome
    ensures answers { AnswersExpression (asked_in expression.entry) (served_under options.entry) request.now (text_pairs templates.now)
        (given_in context.entry) ids.old result
        (S.taken sink.old) (S.taken sink.new) (S.failures sink.old) (S.failures sink.new) }
    ensures counted { ids.new ≡ behind_request asked.Render result ids.old }
{
    let context = match context_of(alloc, request, context) {
        Ok(context) => context,
        Err(error) => return Outcome::Context(error),
    };
    leave(&context, options.leaves_context);
    let environment = match environment_of(alloc, templates, request, options, ids) {
        Ok(environment) => environment,
        Err(error) => return Outcome::Template(error),
    };
    evaluate(
        alloc,
        &environment,
        expression.text,
        context,
        expression.as_json,
        ids,
        sink,
    )
}

/// Answers a request: by the expression, if one is given, and else by its main template.
pub(crate) fn answer<S: Sink>(
    alloc: Global,
    expression: Option<Expression<'_>>,
    request: &Request,
    options: Options<'_>,
    templates: &[(String, String)],
    context: ContextParts<'_>,
    ids: &mut StateIds,
    sink: &mut S,
) -> Outcome
    ensures { AnswersAsked (option_map asked_in expression.entry) (served_under options.entry) request.now (text_pairs templates.now)
        (given_in context.entry) ids.old result
        (S.taken sink.old) (S.taken sink.new) (S.failures sink.old) (S.failures sink.new) }
{
    match expression {
        Some(expression) => evaluate_with(
            alloc, expression, request, options, templates, context, ids, sink,
        ),
        None => run_with(alloc, request, options, templates, context, ids, sink),
    }
}
