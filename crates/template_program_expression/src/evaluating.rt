//! The evaluation of a text.
ghost use Rattle.std.specs.Prelude.{◌≡◌, ◌≢◌, ◌∷◌, [], Err};
ghost use Rattle.template_compiler_process.specs.Fuel.{under};
ghost use Rattle.template_machine_meaning.specs.Laws.{GivesOne};
ghost use Rattle.template_machine_environment.specs.Evaluations.{environment_under, text_of};
ghost use Rattle.template_machine_environment.specs.Extras.{user_answers};
ghost use Rattle.template_machine_environment.specs.Reading.{brought_of, registry_of};
ghost use Rattle.template_machine_environment.specs.Renderings.{last_id};
ghost use Rattle.template_program_expression.specs.Evaluations.{Evaluates, MakesTold, behind_evaluation, behind_one, meaning_of};

use crate::telling::line_of;
use std::alloc::Global;
use template_callables::Extension;
use template_machine_environment::{Environment, Expression};
use template_machine_operations::write;
use template_machine_surroundings::{Sink, StateIds};
use template_program_parts::Outcome;
use template_values_core::Value;
use template_values_errors::{Error, ErrorKind, UndefinedBehavior};

/// Evaluates the text of an expression in an environment over a context, under no escape and the environment's fuel, and
/// writes its value and a newline into a sink: what the value prints, or its compact JSON. What was registered for printing is
/// not asked. The line is made whole before it is written.
///
/// Takes one state id, where the text is an expression. Takes time linear in the text and in the line, besides what the
/// expression runs.
///
/// # Errors
///
/// - [`Outcome::Template`] where the text is refused, as [`Environment::compile_expression`] does; then nothing is written.
/// - [`Outcome::Render`] where the evaluation ends with a fault, or no state id is left, as [`Expression::eval`] says; where
///   an undefined value may not be printed (`UndefinedError`), or the value has no JSON (`BadSerialization`); then nothing is
///   written. Also where the sink wants memory or fails: it has then taken a beginning of the line.
pub fn evaluate<'source, E: Extension, S: Sink>(
    alloc: Global,
    environment: &Environment<'source, E>,
    text: &'source str,
    context: Value,
    as_json: bool,
    ids: &mut StateIds,
    sink: &mut S,
) -> Outcome
    ensures evaluates { Evaluates (brought_of (user_answers E.Callable.answer E.Method.answer E.Formatter.answer E.Join.answer)
        environment.now)
        (registry_of environment.now) as_json text.now context ids.old result
        (S.taken sink.old) (S.taken sink.new) (S.failures sink.old) (S.failures sink.new) }
    ensures counted { ids.new ≡ behind_evaluation result ids.old }
{
    let expression = match environment.compile_expression(text) {
        Ok(expression) => expression,
        Err(error) => return Outcome::Template(error),
    };
    let mode = environment.undefined_behavior();
    let line = match told(alloc, mode, &expression, context, as_json, ids) {
        Ok(line) => line,
        Err(error) => return Outcome::Render(error),
    };
    match write(line.as_str(), sink) {
        Ok(()) => Outcome::Done,
        Err(error) => Outcome::Render(error),
    }
}

// Evaluates an expression, and gives the line of its value.
fn told<E: Extension>(
    alloc: Global,
    mode: UndefinedBehavior,
    expression: &Expression<'_, '_, E>,
    context: Value,
    as_json: bool,
    ids: &mut StateIds,
) -> Result<String, Error>
    ensures finished { GivesOne (meaning_of
        (brought_of (user_answers E.Callable.answer E.Method.answer E.Formatter.answer E.Join.answer) (environment_under expression.now))
        (registry_of (environment_under expression.now)) (text_of expression.now) ids.old context).end }
    ensures told { ids.old ≢ last_id → MakesTold as_json mode (under (registry_of (environment_under expression.now)).fuel
        (meaning_of (brought_of (user_answers E.Callable.answer E.Method.answer E.Formatter.answer E.Join.answer)
        (environment_under expression.now))
        (registry_of (environment_under expression.now)) (text_of expression.now) ids.old context)) result }
    ensures exhausted { ids.old ≡ last_id → result ≡ Err (ErrorKind.InvalidOperation ∷ []) }
    ensures counted { ids.new ≡ behind_one ids.old }
{
    let value = expression.eval(ids, context)?;
    line_of(alloc, mode, &value, as_json)
}
