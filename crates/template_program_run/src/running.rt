//! The run of a request.
ghost use Rattle.std.specs.Prelude.{◌≡◌, ℕ, List, Some, option_copied, option_to_list, string_bytes, IfOk, IfErr};
ghost use Rattle.template_program_parts.specs.Context.{text_pairs};
ghost use Rattle.template_machine_surroundings.specs.Rule.{IsEscapeOf};
ghost use Rattle.template_machine_environment_settings.specs.Compiled.{standing_of};
ghost use Rattle.template_machine_environment_settings.specs.Isolation.{AskNoNames};
ghost use Rattle.template_machine_environment_settings.specs.Plain.{IsPlain, text_kept};
ghost use Rattle.template_machine_environment_settings.specs.Reading.{brought_of, callables_of, registry_of};
ghost use Rattle.template_machine_environment_settings.specs.Views.{compiled_in, environment_of as place_of, name_of, source_of};
ghost use Rattle.template_program_run.specs.Answers.{AnswersRequest, AnswersWith, Rendered, TellsNames, definitions_of};
ghost use Rattle.template_program_run.specs.Brought.{program_answers};
ghost use Rattle.template_program_run.specs.Given.{AreJson, HasGiven, IsRefusedGiven, given_in};
ghost use Rattle.template_program_run.specs.History.{source_for, source_under, standing};
ghost use Rattle.template_program_run.specs.Ids.{behind_one, behind_request};
ghost use Rattle.template_program_run.specs.Plain.{WritesOnDone, WritesOnRender};
ghost use Rattle.template_program_run.specs.Served.{served_under};

use crate::additions::environment_of;
use crate::extension::Program;
use crate::names::write_names;
use crate::options::Options;
use crate::parts::ContextParts;
use crate::request::Request;
use std::alloc::Global;
use std::mem;
use template_builtins::builtins_ask_no_names;
use template_machine_environment_settings::{Environment, Template, every_render_ends};
use template_machine_surroundings::{Sink, StateIds};
use template_program_contexts::{Document, Form, context_with};
use template_program_parts::{Command, Outcome};
use template_values_core::Value;
use template_values_errors::Error;

/// Does what is asked with the templates (names with their sources) and the bytes of a context, and
/// writes into a sink. For a render the context is read first; names are told without one. Then the
/// templates are added in order, a later one in place of an earlier one of its name, and the main one is
/// rendered, under the escape of its name, or its names are told.
///
/// Takes one state id for the environment, and one more for a render. A refused context takes none.
///
/// # Errors
///
/// [`Outcome::Context`] where the context of a render is refused, then [`Outcome::Template`] where a
/// template is refused, no state id is left, the main one does not stand, or the environment cannot be
/// made or the names be found for want of memory; [`Outcome::Render`] where the render ends with a fault,
/// or the names cannot be written. Until the last nothing is written.
pub fn run<S: Sink>(
    alloc: Global,
    request: &Request,
    templates: &[(String, String)],
    context: Option<&[u8]>,
    ids: &mut StateIds,
    sink: &mut S,
) -> Outcome
    ensures answers { AnswersRequest request.now (text_pairs templates.now) (option_copied context.entry) ids.old result
        (S.taken sink.old) (S.taken sink.new) (S.failures sink.old) (S.failures sink.new) }
    ensures counted { ids.new ≡ behind_request request.now.command result ids.old }

    // A main template in which no marker starts renders to its text, without the newline at its end.
    ensures plain { (text : List ℕ) → standing (text_pairs templates.now) (string_bytes request.now.main) ≡ Some text
        → IsPlain (source_for text) →
        WritesOnRender request.now.command (S.taken sink.old) (S.taken sink.new) (text_kept (source_for text)) result }
{
    let document = json_document(context);
    run_with(
        alloc,
        request,
        Options::new(),
        templates,
        ContextParts::of_documents(document.as_slice()),
        ids,
        sink,
    )
}

/// The same with options, which say what else stands in the environment, how templates are read, and how names are written; and
/// with a context that is made of several documents and of values.
///
/// # Errors
///
/// As [`run`].
pub fn run_with<S: Sink>(
    alloc: Global,
    request: &Request,
    options: Options<'_>,
    templates: &[(String, String)],
    context: ContextParts<'_>,
    ids: &mut StateIds,
    sink: &mut S,
) -> Outcome
    ensures answers { AnswersWith (served_under options.entry) request.now (text_pairs templates.now) (given_in context.entry)
        ids.old result (S.taken sink.old) (S.taken sink.new) (S.failures sink.old) (S.failures sink.new) }
    ensures counted { ids.new ≡ behind_request request.now.command result ids.old }

    // A main template in which no marker starts renders to its text, without the newline at its end.
    ensures plain { (text : List ℕ) → standing (text_pairs templates.now) (string_bytes request.now.main) ≡ Some text
        → IsPlain (source_under (served_under options.entry) text)
        → WritesOnRender request.now.command (S.taken sink.old) (S.taken sink.new)
        (text_kept (source_under (served_under options.entry) text)) result }
{
    let context = match context_of(alloc, request, context) {
        Ok(context) => context,
        Err(error) => return Outcome::Context(error),
    };
    leave(&context, options.leaves_context);
    let environment = match environment_of(alloc, templates, request, options, ids) {
        Ok(environment) => environment,
        Err(error) => return Outcome::Template(error),
    };
    let template = match environment.get_template(request.main.as_str()) {
        Ok(template) => template,
        Err(error) => return Outcome::Template(error),
    };
    builtins_ask_no_names();
    match request.command {
        Command::Render => render(&template, context, ids, sink),
        Command::Names => tell_names(alloc, options.names_as_json, &environment, &template, sink),
    }
}

// The bytes as a document of JSON.
fn json_document<'a>(context: Option<&'a [u8]>) -> Option<Document<'a>>
    ensures { AreJson (option_copied context.entry) (option_to_list result) }
{
    match context {
        Some(bytes) => Some(Document {
            bytes,
            form: Form::Json,
        }),
        None => None,
    }
}

/// The context that the request asks for.
pub(crate) fn context_of(
    alloc: Global,
    request: &Request,
    parts: ContextParts<'_>,
) -> Result<Value, Error>
    ensures has { IfOk result (HasGiven request.now.command (given_in parts.entry) (definitions_of request.now)) }
    ensures refused { IfErr result (IsRefusedGiven request.now.command (given_in parts.entry)) }
{
    match request.command {
        Command::Render => context_with(
            alloc,
            parts.documents,
            &request.texts,
            parts.values,
            parts.floats,
        ),
        Command::Names => Ok(Value::undefined()),
    }
}

/// Leaves what the context holds in memory, where that is asked for: a share of it is never given up.
pub(crate) fn leave(context: &Value, leaves: bool) {
    if leaves {
        mem::forget(context.copy());
    }
}

/// Renders a template that stands in an environment as those of requests are set up, over a context, and writes into a sink.
/// Takes a state id.
///
/// # Errors
///
/// [`Outcome::Render`] where the render ends with a fault, no state id is left, or memory or the sink fails; with no id left
/// nothing is written.
pub fn render<S: Sink>(
    template: &Template<'_, '_, Program>,
    context: Value,
    ids: &mut StateIds,
    sink: &mut S,
) -> Outcome
    ensures rendered { Rendered (brought_of program_answers (place_of template.now)) (registry_of (place_of template.now))
        (standing_of (compiled_in template.now.compiled)) context ids.old result
        (S.taken sink.old) (S.taken sink.new) (S.failures sink.old) (S.failures sink.new) }
    ensures rule { IsEscapeOf (source_of template.now).escapes (name_of template.now) (compiled_in template.now.compiled).escape }
    ensures plain { IsPlain (source_of template.now) → WritesOnDone (S.taken sink.old) (S.taken sink.new)
        (text_kept (source_of template.now)) result }
    ensures counted { ids.new ≡ behind_one ids.old }
{
    let _escape = template.initial_auto_escape();
    every_render_ends(template);
    match template.render_captured_to(ids, context, sink) {
        Ok(_captured) => Outcome::Done,
        Err(error) => Outcome::Render(error),
    }
}

// Writes the names of a context that can matter to the main template.
fn tell_names<'source, S: Sink>(
    alloc: Global,
    as_json: bool,
    environment: &Environment<'source, Program>,
    template: &Template<'_, 'source, Program>,
    sink: &mut S,
) -> Outcome
    requires { AskNoNames (callables_of program_answers environment.now) }
    ensures told { TellsNames (brought_of program_answers environment.now) as_json (registry_of environment.now)
        (standing_of (compiled_in template.now.compiled)) result
        (S.taken sink.old) (S.taken sink.new) (S.failures sink.old) (S.failures sink.new) }
    ensures rule { IsEscapeOf (source_of template.now).escapes (name_of template.now) (compiled_in template.now.compiled).escape }
{
    let _escape = template.initial_auto_escape();
    let names = match environment.context_names(template) {
        Ok(names) => names,
        Err(error) => return Outcome::Template(error),
    };
    match write_names(alloc, &names, as_json, sink) {
        Ok(()) => Outcome::Done,
        Err(error) => Outcome::Render(error),
    }
}
