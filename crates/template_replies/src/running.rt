//! The run of a request that is well formed.
ghost use Rattle.std.specs.Prelude.{◌≡◌, None, Some, option_map, option_to_list, string_bytes, unwrap_or};
ghost use Rattle.template_compiler_syntax.specs.Syntax.{default_syntax};
ghost use Rattle.template_program_parts.specs.Context.{text_pairs};
ghost use Rattle.template_program_run.specs.Given.{AreJson, given_in};
ghost use Rattle.template_program_run.specs.Served.{served_under};
ghost use Rattle.template_replies.specs.Answers.{IsAnswer};
ghost use Rattle.template_replies.specs.Replies.{IsAskedBy, Runs, TellsOutcome, served_by};
ghost use Rattle.template_requests.specs.Syntaxes.{syntax_of as syntax_for};

use crate::reply::{Reply, told};
use std::alloc::Global;
use template_compiler_syntax::SyntaxConfig;
use template_machine_surroundings::StateIds;
use template_program_contexts::{Document, Form};
use template_program_run::{Command, ContextParts, Options, Outcome, Request, run_with, status_of};
use template_requests::{Message, Settings, failure_text};

/// Runs a request under its syntax.
pub(crate) fn run_message(
    alloc: Global,
    command: Command,
    message: Message<'_>,
    syntax: Option<&SyntaxConfig>,
) -> Reply
    requires { unwrap_or (option_map (λ given. given.now) syntax) default_syntax ≡ syntax_for message.settings.syntax }
    ensures { Runs command message.entry result.status (string_bytes result.text) }
{
    let Message {
        templates,
        main,
        context,
        settings,
    } = message;
    let request = request_of(alloc, command, main, settings);
    let document = document_of(&context);
    let given = ContextParts {
        documents: document.as_slice(),
        values: &[],
        floats: settings.floats,
    };
    let options = options_of(settings, syntax);
    let (outcome, text) = answer(alloc, &request, options, templates.as_slice(), given);
    reply_of(alloc, outcome, text)
}

// The outcome of the request, and the text that it writes.
fn answer(
    alloc: Global,
    request: &Request,
    options: Options<'_>,
    templates: &[(String, String)],
    given: ContextParts<'_>,
) -> (Outcome, String)
    ensures { IsAnswer (served_under options.entry) request.now (text_pairs templates.now) (given_in given.entry)
        result.0 (string_bytes result.1) }
{
    let mut text = String::new(alloc);
    let outcome = run_with(
        alloc,
        request,
        options,
        templates,
        given,
        &mut StateIds::new(0),
        &mut text,
    );
    (outcome, text)
}

/// What the settings ask for, with no definitions.
pub fn request_of(alloc: Global, command: Command, main: String, settings: Settings<'_>) -> Request
    ensures main { result.main ≡ main }
    ensures asked { IsAskedBy command settings.entry result }
{
    Request {
        main,
        texts: Vec::new(alloc),
        fuel: settings.fuel,
        limit: settings.limit as usize,
        undefined: settings.undefined,
        command,
    }
}

/// What the settings serve, under the syntax that they set. Names are told as JSON.
pub fn options_of<'a>(settings: Settings<'_>, syntax: Option<&'a SyntaxConfig>) -> Options<'a>
    requires { unwrap_or (option_map (λ given. given.now) syntax) default_syntax ≡ syntax_for settings.syntax }
    ensures { served_under result ≡ served_by settings.entry }
{
    Options {
        builtins: settings.builtins,
        escapes: settings.autoescape,
        syntax,
        names_as_json: true,
        tells_where: false,
        leaves_context: false,
    }
}

// The bytes of a context as a document of JSON, if there is one.
fn document_of(context: &Option<Vec<u8>>) -> Option<Document<'_>>
    ensures { AreJson (option_map (λ bytes. bytes.items) context.now) (option_to_list result) }
{
    match context {
        Some(bytes) => Some(Document {
            bytes: bytes.as_slice(),
            form: Form::Json,
        }),
        None => None,
    }
}

/// The reply of an outcome, with the text that was written.
pub fn reply_of(alloc: Global, outcome: Outcome, text: String) -> Reply
    ensures { TellsOutcome outcome (string_bytes text) result.status (string_bytes result.text) }
{
    let status = status_of(&outcome);
    match outcome {
        Outcome::Done => Reply { status, text },
        Outcome::Render(error) | Outcome::Context(error) | Outcome::Template(error) => {
            told(alloc, status, failure_text(alloc, &error, text))
        }
    }
}
