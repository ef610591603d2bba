//! What comes of requests.
use crate::report::Report;
use crate::works::DEFAULT_LIMIT;
use serde_json::{Map, Value as Json};
use std::alloc::{AllocError, Global};
use template_machine_surroundings::StateIds;
use template_program_run::{Command, Outcome, Request, run};
use template_rows::{behavior_of, number_of, pairs_of, text_of};
use template_values_errors::{ErrorKind, UndefinedBehavior};

/// What a request writes, and how it ends.
pub(crate) fn about_request(
    alloc: Global,
    templates: &Json,
    entries: &Map<String, Json>,
    out: &mut Report,
) {
    out.expect_names(
        entries,
        &[
            "templates",
            "context",
            "fuel",
            "limit",
            "undefined",
            "names",
            "first_id",
        ],
    );
    let templates = out.or(pairs_of(alloc, Some(templates)), Vec::new(alloc));
    about_templates(alloc, templates.as_slice(), entries, out)
}

fn about_templates(
    alloc: Global,
    templates: &[(String, String)],
    entries: &Map<String, Json>,
    out: &mut Report,
) {
    match request_of(alloc, first_name(templates), entries, out) {
        Ok(request) => answer(alloc, &request, templates, entries, out),
        Err(_refused) => out.refuse(ErrorKind::OutOfMemory),
    }
}

fn answer(
    alloc: Global,
    request: &Request,
    templates: &[(String, String)],
    entries: &Map<String, Json>,
    out: &mut Report,
) {
    let context = out.or(text_of(entries.get("context")), None);
    let context = Some(context.unwrap_or("{}").as_bytes());
    let first = out.or(number_of(entries.get("first_id")), None);
    let mut ids = StateIds::new(first.unwrap_or(0));
    let mut written = String::new(alloc);
    let outcome = run(alloc, request, templates, context, &mut ids, &mut written);
    out.quoted(written.as_bytes());
    tell_end(&outcome, out)
}

fn tell_end(outcome: &Outcome, out: &mut Report) {
    match outcome {
        Outcome::Done => {}
        Outcome::Render(error) => out.error(" ! render ", error),
        Outcome::Context(error) => out.error(" ! context ", error),
        Outcome::Template(error) => out.error(" ! template ", error),
    }
}

fn request_of(
    alloc: Global,
    main: &str,
    entries: &Map<String, Json>,
    out: &mut Report,
) -> Result<Request, AllocError> {
    let main = String::from_str(alloc, main)?;
    Ok(Request {
        main,
        texts: Vec::new(alloc),
        fuel: out.or(number_of(entries.get("fuel")), None),
        limit: out.count_of(entries.get("limit"), DEFAULT_LIMIT),
        undefined: out.or(
            behavior_of(entries.get("undefined")),
            UndefinedBehavior::Lenient,
        ),
        command: command_of(entries.get("names"), out),
    })
}

// Where there is no template, none has this name.
fn first_name(templates: &[(String, String)]) -> &str {
    match templates.first() {
        Some((name, _)) => name.as_str(),
        None => "none",
    }
}

fn command_of(names: Option<&Json>, out: &mut Report) -> Command {
    match names {
        None => Command::Render,
        Some(Json::Bool(true)) => Command::Names,
        Some(_) => {
            out.refuse(ErrorKind::SyntaxError);
            Command::Render
        }
    }
}
