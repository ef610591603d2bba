//! What is done with the templates, and with the syntax and the rule that they are read under, before a render.
use crate::report::Report;
use serde_json::{Map, Value as Json};
use std::alloc::Global;
use template_rows::count_of;
use template_values_errors::ErrorKind;

/// A change of the templates that stand, or of the syntax or the rule of escapes of those that are added from then on.
#[derive(Clone, Copy)]
pub(crate) enum Step<'line> {
    Add {
        name: &'line str,
        source: &'line str,
    },
    Remove {
        name: &'line str,
    },
    Clear,
    /// The default syntax with prefixes of line statements and line comments.
    Prefixes {
        statement: &'line str,
        comment: &'line str,
    },
    /// The rule of escapes of this number.
    Rule {
        length: usize,
    },
}

/// The steps that an array lists; SyntaxError where it lists something else.
pub(crate) fn steps_of<'line>(
    alloc: Global,
    steps: Option<&'line Json>,
    out: &mut Report,
) -> Vec<Step<'line>> {
    let mut listed = Vec::new(alloc);
    match steps {
        None => {}
        Some(Json::Array(steps)) => list_all(&mut listed, steps.as_slice(), out),
        Some(_) => out.refuse(ErrorKind::SyntaxError),
    }
    listed
}

fn list_all<'line>(listed: &mut Vec<Step<'line>>, steps: &'line [Json], out: &mut Report) {
    for step in steps {
        if listed.push(step_of(step, out)).is_err() {
            out.refuse(ErrorKind::OutOfMemory)
        }
    }
}

fn step_of<'line>(step: &'line Json, out: &mut Report) -> Step<'line> {
    match step {
        Json::Null => Step::Clear,
        Json::Array(pair) => pair_step(pair.as_slice(), out),
        Json::Object(entries) => prefixes_step(entries, out),
        _ => Step::Rule {
            length: out.or(count_of(Some(step)), None).unwrap_or(0),
        },
    }
}

fn pair_step<'line>(pair: &'line [Json], out: &mut Report) -> Step<'line> {
    match pair {
        [Json::String(name), Json::String(source)] => Step::Add {
            name: name.as_str(),
            source: source.as_str(),
        },
        [Json::String(name), Json::Null] => Step::Remove {
            name: name.as_str(),
        },
        _ => unreadable(out),
    }
}

fn unreadable<'line>(out: &mut Report) -> Step<'line> {
    out.refuse(ErrorKind::SyntaxError);
    Step::Clear
}

fn prefixes_step<'line>(entries: &'line Map<String, Json>, out: &mut Report) -> Step<'line> {
    match (entries.get("line_statement"), entries.get("line_comment")) {
        (Some(Json::String(statement)), Some(Json::String(comment))) => Step::Prefixes {
            statement: statement.as_str(),
            comment: comment.as_str(),
        },
        _ => unreadable(out),
    }
}

/// The name of the first template that the steps add.
pub(crate) fn first_name<'line>(steps: &[Step<'line>]) -> Option<&'line str> {
    for step in steps {
        if let Step::Add { name, .. } = *step {
            return Some(name);
        }
    }
    None
}
