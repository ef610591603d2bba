//! Contexts that are read alone.
use crate::report::Report;
use serde_json::{Map, Value as Json};
use std::alloc::Global;
use template_program_parts::read_context;
use template_rows::pairs_of;
use template_values::{Error, Value};

/// The levels of a context and what it prints, or why it is refused.
pub(crate) fn about_context(
    alloc: Global,
    json: &Json,
    entries: &Map<String, Json>,
    out: &mut Report,
) {
    out.expect_names(entries, &["json", "definitions"]);
    let definitions = pairs_of(alloc, entries.get("definitions"));
    let definitions = out.or(definitions, Vec::new(alloc));
    about_json(alloc, json, definitions.as_slice(), out)
}

fn about_json(alloc: Global, json: &Json, definitions: &[(String, String)], out: &mut Report) {
    match json {
        Json::Null => tell(read_context(alloc, None, definitions), out),
        json => {
            let json = out.bytes_of(json);
            tell(read_context(alloc, Some(json.as_slice()), definitions), out)
        }
    }
}

fn tell(read: Result<Value, Error>, out: &mut Report) {
    match &read {
        Ok(context) => {
            out.tell("levels ", &context.levels());
            out.push_str(": ");
            out.value(context)
        }
        Err(error) => out.error("! ", error),
    }
    drop(read)
}
