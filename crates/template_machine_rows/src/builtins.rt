//! Renders with the builtins.
use crate::case::object_of;
use crate::report::Report;
use serde_json::{Map, Value as Json};
use std::alloc::Global;
use template_builtins::{Builtins, install};
use template_machine_environment::Environment;
use template_machine_surroundings::StateIds;
use template_rows::{behavior_of, expect_names, text_of, unreadable};
use template_values_core::Value;
use template_values_errors::{Error, UndefinedBehavior};

// The entries of such a case.
const KNOWN: [&str; 5] = ["s", "c", "n", "u", "t"];

// The name of a source that says none.
const UNNAMED: &str = "t.txt";

// What is rendered, and how.
#[derive(Clone, Copy)]
struct Page<'line> {
    source: &'line str,
    name: &'line str,
    undefined: UndefinedBehavior,
    // The templates that stand beside the source, by their names.
    templates: Option<&'line Map<String, Json>>,
}

/// The text of a source that is rendered with the builtins installed, or the kinds of its fault.
pub(crate) fn about_builtins<'line>(
    alloc: Global,
    source: &'line str,
    entries: &'line Map<String, Json>,
    out: &mut Report,
) {
    out.or(expect_names(entries, &KNOWN), ());
    let page = Page {
        source,
        name: out.or(text_of(entries.get("n")), None).unwrap_or(UNNAMED),
        undefined: out.or(behavior_of(entries.get("u")), UndefinedBehavior::Lenient),
        templates: out.or(templates_of(entries.get("t")), None),
    };
    let context = out.or(object_of(alloc, entries.get("c")), Value::none());
    tell(&rendered(alloc, page, context), out)
}

fn templates_of(templates: Option<&Json>) -> Result<Option<&Map<String, Json>>, Error> {
    match templates {
        None => Ok(None),
        Some(Json::Object(templates)) => Ok(Some(templates)),
        Some(_) => unreadable(),
    }
}

fn tell(text: &Result<String, Error>, out: &mut Report) {
    match text {
        Ok(text) => out.quoted(text.as_bytes()),
        Err(error) => out.told("fault: ", error),
    }
}

fn rendered(alloc: Global, page: Page<'_>, context: Value) -> Result<String, Error> {
    let mut ids = StateIds::new(0);
    let mut environment: Environment<'_, Builtins> = Environment::extended(alloc, &mut ids)?;
    prepare(alloc, &mut environment, page)?;
    environment.render_named_str(page.name, page.source, &mut ids, context)
}

fn prepare<'line>(
    alloc: Global,
    environment: &mut Environment<'line, Builtins>,
    page: Page<'line>,
) -> Result<(), Error> {
    install(alloc, environment)?;
    environment.set_undefined_behavior(page.undefined);
    if let Some(templates) = page.templates {
        add_templates(environment, templates)?;
    }
    Ok(())
}

fn add_templates<'line>(
    environment: &mut Environment<'line, Builtins>,
    templates: &'line Map<String, Json>,
) -> Result<(), Error> {
    for (name, source) in templates {
        match source {
            Json::String(source) => environment.add_template(name.as_str(), source.as_str())?,
            _ => return unreadable(),
        }
    }
    Ok(())
}
