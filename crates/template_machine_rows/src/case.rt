//! What a line asks for.
use crate::report::Report;
use crate::steps::{Step, first_name, steps_of};
use crate::writers::Taking;
use serde_json::{Map, Value as Json};
use std::alloc::Global;
use template_rows::{behavior_of, count_of, expect_names, number_of, text_of, texts_of};
use template_values_core::Value;
use template_values_errors::{Error, ErrorKind, UndefinedBehavior};
use template_values_json::context_from_json;

// The names of a case's entries.
const KNOWN: [&str; 32] = [
    "globals",
    "remove_globals",
    "filters",
    "tests",
    "functions",
    "method",
    "formatter",
    "join",
    "remove_filters",
    "remove_tests",
    "brings",
    "again",
    "held",
    "calls",
    "after",
    "temps",
    "templates",
    "main",
    "source",
    "expression",
    "call",
    "room",
    "context",
    "fuel",
    "limit",
    "undefined",
    "escapes",
    "owned",
    "state",
    "names",
    "skip",
    "where",
];

// The names of the entries that say what is brought.
const BRINGS: [&str; 10] = [
    "globals",
    "remove_globals",
    "filters",
    "tests",
    "functions",
    "method",
    "formatter",
    "join",
    "remove_filters",
    "remove_tests",
];

/// A case: what is brought, what is done, what is asked for then, and in which setting.
#[derive(Drop)]
pub(crate) struct Case<'line> {
    /// What is brought before all else, in turn.
    pub(crate) brings: Vec<Brings<'line>>,
    /// What is brought behind the answer, in turn, each before the same is asked for again.
    pub(crate) again: Vec<Brings<'line>>,
    pub(crate) steps: Vec<Step<'line>>,
    pub(crate) subject: Subject<'line>,
    /// A map of a list, of the calls that are made on a state.
    pub(crate) calls: Value,
    /// Such a map, of the calls that are made on the state that a render left.
    pub(crate) after: Value,
    /// The names of the temps that are told behind a render.
    pub(crate) temps: Vec<&'line str>,
    pub(crate) setting: Setting,
    pub(crate) context: Value,
    /// A map of what the context has besides, by numbers: functions, namespaces, macros and loops.
    pub(crate) held: Value,
}

/// What is brought: maps of values and of what is described, by name; and the names of those that are removed behind
/// that.
#[derive(Drop)]
pub(crate) struct Brings<'line> {
    /// A map of the values that are put under names.
    pub(crate) globals: Value,
    pub(crate) removed_globals: Vec<&'line str>,
    pub(crate) filters: Value,
    pub(crate) tests: Value,
    pub(crate) functions: Value,
    /// A map of one, if what answers for methods is described.
    pub(crate) method: Value,
    /// A map of one, if what says how values are printed is described.
    pub(crate) formatter: Value,
    /// A map of one, if it is described what names mean that stand in templates.
    pub(crate) join: Value,
    pub(crate) removed_filters: Vec<&'line str>,
    pub(crate) removed_tests: Vec<&'line str>,
}

/// What a case says besides its texts and its context.
#[derive(Clone, Copy)]
pub(crate) struct Setting {
    pub(crate) call: Call,
    pub(crate) place: Place,
    pub(crate) fuel: Option<u64>,
    pub(crate) limit: Option<usize>,
    pub(crate) undefined: UndefinedBehavior,
    pub(crate) escapes: Escapes,
    pub(crate) is_owned: bool,
    pub(crate) tells_state: bool,
    pub(crate) skips_refusals: bool,
}

/// What is rendered, or evaluated.
#[derive(Clone, Copy)]
pub(crate) enum Subject<'line> {
    /// The template that stands under a name.
    Main(&'line str),
    /// A source that does not stand.
    Source(Source<'line>),
    Expression(&'line str),
}

/// A source that does not stand, and the name that it has, where it has one.
#[derive(Clone, Copy)]
pub(crate) struct Source<'line> {
    pub(crate) name: Option<&'line str>,
    pub(crate) text: &'line str,
}

/// What is asked of it.
#[derive(Clone, Copy)]
pub(crate) enum Call {
    /// What every case asks for that names no call: of a template that stands a render into the case's place, of
    /// another source its text, of an expression its value.
    Usual,
    Render,
    RenderCaptured,
    States,
    UsedNames,
    ContextNames,
    Escape,
    Templates,
    Globals,
    /// Calls on a state without a template.
    Calls,
    /// Calls on a new state of the template.
    TemplateCalls,
}

/// Where the text of a render goes.
#[derive(Clone, Copy)]
pub(crate) enum Place {
    Text,
    /// A writer of so many bytes.
    Room(usize),
    /// A writer that takes a few bytes a call, and may fail.
    Writer(Taking),
    Nowhere,
}

/// Which escape a name has.
#[derive(Clone, Copy)]
pub(crate) enum Escapes {
    ByName,
    Never,
    /// Names of fewer bytes have that of HTML, others none.
    Shorter(usize),
}

impl<'line> Case<'line> {
    /// The case that the entries describe; SyntaxError where an entry is unknown or of another kind.
    pub(crate) fn read(
        alloc: Global,
        entries: &'line Map<String, Json>,
        out: &mut Report,
    ) -> Case<'line> {
        out.or(expect_names(entries, &KNOWN), ());
        let mut brings = Vec::new(alloc);
        bring(alloc, entries, &mut brings, out);
        list_brings(alloc, entries.get("brings"), &mut brings, out);
        let mut again = Vec::new(alloc);
        list_brings(alloc, entries.get("again"), &mut again, out);
        let steps = steps_of(alloc, entries.get("templates"), out);
        let calls = wrapped_of(alloc, entries.get("calls"));
        let after = wrapped_of(alloc, entries.get("after"));
        let temps = listed_of(alloc, entries.get("temps"));
        let context = object_of(alloc, entries.get("context"));
        let held = object_of(alloc, entries.get("held"));
        Case {
            brings,
            again,
            subject: subject_of(entries, steps.as_slice(), out),
            steps,
            calls: out.or(calls, Value::none()),
            after: out.or(after, Value::none()),
            temps: out.or(temps, Vec::new(alloc)),
            setting: Setting::read(entries, out),
            context: out.or(context, Value::none()),
            held: out.or(held, Value::none()),
        }
    }

    /// Whether nothing is brought but globals.
    pub(crate) fn brings_nothing(&self) -> bool {
        for brings in &self.brings {
            if !brings.is_nothing() {
                return false;
            }
        }
        for brings in &self.again {
            if !brings.is_nothing() {
                return false;
            }
        }
        true
    }
}

// Lists what the objects of an array say, if it stands.
fn list_brings<'line>(
    alloc: Global,
    objects: Option<&'line Json>,
    all: &mut Vec<Brings<'line>>,
    out: &mut Report,
) {
    match objects {
        None => {}
        Some(Json::Array(objects)) => list_each(alloc, objects.as_slice(), all, out),
        Some(_) => out.refuse(ErrorKind::SyntaxError),
    }
}

fn list_each<'line>(
    alloc: Global,
    objects: &'line [Json],
    all: &mut Vec<Brings<'line>>,
    out: &mut Report,
) {
    for object in objects {
        match object {
            Json::Object(entries) => {
                out.or(expect_names(entries, &BRINGS), ());
                bring(alloc, entries, all, out)
            }
            _ => out.refuse(ErrorKind::SyntaxError),
        }
    }
}

fn bring<'line>(
    alloc: Global,
    entries: &'line Map<String, Json>,
    all: &mut Vec<Brings<'line>>,
    out: &mut Report,
) {
    let brings = Brings::read(alloc, entries, out);
    if all.push(brings).is_err() {
        out.refuse(ErrorKind::OutOfMemory)
    }
}

impl<'line> Brings<'line> {
    fn read(alloc: Global, entries: &'line Map<String, Json>, out: &mut Report) -> Brings<'line> {
        let globals = object_of(alloc, entries.get("globals"));
        let removed_globals = listed_of(alloc, entries.get("remove_globals"));
        let filters = object_of(alloc, entries.get("filters"));
        let tests = object_of(alloc, entries.get("tests"));
        let functions = object_of(alloc, entries.get("functions"));
        let method = wrapped_of(alloc, entries.get("method"));
        let formatter = wrapped_of(alloc, entries.get("formatter"));
        let join = wrapped_of(alloc, entries.get("join"));
        let removed_filters = listed_of(alloc, entries.get("remove_filters"));
        let removed_tests = listed_of(alloc, entries.get("remove_tests"));
        Brings {
            globals: out.or(globals, Value::none()),
            removed_globals: out.or(removed_globals, Vec::new(alloc)),
            filters: out.or(filters, Value::none()),
            tests: out.or(tests, Value::none()),
            functions: out.or(functions, Value::none()),
            method: out.or(method, Value::none()),
            formatter: out.or(formatter, Value::none()),
            join: out.or(join, Value::none()),
            removed_filters: out.or(removed_filters, Vec::new(alloc)),
            removed_tests: out.or(removed_tests, Vec::new(alloc)),
        }
    }

    // Whether no filter, test or function is brought, and nothing that answers for methods, prints or names.
    fn is_nothing(&self) -> bool {
        is_empty(&self.filters)
            && is_empty(&self.tests)
            && is_empty(&self.functions)
            && is_empty(&self.method)
            && is_empty(&self.formatter)
            && is_empty(&self.join)
    }
}

fn is_empty(map: &Value) -> bool {
    map.entries().unwrap_or(&[]).is_empty()
}

impl Setting {
    fn read(entries: &Map<String, Json>, out: &mut Report) -> Setting {
        Setting {
            call: call_of(entries, out),
            place: place_of(entries.get("room"), out),
            fuel: out.or(number_of(entries.get("fuel")), None),
            limit: out.or(count_of(entries.get("limit")), None),
            undefined: out.or(
                behavior_of(entries.get("undefined")),
                UndefinedBehavior::Lenient,
            ),
            escapes: escapes_of(entries.get("escapes"), out),
            is_owned: truth_of(entries.get("owned"), out),
            tells_state: truth_of(entries.get("state"), out),
            skips_refusals: truth_of(entries.get("skip"), out),
        }
    }
}

fn subject_of<'line>(
    entries: &'line Map<String, Json>,
    steps: &[Step<'line>],
    out: &mut Report,
) -> Subject<'line> {
    match (entries.get("expression"), entries.get("source")) {
        (Some(Json::String(expression)), None) => Subject::Expression(expression.as_str()),
        (None, Some(source)) => source_of(source, out),
        (None, None) => main_of(entries.get("main"), steps, out),
        _ => unreadable(out),
    }
}

fn unreadable<'line>(out: &mut Report) -> Subject<'line> {
    out.refuse(ErrorKind::SyntaxError);
    Subject::Main("")
}

fn source_of<'line>(source: &'line Json, out: &mut Report) -> Subject<'line> {
    match source {
        Json::String(source) => Subject::Source(Source {
            name: None,
            text: source.as_str(),
        }),
        Json::Array(pair) => named_source(pair.as_slice(), out),
        _ => unreadable(out),
    }
}

fn named_source<'line>(pair: &'line [Json], out: &mut Report) -> Subject<'line> {
    match pair {
        [Json::String(name), Json::String(source)] => Subject::Source(Source {
            name: Some(name.as_str()),
            text: source.as_str(),
        }),
        _ => unreadable(out),
    }
}

// The name that is told, else the first one of the steps; of steps that add nothing it is empty.
fn main_of<'line>(
    name: Option<&'line Json>,
    steps: &[Step<'line>],
    out: &mut Report,
) -> Subject<'line> {
    match name {
        None => Subject::Main(first_name(steps).unwrap_or("")),
        Some(Json::String(name)) => Subject::Main(name.as_str()),
        Some(_) => unreadable(out),
    }
}

fn call_of(entries: &Map<String, Json>, out: &mut Report) -> Call {
    if truth_of(entries.get("names"), out) {
        return Call::ContextNames;
    }
    if entries.get("calls").is_some() {
        return match entries.get("main") {
            Some(_) => Call::TemplateCalls,
            None => Call::Calls,
        };
    }
    match out.or(text_of(entries.get("call")), None) {
        None => Call::Usual,
        Some("render") => Call::Render,
        Some("render_captured") => Call::RenderCaptured,
        Some("states") => Call::States,
        Some("undeclared_variables") => Call::UsedNames,
        Some("initial_auto_escape") => Call::Escape,
        Some("templates") => Call::Templates,
        Some("globals") => Call::Globals,
        Some(_) => {
            out.refuse(ErrorKind::SyntaxError);
            Call::Usual
        }
    }
}

fn place_of(room: Option<&Json>, out: &mut Report) -> Place {
    match room {
        Some(Json::Null) => Place::Nowhere,
        Some(Json::Object(_)) => {
            let said = out.or(object_of(out.alloc(), room), Value::none());
            Place::Writer(Taking::of(Some(&said), out))
        }
        _ => match out.or(count_of(room), None) {
            None => Place::Text,
            Some(room) => Place::Room(room),
        },
    }
}

fn escapes_of(escapes: Option<&Json>, out: &mut Report) -> Escapes {
    if let Some(Json::Bool(false)) = escapes {
        return Escapes::Never;
    }
    match out.or(count_of(escapes), None) {
        None => Escapes::ByName,
        Some(length) => Escapes::Shorter(length),
    }
}

/// The map that an object is; an empty one, if none stands.
pub(crate) fn object_of(alloc: Global, object: Option<&Json>) -> Result<Value, Error> {
    match object {
        None => context_from_json(alloc, b"{}"),
        Some(object) => context_from_json(alloc, object.to_vec(alloc)?.as_slice()),
    }
}

// A map of what stands, under a name; an empty one, if nothing does.
fn wrapped_of(alloc: Global, wrapped: Option<&Json>) -> Result<Value, Error> {
    let mut object = Vec::new(alloc);
    match wrapped {
        None => object.extend_from_slice(b"{}")?,
        Some(wrapped) => {
            object.extend_from_slice(b"{\"it\":")?;
            object.extend_from_slice(wrapped.to_vec(alloc)?.as_slice())?;
            object.extend_from_slice(b"}")?;
        }
    }
    context_from_json(alloc, object.as_slice())
}

// The texts that an array lists; none, if none stands.
fn listed_of<'line>(alloc: Global, names: Option<&'line Json>) -> Result<Vec<&'line str>, Error> {
    match names {
        None => Ok(Vec::new(alloc)),
        Some(names) => texts_of(alloc, names),
    }
}

pub(crate) fn truth_of(truth: Option<&Json>, out: &mut Report) -> bool {
    match truth {
        None => false,
        Some(Json::Bool(truth)) => *truth,
        Some(_) => {
            out.refuse(ErrorKind::SyntaxError);
            false
        }
    }
}
