//! The tasks that are timed: additions and renders of templates.
use crate::report::Report;
use std::alloc::Global;
use std::hint::black_box;
use std::time::Instant;
use template_machine_environment::{Environment, Template};
use template_machine_surroundings::StateIds;
use template_values_core::Value;
use template_values_errors::{Error, ErrorKind};

const PRINTS: usize = 100_000;

// How many items the loops go over; a tenth of them where they include.
const ITEMS: u32 = 1_000_000;

// A loop that prints what it goes over.
const LOOP: &str = "{% for x in items %}{{ x }},{% endfor %}";

// A loop with branches and sums.
const SUMS: &str =
    "{% for x in items %}{% if x % 2 == 0 %}{{ x * 3 + 1 }},{% else %}odd,{% endif %}{% endfor %}";

// A loop that includes a small template each time.
const INCLUDES: &str = "{% for x in items %}{% include 'part' %}{% endfor %}";

/// The time of the task of that name, in words; `SyntaxError` where there is no such task, or its work is not done.
pub(crate) fn about_time(rt: &HostRuntime, task: &str, out: &mut Report) {
    match task {
        "add-template" => add_template(rt, out),
        "render-prints" => render_prints(rt, out),
        "render-loop" => render_items(rt, LOOP, ITEMS, out),
        "render-sums" => render_items(rt, SUMS, ITEMS, out),
        "render-includes" => render_items(rt, INCLUDES, ITEMS / 10, out),
        _ => out.refuse(ErrorKind::SyntaxError),
    }
}

// The time since the start, where there was one and the work is done.
fn tell_time(rt: &HostRuntime, start: Option<Instant>, is_done: bool, out: &mut Report) {
    let time = match start {
        Some(start) if is_done => start.elapsed(rt).ok(),
        _ => None,
    };
    match time {
        Some(time) => {
            out.tell("", &time.as_micros());
            out.push_str(" microseconds")
        }
        None => out.refuse(ErrorKind::SyntaxError),
    }
}

// The time of adding a template of 1.2 MB.
fn add_template(rt: &HostRuntime, out: &mut Report) {
    let source = prints(rt.alloc(), out);
    let mut ids = StateIds::new(0);
    match Environment::new(rt.alloc(), &mut ids) {
        Ok(mut environment) => time_addition(rt, &mut environment, source.as_str(), out),
        Err(error) => out.refuse(error.kind()),
    }
}

// Many prints of one name.
fn prints(alloc: Global, out: &mut Report) -> String {
    match "text {{ x }}\n".repeat(alloc, PRINTS) {
        Ok(prints) => prints,
        Err(_refused) => {
            out.refuse(ErrorKind::OutOfMemory);
            String::new(alloc)
        }
    }
}

fn time_addition<'source>(
    rt: &HostRuntime,
    environment: &mut Environment<'source>,
    source: &'source str,
    out: &mut Report,
) {
    let start = Instant::now(rt).ok();
    let is_done = environment.add_template("t.txt", source).is_ok();
    tell_time(rt, start, is_done, out)
}

// The time of a render of them.
fn render_prints(rt: &HostRuntime, out: &mut Report) {
    let source = prints(rt.alloc(), out);
    let context = context_of(rt.alloc(), "x", Value::from_int(7));
    render(rt, source.as_str(), context, out)
}

// The time of a render over a list of so many items.
fn render_items(rt: &HostRuntime, source: &str, count: u32, out: &mut Report) {
    let items = out.or(numbers(rt.alloc(), count), Value::none());
    let context = context_of(rt.alloc(), "items", items);
    render(rt, source, context, out)
}

// A list of the numbers from 0 on.
fn numbers(alloc: Global, count: u32) -> Result<Value, Error> {
    let mut items = Vec::new(alloc);
    for number in 0..count {
        items.push(Value::from_int(i128::from(number)))?;
    }
    Value::from_list(alloc, items)
}

// A context of one name.
fn context_of(alloc: Global, name: &str, value: Value) -> Result<Value, Error> {
    let pairs = vec![in alloc; (name, value)]?;
    Value::from_pairs(alloc, pairs)
}

fn render(rt: &HostRuntime, source: &str, context: Result<Value, Error>, out: &mut Report) {
    let context = out.or(context, Value::none());
    let mut ids = StateIds::new(0);
    match Environment::new(rt.alloc(), &mut ids) {
        Ok(mut environment) => render_in(rt, &mut environment, source, &mut ids, &context, out),
        Err(error) => out.refuse(error.kind()),
    }
    drop(context)
}

fn render_in<'source>(
    rt: &HostRuntime,
    environment: &mut Environment<'source>,
    source: &'source str,
    ids: &mut StateIds,
    context: &Value,
    out: &mut Report,
) {
    out.or(add_templates(environment, source), ());
    match environment.get_template("t.txt") {
        Ok(template) => time_render(rt, &template, ids, context, out),
        Err(error) => out.refuse(error.kind()),
    }
}

fn add_templates<'source>(
    environment: &mut Environment<'source>,
    source: &'source str,
) -> Result<(), Error> {
    environment.add_template("part", "<{{ x }}>")?;
    environment.add_template("t.txt", source)
}

fn time_render(
    rt: &HostRuntime,
    template: &Template<'_, '_>,
    ids: &mut StateIds,
    context: &Value,
    out: &mut Report,
) {
    let mut text = String::new(rt.alloc());
    let start = Instant::now(rt).ok();
    let is_done = is_rendered(template, ids, context.copy(), &mut text);
    tell_time(rt, start, is_done, out);
    black_box(text.as_str().len());
}

fn is_rendered(
    template: &Template<'_, '_>,
    ids: &mut StateIds,
    context: Result<Value, Error>,
    text: &mut String,
) -> bool {
    match context {
        Ok(context) => template.render_captured_to(ids, context, text).is_ok(),
        Err(_refused) => false,
    }
}
