//! Renders, as rows. Each line of standard input is a case, a JSON object with these entries, each of which may be
//! left out:
//!
//! - `globals`: the values that are put under names before all else, an object;
//! - `remove_globals`: the names that no value stands under behind that, an array of texts;
//! - `filters`, `tests`, `functions`: what is brought under names then, objects, each in the order of its names; `method`:
//!   what answers for methods that values do not have; `formatter`: what is printed in the place of a value: a text that it
//!   answers as it stands, another value under the escape in force, and the value itself where it asks for more. How each is
//!   described stands below;
//! - `join`: what names mean that stand in templates: `{"behind": object}`, with a text for each template's name, behind which
//!   a name stands that is found there; or `{"fails": kind}`, `{"fails": [kind, cause]}`;
//! - `remove_filters`, `remove_tests`: the names of those that are removed behind that, arrays of texts;
//! - `brings`: objects with the entries that stand so far, which are brought in turn behind those of the case; `again`:
//!   such objects, each of which is brought behind the answer, before the same is asked for again;
//! - `held`: functions that the context has besides, an object of arrays of two numbers: that of an environment, and that of
//!   a function; or namespaces, macros and loops, each an object with such an array under `namespace`, `macro` or `loop`: that
//!   of a state, and its own;
//! - `calls`: calls on a state in place of a render, an array of objects: `apply_filter` or `perform_test`, a name, with
//!   `args`, an array, and so `call_macro`; `lookup`, a name; `get_temp`, a name; `set_temp`, a name, with a `value`; `format`, a
//!   value; `render_block`, a name; `escape`, a value; `range`, one, two or three numbers; `dict` or `namespace`, an array of
//!   arguments; `get_template`, a name; `current_block`; or `tell`, which tells the state. With a `room` beside it, a writer as
//!   below, `render_block` and `escape` write into that. The state is a new one of the template `main`, where this is named, else
//!   one without a template;
//! - `after`: such calls on the state that a render left;
//! - `temps`: the names of the temps that are told behind a render, an array of texts;
//! - `templates`: what is done before the render, in order: `[name, source]` adds a template, `[name, null]` removes
//!   the one of that name, `null` removes all, an object with `line_statement` and `line_comment` sets the prefixes of
//!   the templates that are added from then on, and a number sets their rule of escapes, where `escapes` is one;
//! - `main`: the name of the template that is rendered; the first one of `templates`, if left out;
//! - `source`: a source that is rendered in its place, and does not stand; or `[name, source]`;
//! - `expression`: an expression that is evaluated in its place;
//! - `call`: what is asked of the template in place of a render into `room`: `render`, `render_captured`, `states` (a new
//!   state of it, then one without a template), `undeclared_variables`, `initial_auto_escape` or `templates`; of an
//!   expression `undeclared_variables` alone; or `globals`, which is asked of the environment;
//! - `room`: how many bytes the writer takes that the text goes to; or an object, each entry of which may be left out: that number
//!   under `room`, how many bytes a call takes at most under `takes`, the number of the call that takes nothing under `stops`, and
//!   of the one that fails as interrupted under `fails`, the first call being 1; or `null` where the text goes nowhere; left out,
//!   it goes to a text;
//! - `context`: the context, an object; empty, if left out;
//! - `fuel`: a number; none, if left out;
//! - `limit`: the recursion limit; 500, if left out;
//! - `undefined`: `lenient` (as also if left out), `chainable`, `semi_strict` or `strict`;
//! - `escapes`: `false`, where nothing is escaped, or a number: names of fewer bytes are escaped as HTML, and others
//!   not; left out, the ending of a name decides. Where it is `false`, nothing can be brought;
//! - `owned`: `true`, where the texts of templates and of the expression are copied, and let go before they are used;
//! - `state`: `true`, where the state that a render left is told too;
//! - `names`: `true`, where the names of a context are asked for in place of a render;
//! - `skip`: `true`, where a refused addition does not end the case;
//! - `where`: `true`, where the places of faults are told.
//!
//! What is brought is described by a word, or by an object with one answer:
//!
//! - `arguments`: the list of its arguments. Keyword arguments are one keyword map behind the others; for a method the value
//!   is the first, and the method's name the second; `{"at": place}`: the argument at a place, counted from 0, or undefined;
//!   `{"keyword": name}`: the keyword argument of a name;
//! - `name`, `escape`, `undefined`, `block`: what it sees of the run;
//! - `{"gives": value}`: a value; `{"fails": kind}`, `{"fails": [kind, cause]}`: a fault;
//! - `{"filter": name}`, `{"test": name}`, `{"macro": name}`: what these come to for the same arguments; `{"lookup": name}`: what
//!   a name stands for; `{"rendered": name}`: the text of a block; `{"get": name}`: what is among the temps under a name, or
//!   undefined;
//! - of the first argument, where MissingArgument is answered without one: `first`: itself; `safe`: its text as a safe one;
//!   `same`: whether the second is equal; `{"times": value}`: the product; `{"temp": name}`: it stands among the temps under
//!   the name, and what stood there is given; `{"down": name}`: itself where it is at most 0, else what the filter comes to
//!   for one less; `call`: what it comes to where it is called with the others; and by its text, with the others:
//!   `filter`, `test`, `lookup`, `macro`, `get`, and `set`, which puts the second argument among the temps.
//!
//! In an object a word stands under `answer`, and beside the answer there may be `sets`, an array of pairs of a name and a
//! value, which are set among the temps first; and `counts`, a name, under which the temps then have one more than the number
//! that is there, or 1.
//!
//! The line is written as it stands, then ` = `, then what came of it:
//!
//! - `"text"` where the render is done, and ` price N` behind it under a fuel, N being what it took of the fuel, and the
//!   state behind that;
//! - `"text" ! Kind: Kind` where it ended with a fault: the text before that, then the kinds, outermost first;
//! - behind the kinds, where places are told, ` at`, and for each level of the chain ` [name:line:column, name:line:column]`: what
//!   was refused, then each call around it;
//! - `_` in place of a text that went nowhere;
//! - `- name ! Kind` where the addition of that template is refused, which ends the case (or goes before the rest,
//!   with `, ` between, where refusals are skipped);
//! - `! Kind` where the main template does not stand, where a source or an expression is refused, and where a call ended
//!   with a fault that leaves no text;
//! - the value of an expression, as JSON, or `undefined`, or `function N of M` for a function, N being its number and M that
//!   of its environment; a value that a state knows may also be `namespace N of M`, `macro N of M` or `loop N of M`, M being the
//!   number of its state;
//! - ` temps [name value, name -]` behind that, where temps are asked for, with `-` where there is none; ` after ` and what the
//!   calls on the state that is left give, where there are such;
//! - what each of the calls on a state gives, with `, ` between: a value, a text, `true` or `false`, the name of a template or of
//!   a block, and `-` where there is no temp or no block; of a namespace its number and its printed form;
//! - `[name, name]` where names are asked for, and two such lists for those that are used: without what stands behind
//!   dots, then with it;
//! - `[name "source", name "source"]` for the templates that stand, and `[name value, name value]` for the globals;
//! - `state N of name, escape Escape, undefined Mode, limit N, exports [name], knows [name value]` for a state, N being
//!   its number, with `, fuel N + M` before `exports` under a fuel: what was consumed, and what remains;
//! - `? Kind` where the line is no case.
//!
//! A render with the builtins installed:
//!
//! - `s`: the source;
//! - `c`: its context, an object; empty, if left out;
//! - `n`: its name, whose ending says the escape; `t.txt`, if left out;
//! - `u`: what undefined values may do, as `undefined` above;
//! - `t`: the templates that stand beside it, an object of names and sources.
//!
//! It gives the text as JSON, or `fault: Kind: Kind` with the kinds of the fault, outermost first. Its stored rows are written from the
//! description of the builtins, and where Jinja2 is to do the same, with that. `benchmarks/builtins` renders the pages, the lines
//! behind the heading `pages`, by Jinja2, and compares.
//!
//! A time: `time`, the name of a task of additions and renders of templates. It gives the microseconds that its calls took,
//! without what was made ready for them. These are no part of the stored run.
//!
//! A line that begins with `#` is a heading. The stored run is the table of the language's cases, written from the
//! language's description; to add one, write its line into `stdout`, and what stands before the last ` = ` into
//! `stdin`.
#![tactic(auto)]

mod answers;
mod builtins;
mod calls;
mod case;
mod described;
mod invoked;
mod own;
mod renders;
mod report;
mod steps;
mod tellings;
mod times;
mod writers;

use crate::answers::answer;
use crate::builtins::about_builtins;
use crate::case::{Case, truth_of};
use crate::report::Report;
use crate::times::about_time;
use serde_json::{Map, Value as Json};
use std::alloc::Global;
use std::io;
use template_values_errors::ErrorKind;

fn main(rt: HostRuntime) -> io::Result<()> {
    for line in rt.lines(rt.alloc()) {
        write_line(&rt, line?.as_str())?;
    }
    Ok(())
}

fn write_line(rt: &HostRuntime, line: &str) -> io::Result<()> {
    if line.starts_with('#') || line.is_empty() {
        println!(rt; "{line}")
    } else {
        write_report(rt, line, &report_of(rt, line))
    }
}

fn write_report(rt: &HostRuntime, line: &str, report: &Report) -> io::Result<()> {
    match report.refused {
        None => println!(rt; "{line} = {}", report.text),
        Some(kind) => println!(rt; "{line} = ? {}", kind.name()),
    }
}

// What comes of a line of JSON.
fn report_of(rt: &HostRuntime, line: &str) -> Report {
    let mut out = Report::new(rt.alloc());
    match &Json::from_str(rt.alloc(), line) {
        Ok(Json::Object(entries)) => about_entries(rt, entries, &mut out),
        Err(error) if error.is_memory() => out.refuse(ErrorKind::OutOfMemory),
        _ => out.refuse(ErrorKind::SyntaxError),
    }
    out
}

// The time of a task, what a render with the builtins writes, or what comes of the case.
fn about_entries(rt: &HostRuntime, entries: &Map<String, Json>, out: &mut Report) {
    match (entries.get("time"), entries.get("s")) {
        (Some(Json::String(task)), _) => about_time(rt, task.as_str(), out),
        (_, Some(Json::String(source))) => about_builtins(
            rt.alloc(),
            source.as_str(),
            entries,
            out,
        ),
        _ => about_case(rt.alloc(), entries, out),
    }
}

fn about_case(alloc: Global, entries: &Map<String, Json>, out: &mut Report) {
    let case = Case::read(alloc, entries, out);
    out.tells_places = truth_of(entries.get("where"), out);
    if out.refused.is_none() {
        answer(alloc, &case, out)
    }
}
