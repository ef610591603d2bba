//! What stands below the parser, and what is made of trees, as rows. Each line of standard input is a JSON object; it is
//! written as it stands, then ` = `, then what comes of it, or the kind of the refusal. A line that begins with `#` is a
//! heading.
//!
//! An object with `source` has an entry `ask`. Of the source under the default syntax with what the entries of a syntax
//! change it asks for
//!
//! - `tokens`: its tokens, as `Debug` shows them, each with its place where there is an entry `places`, and ` ! Kind`
//!   where none stands; `stream`: the same, as a stream shows them before it passes them, behind the name and the text
//!   of what it reads;
//! - `syntax`: what the syntax has: the delimiters of blocks, prints and comments, the prefixes of line statements and
//!   line comments, and the answers to `trim_blocks`, `lstrip_blocks`, `keep_trailing_newline` and `scoped_blocks`;
//!
//! and of the template under the default syntax for
//!
//! - `code`: the template's instructions, `?` for one that has no word here; `owned`: the same of a template with texts of
//!   its own, behind its name and its source; `blocks`: those of each of its blocks, behind its name, and `required` where
//!   a template that extends this one has to give a body of its own;
//! - `numbers`: the names of the filters and of the tests among its instructions, each with the number that the code has
//!   for it;
//! - `runs`: where its instructions come from, as `(line count "text")` for each run of them that come from one place;
//! - `references`: the names that the instructions up to each one refer to, and up to one past the last, the latest
//!   first, as `(index name ..)`; `hint`: how much room for its text is worth asking for;
//!   `under`: what the syntax has that it was read under;
//! - `names`: the names that it uses; `nested`: the same, each with the dotted names that stand directly behind it;
//!   `closures`: the names that each macro and each body of a call block encloses that stands in the template's body,
//!   after the macro's name; `units`: the names that each of its units uses, in order of place;
//! - `generated`, with two more entries, `calls` of a generator and `places`: how many instructions come of the calls, the
//!   hint of room for them and where those at the places come from, each with a `;` behind it, and then the instructions.
//!   A call is its name, or an array of its name and a text, a line, or the line that a span starts in; `template`
//!   compiles the source. Where there is an entry `numbers`, those of filters and tests stand in place of the instructions;
//! - `verified`: of what its code is a stream, once that is checked, and its instructions.
//!
//! An object with `expression` is the text of an expression. Its `ask` is `value`: what the expression prints, if it is
//! constant, else `-`; or `verified`: as of a template; or it has `calls`, which the stream of its tokens answers in turn, with a `;` behind each answer. A
//! call is one of these, or an array of a word, which it passes where that stands next:
//!
//! - `(`, `)`, `factor`, `term`, `dotted`, `keyword`: passes what it says, where that stands next; `text`: the same,
//!   behind what it passed;
//! - `take`: takes the next token; `advance`: passes it, and answers nothing;
//! - `begins_argument`, `closes`, `fault`: what the stream says of the next token.
//!
//! Other objects have one entry:
//!
//! - `token`, a text: the token that it begins with, and how many bytes it takes;
//! - `places`, two texts: the place of the second one behind the first; or two texts and a count: the same, where the
//!   second one stands so many times;
//! - `difference` and `one_entry`, two names: what the sample of that name makes of them; `attributes`, a count: what a
//!   chain of so many is, and how many nodes its descent has;
//! - `listed`, two arrays, steps and places: the line and the span of each of the places among the instructions that the
//!   steps list, with a `;` behind it. A step is `null` for an instruction alone, a line, `[line]` for a span that starts
//!   in that line and has nothing else, or `"drop"`, which drops the last one;
//! - `many` and `pairs`, two counts: how many numbers lie on one another, from 0 on, and how many values or pairs of them
//!   are taken: what was taken, the lowest first, then the number on top, if there is one, each with a `;` behind it;
//! - `stream`, an array of instructions: of what it is a stream, or why it is none, and how many instructions come back;
//!   `references`, such an array: the names that those up to each one refer to, and up to one past the last, the latest first, as
//!   `( name ..)`. An instruction is a word, or an array of a word and a number: the place where it leads, a count (`null` for a
//!   counted run), or a name's letter. The words are in `template_rows_streams`;
//! - `fuel`, a number and an array of instructions, as of a `stream`: whether the fuel lets each of them run, then what
//!   remains of it and what was consumed, each with a `;` behind it;
//! - `names`, two sources: the names that they use, put into one set;
//! - `standing`, two sources that are put under one name: what stands there then, and what after it is removed.
//!
//! A place is `@line:column:offset-line:column:offset`; texts are as `Debug` shows them. The stored run is the table of
//! the cases of the compiler, with answers that were written by hand. To add a case, write its line into `stdout`, and
//! what stands before the last ` = ` into `stdin`.
#![tactic(auto)]

mod calls;
mod checked;
mod code;
mod fuels;
mod generated;
mod listed;
mod made;
mod numbers;
mod operands;
mod report;
mod runs;
mod streams;
mod syntax;
mod tokens;
mod trees;
mod unit_names;

use crate::calls::answers_of_stream;
use crate::checked::checked_expression;
use crate::code::{about_code, standing};
use crate::fuels::tracked;
use crate::listed::listed;
use crate::made::{chain, write_description};
use crate::operands::about_operands;
use crate::report::Report;
use crate::streams::{referenced, verified};
use crate::syntax::{parts_of_syntax, syntax_of};
use crate::tokens::{first_token, place_behind, place_of_many, streamed_tokens, tokens_of};
use crate::trees::{about_template, names_of_both, value};
use serde_json::{Map, Value as Json};
use std::alloc::Global;
use std::io;
use template_compiler_syntax::SyntaxConfig;
use template_compiler_tree_parts::{difference, one_entry};
use template_values_errors::ErrorKind;

// The name of each source.
const NAME: &str = "<string>";

fn main(rt: HostRuntime) -> io::Result<()> {
    for line in rt.lines(rt.alloc()) {
        write_line(&rt, line?.as_str())?;
    }
    Ok(())
}

fn write_line(rt: &HostRuntime, line: &str) -> io::Result<()> {
    if line.starts_with('#') || line.is_empty() {
        println!(rt; "{line}")
    } else {
        write_report(rt, line, &report_of(rt.alloc(), line))
    }
}

fn write_report(rt: &HostRuntime, line: &str, report: &Report) -> io::Result<()> {
    match report.refused {
        None => println!(rt; "{line} = {}", report.text),
        Some(kind) => println!(rt; "{line} = {}", kind.name()),
    }
}

// What comes of a line of JSON.
fn report_of(alloc: Global, line: &str) -> Report {
    let mut out = Report::new(alloc);
    match &Json::from_str(alloc, line) {
        Ok(Json::Object(entries)) => about_entries(alloc, entries, &mut out),
        Err(error) if error.is_memory() => out.refuse(ErrorKind::OutOfMemory),
        _ => out.refuse(ErrorKind::SyntaxError),
    }
    out
}

fn about_entries(alloc: Global, entries: &Map<String, Json>, out: &mut Report) {
    out.with_places = entries.get("places").is_some();
    match (text_in(entries, "source"), text_in(entries, "expression")) {
        (Some(source), _) => about_source(alloc, source, entries, out),
        (None, Some(source)) => about_expression(alloc, source, entries, out),
        (None, None) => about_first(alloc, entries, out),
    }
}

fn text_in<'line>(entries: &'line Map<String, Json>, name: &str) -> Option<&'line str> {
    match entries.get(name) {
        Some(Json::String(text)) => Some(text.as_str()),
        _ => None,
    }
}

fn about_source<'line>(
    alloc: Global,
    source: &'line str,
    entries: &'line Map<String, Json>,
    out: &mut Report,
) {
    let ask = text_in(entries, "ask").unwrap_or("");
    match ask {
        "tokens" | "stream" | "syntax" => about_syntax(alloc, source, ask, entries, out),
        "code" | "owned" | "blocks" | "runs" | "references" | "numbers" | "hint" | "under" =>
            about_code(alloc, source, ask, out),
        _ => about_template(alloc, source, ask, entries, out),
    }
}

// What is asked of a source under a syntax of its own.
fn about_syntax(
    alloc: Global,
    source: &str,
    ask: &str,
    entries: &Map<String, Json>,
    out: &mut Report,
) {
    match syntax_of(alloc, entries) {
        Ok(syntax) => about_tokens(alloc, source, syntax, ask, out),
        Err(error) => out.refuse(error.kind()),
    }
}

fn about_tokens(alloc: Global, source: &str, syntax: SyntaxConfig, ask: &str, out: &mut Report) {
    match ask {
        "tokens" => tokens_of(alloc, source, syntax, out),
        "stream" => streamed_tokens(alloc, source, syntax, out),
        _ => parts_of_syntax(alloc, &syntax, out),
    }
}

fn about_expression(alloc: Global, source: &str, entries: &Map<String, Json>, out: &mut Report) {
    match (entries.get("calls"), text_in(entries, "ask")) {
        (Some(Json::Array(calls)), None) => {
            answers_of_stream(alloc, source, calls.as_slice(), out)
        }
        (None, Some("value")) => value(alloc, source, out),
        (None, Some("verified")) => checked_expression(alloc, source, out),
        _ => out.refuse(ErrorKind::SyntaxError),
    }
}

// What comes of the first entry of an object without a text that is asked about.
fn about_first(alloc: Global, entries: &Map<String, Json>, out: &mut Report) {
    match entries.iter().next() {
        Some((name, value)) => about_entry(alloc, name.as_str(), value, out),
        None => out.refuse(ErrorKind::SyntaxError),
    }
}

fn about_entry(alloc: Global, name: &str, value: &Json, out: &mut Report) {
    match (name, value) {
        ("token", Json::String(text)) => first_token(alloc, text.as_str(), out),
        ("many" | "pairs", Json::Array(counts)) => {
            about_operands(alloc, name, counts.as_slice(), out)
        }
        ("stream", Json::Array(steps)) => verified(alloc, steps.as_slice(), out),
        ("references", Json::Array(steps)) => referenced(alloc, steps.as_slice(), out),
        ("attributes", count) => chain(alloc, count.as_u64().unwrap_or(0), out),
        (name, Json::Array(parts)) => about_parts(alloc, name, parts.as_slice(), out),
        _ => out.refuse(ErrorKind::SyntaxError),
    }
}

fn about_parts(alloc: Global, name: &str, parts: &[Json], out: &mut Report) {
    match parts {
        [Json::String(first), Json::String(second)] => {
            about_texts(alloc, name, first.as_str(), second.as_str(), out)
        }
        [Json::String(before), Json::String(text), times] if name == "places" => {
            let times = times.as_u64().unwrap_or(0) as usize;
            place_of_many(alloc, before.as_str(), text.as_str(), times, out)
        }
        [Json::Array(steps), Json::Array(places)] if name == "listed" => {
            listed(alloc, steps.as_slice(), places.as_slice(), out)
        }
        [fuel, Json::Array(steps)] if name == "fuel" => {
            tracked(alloc, fuel.as_u64().unwrap_or(0), steps.as_slice(), out)
        }
        _ => out.refuse(ErrorKind::SyntaxError),
    }
}

fn about_texts(alloc: Global, name: &str, first: &str, second: &str, out: &mut Report) {
    match name {
        "places" => place_behind(first, second, out),
        "difference" => write_description(&difference(alloc, first, second), out),
        "one_entry" => write_description(&one_entry(alloc, first, second), out),
        "names" => names_of_both(alloc, first, second, out),
        "standing" => standing(alloc, first, second, out),
        _ => out.refuse(ErrorKind::SyntaxError),
    }
}
