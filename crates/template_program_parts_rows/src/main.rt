//! Calls of values, and the parts of the program that need no engine, as rows. Each line of standard input is JSON.
//!
//! What is no object is an expression: `null` is none, an array a call of the name that stands first, all else itself. It
//! gives its value, printed behind a text, or the kind of the refusal; `BadStream` where a refusal changes that text.
//!
//! An object is of one of these kinds; of its entries all but the first may be left out. Words that are read alone:
//!
//! - `read`: the words behind the program's name, an array of texts;
//! - `begins`, `holds`: how the text of help or of a refusal begins, and what stands in it.
//!
//! They give what was read of them, or `help`, `version`, `usage` or `definition` (`another ..` where the text is not so)
//! if refused.
//!
//! A context that is read alone:
//!
//! - `json`: its bytes, a text, a number for a byte of that value, or an array of both; or `null`, where there are none;
//! - `definitions`: those over it, an array of `[name, text]`.
//!
//! It gives `levels N: ` and what the context prints, or `! Kind`.
//!
//! An input that is read alone, or a file by its path:
//!
//! - `source`: what the input has, told as the bytes of a context; or `file`: the path, and `files`: the files that stand
//!   meanwhile, an object of paths with what they have, told so too;
//! - `input_fails`: how the input fails once at its end, `Other`, `Interrupted` or `OutOfMemory`;
//! - `limit`: so many bytes are too many; none are, if left out.
//!
//! It gives what was read, in quotes, or `! File`; and for an input `, then ` and what is read of it without a limit then.
//!
//! Pieces that go to an output alone:
//!
//! - `pieces`: the pieces, an array of texts;
//! - `output_room`: how many bytes the output takes; all, if left out;
//! - `write_fails`: how the output fails where it has no more room, as `input_fails`; left out, it takes nothing then.
//!
//! It gives what the output took, in quotes, and where it failed, ` ! Fault Kind, seen as Kind Kind Kind`: the fault, the
//! error that this is, and what a caller is to see in place of `BadInclude`, at first and later.
//!
//! Inputs give, and outputs take, three bytes in a call at most.
//!
//! The escape of a name: `escape`, the name. It gives what its ending says, then its escape under the rule by name, under
//! the one that never escapes, and under a fixed one, which is JSON's.
//!
//! Numbers of states: `first_id`, the first number, and `count`, how many are asked for, one if left out. It gives each, or
//! `! Kind` where none is left.
//!
//! A long text that goes through a sink or a reader: `size`, its name. It gives how many bytes came out, and whether they
//! are the right ones.
//!
//! A time: `time`, the name of a task of values. It gives the microseconds that its calls took, without what was made
//! ready for them. `benchmarks/values` runs these tasks beside the same work in Rust; they are no part of the stored run.
//!
//! The line is written as it stands, then ` = `, then what came of it, or `? ` and a word where the line is of no kind, or
//! where memory is refused. A line that begins with `#` is a heading. To add a row, write its line into `stdout`, and the
//! JSON that it begins with into `stdin`.
#![tactic(auto)]

mod calls;
mod constructors;
mod contexts;
mod errors;
mod expressions;
mod files;
mod inputs;
mod large;
mod modes;
mod pieces;
mod report;
mod scene;
mod sizes;
mod states;
mod tasks;
mod words;

use crate::contexts::about_context;
use crate::expressions::about_expression;
use crate::files::{remove_files, write_files};
use crate::inputs::{about_file, about_input};
use crate::pieces::about_pieces;
use crate::report::Report;
use crate::sizes::about_size;
use crate::states::{about_escape, about_ids};
use crate::tasks::about_time;
use crate::words::about_words;
use serde_json::{Map, Value as Json};
use std::io;
use template_values_errors::ErrorKind;

fn main(rt: HostRuntime) -> io::Result<()> {
    for line in rt.lines(rt.alloc()) {
        write_line(&rt, line?.as_str())?;
    }
    Ok(())
}

fn write_line(rt: &HostRuntime, line: &str) -> io::Result<()> {
    if line.starts_with('#') || line.is_empty() {
        println!(rt; "{line}")
    } else {
        write_report(rt, line, &report_of(rt, line))
    }
}

fn write_report(rt: &HostRuntime, line: &str, report: &Report) -> io::Result<()> {
    match report.refused {
        None => println!(rt; "{line} = {}", report.text),
        Some(kind) => println!(rt; "{line} = ? {}", kind.name()),
    }
}

// What comes of a line of JSON.
fn report_of(rt: &HostRuntime, line: &str) -> Report {
    let mut out = Report::new(rt.alloc());
    match &Json::from_str(rt.alloc(), line) {
        Ok(Json::Object(entries)) => about_entries(rt, entries, &mut out),
        Ok(expression) => about_expression(rt.alloc(), expression, &mut out),
        Err(error) if error.is_memory() => out.refuse(ErrorKind::OutOfMemory),
        Err(_unreadable) => out.refuse(ErrorKind::SyntaxError),
    }
    out
}

// What comes of an object, while its files stand.
fn about_entries(rt: &HostRuntime, entries: &Map<String, Json>, out: &mut Report) {
    match entries.get("files") {
        None => about_kind(rt, entries, out),
        Some(Json::Object(files)) => {
            write_files(rt, files, out);
            about_kind(rt, entries, out);
            remove_files(rt, files, out);
        }
        Some(_) => out.refuse(ErrorKind::SyntaxError),
    }
}

// The entry that only lines of one kind have tells the kind.
fn about_kind(rt: &HostRuntime, entries: &Map<String, Json>, out: &mut Report) {
    match (entries.get("size"), entries.get("time")) {
        (Some(Json::String(what)), None) => about_size(rt, what.as_str(), out),
        (None, Some(Json::String(task))) => about_time(rt, task.as_str(), out),
        _ => about_part(rt, entries, out),
    }
}

// What comes of one of the program's parts.
fn about_part(rt: &HostRuntime, entries: &Map<String, Json>, out: &mut Report) {
    let alloc = rt.alloc();
    if let Some(words) = entries.get("read") {
        about_words(alloc, words, entries, out)
    } else if let Some(json) = entries.get("json") {
        about_context(alloc, json, entries, out)
    } else if let Some(bytes) = entries.get("source") {
        about_input(alloc, bytes, entries, out)
    } else if let Some(path) = entries.get("file") {
        about_file(rt, path, entries, out)
    } else if let Some(pieces) = entries.get("pieces") {
        about_pieces(alloc, pieces, entries, out)
    } else {
        about_state(entries, out)
    }
}

// What comes of what surrounds a render.
fn about_state(entries: &Map<String, Json>, out: &mut Report) {
    match (entries.get("escape"), entries.get("first_id")) {
        (Some(name), None) => about_escape(name, entries, out),
        (None, Some(first)) => about_ids(first, entries, out),
        _ => out.refuse(ErrorKind::SyntaxError),
    }
}
