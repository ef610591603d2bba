//! The program, as rows. Each line of standard input is a JSON object of one of these kinds; of its entries all but the
//! first may be left out. A run of the program's body:
//!
//! - `words`: the words behind the program's name, an array of texts;
//! - `files`: the files that stand meanwhile, an object of paths with what they have: a text, a number for a byte of
//!   that value, or an array of both;
//! - `links`: links that stand meanwhile, an object of paths with what they lead to;
//! - `folder`: the folder that some of these are in, which does not stand before;
//! - `input`: what the input has, told as that of a file;
//! - `input_fails`: how the input fails once at its end, `Other`, `Interrupted` or `OutOfMemory`;
//! - `output_room`: how many bytes the output takes; all, if left out;
//! - `flush_fails`: how the output fails when it is flushed, as `input_fails`;
//! - `leaves`: the path of a file that the run is to leave.
//!
//! It gives `"text" status N`, and behind it, in quotes too, what was told, where something was; and then that file's path
//! and what it has, or `no` and the path. The input gives, and the
//! output takes, three bytes in a call at most.
//!
//! A request:
//!
//! - `templates`: the templates, an array of `[name, source]`, of which the first is the main one;
//! - `context`: the JSON of the context, as a text; `{}`, if left out;
//! - `fuel`, `limit`, `undefined`: as in the rows of `template_machine_rows`;
//! - `names`: `true`, where the names of a context are asked for in place of a render;
//! - `first_id`: the first state id that is given; 0, if left out.
//!
//! It gives `"text"`, and behind it ` ! render Kind: Kind`, ` ! context Kind` or ` ! template Kind` where it did not end
//! well, by how it ended.
//!
//! Requests at size: `size`, the name of a work. It gives how many bytes came out, and whether they are the right ones.
//!
//! A document as a context: `d`, a text, or an array of texts and bytes. It gives what comes of the document where floats are
//! refused, ` | `, and what comes of it where they are kept as they are spelled: the map as it is printed, or `fault: ` with the
//! error, its kinds and its place.
//!
//! The context of several documents, of whose entries each may be left out:
//!
//! - `documents`: the documents, an array; each is JSON, told as the one above, or an object with the entry `toml`, which is so too;
//! - `definitions`: an array of `[name, text]`;
//! - `values`: an array of `[name, JSON]`.
//!
//! It gives the context where floats are refused, ` | `, and the context where they are kept as they are spelled: as it is printed,
//! or `! ` and the kinds of the refusal. And whether a text is JSON: `is_json`, the text.
//!
//! A file that is written whole:
//!
//! - `write`: the name of the file, in a folder that is made for the line;
//! - `text`: the text that is written, and `status`: the status that the writer ends with; 0, if left out;
//! - `files`: the files that stand before, an array of `[name, text]`;
//! - `protected`: the names of those that may not be written;
//! - `folders`: the names of the folders that stand before;
//! - `links`: the links that stand before, an array of `[name, target]`.
//!
//! It gives `status N`, or why no file was written, and behind it what stands in the folder: `name "text"` for a file,
//! with `protected` behind it where it may not be written, `name/` for a folder, and for a link `name -> "text"` with the
//! text that it leads to.
//!
//! The line is written as it stands, then ` = `, then what came of it, or `? ` and a word where the line is of no kind, or
//! where memory is refused. A line that begins with `#` is a heading. To add a row, write its line into `stdout`, and the
//! object that it begins with into `stdin`.
#![tactic(auto)]

mod answers;
mod contexts;
mod files;
mod report;
mod sizes;
mod starts;
mod works;
mod writer;
mod written;

use crate::answers::about_request;
use crate::contexts::{about_document, about_documents, about_json};
use crate::files::{make_links, remove_files, remove_folder, write_files};
use crate::report::Report;
use crate::sizes::about_size;
use crate::starts::about_start;
use crate::written::about_written;
use serde_json::{Map, Value as Json};
use std::io;
use template_values_errors::ErrorKind;

fn main(rt: HostRuntime) -> io::Result<()> {
    for line in rt.lines(rt.alloc()) {
        write_line(&rt, line?.as_str())?;
    }
    Ok(())
}

fn write_line(rt: &HostRuntime, line: &str) -> io::Result<()> {
    if line.starts_with('#') || line.is_empty() {
        println!(rt; "{line}")
    } else {
        write_report(rt, line, &report_of(rt, line))
    }
}

fn write_report(rt: &HostRuntime, line: &str, report: &Report) -> io::Result<()> {
    match report.refused {
        None => println!(rt; "{line} = {}", report.text),
        Some(kind) => println!(rt; "{line} = ? {}", kind.name()),
    }
}

// What comes of a line of JSON.
fn report_of(rt: &HostRuntime, line: &str) -> Report {
    let mut out = Report::new(rt.alloc());
    match &Json::from_str(rt.alloc(), line) {
        Ok(Json::Object(entries)) => about_entries(rt, entries, &mut out),
        Err(error) if error.is_memory() => out.refuse(ErrorKind::OutOfMemory),
        _ => out.refuse(ErrorKind::SyntaxError),
    }
    out
}

// What comes of an object, while its files stand.
fn about_entries(rt: &HostRuntime, entries: &Map<String, Json>, out: &mut Report) {
    match entries.get("files") {
        None => about_kind(rt, entries, out),
        Some(Json::Object(files)) => {
            write_files(rt, files, out);
            make_links(rt, entries.get("links"), out);
            about_kind(rt, entries, out);
            remove_files(rt, files, out);
            remove_folder(rt, entries.get("folder"), out)
        }
        Some(_) => about_part(rt, entries, out),
    }
}

// The entry that only lines of one kind have tells the kind.
fn about_kind(rt: &HostRuntime, entries: &Map<String, Json>, out: &mut Report) {
    if let Some(Json::String(work)) = entries.get("size") {
        about_size(rt.alloc(), work.as_str(), out)
    } else if let Some(words) = entries.get("words") {
        about_start(rt, words, entries, out)
    } else if let Some(templates) = entries.get("templates") {
        about_request(rt.alloc(), templates, entries, out)
    } else {
        about_part(rt, entries, out)
    }
}

// What comes of one of the program's parts; a context may leave out each of its entries.
fn about_part(rt: &HostRuntime, entries: &Map<String, Json>, out: &mut Report) {
    let alloc = rt.alloc();
    if let Some(document) = entries.get("d") {
        about_document(alloc, document, entries, out)
    } else if let Some(Json::String(name)) = entries.get("write") {
        about_written(rt, name.as_str(), entries, out)
    } else if let Some(Json::String(text)) = entries.get("is_json") {
        about_json(alloc, text.as_str(), entries, out)
    } else {
        about_documents(alloc, entries, out)
    }
}
