//! Runs of the program's body, with their inputs and outputs.
use crate::files::tell_file;
use crate::report::Report;
use serde_json::{Map, Value as Json};
use std::alloc::{AllocError, Global};
use template_program_run::start;
use template_rows::{Input, Output, READY, kind_of, texts_of};

/// What a run writes, its status and what it tells.
pub(crate) fn about_start(
    rt: &HostRuntime,
    words: &Json,
    entries: &Map<String, Json>,
    out: &mut Report,
) {
    out.expect_names(
        entries,
        &[
            "words",
            "files",
            "input",
            "input_fails",
            "output_room",
            "flush_fails",
            "leaves",
            "links",
            "folder",
        ],
    );
    let words = out.or(texts_of(rt.alloc(), words), Vec::new(rt.alloc()));
    start_over(rt, words.as_slice(), entries, out);
    if let Some(Json::String(path)) = entries.get("leaves") {
        tell_file(rt, path.as_str(), entries, out)
    }
}

// A run over the input that the entries tell.
fn start_over(rt: &HostRuntime, words: &[&str], entries: &Map<String, Json>, out: &mut Report) {
    let fails = out.or(kind_of(entries.get("input_fails")), None);
    let bytes = match entries.get("input") {
        None => Vec::new(rt.alloc()),
        Some(bytes) => out.bytes_of(bytes),
    };
    let mut input = Input {
        bytes: bytes.as_slice(),
        fails,
    };
    let started = start_into(rt, words, &mut input, entries, out);
    out.note(started)
}

// A run over the input, into the output that the entries tell.
fn start_into(
    rt: &HostRuntime,
    words: &[&str],
    input: &mut Input<'_>,
    entries: &Map<String, Json>,
    out: &mut Report,
) -> Result<(), AllocError> {
    let mut told = Vec::with_capacity(rt.alloc(), READY)?;
    let output = output_of(rt.alloc(), entries, out)?;
    let (status, output) = start(rt, words, input, output, &mut told);
    tell(output.bytes.as_slice(), status, told.as_slice(), out);
    Ok(())
}

fn output_of(
    alloc: Global,
    entries: &Map<String, Json>,
    out: &mut Report,
) -> Result<Output, AllocError> {
    let room = out.count_of(entries.get("output_room"), usize::MAX);
    let mut output = Output::new(alloc, room)?;
    output.flush_fails = out.or(kind_of(entries.get("flush_fails")), None);
    Ok(output)
}

fn tell(written: &[u8], status: u8, told: &[u8], out: &mut Report) {
    out.quoted(written);
    out.tell(" status ", &status);
    if !told.is_empty() {
        out.push_str(" ");
        out.quoted(told)
    }
}
