//! Streams of instructions that are listed one by one, what the check of streams says of them, and which names they refer to.
use crate::report::Report;
use serde_json::Value as Json;
use std::alloc::Global;
use template_compiler_code::{Instructions, get_referenced_names};
use template_compiler_code_shapes::verify;
use template_rows_streams::stream_of;

/// What the steps are a stream of, or why they are refused, and how many of them come back.
pub(crate) fn verified(alloc: Global, steps: &[Json], out: &mut Report) {
    match stream_of(alloc, steps) {
        Ok(code) => tell_verified(alloc, code, out),
        Err(error) => out.refuse(error.kind()),
    }
}

fn tell_verified(alloc: Global, code: Instructions<'_>, out: &mut Report) {
    match &verify(alloc, code) {
        Ok(checked) => {
            out.tell("", &checked.kind());
            out.tell(" ", &checked.instructions().len())
        }
        Err((error, back)) => {
            out.error("! ", error);
            out.tell(" ", &back.len())
        }
    }
}

/// The names that the steps up to each place refer to, and up to one past the last.
pub(crate) fn referenced(alloc: Global, steps: &[Json], out: &mut Report) {
    match &stream_of(alloc, steps) {
        Ok(code) => tell_referenced(alloc, code, out),
        Err(error) => out.refuse(error.kind()),
    }
}

fn tell_referenced(alloc: Global, code: &Instructions<'_>, out: &mut Report) {
    for index in 0..code.len() as u32 {
        about_names(alloc, code, index, out)
    }
    about_names(alloc, code, u32::MAX, out)
}

fn about_names(alloc: Global, code: &Instructions<'_>, index: u32, out: &mut Report) {
    match &get_referenced_names(alloc, code, index) {
        Ok(names) => write_names(names.as_slice(), out),
        Err(error) => out.refuse(error.kind()),
    }
}

fn write_names(names: &[&str], out: &mut Report) {
    out.push('(');
    for name in names {
        out.word(name)
    }
    out.push_str(" )")
}
