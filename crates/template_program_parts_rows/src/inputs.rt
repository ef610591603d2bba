//! Inputs and files that are read alone, below a limit.
use crate::report::Report;
use serde_json::{Map, Value as Json};
use std::alloc::Global;
use template_program_parts::{FileFault, ReadWrapper, read_file, read_whole};
use template_rows::{Input, kind_of};
use template_values_errors::ErrorKind;

/// What is read of an input, and what is read then without a limit.
pub(crate) fn about_input(
    alloc: Global,
    bytes: &Json,
    entries: &Map<String, Json>,
    out: &mut Report,
) {
    out.expect_names(entries, &["source", "input_fails", "limit"]);
    let fails = out.or(kind_of(entries.get("input_fails")), None);
    let limit = out.count_of(entries.get("limit"), usize::MAX);
    let bytes = out.bytes_of(bytes);
    let mut input = Input {
        bytes: bytes.as_slice(),
        fails,
    };
    read(alloc, &mut input, limit, out);
    out.push_str(", then ");
    read(alloc, &mut input, usize::MAX, out)
}

fn read(alloc: Global, input: &mut Input<'_>, limit: usize, out: &mut Report) {
    tell(&read_whole(alloc, &mut ReadWrapper::new(input), limit), out)
}

/// What is read of the file at a path.
pub(crate) fn about_file(
    rt: &HostRuntime,
    path: &Json,
    entries: &Map<String, Json>,
    out: &mut Report,
) {
    out.expect_names(entries, &["file", "files", "limit"]);
    let limit = out.count_of(entries.get("limit"), usize::MAX);
    let path = out.text_of(Some(path));
    tell(&read_file(rt, path, limit), out)
}

fn tell(read: &Result<Vec<u8>, FileFault>, out: &mut Report) {
    match read {
        Ok(bytes) => out.quoted(bytes.as_slice()),
        Err(FileFault::File) => out.push_str("! File"),
        Err(FileFault::Memory) => out.refuse(ErrorKind::OutOfMemory),
    }
}
