//! The program's parts at size: a long text goes through each sink and each reader.
use crate::report::Report;
use std::alloc::Global;
use std::fs;
use std::io::{BufWriter, Write};
use template_machine_surroundings::{NullWriter, WriteWrapper, write_text};
use template_program_parts::{FileFault, ReadWrapper, Source, read_text, read_text_file};
use template_values_errors::ErrorKind;

const PATH: &str = "sizes.txt";

/// What comes of the work of that name; `SyntaxError` where there is no such work, or something was refused.
pub(crate) fn about_size(rt: &HostRuntime, what: &str, out: &mut Report) {
    // Ten megabytes: 16 bytes, over and over.
    match "The quick fox.é".repeat(rt.alloc(), 655360) {
        Ok(long) => move_text(rt, what, long.as_str(), out),
        Err(_refused) => out.refuse(ErrorKind::OutOfMemory),
    }
}

fn move_text(rt: &HostRuntime, what: &str, long: &str, out: &mut Report) {
    let alloc = rt.alloc();
    match what {
        "a text" => into_text(alloc, long, out),
        "a writer" => into_writer(alloc, long, out),
        "a buffered writer" => into_buffer(alloc, long, out),
        "nothing" => tell(write_text(&mut NullWriter, long).is_ok(), b"", b"", out),
        "a slice, read" => read_twice(alloc, &mut long.as_bytes(), &mut long.as_bytes(), long, out),
        "a reader, read" => read_wrapped(alloc, long, out),
        "a file, read" => read_file_back(rt, long, out),
        _ => out.refuse(ErrorKind::SyntaxError),
    }
}

// What came out, where all went well, beside what was to come.
fn tell(is_done: bool, given: &[u8], wanted: &[u8], out: &mut Report) {
    if !is_done {
        return out.refuse(ErrorKind::SyntaxError);
    }
    out.tell("", &given.len());
    out.push_str(if given == wanted {
        " bytes, right"
    } else {
        " bytes, wrong"
    })
}

fn into_text(alloc: Global, text: &str, out: &mut Report) {
    let mut sink = String::new(alloc);
    let is_done = write_text(&mut sink, text).is_ok();
    tell(is_done, sink.as_bytes(), text.as_bytes(), out)
}

fn into_writer(alloc: Global, text: &str, out: &mut Report) {
    let mut sink = WriteWrapper::new(Vec::new(alloc));
    let is_done = write_text(&mut sink, text).is_ok();
    tell(is_done, sink.w.as_slice(), text.as_bytes(), out)
}

fn into_buffer(alloc: Global, text: &str, out: &mut Report) {
    let mut bytes = Vec::new(alloc);
    let is_done = is_written(alloc, text, &mut bytes);
    tell(is_done, bytes.as_slice(), text.as_bytes(), out)
}

// Writes through a buffer, and tells whether all was taken.
fn is_written(alloc: Global, text: &str, bytes: &mut Vec<u8>) -> bool {
    match BufWriter::new(alloc, bytes) {
        Ok(buffer) => {
            let mut sink = WriteWrapper::new(buffer);
            write_text(&mut sink, text).is_ok() && sink.w.flush().is_ok()
        }
        Err(_refused) => false,
    }
}

// Two sources of one text are read: one below a limit, and one by a limit that it reaches.
fn read_twice<A: Source, B: Source>(
    alloc: Global,
    source: &mut A,
    again: &mut B,
    text: &str,
    out: &mut Report,
) {
    let limit = text.len();
    let read = read_text(alloc, source, limit.saturating_add(1));
    tell_read(&read, &read_text(alloc, again, limit), text, out)
}

fn read_wrapped(alloc: Global, text: &str, out: &mut Report) {
    let (mut bytes, mut again) = (text.as_bytes(), text.as_bytes());
    let mut source = ReadWrapper::new(&mut bytes);
    let mut again = ReadWrapper::new(&mut again);
    read_twice(alloc, &mut source, &mut again, text, out)
}

// The file is written, read, refused by a limit that it reaches, and removed.
fn read_file_back(rt: &HostRuntime, text: &str, out: &mut Report) {
    let limit = text.len();
    if fs::write(rt, PATH, text.as_bytes()).is_err() {
        return out.refuse(ErrorKind::SyntaxError);
    }
    let read = read_text_file(rt, PATH, limit.saturating_add(1));
    tell_read(&read, &read_text_file(rt, PATH, limit), text, out);
    if fs::remove_file(rt, PATH).is_err() {
        out.refuse(ErrorKind::SyntaxError)
    }
}

// A text that was read below a limit, and refused by one that it reaches.
fn tell_read(
    read: &Result<String, FileFault>,
    refused: &Result<String, FileFault>,
    text: &str,
    out: &mut Report,
) {
    match (read, refused) {
        (Ok(read), Err(FileFault::File)) => tell(true, read.as_bytes(), text.as_bytes(), out),
        _ => out.refuse(ErrorKind::SyntaxError),
    }
}
