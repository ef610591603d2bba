//! Pieces of a text that go to an output, one behind the other.
use crate::report::Report;
use serde_json::{Map, Value as Json};
use std::alloc::{AllocError, Global};
use template_machine_surroundings::{SinkFault, WriteWrapper, write_text};
use template_rows::{Output, kind_of, texts_of};
use template_values_errors::{Error, ErrorKind};

/// What the output takes; and where it fails the fault, the error that this is, and what `take_err` makes of
/// `BadInclude` behind it, again and again.
pub(crate) fn about_pieces(
    alloc: Global,
    pieces: &Json,
    entries: &Map<String, Json>,
    out: &mut Report,
) {
    out.expect_names(entries, &["pieces", "output_room", "write_fails"]);
    let pieces = out.or(texts_of(alloc, pieces), Vec::new(alloc));
    match output_of(alloc, entries, out) {
        Ok(output) => tell(&mut WriteWrapper::new(output), pieces.as_slice(), out),
        Err(_refused) => out.refuse(ErrorKind::OutOfMemory),
    }
}

fn output_of(
    alloc: Global,
    entries: &Map<String, Json>,
    out: &mut Report,
) -> Result<Output, AllocError> {
    let room = out.count_of(entries.get("output_room"), usize::MAX);
    let mut output = Output::new(alloc, room)?;
    output.write_fails = out.or(kind_of(entries.get("write_fails")), None);
    Ok(output)
}

fn tell(sink: &mut WriteWrapper<Output>, pieces: &[&str], out: &mut Report) {
    let written = write_pieces(sink, pieces);
    out.quoted(sink.w.bytes.as_slice());
    if let Err(fault) = written {
        tell_fault(sink, fault, out)
    }
}

fn write_pieces(sink: &mut WriteWrapper<Output>, pieces: &[&str]) -> Result<(), SinkFault> {
    for piece in pieces {
        write_text(sink, piece)?;
    }
    Ok(())
}

fn tell_fault(sink: &mut WriteWrapper<Output>, fault: SinkFault, out: &mut Report) {
    out.tell(" ! ", &fault);
    out.error(" ", &Error::from(fault));
    out.push_str(", seen as");
    for _ in 0..3 {
        out.error(" ", &sink.take_err(Error::new(ErrorKind::BadInclude)));
    }
}
