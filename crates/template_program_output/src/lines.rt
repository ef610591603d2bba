//! Fault lines.
ghost use Rattle.template_program_output.specs.Lines.{causes_behind, error_line, fault_line};
ghost use Rattle.template_program_output.specs.Shown.{Writes};

use crate::{Output, write_whole};
use std::io;
use template_values_errors::Error;

/// Writes `fault: `, a word and a newline.
///
/// # Errors
///
/// Those of [`write_whole`].
pub fn write_fault<O: Output>(out: &mut O, word: &str) -> io::Result<()>
    ensures { Writes (O.shown out.old) (O.shown out.new) (fault_line word.now) result }
{
    write_whole(out, b"fault: ")?;
    write_whole(out, word.as_bytes())?;
    write_whole(out, b"\n")
}

/// Writes `fault: `, the kinds of an error, outermost first, joined by `: `, and a newline. Takes no
/// memory.
///
/// # Errors
///
/// Those of [`write_whole`].
pub fn write_error<O: Output>(out: &mut O, error: &Error) -> io::Result<()>
    ensures { Writes (O.shown out.old) (O.shown out.new) (error_line error.now) result }
{
    write_whole(out, b"fault: ")?;
    write_whole(out, error.kind().name().as_bytes())?;
    write_causes(out, error)?;
    write_whole(out, b"\n")
}

// Writes the kinds of what caused the error, each behind `: `.
fn write_causes<O: Output>(out: &mut O, error: &Error) -> io::Result<()>
    ensures { Writes (O.shown out.old) (O.shown out.new) (causes_behind error.now) result }
{
    let mut error = error;
    while let Some(cause) = error.cause() {
        let kind = cause.kind();
        write_whole(out, b": ")?;
        write_whole(out, kind.name().as_bytes())?;
        error = cause;
    }
    Ok(())
}
