//! Fault lines with what follows them.
ghost use Rattle.std.specs.Prelude.{◌++◌};
ghost use Rattle.template_program_output.specs.Lines.{error_line, fault_line};
ghost use Rattle.template_program_output.specs.Shown.{Writes};
ghost use Rattle.template_program_places.specs.Told.{PutsBefore, place_line};

use crate::places_text;
use std::alloc::Global;
use std::io;
use template_program_output::{Output, write_error, write_fault, write_whole};
use template_values_errors::Error;

/// Writes the line of an error, and behind it its places as [`places_text`] gives them. Where memory for these is refused, the
/// line stands alone. What cannot be written changes nothing.
pub fn write_placed<O: Output>(
    alloc: Global,
    out: &mut O,
    error: &Error,
    templates: &[(String, String)],
)
    ensures { PutsBefore (O.shown out.old) (O.shown out.new) (error_line error.now) }
{
    match places_text(alloc, error, templates) {
        Ok(places) => write_before(out, error, places.as_slice()),
        Err(_wanting) => write_before(out, error, b""),
    }
}

/// Writes `fault: `, a word and a newline, and behind them a line `  at ` with the place. What cannot be written changes
/// nothing.
pub fn write_placed_word<O: Output>(out: &mut O, word: &str, place: &str)
    ensures { PutsBefore (O.shown out.old) (O.shown out.new) (fault_line word.now) }
{
    let _ = write_word_and(out, word, place);
}

// Writes the line of an error and a text.
fn write_before<O: Output>(out: &mut O, error: &Error, text: &[u8])
    ensures { PutsBefore (O.shown out.old) (O.shown out.new) (error_line error.now) }
{
    let _ = write_error_and(out, error, text);
}

fn write_error_and<O: Output>(out: &mut O, error: &Error, text: &[u8]) -> io::Result<()>
    ensures { Writes (O.shown out.old) (O.shown out.new) (error_line error.now ++ text.now) result }
{
    write_error(out, error)?;
    write_whole(out, text)
}

fn write_word_and<O: Output>(out: &mut O, word: &str, place: &str) -> io::Result<()>
    ensures { Writes (O.shown out.old) (O.shown out.new) (fault_line word.now ++ place_line place.now) result }
{
    write_fault(out, word)?;
    write_whole(out, b"  at ")?;
    write_whole(out, place.as_bytes())?;
    write_whole(out, b"\n")
}
