//! The fault line of a refused context with its place.
ghost use Rattle.std.specs.Prelude.{◌++◌};
ghost use Rattle.template_program_output.specs.Lines.{error_line};
ghost use Rattle.template_program_output.specs.Shown.{Writes};
ghost use Rattle.template_program_places.specs.Told.{PutsBefore, place_line};

use std::io;
use template_program_output::{Output, write_error, write_whole};
use template_values_errors::Error;

/// Writes the line of an error, and behind it a line `  at ` with the place. What cannot be written changes nothing.
pub fn write_refused<O: Output>(out: &mut O, error: &Error, place: &str)
    ensures { PutsBefore (O.shown out.old) (O.shown out.new) (error_line error.now) }
{
    let _ = write_error_and(out, error, place);
}

fn write_error_and<O: Output>(out: &mut O, error: &Error, place: &str) -> io::Result<()>
    ensures { Writes (O.shown out.old) (O.shown out.new) (error_line error.now ++ place_line place.now) result }
{
    write_error(out, error)?;
    write_whole(out, b"  at ")?;
    write_whole(out, place.as_bytes())?;
    write_whole(out, b"\n")
}
