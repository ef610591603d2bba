//! What a flush of the output makes of an outcome.
ghost use Rattle.std.specs.Prelude.{◌≡◌};
ghost use Rattle.std.specs.IoError.{error_kind};
ghost use Rattle.template_program_parts.specs.Flushes.{flush_kind, flushed};

use crate::outcome::Outcome;
use std::io;
use template_values_errors::{Error, ErrorKind};

/// What a run ends with, by how the flush of its output went: a failed flush takes the place of a run that is done and
/// of a fault of the render; a context or a template that is refused stays so.
pub fn after_flush(outcome: Outcome, flush: io::Result<()>) -> Outcome
    ensures { result ≡ flushed flush outcome }
{
    let Err(error) = flush else {
        return outcome;
    };
    match outcome {
        Outcome::Done | Outcome::Render(_) => Outcome::Render(Error::new(failure_kind(&error))),
        Outcome::Context(error) => Outcome::Context(error),
        Outcome::Template(error) => Outcome::Template(error),
    }
}

// Want of memory is told apart from every other failure.
fn failure_kind(error: &io::Error) -> ErrorKind
    ensures { result ≡ flush_kind (error_kind error.now) }
{
    match error.kind() {
        io::ErrorKind::OutOfMemory => ErrorKind::OutOfMemory,
        _ => ErrorKind::WriteFailure,
    }
}
