//! The status that a request ends the program with.
ghost use Rattle.template_program_parts.specs.Status.{EndsIn, IsStatusOf, IsUnlessMemory};

use crate::outcome::Outcome;
use template_values_errors::{Error, ErrorKind};

/// All is written, or help was asked for.
pub const DONE: u8 = 0;
/// A render ended with a fault.
pub const RENDER: u8 = 1;
/// The words of the command line were refused.
pub const WORDS: u8 = 2;
/// A file could not be read.
pub const FILE: u8 = 3;
/// The context was refused.
pub const CONTEXT: u8 = 4;
/// A template was refused, or the main one does not stand.
pub const TEMPLATE: u8 = 5;
/// Memory was refused.
pub const MEMORY: u8 = 6;

/// The status of an outcome: 0 where all is written; 6 where the innermost kind of its error is
/// `OutOfMemory`; else 1 for a render, 4 for the context, 5 for a template.
pub fn status_of(outcome: &Outcome) -> u8
    ensures { IsStatusOf outcome.now result }
{
    match outcome {
        Outcome::Done => DONE,
        Outcome::Render(error) => unless_memory(error, RENDER),
        Outcome::Context(error) => unless_memory(error, CONTEXT),
        Outcome::Template(error) => unless_memory(error, TEMPLATE),
    }
}

fn unless_memory(error: &Error, status: u8) -> u8
    ensures { IsUnlessMemory error.now status result }
{
    if innermost(error) == ErrorKind::OutOfMemory {
        MEMORY
    } else {
        status
    }
}

// The kind of the innermost cause.
fn innermost(error: &Error) -> ErrorKind
    ensures { EndsIn error.now result }
{
    let mut innermost = error;
    while let Some(cause) = innermost.cause() {
        innermost = cause;
    }
    innermost.kind()
}
