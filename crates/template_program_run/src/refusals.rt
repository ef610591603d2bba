//! The fault line of a refused context, and where it was refused.
ghost use Rattle.template_program_output.specs.Lines.{error_line};
ghost use Rattle.template_program_places.specs.Told.{PutsBefore};
ghost use Rattle.template_program_run.specs.Starts.{TellsError};

use crate::documents::{Held, document_of};
use crate::inputs::ReadContext;
use crate::telling::tell_error;
use std::alloc::Global;
use template_program_output::Output;
use template_program_places::{document_place, value_place, write_placed, write_refused};
use template_values_errors::{Error, ErrorKind};
use template_values_json::Floats;

/// Writes the fault line of a context that was refused, and the place behind it where that is asked for.
pub(crate) fn tell_refusal<F: Output>(
    alloc: Global,
    tells_where: bool,
    context: &ReadContext,
    error: &Error,
    fault: &mut F,
)
    ensures { TellsError tells_where error.now (F.shown fault.old) (F.shown fault.new) }
{
    if tells_where {
        write_where(alloc, context, error, fault);
    } else {
        tell_error(fault, error);
    }
}

fn write_where<F: Output>(alloc: Global, context: &ReadContext, error: &Error, fault: &mut F)
    ensures { PutsBefore (F.shown fault.old) (F.shown fault.new) (error_line error.now) }
{
    match refused_place(alloc, context, error) {
        Some(place) => write_refused(fault, error, place.as_str()),
        None => write_placed(alloc, fault, error, &[]),
    }
}

// Where the context was refused, unless it was for want of memory: what it is made of is read again, up to there.
fn refused_place(alloc: Global, context: &ReadContext, error: &Error) -> Option<String> {
    if error.kind() == ErrorKind::OutOfMemory {
        return None;
    }
    match place_in_documents(alloc, &context.documents, context.floats) {
        Some(place) => Some(place),
        None => place_in_values(alloc, context.values.as_slice(), context.floats),
    }
}

fn place_in_documents(alloc: Global, held: &Held, floats: Floats) -> Option<String> {
    for document in &held.documents {
        let read = document_of(document, held.input.as_slice());
        if let Some(place) = document_place(alloc, document.name.as_str(), read, floats) {
            return Some(place);
        }
    }
    None
}

fn place_in_values(alloc: Global, values: &[(String, String)], floats: Floats) -> Option<String> {
    for (name, json) in values {
        if let Some(place) = value_place(alloc, name.as_str(), json.as_str(), floats) {
            return Some(place);
        }
    }
    None
}
