//! Instructions that are listed one by one, and where they come from.
use crate::report::{Report, unreadable};
use serde_json::Value as Json;
use std::alloc::Global;
use template_compiler_code::{Instruction, Instructions};
use template_compiler_tree::Span;
use template_values_errors::Error;

/// Where the instructions at some places come from, as a copy with texts of its own has it.
pub(crate) fn listed(alloc: Global, steps: &[Json], places: &[Json], out: &mut Report) {
    let mut code = Instructions::new(alloc, "t.txt", "");
    for step in steps {
        out.done(list(&mut code, step))
    }
    match &code.into_owned(alloc) {
        Ok(code) => write_places(code, places, out),
        Err(error) => out.refuse(error.kind()),
    }
}

// An instruction alone, with a line, or with a span that starts in a line; all else drops the last one.
fn list(code: &mut Instructions<'_>, step: &Json) -> Result<(), Error> {
    match step {
        Json::Null => added(code.add(Instruction::Emit)),
        Json::Number(_) => added(code.add_with_line(Instruction::Emit, line_in(step))),
        Json::Array(line) => match line.as_slice() {
            [line] => added(code.add_with_span(Instruction::Emit, span_from(line_in(line)))),
            _ => unreadable(),
        },
        _ => {
            code.truncate(code.len().saturating_sub(1));
            Ok(())
        }
    }
}

/// Whether an instruction was added.
pub(crate) fn added(place: Result<u32, Error>) -> Result<(), Error> {
    match place {
        Ok(_place) => Ok(()),
        Err(error) => Err(error),
    }
}

/// A line. A number that is none is line 0.
pub(crate) fn line_in(number: &Json) -> u16 {
    u16::try_from(number.as_u64().unwrap_or(0)).unwrap_or(0)
}

/// A span that starts in a line, and has nothing else.
pub(crate) fn span_from(line: u16) -> Span {
    Span {
        start_line: line,
        ..Span::default()
    }
}

/// The line and the span of the instructions at some places.
pub(crate) fn write_places(code: &Instructions<'_>, places: &[Json], out: &mut Report) {
    for place in places {
        let place = u32::from(line_in(place));
        out.tell("", &code.get_line(place));
        out.tell(" ", &code.get_span(place));
        out.push(';')
    }
}
