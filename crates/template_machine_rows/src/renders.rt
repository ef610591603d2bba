//! Renders, by the place that their text goes to.
use crate::case::{Case, Place};
use crate::invoked::call_in;
use crate::report::Report;
use crate::tellings::{tell_state, tell_temps};
use crate::writers::{Taker, Taking};
use template_callables::Extension;
use template_machine_environment::{Captured, Template};
use template_machine_surroundings::{NullWriter, StateIds, WriteWrapper};
use template_values_core::Value;
use template_values_errors::{Error, ErrorKind};

/// Renders into the place of the case, and tells the text that it has taken.
pub(crate) fn tell_render<E: Extension>(
    template: &Template<'_, '_, E>,
    ids: &mut StateIds,
    case: &Case<'_>,
    context: Value,
    out: &mut Report,
) {
    match case.setting.place {
        Place::Text => tell_text(template, ids, case, context, out),
        Place::Room(room) => tell_room(template, ids, case, context, room, out),
        Place::Writer(taking) => tell_taken(template, ids, case, context, taking, out),
        Place::Nowhere => tell_nowhere(template, ids, case, context, out),
    }
}

fn tell_nowhere<E: Extension>(
    template: &Template<'_, '_, E>,
    ids: &mut StateIds,
    case: &Case<'_>,
    context: Value,
    out: &mut Report,
) {
    let ended = template.render_captured_to(ids, context, &mut NullWriter);
    out.push('_');
    tell_end(ended, case, out);
}

fn tell_text<E: Extension>(
    template: &Template<'_, '_, E>,
    ids: &mut StateIds,
    case: &Case<'_>,
    context: Value,
    out: &mut Report,
) {
    let mut text = String::new(out.alloc());
    let ended = template.render_captured_to(ids, context, &mut text);
    out.quoted(text.as_bytes());
    tell_end(ended, case, out);
}

fn tell_room<E: Extension>(
    template: &Template<'_, '_, E>,
    ids: &mut StateIds,
    case: &Case<'_>,
    context: Value,
    room: usize,
    out: &mut Report,
) {
    match vec![in out.alloc(); 0u8; room] {
        Ok(mut bytes) => tell_filled(template, ids, case, context, bytes.as_mut_slice(), out),
        Err(_refused) => out.refuse(ErrorKind::OutOfMemory),
    }
}

fn tell_filled<E: Extension>(
    template: &Template<'_, '_, E>,
    ids: &mut StateIds,
    case: &Case<'_>,
    context: Value,
    bytes: &mut [u8],
    out: &mut Report,
) {
    let (left, ended) = fill(template, ids, context, bytes);
    let taken = bytes.len().saturating_sub(left);
    out.quoted(bytes.get(..taken).unwrap_or(b""));
    tell_end(ended, case, out);
}

// Renders into the bytes, and tells how many of them are left.
fn fill<'template, 'line, E: Extension>(
    template: &'template Template<'_, 'line, E>,
    ids: &mut StateIds,
    context: Value,
    bytes: &mut [u8],
) -> (usize, Result<Captured<'template, 'line, E>, Error>) {
    let mut sink = WriteWrapper::new(bytes);
    let ended = template.render_captured_to(ids, context, &mut sink);
    (sink.w.len(), ended)
}

// Renders into a writer that takes a few bytes a call.
fn tell_taken<E: Extension>(
    template: &Template<'_, '_, E>,
    ids: &mut StateIds,
    case: &Case<'_>,
    context: Value,
    taking: Taking,
    out: &mut Report,
) {
    let mut sink = WriteWrapper::new(Taker::new(out.alloc(), taking));
    let ended = template.render_captured_to(ids, context, &mut sink);
    out.quoted(sink.w.bytes.as_slice());
    tell_end(ended, case, out);
}

// What follows the text: what the render took of its fuel and left, or how it ended.
fn tell_end<E: Extension>(
    ended: Result<Captured<'_, '_, E>, Error>,
    case: &Case<'_>,
    out: &mut Report,
) {
    match ended {
        Ok(captured) => tell_left(captured, case, out),
        Err(error) => {
            out.push(' ');
            out.fault(&error);
        }
    }
}

// What a render took of its fuel, where one is set; then the state that it left and its temps, where the case asks for them, and
// what the calls give that are made on that state.
fn tell_left<E: Extension>(captured: Captured<'_, '_, E>, case: &Case<'_>, out: &mut Report) {
    if let Some((consumed, _)) = captured.fuel_levels() {
        out.tell(" price ", &consumed);
    }
    if case.setting.tells_state {
        out.push(' ');
        tell_state(captured.state(), out);
    }
    if !case.temps.is_empty() {
        out.push_str(" temps ");
        tell_temps(captured.state(), case.temps.as_slice(), out);
    }
    if case.after.value_at("it").is_some() {
        out.push_str(" after ");
        call_in(captured.into_state(), &case.after, out);
    }
}

/// Renders into a text that is kept beside the state.
pub(crate) fn tell_captured<E: Extension>(
    template: &Template<'_, '_, E>,
    ids: &mut StateIds,
    case: &Case<'_>,
    context: Value,
    out: &mut Report,
) {
    match template.render_captured(ids, context) {
        Ok(captured) => {
            out.quoted(captured.output().as_bytes());
            tell_left(captured, case, out);
        }
        Err(error) => out.fault(&error),
    }
}
