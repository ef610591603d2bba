//! Calls on a state.
use crate::described::text_at;
use crate::report::Report;
use crate::tellings::{tell_state, tell_temp};
use crate::writers::{Taker, Taking};
use std::alloc::Global;
use template_callables::Extension;
use template_machine_environment::{State, Template, escape_formatter, namespace};
use template_machine_operations::{dict, range};
use template_machine_surroundings::WriteWrapper;
use template_rows::unreadable;
use template_values_core::Value;
use template_values_errors::{Error, ErrorKind};

/// Makes the calls of a list on the state, in turn, and tells what each gives.
pub(crate) fn call_all<E: Extension>(
    state: Result<State<'_, '_, E>, Error>,
    calls: &Value,
    out: &mut Report,
) {
    match state {
        Ok(state) => call_in(state, calls, out),
        Err(error) => out.fault(&error),
    }
}

/// The same on a state that there is.
pub(crate) fn call_in<E: Extension>(state: State<'_, '_, E>, calls: &Value, out: &mut Report) {
    let mut state = state;
    call_each(&mut state, items_at(calls, "it"), out)
}

fn call_each<E: Extension>(state: &mut State<'_, '_, E>, calls: &[Value], out: &mut Report) {
    let mut first = true;
    for call in calls {
        if !first {
            out.push_str(", ");
        }
        first = false;
        tell_call(state, call, out);
    }
}

fn tell_call<E: Extension>(state: &mut State<'_, '_, E>, call: &Value, out: &mut Report) {
    let args = items_at(call, "args");
    if let Some(name) = text_at(call, "apply_filter") {
        tell_value(&state.apply_filter(name, args), out)
    } else if let Some(name) = text_at(call, "perform_test") {
        tell_truth(&state.perform_test(name, args), out)
    } else if let Some(name) = text_at(call, "call_macro") {
        out.text(&state.call_macro(name, args))
    } else if let Some(name) = text_at(call, "lookup") {
        tell_temp(&state.lookup(name), out)
    } else if let Some(name) = text_at(call, "get_temp") {
        tell_temp(&state.get_temp(name), out)
    } else if call.value_at("tell").is_some() {
        tell_state(state, out)
    } else if let Some(value) = call.value_at("format") {
        out.text(&state.format(value))
    } else if let Some(name) = text_at(call, "render_block") {
        tell_block(state, name, call.value_at("room"), out)
    } else if let Some(value) = call.value_at("escape") {
        tell_escaped(state, value, call.value_at("room"), out)
    } else if let Some(name) = text_at(call, "get_template") {
        tell_name(&state.get_template(name), out)
    } else {
        tell_other(state, call, out)
    }
}

fn tell_other<E: Extension>(state: &mut State<'_, '_, E>, call: &Value, out: &mut Report) {
    let alloc = out.alloc();
    if call.value_at("range").is_some() {
        tell_value(&range_of(alloc, items_at(call, "range")), out)
    } else if call.value_at("dict").is_some() {
        tell_value(&dict(alloc, items_at(call, "dict")), out)
    } else if call.value_at("namespace").is_some() {
        tell_namespace(state, items_at(call, "namespace"), out)
    } else if call.value_at("current_block").is_some() {
        out.push_str(state.current_block().unwrap_or("-"))
    } else {
        set_temp(state, call, out)
    }
}

// The text of a block, or what a writer of so many bytes took of it.
fn tell_block<E: Extension>(
    state: &mut State<'_, '_, E>,
    name: &str,
    room: Option<&Value>,
    out: &mut Report,
) {
    if room.is_none() {
        return out.text(&state.render_block(name));
    }
    let taking = Taking::of(room, out);
    let mut sink = WriteWrapper::new(Taker::new(out.alloc(), taking));
    let ended = state.render_block_to_write(name, &mut sink);
    tell_taken(&sink, &ended, out)
}

// The text of a value under the escape in force, or what a writer of so many bytes took of it.
fn tell_escaped<E: Extension>(
    state: &State<'_, '_, E>,
    value: &Value,
    room: Option<&Value>,
    out: &mut Report,
) {
    let taking = Taking::of(room, out);
    let mut sink = WriteWrapper::new(Taker::new(out.alloc(), taking));
    let ended = escape_formatter(&mut sink, state, value);
    tell_taken(&sink, &ended, out)
}

fn tell_taken(sink: &WriteWrapper<Taker>, ended: &Result<(), Error>, out: &mut Report) {
    out.quoted(sink.w.bytes.as_slice());
    if let Err(error) = ended {
        out.push(' ');
        out.fault(error);
    }
}

// Which namespace is made of the arguments, and its printed form.
fn tell_namespace<E: Extension>(state: &mut State<'_, '_, E>, args: &[Value], out: &mut Report) {
    match namespace(state, args) {
        Ok(made) => {
            out.value(&made);
            out.push(' ');
            out.text(&state.format(&made))
        }
        Err(error) => out.fault(&error),
    }
}

// The range of one, two or three numbers.
fn range_of(alloc: Global, args: &[Value]) -> Result<Value, Error> {
    match args {
        [upper] => range(alloc, whole(upper)?, None, None),
        [lower, upper] => range(alloc, whole(lower)?, Some(whole(upper)?), None),
        [lower, upper, step] => {
            range(
                alloc,
                whole(lower)?,
                Some(whole(upper)?),
                Some(whole(step)?),
            )
        }
        _ => unreadable(),
    }
}

fn whole(said: &Value) -> Result<i64, Error> {
    match said.as_int() {
        Some(whole) => match i64::try_from(whole) {
            Ok(whole) => Ok(whole),
            Err(_) => unreadable(),
        },
        None => unreadable(),
    }
}

fn tell_name<E: Extension>(template: &Result<Template<'_, '_, E>, Error>, out: &mut Report) {
    match template {
        Ok(template) => out.push_str(template.name()),
        Err(error) => out.fault(error),
    }
}

fn set_temp<E: Extension>(state: &mut State<'_, '_, E>, call: &Value, out: &mut Report) {
    match (text_at(call, "set_temp"), call.value_at("value")) {
        (Some(name), Some(value)) => match value.copy() {
            Ok(value) => tell_temp(&state.set_temp(name, value), out),
            Err(error) => out.fault(&error),
        },
        _ => out.refuse(ErrorKind::SyntaxError),
    }
}

// The items of a list under a name of a map; none, if there is no list.
fn items_at<'map>(map: &'map Value, name: &str) -> &'map [Value] {
    match map.value_at(name) {
        Some(list) => list.items().unwrap_or(&[]),
        None => &[],
    }
}

fn tell_value(value: &Result<Value, Error>, out: &mut Report) {
    match value {
        Ok(value) => out.value(value),
        Err(error) => out.fault(error),
    }
}

fn tell_truth(truth: &Result<bool, Error>, out: &mut Report) {
    match truth {
        Ok(truth) => out.tell("", truth),
        Err(error) => out.fault(error),
    }
}
