//! How templates, globals and states are told.
use crate::report::Report;
use std::collections::BTreeSet;
use template_callables::Extension;
use template_machine_environment::{Environment, State, Template};
use template_values_core::Value;
use template_values_errors::Error;

/// The templates that stand, each with its source.
pub(crate) fn tell_templates<E: Extension>(environment: &Environment<'_, E>, out: &mut Report) {
    match environment.templates() {
        Ok(templates) => tell_sources(templates.as_slice(), out),
        Err(error) => out.fault(&error),
    }
}

fn tell_sources<E: Extension>(templates: &[Template<'_, '_, E>], out: &mut Report) {
    out.push('[');
    let mut first = true;
    for template in templates {
        if !first {
            out.push_str(", ");
        }
        first = false;
        out.push_str(template.name());
        out.push(' ');
        out.quoted(template.source().as_bytes());
    }
    out.push(']');
}

/// The names that values stand under, each with its value.
pub(crate) fn tell_globals<E: Extension>(environment: &Environment<'_, E>, out: &mut Report) {
    match environment.globals() {
        Ok(globals) => tell_values(globals.as_slice(), out),
        Err(error) => out.fault(&error),
    }
}

fn tell_values(globals: &[(&str, &Value)], out: &mut Report) {
    out.push('[');
    let mut first = true;
    for (name, value) in globals {
        if !first {
            out.push_str(", ");
        }
        first = false;
        out.push_str(*name);
        out.push(' ');
        out.value(*value);
    }
    out.push(']');
}

/// What a state tells, or why there is none.
pub(crate) fn tell_new_state<E: Extension>(
    state: &Result<State<'_, '_, E>, Error>,
    out: &mut Report,
) {
    match state {
        Ok(state) => tell_state(state, out),
        Err(error) => out.fault(error),
    }
}

/// What a state tells.
pub(crate) fn tell_state<E: Extension>(state: &State<'_, '_, E>, out: &mut Report) {
    tell_modes(state, out);
    if let Some((consumed, left)) = state.fuel_levels() {
        out.tell(", fuel ", &consumed);
        out.tell(" + ", &left);
    }
    out.push_str(", exports ");
    out.names(&state.exports());
    out.push_str(", knows ");
    tell_known(state, out);
}

fn tell_modes<E: Extension>(state: &State<'_, '_, E>, out: &mut Report) {
    out.tell("state ", &state.id());
    out.push_str(" of ");
    out.push_str(state.name());
    out.tell(", escape ", &state.auto_escape());
    out.tell(", undefined ", &state.undefined_behavior());
    out.tell(", limit ", &state.env().recursion_limit());
}

fn tell_known<E: Extension>(state: &State<'_, '_, E>, out: &mut Report) {
    match state.known_variables() {
        Ok(names) => tell_each(state, &names, out),
        Err(error) => out.fault(&error),
    }
}

fn tell_each<E: Extension>(state: &State<'_, '_, E>, names: &BTreeSet<String>, out: &mut Report) {
    out.push('[');
    let mut first = true;
    for name in names {
        if !first {
            out.push_str(", ");
        }
        first = false;
        tell_looked_up(state, name.as_str(), out);
    }
    out.push(']');
}

fn tell_looked_up<E: Extension>(state: &State<'_, '_, E>, name: &str, out: &mut Report) {
    out.push_str(name);
    out.push(' ');
    match state.lookup(name) {
        Ok(Some(value)) => out.value(&value),
        Ok(None) => out.push('-'),
        Err(error) => out.fault(&error),
    }
}

/// The temps of these names.
pub(crate) fn tell_temps<E: Extension>(state: &State<'_, '_, E>, names: &[&str], out: &mut Report) {
    out.push('[');
    let mut first = true;
    for name in names {
        if !first {
            out.push_str(", ");
        }
        first = false;
        out.push_str(*name);
        out.push(' ');
        tell_temp(&state.get_temp(*name), out);
    }
    out.push(']');
}

/// What is among the temps under a name, or was.
pub(crate) fn tell_temp(temp: &Result<Option<Value>, Error>, out: &mut Report) {
    match temp {
        Ok(Some(value)) => out.value(value),
        Ok(None) => out.push('-'),
        Err(error) => out.fault(error),
    }
}
