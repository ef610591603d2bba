//! What comes of a case.
use crate::calls::ask;
use crate::case::{Brings, Case, Escapes, Setting};
use crate::described::{brought_of, joined_of};
use crate::own::{Made, Own};
use crate::report::Report;
use crate::steps::Step;
use std::alloc::Global;
use std::borrow::CowStr;
use template_callables::Extension;
use template_compiler_syntax::{SyntaxConfig, SyntaxConfigBuilder};
use template_machine_environment::Environment;
use template_machine_surroundings::StateIds;
use template_rows::unreadable;
use template_values_core::{Entry, Value};
use template_values_errors::Error;

/// What comes of the case, in one line.
pub(crate) fn answer(alloc: Global, case: &Case<'_>, out: &mut Report) {
    let mut ids = StateIds::new(0);
    match case.setting.escapes {
        Escapes::ByName if case.brings_nothing() => {
            let environment = Environment::new(alloc, &mut ids);
            answer_in(alloc, environment, &mut ids, case, out)
        }
        Escapes::Never => {
            let environment = Environment::empty(alloc, &mut ids);
            answer_in(alloc, environment, &mut ids, case, out)
        }
        _ => {
            let environment: Result<Environment<'_, Own>, Error> = Environment::extended(
                alloc, &mut ids,
            );
            answer_in(alloc, environment, &mut ids, case, out)
        }
    }
}

fn answer_in<'line, E: Made>(
    alloc: Global,
    environment: Result<Environment<'line, E>, Error>,
    ids: &mut StateIds,
    case: &Case<'line>,
    out: &mut Report,
) {
    match environment {
        Ok(mut environment) => tell(alloc, &mut environment, ids, case, out),
        Err(error) => out.refuse(error.kind()),
    }
}

fn tell<'line, E: Made>(
    alloc: Global,
    environment: &mut Environment<'line, E>,
    ids: &mut StateIds,
    case: &Case<'line>,
    out: &mut Report,
) {
    set(environment, &case.setting);
    for brings in &case.brings {
        out.or(bring(alloc, environment, brings), ());
    }
    if take_all(alloc, environment, case, out) {
        tell_answer(alloc, environment, ids, case, out);
        for brings in &case.again {
            out.or(bring(alloc, environment, brings), ());
            out.push_str(", ");
            tell_answer(alloc, environment, ids, case, out);
        }
    }
}

fn tell_answer<'line, E: Made>(
    alloc: Global,
    environment: &Environment<'line, E>,
    ids: &mut StateIds,
    case: &Case<'line>,
    out: &mut Report,
) {
    match context_of(alloc, case) {
        Ok(context) => ask(environment, ids, case, context, out),
        Err(error) => out.refuse(error.kind()),
    }
}

// The context, with the functions that it has besides.
fn context_of(alloc: Global, case: &Case<'_>) -> Result<Value, Error> {
    let held = case.held.entries().unwrap_or(&[]);
    if held.is_empty() {
        return case.context.copy();
    }
    let entries = entries_of(alloc, case.context.entries().unwrap_or(&[]), held)?;
    Value::from_map(alloc, entries)
}

fn entries_of(alloc: Global, told: &[Entry], held: &[Entry]) -> Result<Vec<Entry>, Error> {
    let mut entries = Vec::new(alloc);
    for entry in told {
        entries.push(entry_of(&entry.key, entry.value.copy())?)?;
    }
    for entry in held {
        entries.push(entry_of(&entry.key, held_of(&entry.value))?)?;
    }
    Ok(entries)
}

fn entry_of(key: &Value, value: Result<Value, Error>) -> Result<Entry, Error> {
    let value = value?;
    Ok(Entry {
        key: key.copy()?,
        value,
    })
}

// The function of a list of two numbers, that of its environment and its own; or the namespace, the macro or the loop of such a
// list under its word, of that of its state and its own.
fn held_of(said: &Value) -> Result<Value, Error> {
    if let Some(namespace) = said.value_at("namespace") {
        let (state, number) = numbers_of(namespace)?;
        return Ok(Value::namespace(state, number));
    }
    if let Some(made) = said.value_at("macro") {
        let (state, number) = numbers_of(made)?;
        return Ok(Value::macro_record(state, number));
    }
    if let Some(opened) = said.value_at("loop") {
        let (state, number) = numbers_of(opened)?;
        return Ok(Value::loop_record(state, number));
    }
    let (environment, number) = numbers_of(said)?;
    Ok(Value::function(environment, number))
}

fn numbers_of(said: &Value) -> Result<(u64, usize), Error> {
    let Some([owner, number]) = said.items() else {
        return unreadable();
    };
    match (number_of(owner), number_of(number)) {
        (Some(owner), Some(number)) => match usize::try_from(number) {
            Ok(number) => Ok((owner, number)),
            Err(_) => unreadable(),
        },
        _ => unreadable(),
    }
}

fn number_of(said: &Value) -> Option<u64> {
    u64::try_from(said.as_int()?).ok()
}

fn set<E: Made>(environment: &mut Environment<'_, E>, setting: &Setting) {
    if let Escapes::Shorter(length) = setting.escapes {
        environment.set_auto_escape_callback(E::shorter_than(length));
    }
    environment.set_fuel(setting.fuel);
    environment.set_undefined_behavior(setting.undefined);
    if let Some(limit) = setting.limit {
        environment.set_recursion_limit(limit);
    }
}

// Adds what is brought, and takes away what is removed.
fn bring<E: Made>(
    alloc: Global,
    environment: &mut Environment<'_, E>,
    brings: &Brings<'_>,
) -> Result<(), Error> {
    bring_globals(environment, brings)?;
    bring_filters(alloc, environment, entries_in(&brings.filters))?;
    bring_tests(alloc, environment, entries_in(&brings.tests))?;
    bring_functions(alloc, environment, entries_in(&brings.functions))?;
    bring_callbacks(alloc, environment, brings)?;
    remove(environment, brings);
    Ok(())
}

fn entries_in(map: &Value) -> &[Entry] {
    map.entries().unwrap_or(&[])
}

fn bring_filters<E: Made>(
    alloc: Global,
    environment: &mut Environment<'_, E>,
    filters: &[Entry],
) -> Result<(), Error> {
    for entry in filters {
        if let Some(name) = entry.key.as_str() {
            environment.add_filter(name, E::callable(brought_of(alloc, &entry.value)?))?;
        }
    }
    Ok(())
}

fn bring_tests<E: Made>(
    alloc: Global,
    environment: &mut Environment<'_, E>,
    tests: &[Entry],
) -> Result<(), Error> {
    for entry in tests {
        if let Some(name) = entry.key.as_str() {
            environment.add_test(name, E::callable(brought_of(alloc, &entry.value)?))?;
        }
    }
    Ok(())
}

fn bring_functions<E: Made>(
    alloc: Global,
    environment: &mut Environment<'_, E>,
    functions: &[Entry],
) -> Result<(), Error> {
    for entry in functions {
        if let Some(name) = entry.key.as_str() {
            environment.add_function(name, E::callable(brought_of(alloc, &entry.value)?))?;
        }
    }
    Ok(())
}

// Sets what answers for methods, what says how values are printed, and what names mean.
fn bring_callbacks<E: Made>(
    alloc: Global,
    environment: &mut Environment<'_, E>,
    brings: &Brings<'_>,
) -> Result<(), Error> {
    for entry in entries_in(&brings.method) {
        let brought = brought_of(alloc, &entry.value)?;
        environment.set_unknown_method_callback(E::method(brought));
    }
    for entry in entries_in(&brings.formatter) {
        let brought = brought_of(alloc, &entry.value)?;
        environment.set_formatter(E::formatter(brought));
    }
    for entry in entries_in(&brings.join) {
        let joined = joined_of(alloc, &entry.value)?;
        environment.set_path_join_callback(E::join(alloc, joined));
    }
    Ok(())
}

// Puts the values under their names, and takes those away that are removed.
fn bring_globals<E: Extension>(
    environment: &mut Environment<'_, E>,
    brings: &Brings<'_>,
) -> Result<(), Error> {
    for entry in entries_in(&brings.globals) {
        if let Some(name) = entry.key.as_str() {
            environment.add_global(name, entry.value.copy()?)?;
        }
    }
    for name in &brings.removed_globals {
        environment.remove_global(*name);
    }
    Ok(())
}

fn remove<E: Extension>(environment: &mut Environment<'_, E>, brings: &Brings<'_>) {
    for name in &brings.removed_filters {
        environment.remove_filter(*name);
    }
    for name in &brings.removed_tests {
        environment.remove_test(*name);
    }
}

// Takes the steps, tells which additions are refused, and whether the case goes on behind them.
fn take_all<'line, E: Made>(
    alloc: Global,
    environment: &mut Environment<'line, E>,
    case: &Case<'line>,
    out: &mut Report,
) -> bool {
    for step in &case.steps {
        if let Err(error) = take(alloc, environment, case.setting.is_owned, *step) {
            tell_refusal(*step, &error, out);
            if !case.setting.skips_refusals {
                return false;
            }
            out.push_str(", ");
        }
    }
    true
}

fn take<'line, E: Made>(
    alloc: Global,
    environment: &mut Environment<'line, E>,
    is_owned: bool,
    step: Step<'line>,
) -> Result<(), Error> {
    match step {
        Step::Add { name, source } if is_owned => add_owned(alloc, environment, name, source)?,
        Step::Add { name, source } => environment.add_template(name, source)?,
        Step::Remove { name } => environment.remove_template(name),
        Step::Clear => environment.clear_templates(),
        Step::Prefixes { statement, comment } => {
            environment.set_syntax(prefixed(alloc, statement, comment)?)
        }
        Step::Rule { length } => environment.set_auto_escape_callback(E::shorter_than(length)),
    }
    Ok(())
}

// Adds a template of texts that do not outlive the call.
fn add_owned<E: Extension>(
    alloc: Global,
    environment: &mut Environment<'_, E>,
    name: &str,
    source: &str,
) -> Result<(), Error> {
    let name = String::from_str(alloc, name)?;
    let source = String::from_str(alloc, source)?;
    environment.add_template_owned(
        CowStr::Borrowed(name.as_str()),
        CowStr::Borrowed(source.as_str()),
    )
}

fn prefixed(alloc: Global, statement: &str, comment: &str) -> Result<SyntaxConfig, Error> {
    with_prefixes(&mut SyntaxConfig::builder(alloc), statement, comment)
}

fn with_prefixes(
    builder: &mut SyntaxConfigBuilder,
    statement: &str,
    comment: &str,
) -> Result<SyntaxConfig, Error> {
    builder.line_statement_prefix(statement)?;
    builder.line_comment_prefix(comment)?;
    builder.build()
}

// Additions alone are refused.
fn tell_refusal(step: Step<'_>, error: &Error, out: &mut Report) {
    if let Step::Add { name, .. } = step {
        out.push_str("- ");
        out.push_str(name);
        out.push(' ');
        out.fault(error);
    }
}
