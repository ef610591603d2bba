//! What is asked for behind the steps.
use crate::case::{Call, Case, Source, Subject};
use crate::invoked::call_all;
use crate::renders::{tell_captured, tell_render};
use crate::report::Report;
use crate::tellings::{tell_globals, tell_new_state, tell_templates};
use std::alloc::Global;
use std::borrow::CowStr;
use template_callables::Extension;
use template_machine_environment::{Environment, Expression, Template};
use template_machine_surroundings::StateIds;
use template_values_core::Value;
use template_values_errors::Error;

/// Tells what comes of what is asked of the environment, or of the case's subject.
pub(crate) fn ask<'line, E: Extension>(
    environment: &Environment<'line, E>,
    ids: &mut StateIds,
    case: &Case<'line>,
    context: Value,
    out: &mut Report,
) {
    match case.setting.call {
        Call::Globals => {
            drop(context);
            tell_globals(environment, out)
        }
        Call::Calls => {
            drop(context);
            call_all(environment.empty_state(ids), &case.calls, out)
        }
        _ => ask_subject(environment, ids, case, context, out),
    }
}

fn ask_subject<'line, E: Extension>(
    environment: &Environment<'line, E>,
    ids: &mut StateIds,
    case: &Case<'line>,
    context: Value,
    out: &mut Report,
) {
    match case.subject {
        Subject::Main(name) => {
            let template = environment.get_template(name);
            ask_template(environment, &template, ids, case, context, out)
        }
        Subject::Source(source) => { ask_source(environment, source, ids, case, context, out) }
        Subject::Expression(source) => {
            ask_expression(environment, source, ids, case, context, out)
        }
    }
}

fn ask_source<'line, E: Extension>(
    environment: &Environment<'line, E>,
    source: Source<'line>,
    ids: &mut StateIds,
    case: &Case<'line>,
    context: Value,
    out: &mut Report,
) {
    if let Call::Usual = case.setting.call {
        out.text(&text_of(environment, source, ids, context))
    } else {
        let template = template_of(environment, source);
        ask_template(environment, &template, ids, case, context, out)
    }
}

fn text_of<'line, E: Extension>(
    environment: &Environment<'line, E>,
    source: Source<'line>,
    ids: &mut StateIds,
    context: Value,
) -> Result<String, Error> {
    match source.name {
        None => environment.render_str(source.text, ids, context),
        Some(name) => environment.render_named_str(name, source.text, ids, context),
    }
}

fn template_of<'env, 'line, E: Extension>(
    environment: &'env Environment<'line, E>,
    source: Source<'line>,
) -> Result<Template<'env, 'line, E>, Error> {
    match source.name {
        None => environment.template_from_str(source.text),
        Some(name) => environment.template_from_named_str(name, source.text),
    }
}

fn ask_template<'line, E: Extension>(
    environment: &Environment<'line, E>,
    template: &Result<Template<'_, 'line, E>, Error>,
    ids: &mut StateIds,
    case: &Case<'line>,
    context: Value,
    out: &mut Report,
) {
    match template {
        Ok(template) => tell_template(environment, template, ids, case, context, out),
        Err(error) => out.fault(error),
    }
}

fn tell_template<'line, E: Extension>(
    environment: &Environment<'line, E>,
    template: &Template<'_, 'line, E>,
    ids: &mut StateIds,
    case: &Case<'line>,
    context: Value,
    out: &mut Report,
) {
    match case.setting.call {
        Call::Usual => tell_render(template, ids, case, context, out),
        Call::Render => tell_text(template, ids, context, out),
        Call::RenderCaptured => tell_captured(template, ids, case, context, out),
        _ => {
            drop(context);
            tell_of_template(environment, template, ids, case, out)
        }
    }
}

// The text of a render.
fn tell_text<E: Extension>(
    template: &Template<'_, '_, E>,
    ids: &mut StateIds,
    context: Value,
    out: &mut Report,
) {
    out.text(&template.render(ids, context))
}

// What is asked of the template without a render.
fn tell_of_template<'line, E: Extension>(
    environment: &Environment<'line, E>,
    template: &Template<'_, 'line, E>,
    ids: &mut StateIds,
    case: &Case<'line>,
    out: &mut Report,
) {
    match case.setting.call {
        Call::States => tell_states(environment, template, ids, out),
        Call::TemplateCalls => call_all(template.new_state(ids), &case.calls, out),
        Call::UsedNames => tell_used_names(template, out),
        Call::ContextNames => out.names(&environment.context_names(template)),
        Call::Escape => out.tell("", &template.initial_auto_escape()),
        _ => tell_templates(environment, out),
    }
}

// A new state of the template, then one without a template.
fn tell_states<'line, E: Extension>(
    environment: &Environment<'line, E>,
    template: &Template<'_, 'line, E>,
    ids: &mut StateIds,
    out: &mut Report,
) {
    tell_new_state(&template.new_state(ids), out);
    out.push_str(", ");
    tell_new_state(&environment.empty_state(ids), out);
}

fn tell_used_names<E: Extension>(template: &Template<'_, '_, E>, out: &mut Report) {
    out.names(&template.undeclared_variables(false));
    out.push(' ');
    out.names(&template.undeclared_variables(true));
}

fn ask_expression<'line, E: Extension>(
    environment: &Environment<'line, E>,
    source: &'line str,
    ids: &mut StateIds,
    case: &Case<'line>,
    context: Value,
    out: &mut Report,
) {
    match expression_of(out.alloc(), environment, source, case.setting.is_owned) {
        Ok(expression) => tell_expression(&expression, ids, case, context, out),
        Err(error) => out.fault(&error),
    }
}

fn expression_of<'env, 'line, E: Extension>(
    alloc: Global,
    environment: &'env Environment<'line, E>,
    source: &'line str,
    is_owned: bool,
) -> Result<Expression<'env, 'line, E>, Error> {
    if is_owned {
        // A source that does not outlive the call.
        let source = String::from_str(alloc, source)?;
        environment.compile_expression_owned(CowStr::Owned(source))
    } else {
        environment.compile_expression(source)
    }
}

fn tell_expression<E: Extension>(
    expression: &Expression<'_, '_, E>,
    ids: &mut StateIds,
    case: &Case<'_>,
    context: Value,
    out: &mut Report,
) {
    if let Call::UsedNames = case.setting.call {
        drop(context);
        return tell_names_of_expression(expression, out);
    }
    tell_value(&expression.eval(ids, context), out)
}

fn tell_names_of_expression<E: Extension>(expression: &Expression<'_, '_, E>, out: &mut Report) {
    out.names(&expression.undeclared_variables(false));
    out.push(' ');
    out.names(&expression.undeclared_variables(true));
}

fn tell_value(value: &Result<Value, Error>, out: &mut Report) {
    match value {
        Ok(value) => out.value(value),
        Err(error) => out.fault(error),
    }
}
