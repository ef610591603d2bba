//! Texts as they are, and under an escape.
ghost use Rattle.std.specs.Prelude.{◌≡◌, IfErr, IfOk, Ok, string_bytes};
ghost use Rattle.template_builtins_arguments.specs.Answers.{Tells, TellsAs};
ghost use Rattle.template_builtins_texts.specs.Escaping.{escape_under, escaped_text};
ghost use Rattle.template_builtins_texts.specs.Filters as filters;
ghost use Rattle.template_callables.specs.Views.{seen_in};
ghost use Rattle.template_values_errors.specs.Memory.{NoMemory};
ghost use Rattle.template_values_forms.specs.Escaped.{escaped};
ghost use Rattle.template_values_forms.specs.Known.{nothing_known};
ghost use Rattle.template_values_model.specs.Val.{text as plain_text};

use crate::reading::{is_forbidden, lone_text};
use std::alloc::Global;
use template_builtins_arguments::{Arguments, is_safe};
use template_callables::CallView;
use template_values_core::{Content, Value};
use template_values_errors::{AutoEscape, Error, ErrorKind};
use template_values_forms::NoRecords;
use template_values_print::{Markup, Quoting, escape_to, push, push_quoted};

pub(crate) fn string(
    alloc: Global,
    view: &CallView<'_>,
    value: &Value,
    arguments: &[Value],
) -> Result<Value, Error>
    ensures { Tells result (filters.changed (λ s. s) (seen_in view.now) value.now arguments.now) }
{
    let text = lone_text(alloc, view, value, arguments)?;
    match value.as_str() {
        Some(_) => value.copy(),
        None => Value::from_str(alloc, text.as_str()),
    }
}

pub(crate) fn safe(
    alloc: Global,
    view: &CallView<'_>,
    value: &Value,
    arguments: &[Value],
) -> Result<Value, Error>
    ensures { Tells result (filters.safe (seen_in view.now) value.now arguments.now) }
{
    let text = lone_text(alloc, view, value, arguments)?;
    if is_safe(value) {
        return value.copy();
    }
    Value::from_safe_text(String::from_str(alloc, text.as_str())?)
}

pub(crate) fn escape(
    alloc: Global,
    view: &CallView<'_>,
    value: &Value,
    arguments: &[Value],
) -> Result<Value, Error>
    ensures { Tells result (filters.escape (seen_in view.now) value.now arguments.now) }
{
    Arguments::read(&[], 0, arguments)?;
    if is_safe(value) {
        return value.copy();
    }
    Value::from_safe_text(escaped_text(alloc, view, value)?)
}

pub(crate) fn force_escape(
    alloc: Global,
    view: &CallView<'_>,
    value: &Value,
    arguments: &[Value],
) -> Result<Value, Error>
    ensures { Tells result (filters.force_escape (seen_in view.now) value.now arguments.now) }
{
    Arguments::read(&[], 0, arguments)?;
    match value.content() {
        Content::SafeText(text) => {
            Value::from_safe_text(forced(alloc, view.auto_escape(), text)?)
        }
        _ => Value::from_safe_text(escaped_text(alloc, view, value)?),
    }
}

// A plain text under JSON's escape where that is in force, else HTML's.
#[tactic(auto, using(crate::proofs::Forcing::quoted_is))]
fn forced(alloc: Global, escape: AutoEscape, text: &str) -> Result<String, Error>
    ensures made { IfOk result (λ t. escaped (escape_under escape) nothing_known (plain_text text.now) ≡ Ok (string_bytes t)) }
    ensures refused { IfErr result NoMemory }
{
    let mut out = String::new(alloc);
    match escape {
        AutoEscape::Json => push_quoted(&mut out, Markup::Plain, Quoting::Json, text)?,
        _ => push(&mut out, Markup::Html, text)?,
    }
    Ok(out)
}

// The text of a value under JSON's escape where that is in force, else HTML's.
fn escaped_text(alloc: Global, view: &CallView<'_>, value: &Value) -> Result<String, Error>
    ensures { TellsAs string_bytes result (escaped_text (seen_in view.now) value.now) }
{
    if is_forbidden(view, value) {
        return Err(Error::new(ErrorKind::UndefinedError));
    }
    let mut text = String::new(alloc);
    escape_to(
        value,
        escape_under(view.auto_escape()),
        &NoRecords,
        &mut text,
    )?;
    Ok(text)
}

fn escape_under(escape: AutoEscape) -> AutoEscape
    ensures { result ≡ escape_under escape }
{
    match escape {
        AutoEscape::Json => AutoEscape::Json,
        AutoEscape::None | AutoEscape::Html | AutoEscape::Custom(_) => AutoEscape::Html,
    }
}
