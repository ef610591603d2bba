//! The JSON text of a value, where it means nothing to HTML.
ghost use Rattle.std.specs.Prelude.{Ok, codes, string_bytes};
ghost use Rattle.std.specs.List.{repeat};
ghost use Rattle.serde_json.specs.Written.{compact_text};
ghost use Rattle.template_builtins_arguments.specs.Answers.{Tells, TellsAs, then, told};
ghost use Rattle.template_builtins_arguments.specs.Given.{given_by};
ghost use Rattle.template_builtins_web.specs.Filters as filters;
ghost use Rattle.template_builtins_web.specs.Json.{data_of, pretty_text, text_by};
ghost use Rattle.template_callables.specs.Views.{seen_in};
ghost use Rattle.template_values_forms.specs.Answers.{mapped};
ghost use Rattle.template_values_forms.specs.Json.{json_data};
ghost use Rattle.template_values_forms.specs.Known.{nothing_known};

use crate::layout::layout_from;
use crate::markup::unmarked;
use crate::pretty::pretty_outer;
use std::alloc::Global;
use template_builtins_arguments::{Arguments, is_half_strict, is_loud};
use template_callables::CallView;
use template_values_core::Value;
use template_values_errors::{Error, ErrorKind};
use template_values_forms::NoRecords;
use template_values_print::json_outer;

pub(crate) fn to_json(
    alloc: Global,
    view: &CallView<'_>,
    value: &Value,
    arguments: &[Value],
) -> Result<Value, Error>
    ensures { Tells result (filters.to_json (seen_in view.now) value.now arguments.now) }
{
    let given = Arguments::read(&["indent"], 0, arguments)?;
    json_given(alloc, view, value, given)
}

// A value without JSON is refused before a wrong argument.
fn json_given(
    alloc: Global,
    view: &CallView<'_>,
    value: &Value,
    given: Arguments<'_>,
) -> Result<Value, Error>
    ensures { Tells result (filters.json_given (seen_in view.now) value.now (given_by given.entry 0)) }
{
    match layout_from(given) {
        Ok(layout) => json_laid_out(alloc, view, value, layout),
        Err(error) => {
            json_text(alloc, view, value, None)?;
            Err(error)
        }
    }
}

// The JSON text as a safe text.
fn json_laid_out(
    alloc: Global,
    view: &CallView<'_>,
    value: &Value,
    layout: Option<usize>,
) -> Result<Value, Error>
    ensures { Tells result (then (data_of (seen_in view.now) value.now) (λ d. Ok (filters.json_value layout d))) }
{
    let text = json_text(alloc, view, value, layout)?;
    Value::from_safe_text(unmarked(alloc, text.as_str())?)
}

fn json_text(
    alloc: Global,
    view: &CallView<'_>,
    value: &Value,
    layout: Option<usize>,
) -> Result<String, Error>
    ensures { TellsAs string_bytes result (then (data_of (seen_in view.now) value.now) (λ d. Ok (text_by layout d))) }
{
    if is_half_strict(view.undefined_behavior()) && is_loud(value) {
        return Err(Error::new(ErrorKind::UndefinedError));
    }
    match layout {
        None => compact(alloc, value),
        Some(width) => pretty(alloc, value, width),
    }
}

// On one line.
fn compact(alloc: Global, value: &Value) -> Result<String, Error>
    ensures { TellsAs string_bytes result (told (mapped compact_text (json_data nothing_known value.now))) }
{
    let mut text = String::new(alloc);
    json_outer(value, &NoRecords, &mut text)?;
    Ok(text)
}

// With so many spaces a level.
fn pretty(alloc: Global, value: &Value, width: usize) -> Result<String, Error>
    ensures { TellsAs string_bytes result (told (mapped (pretty_text (repeat width (codes " ")) 0) (json_data nothing_known value.now))) }
{
    let indent = " ".repeat(alloc, width)?;
    let mut text = String::new(alloc);
    pretty_outer(value, indent.as_str(), &mut text)?;
    Ok(text)
}
