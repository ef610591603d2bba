//! The filter that breaks texts into lines.
ghost use Rattle.std.specs.Prelude.{◌≡◌, IfErr, IfOk, option_copied};
ghost use Rattle.template_builtins_arguments.specs.Answers.{Tells, TellsAs};
ghost use Rattle.template_builtins_arguments.specs.Given.{given_by};
ghost use Rattle.template_builtins_arguments.specs.Printing.{shown};
ghost use Rattle.template_builtins_arguments.specs.Texts as texts;
ghost use Rattle.template_builtins_layout.specs.Filters as filters;
ghost use Rattle.template_builtins_layout.specs.Wrapping as wrapping;
ghost use Rattle.template_callables.specs.Views.{seen_in};
ghost use Rattle.template_values_errors.specs.Memory.{NoMemory};
ghost use Rattle.template_values_print.specs.Pieces.{encoded};

use crate::putting::{is_safe_argument, makes_both_safe, markup_of, put_in};
use crate::reading::width_of;
use crate::wrapping::{Layout, wrapped};
use std::alloc::Global;
use template_builtins_arguments::{Arguments, PrintedForm, is_safe, printed, text_made};
use template_callables::CallView;
use template_values_core::Value;
use template_values_errors::Error;
use template_values_print::Markup;

pub(crate) fn word_wrap(
    alloc: Global,
    view: &CallView<'_>,
    value: &Value,
    arguments: &[Value],
) -> Result<Value, Error>
    ensures { Tells result (filters.word_wrap (seen_in view.now) value.now arguments.now) }
{
    let given = Arguments::read(&["width", "break_long_words", "wrapstring"], 0, arguments)?;
    let text = printed(alloc, view, value)?;
    wrap_given(alloc, view, value, given, text.as_str())
}

fn wrap_given(
    alloc: Global,
    view: &CallView<'_>,
    value: &Value,
    given: Arguments<'_>,
    text: &str,
) -> Result<Value, Error>
    ensures { Tells result (filters.wrap_given (seen_in view.now) value.now (given_by given.entry) text.now) }
{
    let width = width_of(&given, 79)?;
    wrap_at(alloc, view, value, given, text, width)
}

fn wrap_at(
    alloc: Global,
    view: &CallView<'_>,
    value: &Value,
    given: Arguments<'_>,
    text: &str,
    width: usize,
) -> Result<Value, Error>
    ensures { Tells result (filters.wrap_at (seen_in view.now) value.now (given_by given.entry) text.now width) }
{
    let cuts = given.flag(view, 1, true)?;
    wrap_by(alloc, view, value, given, text, width, cuts)
}

fn wrap_by(
    alloc: Global,
    view: &CallView<'_>,
    value: &Value,
    given: Arguments<'_>,
    text: &str,
    width: usize,
    cuts: bool,
) -> Result<Value, Error>
    ensures { Tells result (filters.wrap_by (seen_in view.now) value.now (given_by given.entry) text.now width cuts) }
{
    let wrap = wrapstring_of(alloc, view, &given)?;
    let by = given.at(2);
    let safe = makes_both_safe(view, value, by);
    wrapped_text(alloc, safe, value, by, text, width, cuts, wrap.as_str())
}

// What stands between lines.
#[tactic(auto, unfolding(crate::specs::Filters::wrapstring_of))]
fn wrapstring_of<'a>(
    alloc: Global,
    view: &CallView<'_>,
    given: &Arguments<'a>,
) -> Result<PrintedForm<'a>, Error>
    ensures { TellsAs shown result (filters.wrapstring_of (seen_in view.now) (given_by given.now)) }
{
    given.text(alloc, view, 2, "\n")
}

// The lines of a text put together with what stands between them.
fn wrapped_text(
    alloc: Global,
    safe: bool,
    value: &Value,
    by: Option<&Value>,
    text: &str,
    width: usize,
    cuts: bool,
    wrap: &str,
) -> Result<Value, Error>
    ensures made { IfOk result (λ v. v ≡ wrapping.wrapped_text safe value.now (option_copied by.entry) text.now width cuts wrap.now) }
    ensures refused { IfErr result NoMemory }
{
    let wrap = put_in(alloc, safe, is_safe_argument(by), wrap)?;
    let markup = markup_of(safe, is_safe(value));
    laid_out(alloc, safe, markup, text, width.max(1), cuts, wrap.as_str())
}

fn laid_out(
    alloc: Global,
    safe: bool,
    markup: Markup,
    text: &str,
    width: usize,
    cuts: bool,
    wrap: &str,
) -> Result<Value, Error>
    ensures made { IfOk result (λ v. v ≡ texts.text_made safe (wrapping.wrapped (encoded markup) wrap.now width cuts text.now)) }
    ensures refused { IfErr result NoMemory }
{
    let layout = Layout {
        markup,
        wrap,
        width,
        cuts,
    };
    text_made(safe, wrapped(alloc, layout, text)?)
}
