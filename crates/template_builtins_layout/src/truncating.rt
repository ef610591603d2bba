//! Texts cut off at a length.
ghost use Rattle.std.specs.Prelude.{◌≡◌, IfErr, IfOk, option_copied, string_bytes};
ghost use Rattle.template_builtins_arguments.specs.Answers.{Tells, TellsAs};
ghost use Rattle.template_builtins_arguments.specs.Given.{given_by};
ghost use Rattle.template_builtins_arguments.specs.Printing.{shown};
ghost use Rattle.template_builtins_layout.specs.Filters as filters;
ghost use Rattle.template_builtins_layout.specs.Truncating as truncating;
ghost use Rattle.template_callables.specs.Views.{seen_in};
ghost use Rattle.template_values_errors.specs.Memory.{NoMemory};
ghost use Rattle.template_values_print.specs.Pieces.{encoded};

use crate::fronts::front_of;
use crate::putting::{is_safe_argument, makes_both_safe, markup_of, push_text};
use crate::reading::character_count;
use std::alloc::Global;
use template_builtins_arguments::{Arguments, PrintedForm, is_safe, printed, refusal, text_made};
use template_callables::CallView;
use template_values_core::Value;
use template_values_errors::Error;
use template_values_print::Markup;

pub(crate) fn truncate(
    alloc: Global,
    view: &CallView<'_>,
    value: &Value,
    arguments: &[Value],
) -> Result<Value, Error>
    ensures { Tells result (filters.truncate (seen_in view.now) value.now arguments.now) }
{
    let given = Arguments::read(&["length", "killwords", "end", "leeway"], 0, arguments)?;
    let text = printed(alloc, view, value)?;
    truncate_given(alloc, view, value, given, text.as_str())
}

fn truncate_given(
    alloc: Global,
    view: &CallView<'_>,
    value: &Value,
    given: Arguments<'_>,
    text: &str,
) -> Result<Value, Error>
    ensures { Tells result (filters.truncate_given (seen_in view.now) value.now (given_by given.entry) text.now) }
{
    let length = given.number(0, 255)?;
    truncate_to(alloc, view, value, given, text, length)
}

fn truncate_to(
    alloc: Global,
    view: &CallView<'_>,
    value: &Value,
    given: Arguments<'_>,
    text: &str,
    length: i128,
) -> Result<Value, Error>
    ensures { Tells result (filters.truncate_to (seen_in view.now) value.now (given_by given.entry) text.now length) }
{
    let killwords = given.flag(view, 1, false)?;
    truncate_words(alloc, view, value, given, text, length, killwords)
}

fn truncate_words(
    alloc: Global,
    view: &CallView<'_>,
    value: &Value,
    given: Arguments<'_>,
    text: &str,
    length: i128,
    killwords: bool,
) -> Result<Value, Error>
    ensures { Tells result (filters.truncate_words (seen_in view.now) value.now (given_by given.entry) text.now length killwords) }
{
    let end = end_of(alloc, view, &given)?;
    truncate_before(
        alloc,
        view,
        value,
        given,
        text,
        length,
        killwords,
        end.as_str(),
    )
}

// What stands at the end of a text that is cut off.
#[tactic(auto, unfolding(crate::specs::Filters::end_of))]
fn end_of<'a>(
    alloc: Global,
    view: &CallView<'_>,
    given: &Arguments<'a>,
) -> Result<PrintedForm<'a>, Error>
    ensures { TellsAs shown result (filters.end_of (seen_in view.now) (given_by given.now)) }
{
    given.text(alloc, view, 2, "...")
}

fn truncate_before(
    alloc: Global,
    view: &CallView<'_>,
    value: &Value,
    given: Arguments<'_>,
    text: &str,
    length: i128,
    killwords: bool,
    end: &str,
) -> Result<Value, Error>
    ensures { Tells result (filters.truncate_before (seen_in view.now) value.now (given_by given.entry) text.now length killwords end.now) }
{
    let length = length_from(length, end)?;
    let leeway = leeway_from(given.number(3, 5)?)?;
    truncated(
        alloc,
        view,
        value,
        given.at(2),
        text,
        length,
        killwords,
        end,
        leeway,
    )
}

// A length that has room for the end.
fn length_from(length: i128, end: &str) -> Result<u128, Error>
    ensures { Tells result (truncating.length_from length end.now) }
{
    if length < 0 {
        return refusal();
    }
    let length = length as u128;
    if length < character_count(end) as u128 {
        return refusal();
    }
    Ok(length)
}

fn leeway_from(leeway: i128) -> Result<u128, Error>
    ensures { Tells result (truncating.leeway_from leeway) }
{
    if leeway < 0 {
        return refusal();
    }
    Ok(leeway as u128)
}

// A text as it is where it has at most that length and the leeway, else cut off.
fn truncated(
    alloc: Global,
    view: &CallView<'_>,
    value: &Value,
    by: Option<&Value>,
    text: &str,
    length: u128,
    killwords: bool,
    end: &str,
    leeway: u128,
) -> Result<Value, Error>
    ensures made { IfOk result (λ v. v
        ≡ truncating.truncated (seen_in view.now) value.now (option_copied by.entry) text.now length killwords end.now leeway) }
    ensures refused { IfErr result NoMemory }
{
    let count = character_count(text) as u128;
    if count.saturating_sub(length) <= leeway {
        return text_made(is_safe(value), String::from_str(alloc, text)?);
    }
    let front = front_of(alloc, killwords, length as usize, end, text)?;
    let safe = makes_both_safe(view, value, by);
    ended(alloc, safe, value, by, front.as_str(), end)
}

// A text and what stands at its end, put together.
fn ended(
    alloc: Global,
    safe: bool,
    value: &Value,
    by: Option<&Value>,
    front: &str,
    end: &str,
) -> Result<Value, Error>
    ensures made { IfOk result (λ v. v ≡ truncating.ended safe value.now (option_copied by.entry) front.now end.now) }
    ensures refused { IfErr result NoMemory }
{
    let front_markup = markup_of(safe, is_safe(value));
    let end_markup = markup_of(safe, is_safe_argument(by));
    put_together(alloc, safe, front_markup, front, end_markup, end)
}

fn put_together(
    alloc: Global,
    safe: bool,
    front_markup: Markup,
    front: &str,
    end_markup: Markup,
    end: &str,
) -> Result<Value, Error>
    ensures made { IfOk result (λ v. v ≡ truncating.put_together safe (encoded front_markup) front.now (encoded end_markup) end.now) }
    ensures refused { IfErr result NoMemory }
{
    let mut out = String::new(alloc);
    push_text(&mut out, front_markup, front)?;
    push_text(&mut out, end_markup, end)?;
    text_made(safe, out)
}
