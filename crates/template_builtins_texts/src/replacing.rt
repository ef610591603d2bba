//! A text in another's places.
ghost use Rattle.std.specs.Prelude.{◌≡◌, ℕ, ◌++◌, ◌∷◌, [], ◌<◌, IfErr, IfOk, MatchOption, OnOk, chars, length, option_copied, string_bytes};
ghost use Rattle.std.specs.Char.{encode_utf8};
ghost use Rattle.std.specs.List.{join_by};
ghost use Rattle.template_builtins_arguments.specs.Answers.{Tells};
ghost use Rattle.template_builtins_arguments.specs.Given.{given_by};
ghost use Rattle.template_builtins_arguments.specs.Texts as texts;
ghost use Rattle.template_builtins_texts.specs.Filters as filters;
ghost use Rattle.template_builtins_texts.specs.Replacing.{parts_between, places_up_to, replaced, spread};
ghost use Rattle.template_callables.specs.Views.{seen_in};
ghost use Rattle.template_values_errors.specs.Memory.{NoMemory};
ghost use Rattle.template_values_print.specs.Pieces.{encoded};

use crate::characters::split_text;
use crate::reading::{is_safe_argument, makes_both_safe, markup_of, push_text, put_in, text_or};
use std::alloc::Global;
use template_builtins_arguments::{Arguments, is_safe, printed, text_made};
use template_callables::CallView;
use template_values_core::Value;
use template_values_errors::Error;
use template_values_print::Markup;

pub(crate) fn replace(
    alloc: Global,
    view: &CallView<'_>,
    value: &Value,
    arguments: &[Value],
) -> Result<Value, Error>
    ensures { Tells result (filters.replace (seen_in view.now) value.now arguments.now) }
{
    let given = Arguments::read(&["old", "new", "count"], 2, arguments)?;
    let text = printed(alloc, view, value)?;
    replace_given(alloc, view, value, given, text.as_str())
}

fn replace_given(
    alloc: Global,
    view: &CallView<'_>,
    value: &Value,
    given: Arguments<'_>,
    text: &str,
) -> Result<Value, Error>
    ensures { Tells result (filters.replace_given (seen_in view.now) value.now (given_by given.entry) text.now) }
{
    let old = text_or(alloc, view, given.at(0), "")?;
    replace_old(alloc, view, value, given, text, old.as_str())
}

fn replace_old(
    alloc: Global,
    view: &CallView<'_>,
    value: &Value,
    given: Arguments<'_>,
    text: &str,
    old: &str,
) -> Result<Value, Error>
    ensures { Tells result (filters.replace_old (seen_in view.now) value.now (given_by given.entry) text.now old.now) }
{
    let new = text_or(alloc, view, given.at(1), "")?;
    replace_by(alloc, view, value, given, text, old, new.as_str())
}

fn replace_by(
    alloc: Global,
    view: &CallView<'_>,
    value: &Value,
    given: Arguments<'_>,
    text: &str,
    old: &str,
    new: &str,
) -> Result<Value, Error>
    ensures { Tells result (filters.replace_by (seen_in view.now) value.now (given_by given.entry) text.now old.now new.now) }
{
    let count = given.optional_number(2)?;
    let by = given.at(1);
    let safe = makes_both_safe(view, value, by);
    replace_in(alloc, safe, value, by, text, old, new, count)
}

// Each `old` of a text by `new`, at most so often.
fn replace_in(
    alloc: Global,
    safe: bool,
    value: &Value,
    by: Option<&Value>,
    text: &str,
    old: &str,
    new: &str,
    count: Option<i128>,
) -> Result<Value, Error>
    ensures made { IfOk result (λ v. v ≡ filters.replace_in safe value.now (option_copied by.entry) text.now old.now new.now count) }
    ensures refused { IfErr result NoMemory }
{
    let new = put_in(alloc, safe, is_safe_argument(by), new)?;
    let markup = markup_of(safe, is_safe(value));
    let limit = places_up_to(count, text);
    replace_text(alloc, safe, markup, text, old, new.as_str(), limit)
}

fn replace_text(
    alloc: Global,
    safe: bool,
    markup: Markup,
    text: &str,
    old: &str,
    new: &str,
    limit: u128,
) -> Result<Value, Error>
    ensures made { IfOk result (λ v. v ≡ texts.text_made safe (replaced (encoded markup) old.now new.now limit text.now)) }
    ensures refused { IfErr result NoMemory }
{
    text_made(safe, replaced(alloc, markup, text, old, new, limit)?)
}

// How often something is replaced at most. A number below 0 is no limit.
fn places_up_to(count: Option<i128>, text: &str) -> u128
    ensures { result ≡ places_up_to count text.now }
{
    let all = text.len() as u128 + 1;
    match count {
        Some(count) if count >= 0 => (count as u128).min(all),
        _ => all,
    }
}

// Each `old` from the left by `new`, at most so often.
#[tactic(auto, unfolding(crate::specs::Replacing::replaced))]
fn replaced(
    alloc: Global,
    markup: Markup,
    text: &str,
    old: &str,
    new: &str,
    limit: u128,
) -> Result<String, Error>
    ensures made { IfOk result (λ t. string_bytes t ≡ replaced (encoded markup) old.now new.now limit text.now) }
    ensures refused { IfErr result NoMemory }
{
    let mut out = String::new(alloc);
    if old.is_empty() {
        push_spread(&mut out, markup, text, new, limit)?;
    } else {
        push_replaced(&mut out, markup, text, old, new, limit)?;
    }
    Ok(out)
}

fn push_replaced(
    out: &mut String,
    markup: Markup,
    text: &str,
    old: &str,
    new: &str,
    limit: u128,
) -> Result<(), Error>
    requires { 0 < length old.now }
    ensures made { OnOk result (string_bytes out.new ≡ string_bytes out.old
        ++ join_by (encoded markup) new.now (parts_between old.now limit text.now)) }
    ensures refused { IfErr result NoMemory }
{
    let mut rest = text;
    let mut left = limit;
    while 0 < left {
        let Some((before, after)) = rest.split_once(old) else {
            return push_text(out, markup, rest);
        };
        push_text(out, markup, before)?;
        push_text(out, Markup::Plain, new)?;
        rest = after;
        left -= 1;
    }
    push_text(out, markup, rest)
}

// Puts `new` before each character and at the end, at most so often.
fn push_spread(
    out: &mut String,
    markup: Markup,
    text: &str,
    new: &str,
    limit: u128,
) -> Result<(), Error>
    ensures made { OnOk result (string_bytes out.new ≡ string_bytes out.old ++ spread (encoded markup) new.now limit (chars text.now)) }
    ensures refused { IfErr result NoMemory }
{
    let mut rest = text;
    let mut left = limit;
    while 0 < left {
        push_text(out, Markup::Plain, new)?;
        left -= 1;
        let Some((first, after)) = split_text(rest) else {
            return Ok(());
        };
        push_text(out, markup, first)?;
        rest = after;
    }
    push_text(out, markup, rest)
}
