//! Texts in the middle of a width.
ghost use Rattle.std.specs.Prelude.{◌≡◌, ◌≤◌, ◌++◌, IfOk, OnOk, string_bytes};
ghost use Rattle.template_builtins_arguments.specs.Answers.{Tells};
ghost use Rattle.template_builtins_arguments.specs.Given.{given_by};
ghost use Rattle.template_builtins_layout.specs.Centers.{centered, spaces, spaces_before};
ghost use Rattle.template_builtins_layout.specs.Filters as filters;
ghost use Rattle.template_callables.specs.Views.{seen_in};

use crate::reading::{character_count, width_of};
use std::alloc::{AllocError, Global};
use template_builtins_arguments::{Arguments, is_safe, printed, text_made};
use template_callables::CallView;
use template_values_core::Value;
use template_values_errors::Error;

pub(crate) fn center(
    alloc: Global,
    view: &CallView<'_>,
    value: &Value,
    arguments: &[Value],
) -> Result<Value, Error>
    ensures { Tells result (filters.center (seen_in view.now) value.now arguments.now) }
{
    let given = Arguments::read(&["width"], 0, arguments)?;
    let text = printed(alloc, view, value)?;
    center_given(alloc, value, given, text.as_str())
}

fn center_given(
    alloc: Global,
    value: &Value,
    given: Arguments<'_>,
    text: &str,
) -> Result<Value, Error>
    ensures { Tells result (filters.center_given value.now (given_by given.entry) text.now) }
{
    let width = width_of(&given, 80)?;
    text_made(is_safe(value), centered(alloc, width, text)?)
}

// The text in the middle of so many characters.
#[tactic(auto, unfolding(crate::specs::Centers::centered))]
fn centered(alloc: Global, width: usize, text: &str) -> Result<String, AllocError>
    ensures { IfOk result (λ t. string_bytes t ≡ centered width text.now) }
{
    let left = width.saturating_sub(character_count(text));
    let before = spaces_before(width, left);
    let mut out = String::new(alloc);
    push_spaces(alloc, &mut out, before)?;
    out.push_str(text)?;
    push_spaces(alloc, &mut out, left - before)?;
    Ok(out)
}

// How many spaces stand before a text, of so many that are left of a width.
fn spaces_before(width: usize, left: usize) -> usize
    ensures value { result ≡ spaces_before width left }
    ensures within { result ≤ left }
{
    if left % 2 == 1 && width % 2 == 1 {
        left / 2 + 1
    } else {
        left / 2
    }
}

fn push_spaces(alloc: Global, out: &mut String, count: usize) -> Result<(), AllocError>
    ensures { OnOk result (string_bytes out.new ≡ string_bytes out.old ++ spaces count) }
{
    let spaces = " ".repeat(alloc, count)?;
    out.push_str(spaces.as_str())
}
