//! Texts without another at an end.
ghost use Rattle.std.specs.Prelude.{◌≡◌};
ghost use Rattle.template_builtins_arguments.specs.Answers.{Tells};
ghost use Rattle.template_builtins_pieces.specs.Affixes as affixes;

use crate::reading::{placed, plain_text, text_argument};
use std::alloc::Global;
use template_values_core::Value;
use template_values_errors::Error;

pub(crate) fn remove_prefix(
    alloc: Global,
    value: &Value,
    arguments: &[Value],
) -> Result<Value, Error>
    ensures { Tells result (affixes.remove_prefix value.now arguments.now) }
{
    let given = placed(&["prefix"], 1, arguments)?;
    let text = plain_text(value)?;
    let prefix = text_argument(given.at(0))?;
    Value::from_str(alloc, without_prefix(prefix, text))
}

pub(crate) fn remove_suffix(
    alloc: Global,
    value: &Value,
    arguments: &[Value],
) -> Result<Value, Error>
    ensures { Tells result (affixes.remove_suffix value.now arguments.now) }
{
    let given = placed(&["suffix"], 1, arguments)?;
    let text = plain_text(value)?;
    let suffix = text_argument(given.at(0))?;
    Value::from_str(alloc, without_suffix(suffix, text))
}

// Without the text at its start, if it stands there.
fn without_prefix<'a>(prefix: &str, text: &'a str) -> &'a str
    ensures { result.now ≡ affixes.without_prefix prefix.now text.entry.now }
{
    match text.strip_prefix(prefix) {
        Some(rest) => rest,
        None => text,
    }
}

// Without the text at its end, if it stands there.
fn without_suffix<'a>(suffix: &str, text: &'a str) -> &'a str
    ensures { result.now ≡ affixes.without_suffix suffix.now text.entry.now }
{
    match text.strip_suffix(suffix) {
        Some(rest) => rest,
        None => text,
    }
}
