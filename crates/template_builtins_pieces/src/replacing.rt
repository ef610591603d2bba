//! A text in another's places.
ghost use Rattle.std.specs.Prelude.{◌≡◌, IfOk, string_bytes};
ghost use Rattle.template_builtins_arguments.specs.Answers.{Tells};
ghost use Rattle.template_builtins_arguments.specs.Given.{given_by};
ghost use Rattle.template_builtins_pieces.specs.Replacing as replacing;
ghost use Rattle.template_builtins_texts.specs.Replacing.{replaced};

use crate::reading::{cuts_up_to, placed, plain_text, text_argument};
use std::alloc::{AllocError, Global};
use template_builtins_arguments::Arguments;
use template_values_core::Value;
use template_values_errors::Error;

pub(crate) fn replace(alloc: Global, value: &Value, arguments: &[Value]) -> Result<Value, Error>
    ensures { Tells result (replacing.replace value.now arguments.now) }
{
    let given = placed(&["old", "new", "count"], 2, arguments)?;
    let text = plain_text(value)?;
    let old = text_argument(given.at(0))?;
    let new = text_argument(given.at(1))?;
    replace_new(alloc, text, old, new, given)
}

fn replace_new(
    alloc: Global,
    text: &str,
    old: &str,
    new: &str,
    given: Arguments<'_>,
) -> Result<Value, Error>
    ensures { Tells result (replacing.replace_new text.now old.now new.now (given_by given.entry 2)) }
{
    let limit = cuts_up_to(given.number(2, -1)?, text);
    Value::from_text(replaced(alloc, text, old, new, limit)?)
}

// Each `old` from the left by `new`, at most so often.
fn replaced(
    alloc: Global,
    text: &str,
    old: &str,
    new: &str,
    limit: usize,
) -> Result<String, AllocError>
    ensures { IfOk result (λ t. string_bytes t ≡ replaced (λ s. s) old.now new.now limit text.now) }
{
    text.replacen(alloc, old, new, limit)
}
