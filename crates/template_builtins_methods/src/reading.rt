//! What the methods of texts read.
ghost use Rattle.template_builtins_arguments.specs.Answers.{TellsAs};
ghost use Rattle.template_builtins_methods.specs.Reading as reading;

use crate::placed::the_argument;
use template_builtins_arguments::{Arguments, refusal};
use template_values_core::Value;
use template_values_errors::Error;

// The text that a value is.
pub(crate) fn text_held(value: &Value) -> Result<&str, Error>
    ensures { TellsAs (λ s. s.now) result (reading.text_held value.entry.now) }
{
    match value.as_str() {
        Some(text) => Ok(text),
        None => refusal(),
    }
}

// The text, where no argument is given.
#[tactic(auto, unfolding(crate::specs::Reading::lone_text))]
pub(crate) fn lone_text<'a>(value: &'a Value, arguments: &[Value]) -> Result<&'a str, Error>
    ensures { TellsAs (λ s. s.now) result (reading.lone_text value.entry.now arguments.now) }
{
    Arguments::read(&[], 0, arguments)?;
    text_held(value)
}

// The text and the one argument, which is a text too.
#[tactic(auto, unfolding(crate::specs::Reading::both_texts))]
pub(crate) fn both_texts<'a>(
    value: &'a Value,
    arguments: &'a [Value],
) -> Result<(&'a str, &'a str), Error>
    ensures { TellsAs (λ texts. (texts.0.now, texts.1.now)) result (reading.both_texts value.entry.now arguments.entry.now) }
{
    let part = the_argument(arguments)?;
    let text = text_held(value)?;
    Ok((text, text_held(part)?))
}
