//! What texts begin and end with.
ghost use Rattle.std.specs.Prelude.{◌≡◌};
ghost use Rattle.std.specs.List.{list_all, list_any};
ghost use Rattle.template_builtins_arguments.specs.Answers.{Tells};
ghost use Rattle.template_builtins_methods.specs.Ends as ends;
ghost use Rattle.template_values_core.specs.Answers.{text_in};

use crate::placed::the_argument;
use crate::reading::text_held;
use template_builtins_arguments::refusal;
use template_values_core::{Content, Value};
use template_values_errors::Error;

/// An end of a text.
#[derive(Clone, Copy)]
pub(crate) enum End {
    /// Where it begins.
    Front,
    /// Where it ends.
    Back,
}

// Whether the text has the argument, or one of the texts that it holds, at an end.
#[tactic(auto, unfolding(crate::specs::Ends::stands))]
pub(crate) fn stands(end: End, value: &Value, arguments: &[Value]) -> Result<Value, Error>
    ensures { Tells result (ends.stands end value.now arguments.now) }
{
    let part = the_argument(arguments)?;
    let text = text_held(value)?;
    Ok(Value::from_bool(given_stands(end, text, part)?))
}

#[tactic(auto, using(template_values_core::proofs::ReadLemmas::reading))]
fn given_stands(end: End, text: &str, part: &Value) -> Result<bool, Error>
    ensures { Tells result (ends.given_stands end text.now part.now) }
{
    match part.content() {
        Content::Tuple(parts) => one_stands(end, text, parts),
        Content::Text(part) | Content::SafeText(part) => Ok(stands_at(end, text, part)),
        _ => refusal(),
    }
}

fn one_stands(end: End, text: &str, parts: &[Value]) -> Result<bool, Error>
    ensures { Tells result (ends.one_stands end text.now parts.now) }
{
    if are_texts(parts) {
        Ok(any_stands(end, text, parts))
    } else {
        refusal()
    }
}

fn are_texts(parts: &[Value]) -> bool
    ensures { result ≡ list_all ends.is_a_text parts.now }
{
    parts.iter().all(|part| is_a_text(part))
}

fn is_a_text(value: &Value) -> bool
    ensures { result ≡ ends.is_a_text value.now }
{
    match value.as_str() {
        Some(_) => true,
        None => false,
    }
}

fn any_stands(end: End, text: &str, parts: &[Value]) -> bool
    ensures { result ≡ list_any (λ v. ends.text_stands end text.now (text_in v)) parts.now }
{
    parts.iter().any(|part| value_stands(end, text, part))
}

fn value_stands(end: End, text: &str, part: &Value) -> bool
    ensures { result ≡ ends.text_stands end text.now (text_in part.now) }
{
    match part.as_str() {
        Some(part) => stands_at(end, text, part),
        None => false,
    }
}

fn stands_at(end: End, text: &str, part: &str) -> bool
    ensures { result ≡ ends.stands_at end text.now part.now }
{
    match end {
        End::Front => text.as_bytes().starts_with(part.as_bytes()),
        End::Back => text.as_bytes().ends_with(part.as_bytes()),
    }
}
