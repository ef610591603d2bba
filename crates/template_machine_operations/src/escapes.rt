//! The escape that a value names.
ghost use Rattle.std.specs.Prelude.{◌≡◌};
ghost use Rattle.template_values_core.specs.Answers.{text_in};
ghost use Rattle.template_machine_meaning.specs.Surroundings.{escape_by_word, escape_named, escape_switched_on};
ghost use Rattle.template_machine_operations.specs.Answers.{answered};

use template_values_core::Value;
use template_values_errors::{AutoEscape, Error, ErrorKind};

/// The escape that a value names, where the run began under `first`: `html`, `json` and `none` by
/// their words; that of a value equal to true is `first`, or HTML's where that is none; all other values
/// have none.
///
/// # Errors
///
/// [`ErrorKind::InvalidOperation`] at any other text.
pub fn escape_named(first: AutoEscape, value: &Value) -> Result<AutoEscape, Error>
    ensures { result ≡ answered (escape_named first value.now (text_in value.now)) }
{
    match value.as_str() {
        Some(word) => escape_by_word(word),
        None if *value == Value::from_bool(true) => Ok(escape_switched_on(first)),
        None => Ok(AutoEscape::None),
    }
}

fn escape_by_word(word: &str) -> Result<AutoEscape, Error>
    ensures { result ≡ answered (escape_by_word word.now) }
{
    if word == "html" {
        Ok(AutoEscape::Html)
    } else if word == "json" {
        Ok(AutoEscape::Json)
    } else if word == "none" {
        Ok(AutoEscape::None)
    } else {
        Err(Error::new(ErrorKind::InvalidOperation))
    }
}

fn escape_switched_on(first: AutoEscape) -> AutoEscape
    ensures { result ≡ escape_switched_on first }
{
    match first {
        AutoEscape::None => AutoEscape::Html,
        _ => first,
    }
}
