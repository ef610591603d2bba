//! What Python's methods of texts read.
ghost use Rattle.std.specs.Prelude.{◌≡◌, ◌≤◌, ◌+◌, Some, length, option_copied};
ghost use Rattle.template_builtins_arguments.specs.Answers.{TellsAs};
ghost use Rattle.template_builtins_arguments.specs.Given.{given_by, names_of};
ghost use Rattle.template_builtins_pieces.specs.Reading as reading;
ghost use Rattle.template_builtins_texts.specs.Replacing.{places_up_to};

use template_builtins_arguments::{Arguments, refusal};
use template_values_core::{Content, Value};
use template_values_errors::{Error, ErrorKind};

// Reads arguments that are given by place alone, the first `needed` of which have no default.
pub(crate) fn placed<'a>(
    names: &'a [&'a str],
    needed: usize,
    values: &'a [Value],
) -> Result<Arguments<'a>, Error>
    ensures { TellsAs given_by result (reading.placed (names_of names.entry.now) needed values.entry.now) }
{
    if has_keywords(values.get(values.len().saturating_sub(1))) {
        return Err(Error::new(ErrorKind::TooManyArguments));
    }
    Arguments::read(names, needed, values)
}

// Whether what stands last gives an argument by keyword.
fn has_keywords(last: Option<&Value>) -> bool
    ensures { result ≡ reading.has_keywords (option_copied last.entry) }
{
    let Some(last) = last else {
        return false;
    };
    match last.content() {
        Content::KeywordMap(entries) => !entries.is_empty(),
        _ => false,
    }
}

// The text of a value that is one.
pub(crate) fn plain_text(value: &Value) -> Result<&str, Error>
    ensures { TellsAs (λ s. s.now) result (reading.plain_text value.now) }
{
    match value.as_str() {
        Some(text) => Ok(text),
        None => refusal(),
    }
}

// An argument that is a text.
pub(crate) fn text_argument<'a>(given: Option<&'a Value>) -> Result<&'a str, Error>
    ensures { TellsAs (λ s. s.now) result (reading.text_argument (option_copied given.entry)) }
{
    match given {
        Some(value) => plain_text(value),
        None => Err(Error::new(ErrorKind::MissingArgument)),
    }
}

// How often a text is cut at most. A number below 0 is no limit.
pub(crate) fn cuts_up_to(count: i128, text: &str) -> usize
    ensures is { result ≡ places_up_to (Some count) text.now }
    ensures bound { result ≤ length text.now + 1 }
{
    let all = text.len() + 1;
    if count < 0 || count > all as i128 {
        return all;
    }
    count as usize
}
