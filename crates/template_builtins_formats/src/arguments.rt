//! Arguments that all stand by place.
ghost use Rattle.std.specs.Prelude.{◌≡◌, [], option_copied};
ghost use Rattle.template_builtins_arguments.specs.Answers.{TellsAs};
ghost use Rattle.template_builtins_arguments.specs.Arguments.{are_known, by_place, has_known, keywords_in};
ghost use Rattle.template_builtins_formats.specs.Arguments as arguments;
ghost use Rattle.template_values_core.specs.Maps.{pairs_of};
ghost use Rattle.template_values_core.specs.Shape.{pairs_in};

use template_values_core::{Content, Entry, Value};
use template_values_errors::{Error, ErrorKind};

/// The arguments, which all stand by place.
///
/// # Errors
///
/// [`ErrorKind::TooManyArguments`], if one is given by keyword.
#[tactic(auto, unfolding(crate::specs::Arguments::all_by_place))]
pub(crate) fn all_by_place(values: &[Value]) -> Result<&[Value], Error>
    ensures { TellsAs (λ all. all.now) result (arguments.all_by_place values.now) }
{
    if has_no_keyword(values) {
        Ok(by_place(values))
    } else {
        Err(Error::new(ErrorKind::TooManyArguments))
    }
}

// Whether no argument stands by keyword.
fn has_no_keyword(values: &[Value]) -> bool
    ensures { result ≡ has_known [] (keywords_in values.now) }
{
    match keywords_in(values) {
        Some(keywords) => match keywords.content() {
            Content::KeywordMap(entries) => is_empty(entries),
            _ => true,
        },
        None => true,
    }
}

#[tactic(auto, using(crate::proofs::Keywords::known_of_none))]
fn is_empty(entries: &[Entry]) -> bool
    ensures { result ≡ are_known [] (pairs_of (pairs_in entries.now)) }
{
    entries.is_empty()
}

// The arguments before the keyword map.
fn by_place(values: &[Value]) -> &[Value]
    ensures { result.now ≡ by_place values.now }
{
    match keywords_in(values) {
        Some(_) => &values[..values.len().saturating_sub(1)],
        None => values,
    }
}

// The keyword map that stands last.
fn keywords_in(values: &[Value]) -> Option<&Value>
    ensures { option_copied result ≡ keywords_in values.now }
{
    let last = values.get(values.len().saturating_sub(1))?;
    match last.content() {
        Content::KeywordMap(_) => Some(last),
        _ => None,
    }
}
