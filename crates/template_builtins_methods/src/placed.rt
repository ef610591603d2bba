//! Arguments by place alone.
ghost use Rattle.std.specs.Prelude.{◌≡◌, [], Some, option_copied};
ghost use Rattle.template_builtins_arguments.specs.Answers.{TellsAs};
ghost use Rattle.template_builtins_arguments.specs.Arguments as read;
ghost use Rattle.template_builtins_methods.specs.Placed as places;

use template_values_core::{Content, Value};
use template_values_errors::{Error, ErrorKind};

// The arguments, from so many to so many.
#[tactic(auto, unfolding(crate::specs::Placed::placed))]
pub(crate) fn placed(least: usize, most: usize, arguments: &[Value]) -> Result<&[Value], Error>
    ensures { TellsAs (λ given. given.now) result (places.placed least most arguments.entry.now) }
{
    let given = by_place(arguments);
    if given.len() > most || !names_none(arguments) {
        return Err(Error::new(ErrorKind::TooManyArguments));
    }
    if given.len() < least {
        return Err(Error::new(ErrorKind::MissingArgument));
    }
    Ok(given)
}

// The one argument.
pub(crate) fn the_argument(arguments: &[Value]) -> Result<&Value, Error>
    ensures { TellsAs (λ v. v.now) result (places.the_argument arguments.entry.now) }
{
    first_of(placed(1, 1, arguments)?)
}

// The one argument, where it is given.
pub(crate) fn argument_or_none(arguments: &[Value]) -> Result<Option<&Value>, Error>
    ensures { TellsAs option_copied result (places.argument_or_none arguments.entry.now) }
{
    Ok(placed(0, 1, arguments)?.first())
}

// The first of the arguments.
pub(crate) fn first_of(given: &[Value]) -> Result<&Value, Error>
    ensures { TellsAs (λ v. v.now) result (places.first_of given.entry.now) }
{
    match given.first() {
        Some(value) => Ok(value),
        None => Err(Error::new(ErrorKind::MissingArgument)),
    }
}

// The keyword map that stands last.
fn keywords_in(arguments: &[Value]) -> Option<&Value>
    ensures { option_copied result ≡ read.keywords_in arguments.now }
{
    let last = arguments.get(arguments.len().saturating_sub(1))?;
    match last.content() {
        Content::KeywordMap(_) => Some(last),
        _ => None,
    }
}

// The arguments before it.
fn by_place(arguments: &[Value]) -> &[Value]
    ensures { result.now ≡ read.by_place arguments.now }
{
    match keywords_in(arguments) {
        Some(_) => &arguments[..arguments.len().saturating_sub(1)],
        None => arguments,
    }
}

// Whether no argument is given by keyword.
fn names_none(arguments: &[Value]) -> bool
    ensures { result ≡ read.has_known [] (read.keywords_in arguments.now) }
{
    match keywords_in(arguments) {
        Some(keywords) => is_bare(keywords),
        None => true,
    }
}

// Whether a keyword map has no entry.
#[tactic(auto, using(crate::proofs::Bare::bare))]
fn is_bare(keywords: &Value) -> bool
    ensures { result ≡ read.has_known [] (Some keywords.now) }
{
    match keywords.content() {
        Content::KeywordMap(entries) => entries.is_empty(),
        _ => true,
    }
}
