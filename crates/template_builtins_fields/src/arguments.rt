//! The arguments that fields name.
ghost use Rattle.std.specs.Prelude.{◌≡◌, option_copied};
ghost use Rattle.std.specs.Char.{is_ascii_digit};
ghost use Rattle.std.specs.List.{list_all};
ghost use Rattle.template_builtins_arguments.specs.Answers.{TellsAs};
ghost use Rattle.template_builtins_arguments.specs.Arguments as read;
ghost use Rattle.template_builtins_fields.specs.Choices as choices;

use template_builtins_arguments::refusal;
use template_values_core::{Content, Value};
use template_values_errors::Error;

// How the fields before have named their arguments: by turn, so many, or by number.
#[derive(Clone, Copy)]
pub(crate) struct Numbering {
    taken: usize,
    numbered: bool,
}

impl Numbering {
    pub(crate) fn new() -> Numbering
        ensures { result ≡ choices.no_numbering }
    {
        Numbering {
            taken: 0,
            numbered: false,
        }
    }
}

// The argument of a field, and how arguments are named from there on.
#[derive(Clone, Copy)]
pub(crate) struct Found<'a> {
    pub(crate) value: &'a Value,
    pub(crate) numbering: Numbering,
}

// The argument that a field names.
#[tactic(auto, unfolding(crate::specs::Choices::argument_for))]
pub(crate) fn argument_for<'a>(
    arguments: &'a [Value],
    numbering: Numbering,
    name: &str,
) -> Result<Found<'a>, Error>
    ensures { TellsAs choices.seen result (choices.argument_for arguments.entry.now numbering name.now) }
{
    if name.is_empty() {
        next_argument(arguments, numbering)
    } else if has_digits_alone(name) {
        numbered_argument(arguments, numbering, number_in(name))
    } else {
        answer_found(named_argument(arguments, name), numbering)
    }
}

fn answer_found<'a>(value: Option<&'a Value>, numbering: Numbering) -> Result<Found<'a>, Error>
    ensures { TellsAs choices.seen result (choices.found (option_copied value.entry) numbering) }
{
    match value {
        Some(value) => Ok(Found { value, numbering }),
        None => refusal(),
    }
}

// The next one, where none is named by number.
fn next_argument<'a>(arguments: &'a [Value], numbering: Numbering) -> Result<Found<'a>, Error>
    ensures { TellsAs choices.seen result (choices.next_argument arguments.entry.now numbering) }
{
    if numbering.numbered {
        return refusal();
    }
    match by_place(arguments).get(numbering.taken) {
        Some(value) => {
            let taken = numbering.taken + 1;
            Ok(Found {
                value,
                numbering: Numbering {
                    taken,
                    numbered: false,
                },
            })
        }
        None => refusal(),
    }
}

// That of a number, where none is taken by turn.
fn numbered_argument<'a>(
    arguments: &'a [Value],
    numbering: Numbering,
    number: Option<usize>,
) -> Result<Found<'a>, Error>
    ensures { TellsAs choices.seen result (choices.numbered_argument arguments.entry.now numbering number) }
{
    if numbering.taken > 0 {
        return refusal();
    }
    answer_found(
        placed_argument(arguments, number),
        Numbering {
            taken: 0,
            numbered: true,
        },
    )
}

fn placed_argument<'a>(arguments: &'a [Value], number: Option<usize>) -> Option<&'a Value>
    ensures { option_copied result ≡ choices.placed_argument arguments.entry.now number }
{
    by_place(arguments).get(number?)
}

// That of a keyword.
fn named_argument<'a>(arguments: &'a [Value], name: &str) -> Option<&'a Value>
    ensures { option_copied result ≡ choices.named_argument arguments.entry.now name.now }
{
    keywords_in(arguments)?.value_at(name)
}

// The keyword map that stands last.
fn keywords_in(values: &[Value]) -> Option<&Value>
    ensures { option_copied result ≡ read.keywords_in values.now }
{
    let last = values.get(values.len().saturating_sub(1))?;
    match last.content() {
        Content::KeywordMap(_) => Some(last),
        _ => None,
    }
}

// The arguments before the keyword map.
fn by_place(values: &[Value]) -> &[Value]
    ensures { result.now ≡ read.by_place values.now }
{
    match keywords_in(values) {
        Some(_) => &values[..values.len().saturating_sub(1)],
        None => values,
    }
}

fn has_digits_alone(name: &str) -> bool
    ensures { result ≡ list_all is_ascii_digit name.now }
{
    name.as_bytes().iter().all(|byte| byte.is_ascii_digit())
}

// The number that digits write, where it is one of the machine's.
fn number_in(name: &str) -> Option<usize>
    requires { choices.IsNumber name.now }
    ensures { result ≡ choices.number_in name.now }
{
    usize::from_str_radix(name, 10).ok()
}
