//! The places where a text stands in another.
ghost use Rattle.std.specs.Prelude.{◌≡◌, ◌-◌, ◌<◌, IfSome, chars, length, option_map, pos};
ghost use Rattle.std.specs.Str.{IsCharBoundary};
ghost use Rattle.template_builtins_arguments.specs.Answers.{Tells};
ghost use Rattle.template_builtins_methods.specs.Places as places;
ghost use Rattle.template_builtins_texts.specs.Replacing.{parts_between};

use crate::reading::both_texts;
use template_builtins_arguments::refusal;
use template_values_core::Value;
use template_values_errors::Error;

/// From where a text is looked for.
#[derive(Clone, Copy)]
pub(crate) enum Direction {
    /// The first place counts.
    FromStart,
    /// The last place counts.
    FromEnd,
}

// The place of the argument, or -1.
#[tactic(auto, unfolding(crate::specs::Places::found))]
pub(crate) fn found(
    direction: Direction,
    value: &Value,
    arguments: &[Value],
) -> Result<Value, Error>
    ensures { Tells result (places.found direction value.now arguments.now) }
{
    let (text, part) = both_texts(value, arguments)?;
    Ok(or_minus_one(place_in(direction, text, part)))
}

// The place of the argument, which has to stand there.
#[tactic(auto, unfolding(crate::specs::Places::indexed))]
pub(crate) fn index(value: &Value, arguments: &[Value]) -> Result<Value, Error>
    ensures { Tells result (places.indexed value.now arguments.now) }
{
    let (text, part) = both_texts(value, arguments)?;
    match place_in(Direction::FromStart, text, part) {
        Some(place) => Ok(Value::from_int(place as i128)),
        None => refusal(),
    }
}

// How often the argument stands there.
#[tactic(auto, unfolding(crate::specs::Places::counted))]
pub(crate) fn count(value: &Value, arguments: &[Value]) -> Result<Value, Error>
    ensures { Tells result (places.counted value.now arguments.now) }
{
    let (text, part) = both_texts(value, arguments)?;
    Ok(Value::from_int(times(text, part)))
}

fn or_minus_one(place: Option<usize>) -> Value
    ensures { result ≡ places.or_minus_one place }
{
    match place {
        Some(place) => Value::from_int(place as i128),
        None => Value::from_int(-1),
    }
}

// The place in characters.
#[tactic(auto, unfolding(crate::specs::Places::place_in))]
fn place_in(direction: Direction, text: &str, part: &str) -> Option<usize>
    ensures { result ≡ places.place_in direction text.now part.now }
{
    match direction {
        Direction::FromStart => Some(characters_before(text, first_place(text, part)?)),
        Direction::FromEnd => Some(characters_before(text, last_place(text, part)?)),
    }
}

#[tactic(auto, using(crate::proofs::Finding::first_is, crate::proofs::Finding::first_boundary))]
fn first_place(text: &str, part: &str) -> Option<usize>
    ensures place { result ≡ places.first_place part.now text.now }
    ensures boundary { IfSome result (IsCharBoundary text.now) }
{
    text.find(part)
}

#[tactic(auto, using(crate::proofs::Finding::last_is, crate::proofs::Finding::last_boundary))]
fn last_place(text: &str, part: &str) -> Option<usize>
    ensures place { result ≡ places.last_place part.now text.now }
    ensures boundary { IfSome result (IsCharBoundary text.now) }
{
    text.rfind(part)
}

#[tactic(auto, using(crate::proofs::Finding::front_counted))]
fn characters_before(text: &str, place: usize) -> usize
    requires { IsCharBoundary text.now place }
    ensures { result ≡ places.characters_before text.now place }
{
    character_count(&text[..place])
}

fn character_count(text: &str) -> usize
    ensures { result ≡ length (chars text.now) }
{
    text.chars().count()
}

// How often the part stands in the text.
#[tactic(auto, unfolding(crate::specs::Places::times))]
fn times(text: &str, part: &str) -> i128
    ensures { result ≡ pos (places.times text.now part.now) }
{
    if part.is_empty() {
        character_count(text) as i128 + 1
    } else {
        times_apart(text, part) as i128
    }
}

// The same of a part that is not empty.
fn times_apart(text: &str, part: &str) -> usize
    requires { 0 < length part.now }
    ensures { result ≡ length (parts_between part.now (length text.now) text.now) - 1 }
{
    let mut count = 0;
    let mut rest = text;
    while let Some((_, after)) = rest.split_once(part) {
        count += 1;
        rest = after;
    }
    count
}
