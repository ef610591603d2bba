//! Layouts of fields: fill, alignment, zero, width and kind.
ghost use Rattle.std.specs.Prelude.{◌≡◌, ◌<◌, IfErr, IfOk, IfSome, chars, length};
ghost use Rattle.template_builtins_arguments.specs.Answers.{Tells, TellsAs};
ghost use Rattle.template_builtins_fields.specs.Layouts as layouts;
ghost use Rattle.template_values_errors.specs.Memory.{NoMemory};

use crate::numerals::Base;
use std::alloc::Global;
use template_builtins_arguments::refusal;
use template_values_errors::Error;

// The greatest width of a field.
const GREATEST_WIDTH: usize = 16_777_216;

// Where a text stands in its width.
#[derive(Clone, Copy)]
pub(crate) enum Alignment {
    Left,
    Right,
    Center,
    // A sign at the left and digits at the right.
    Apart,
}

// How a value is shown.
#[derive(Clone, Copy)]
pub(crate) enum Kind {
    // A number as its digits, another value as it is printed.
    Any,
    Printed,
    Number(Base),
}

// What stands behind a field's colon.
#[derive(Clone, Copy)]
pub(crate) struct Layout {
    pub(crate) fill: Option<char>,
    pub(crate) alignment: Option<Alignment>,
    pub(crate) zero: bool,
    pub(crate) width: usize,
    pub(crate) kind: Kind,
}

// The layout that a text writes.
#[tactic(auto, unfolding(crate::specs::Layouts::layout_in))]
pub(crate) fn layout_in(alloc: Global, text: &str) -> Result<Layout, Error>
    ensures { Tells result (layouts.layout_in text.now) }
{
    let characters = characters(alloc, text)?;
    layout_of(&characters)
}

fn characters(alloc: Global, text: &str) -> Result<Vec<char>, Error>
    ensures made { IfOk result (λ v. v.items ≡ chars text.now) }
    ensures refused { IfErr result NoMemory }
{
    Ok(text.chars().collect(alloc)?)
}

#[tactic(auto, unfolding(crate::specs::Layouts::layout_of))]
fn layout_of(characters: &[char]) -> Result<Layout, Error>
    ensures { Tells result (layouts.layout_of characters.now) }
{
    let front = front_of(characters);
    let (zero, digits) = without_zero(front.rest);
    let (width, last) = width_in(digits)?;
    let kind = kind_of(last)?;
    Ok(Layout {
        fill: front.fill,
        alignment: front.alignment,
        zero,
        width,
        kind,
    })
}

// Fill and alignment, and what is behind them.
#[derive(Clone, Copy)]
struct Front<'a> {
    fill: Option<char>,
    alignment: Option<Alignment>,
    rest: &'a [char],
}

// An alignment behind a character that fills, or an alignment alone.
#[tactic(auto, unfolding(crate::specs::Layouts::front_of))]
fn front_of(characters: &[char]) -> Front<'_>
    ensures { layouts.front_seen result ≡ layouts.front_of characters.now }
{
    if let Some(alignment) = alignment_at(characters, 1) {
        let fill = Some(characters[0]);
        return Front {
            fill,
            alignment: Some(alignment),
            rest: &characters[2..],
        };
    }
    if let Some(alignment) = alignment_at(characters, 0) {
        return Front {
            fill: None,
            alignment: Some(alignment),
            rest: &characters[1..],
        };
    }
    Front {
        fill: None,
        alignment: None,
        rest: characters,
    }
}

#[tactic(auto, unfolding(crate::specs::Layouts::alignment_at))]
fn alignment_at(characters: &[char], place: usize) -> Option<Alignment>
    ensures is { result ≡ layouts.alignment_at characters.now place }
    ensures bound { IfSome result (λ a. place < length characters.now) }
{
    alignment_for(*characters.get(place)?)
}

fn alignment_for(character: char) -> Option<Alignment>
    ensures { result ≡ layouts.alignment_for character }
{
    match character {
        '<' => Some(Alignment::Left),
        '>' => Some(Alignment::Right),
        '^' => Some(Alignment::Center),
        '=' => Some(Alignment::Apart),
        _ => None,
    }
}

// Whether there is a zero at the front, and what is behind it.
fn without_zero(characters: &[char]) -> (bool, &[char])
    ensures { layouts.zero_seen result ≡ layouts.without_zero characters.now }
{
    match characters {
        ['0', rest @ ..] => (true, rest),
        _ => (false, characters),
    }
}

// The width that digits write, and what is behind them.
fn width_in(characters: &[char]) -> Result<(usize, &[char]), Error>
    ensures { TellsAs layouts.width_seen result (layouts.width_in characters.now) }
{
    let mut width = 0;
    let mut rest = characters;
    'digits: while let [first, behind @ ..] = rest {
        let Some(digit) = digit_of(*first) else {
            return Ok((width, rest));
        };
        width = width * 10 + digit;
        if width > GREATEST_WIDTH {
            return refusal();
        }
        rest = behind;
    }
    Ok((width, rest))
}

fn digit_of(character: char) -> Option<usize>
    ensures is { result ≡ layouts.digit_of character }
    ensures bound { IfSome result (λ d. d < 10) }
{
    if character.is_ascii_digit() {
        Some(character as usize - '0' as usize)
    } else {
        None
    }
}

// The kind that one character names; without one, any.
fn kind_of(characters: &[char]) -> Result<Kind, Error>
    ensures { Tells result (layouts.kind_of characters.now) }
{
    match characters {
        [] => Ok(Kind::Any),
        [name] => kind_named(*name),
        _ => refusal(),
    }
}

fn kind_named(name: char) -> Result<Kind, Error>
    ensures { Tells result (layouts.kind_named name) }
{
    match name {
        's' => Ok(Kind::Printed),
        'd' => Ok(Kind::Number(Base::Decimal)),
        'x' => Ok(Kind::Number(Base::LowerHex)),
        'X' => Ok(Kind::Number(Base::UpperHex)),
        'o' => Ok(Kind::Number(Base::Octal)),
        'b' => Ok(Kind::Number(Base::Binary)),
        _ => refusal(),
    }
}
