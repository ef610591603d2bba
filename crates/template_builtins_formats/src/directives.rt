//! Directives: what stands behind a `%` of a format.
ghost use Rattle.std.specs.Prelude.{◌≡◌, ◌<◌, ◌≤◌, IfOk, length};
ghost use Rattle.std.specs.Char.{digit_value};
ghost use Rattle.std.specs.Str.{IsUtf8};
ghost use Rattle.template_builtins_arguments.specs.Answers.{Tells, TellsAs};
ghost use Rattle.template_builtins_formats.specs.Directives as directives;
ghost use Rattle.template_builtins_formats.specs.Seen.{seen};

use crate::parts::{Part, split_part};
use template_builtins_arguments::refusal;
use template_values_errors::{Error, ErrorKind};

/// The greatest width and precision.
pub const GREATEST_WIDTH: usize = 16_777_216;

// No digit counts so much in a base.
const GREATEST_BASE: u32 = 36;

/// The flags of a directive.
#[derive(Clone, Copy)]
pub(crate) struct Flags {
    /// `-`: the spaces that fill up the width stand behind.
    pub(crate) left: bool,
    /// `0`: zeros fill a number up to the width.
    pub(crate) zero: bool,
    /// `+`: a number that is not negative has a sign too.
    pub(crate) plus: bool,
    /// `#`: a number has the mark of its base, and a point even where no digit is behind it.
    pub(crate) alternate: bool,
    /// A space: a number without a sign has a space in its place.
    pub(crate) space: bool,
}

/// How the digits of a whole number are written.
#[derive(Clone, Copy)]
pub(crate) enum Base {
    Decimal,
    LowerHex,
    UpperHex,
    Octal,
}

/// What a directive shows.
#[derive(Clone, Copy)]
pub(crate) enum Kind {
    /// The printed form of a value.
    Printed,
    /// A whole number.
    Number(Base),
    /// A character, also by its number.
    Character,
    /// A number or a decimal with digits behind its point.
    Fixed,
}

/// A directive.
#[derive(Clone, Copy)]
pub(crate) struct Directive {
    pub(crate) flags: Flags,
    pub(crate) width: usize,
    pub(crate) precision: Option<usize>,
    pub(crate) kind: Kind,
}

/// The directive at the start of a text, and the text behind it. Linear in its length.
///
/// # Errors
///
/// [`ErrorKind::NoFloats`] at a directive for floats, [`ErrorKind::InvalidOperation`] where there is none, or one with a width or a
/// precision that is too great.
pub(crate) fn split_directive(text: &str) -> Result<(Directive, &str), Error>
    ensures parts { TellsAs seen result (directives.directive_in text.entry.now) }
    ensures less { IfOk result (λ p. length p.1.now < length text.entry.now) }
    ensures rest { IfOk result (λ p. IsUtf8 p.1.now) }
{
    let (directive, rest) = directive_in(text.as_bytes())?;
    Ok((directive, &text[text.len() - rest.len()..]))
}

#[tactic(auto, unfolding(crate::specs::Directives::directive_in))]
fn directive_in(text: &[u8]) -> Result<(Directive, &[u8]), Error>
    ensures { TellsAs seen result (directives.directive_in text.entry.now) }
{
    let (flags, rest) = split_part(Part::Flags, text);
    let (width, rest) = width_in(rest)?;
    let (precision, rest) = precision_in(rest)?;
    let (kind, rest) = kind_in(rest)?;
    let flags = flags_in(flags);
    Ok((
        Directive {
            flags,
            width,
            precision,
            kind,
        },
        rest,
    ))
}

fn flags_in(text: &[u8]) -> Flags
    ensures { result ≡ directives.flags_in text.now }
{
    Flags {
        left: has(b'-', text),
        zero: has(b'0', text),
        plus: has(b'+', text),
        alternate: has(b'#', text),
        space: has(b' ', text),
    }
}

fn has(flag: u8, text: &[u8]) -> bool
    ensures { result ≡ directives.has flag text.now }
{
    text.iter().any(|byte| *byte == flag)
}

#[tactic(auto, unfolding(crate::specs::Directives::width_in))]
fn width_in(text: &[u8]) -> Result<(usize, &[u8]), Error>
    ensures { TellsAs seen result (directives.width_in text.entry.now) }
{
    let (figures, rest) = split_part(Part::Figures, text);
    let width = limited(figures)?;
    Ok((width, rest))
}

fn precision_in(text: &[u8]) -> Result<(Option<usize>, &[u8]), Error>
    ensures { TellsAs seen result (directives.precision_in text.entry.now) }
{
    match text {
        [b'.', rest @ ..] => {
            let (precision, rest) = width_in(rest)?;
            Ok((Some(precision), rest))
        }
        _ => Ok((None, text)),
    }
}

// The number that figures write.
fn limited(figures: &[u8]) -> Result<usize, Error>
    ensures { Tells result (directives.limited figures.now) }
{
    let mut total = 0;
    for figure in figures {
        total = total * 10 + value_of(*figure);
        if total > GREATEST_WIDTH {
            return refusal();
        }
    }
    Ok(total)
}

// What a figure counts, and 36 of another character.
fn value_of(figure: u8) -> usize
    ensures value { result ≡ digit_value figure }
    ensures most { result ≤ 36 }
{
    char::from(figure)
        .to_digit(GREATEST_BASE)
        .unwrap_or(GREATEST_BASE) as usize
}

fn kind_in(text: &[u8]) -> Result<(Kind, &[u8]), Error>
    ensures { TellsAs seen result (directives.kind_in text.entry.now) }
{
    match text {
        [first, rest @ ..] => {
            let kind = kind_of(*first)?;
            Ok((kind, rest))
        }
        [] => refusal(),
    }
}

fn kind_of(letter: u8) -> Result<Kind, Error>
    ensures { Tells result (directives.kind_of letter) }
{
    if letter == b's' {
        Ok(Kind::Printed)
    } else if letter == b'd' || letter == b'i' {
        Ok(Kind::Number(Base::Decimal))
    } else if letter == b'x' {
        Ok(Kind::Number(Base::LowerHex))
    } else if letter == b'X' {
        Ok(Kind::Number(Base::UpperHex))
    } else if letter == b'o' {
        Ok(Kind::Number(Base::Octal))
    } else if letter == b'c' {
        Ok(Kind::Character)
    } else if letter == b'f' || letter == b'F' {
        Ok(Kind::Fixed)
    } else if is_float(letter) {
        Err(Error::new(ErrorKind::NoFloats))
    } else {
        refusal()
    }
}

fn is_float(letter: u8) -> bool
    ensures { result ≡ directives.is_float letter }
{
    letter == b'e' || letter == b'E' || letter == b'g' || letter == b'G'
}
