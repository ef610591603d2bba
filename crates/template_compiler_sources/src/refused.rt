//! Refusals with their places.
ghost use Rattle.std.specs.Prelude.{◌≡◌, ◌∷◌, []};
ghost use Rattle.template_compiler_sources.specs.Kinds.{refused_kind};

use crate::ends::ends_at;
use crate::error_of;
use crate::prefixes::{Text, take_first};
use std::alloc::{AllocError, Global};
use template_compiler_stream::Refusal;
use template_compiler_tokens::{Place as Position, Token};
use template_compiler_tree::Span;
use template_values_errors::{Error, Place};

// The name of each expression that stands alone.
const EXPRESSION: &str = "<expression>";

/// The error that tells why a source was refused, whose reading passed so many tokens. Its place is the token at which the
/// reading ended; else the character behind the tokens that begins none, or the source's end. An error that tells want of
/// memory has no place, and so has one for whose place no memory is left.
#[inline(never)]
pub(crate) fn refused_at(alloc: Global, text: &Text<'_>, passed: usize, refusal: Refusal) -> Error
    ensures { result ≡ refused_kind refusal ∷ [] }
{
    let error = error_of(refusal);
    match refusal {
        Refusal::Token(_) => match place_in(alloc, text, passed) {
            Ok(place) => error.placed(alloc, place),
            Err(_wanting) => error,
        },
        Refusal::OutOfMemory => error,
    }
}

// Where the reading of a refused source ends.
fn place_in(alloc: Global, text: &Text<'_>, passed: usize) -> Result<Place, AllocError> {
    let (source, name) = match text {
        Text::Template {
            source,
            filename,
            ..
        } => (*source, *filename),
        Text::Expression(source) => (*source, EXPRESSION),
    };
    let number = ends_at(alloc, text, passed)?;
    let mut tokens = text.tokens(alloc)?;
    let read = take_first(alloc, &mut tokens, usize::MAX)?;
    let span = match read.get(number) {
        Some((_, span)) => *span,
        None => behind_tokens(source, read.last(), tokens.is_done()),
    };
    Ok(Place {
        name: String::from_str(alloc, name)?,
        line: span.start_line,
        column: span.start_col,
        start: span.start_offset,
        end: span.end_offset,
    })
}

// What stands behind the last token: the source's end where all of it was read, else the first character that begins no
// token.
fn behind_tokens(source: &str, last: Option<&(Token<'_>, Span)>, all_read: bool) -> Span {
    let from = match last {
        Some((_, span)) => span.end_offset as usize,
        None => 0,
    };
    let rest = if all_read {
        ""
    } else {
        behind_blanks(source, from)
    };
    let before = source
        .get(..source.len().saturating_sub(rest.len()))
        .unwrap_or(source);
    let start = Position::start().after(before);
    start.to(start.after(first_character(rest)))
}

// The text from a place on, behind white space.
fn behind_blanks(source: &str, from: usize) -> &str {
    source.get(from..).unwrap_or("").trim_ascii_start()
}

fn first_character(text: &str) -> &str {
    match text.chars().next() {
        Some(character) => text.get(..character.len_utf8()).unwrap_or(""),
        None => "",
    }
}
