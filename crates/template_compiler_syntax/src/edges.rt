//! What stands beside data: the ends of segments, and their signs.
ghost use Rattle.std.specs.Prelude.{◌≡◌, ◌+◌, ◌≤◌, length};
ghost use Rattle.template_compiler_syntax.specs.Syntax.{start_text as start_of};
ghost use Rattle.template_compiler_syntax.specs.Places.{sign_of, sign_at, sign_width};
ghost use Rattle.template_compiler_syntax.specs.Segments.{comment_sign as sign_of_comment, start_sign as sign_of_start};

use crate::places::rest_from;
use crate::{StartMarker, SyntaxConfig};
use template_compiler_tokens::last_between;

/// The sign at an end of a segment, which says how the data beside it is trimmed.
#[derive(Clone, Copy, Debug, PartialEq, Eq)]
pub enum Trim {
    /// None.
    Plain,
    /// `-`: all white space of the data beside it goes.
    Minus,
    /// `+`: none goes.
    Plus,
}

/// What data has beside it.
#[derive(Clone, Copy)]
pub enum Edge {
    /// Nothing: the source begins or ends.
    Nothing,
    /// A segment of the kind, whose end on this side has the sign.
    Beside(StartMarker, Trim),
}

impl Trim {
    /// The sign that stands at a place.
    pub fn at(bytes: &[u8], place: usize) -> Trim
        requires { place ≤ length bytes.now }
        ensures { result ≡ sign_at bytes.now place }
    {
        match rest_from(bytes, place) {
            [b'-', ..] => Trim::Minus,
            [b'+', ..] => Trim::Plus,
            _ => Trim::Plain,
        }
    }

    // The sign that a byte is.
    fn of(byte: u8) -> Trim
        ensures { result ≡ sign_of byte }
    {
        match byte {
            b'-' => Trim::Minus,
            b'+' => Trim::Plus,
            _ => Trim::Plain,
        }
    }

    /// How many bytes it takes.
    pub fn width(self) -> usize
        ensures { result ≡ sign_width self }
    {
        match self {
            Trim::Plain => 0,
            Trim::Minus | Trim::Plus => 1,
        }
    }
}

/// The sign of the start marker of the kind that stands at a place: that of a print, a block or a comment
/// stands directly behind it.
pub fn start_sign(bytes: &[u8], syntax: &SyntaxConfig, kind: StartMarker, place: usize) -> Trim
    requires { place + length (start_of syntax.now kind) ≤ length bytes.now }
    ensures { result ≡ sign_of_start syntax.now bytes.now kind place }
{
    match kind {
        StartMarker::Variable | StartMarker::Block | StartMarker::Comment => {
            Trim::at(bytes, place + syntax.start_text(kind).len())
        }
        StartMarker::LineStatement | StartMarker::LineComment => Trim::Plain,
    }
}

/// The sign directly before a comment's end at the place, where what is inside begins at the other: the start's own
/// sign is none of its end.
pub fn comment_sign(bytes: &[u8], inside: usize, end: usize) -> Trim
    requires { end ≤ length bytes.now }
    ensures { result ≡ sign_of_comment bytes.now inside end }
{
    match last_between(bytes, inside, end) {
        Some(byte) => Trim::of(byte),
        None => Trim::Plain,
    }
}
