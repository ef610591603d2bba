//! Signs and brackets.
ghost use Rattle.std.specs.Prelude.{◌≡◌, option_map};
ghost use Rattle.template_compiler_tokens.specs.Lexical.{long_sign as the_long_sign, short_sign as the_short_sign};
ghost use Rattle.template_compiler_tokens.specs.Signs.{symbol_of};
ghost use Rattle.template_compiler_scanner.specs.Scans.{ScansSign};

use crate::bytes::byte_at;
use template_compiler_tokens::{Sign, Token};
use template_values_errors::ErrorKind;

// The sign of two bytes.
#[tactic(auto, unfolding(template_compiler_tokens::specs::Lexical::long_sign))]
#[inline(always)]
fn long_sign(first: u8, second: u8) -> Option<Sign>
    ensures { option_map symbol_of result ≡ the_long_sign first second }
{
    match (first, second) {
        (b'=', b'=') => Some(Sign::Eq),
        (b'!', b'=') => Some(Sign::Ne),
        (b'>', b'=') => Some(Sign::Gte),
        (b'<', b'=') => Some(Sign::Lte),
        (b'/', b'/') => Some(Sign::FloorDiv),
        (b'*', b'*') => Some(Sign::Pow),
        _ => None,
    }
}

// The sign of one byte.
#[tactic(auto, unfolding(template_compiler_tokens::specs::Lexical::short_sign))]
#[inline(always)]
fn short_sign(byte: u8) -> Option<Sign>
    ensures { option_map symbol_of result ≡ the_short_sign byte }
{
    match byte {
        b'+' => Some(Sign::Plus),
        b'-' => Some(Sign::Minus),
        b'*' => Some(Sign::Mul),
        b'/' => Some(Sign::Div),
        b'%' => Some(Sign::Mod),
        b'.' => Some(Sign::Dot),
        b',' => Some(Sign::Comma),
        b':' => Some(Sign::Colon),
        b'~' => Some(Sign::Tilde),
        b'=' => Some(Sign::Assign),
        b'|' => Some(Sign::Pipe),
        b'>' => Some(Sign::Gt),
        b'<' => Some(Sign::Lt),
        b'[' => Some(Sign::BracketOpen),
        b']' => Some(Sign::BracketClose),
        b'(' => Some(Sign::ParenOpen),
        b')' => Some(Sign::ParenClose),
        b'{' => Some(Sign::BraceOpen),
        b'}' => Some(Sign::BraceClose),
        _ => None,
    }
}

/// The longest sign that the text begins with, and how many bytes it takes; `SyntaxError` where none stands.
#[inline(always)]
pub fn scan_sign<'source>(text: &[u8]) -> Result<(Token<'source>, usize), ErrorKind>
    ensures { ScansSign text.now result }
{
    let first = byte_at(text, 0);
    match long_sign(first, byte_at(text, 1)) {
        Some(sign) => Ok((sign.token(), 2)),
        None => match short_sign(first) {
            Some(sign) => Ok((sign.token(), 1)),
            None => Err(ErrorKind::SyntaxError),
        },
    }
}
