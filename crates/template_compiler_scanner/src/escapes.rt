//! Escapes in text literals.
ghost use Rattle.std.specs.Prelude.{◌≡◌, ℕ, ◌+◌, ◌-◌, ◌*◌, ◌<◌, ◌≤◌, ◌++◌, true, IfOk, IfSome, IfNone, MatchResult, length, take, drop, slice_index, string_bytes, encode_utf8};
ghost use Rattle.std.specs.Option.{SomeIff};
ghost use Rattle.std.specs.Char.{digit_value};
ghost use Rattle.std.specs.Str.{IsUtf8};
ghost use Rattle.template_compiler_tokens.specs.Numbers.{is_digit};
ghost use Rattle.template_compiler_tokens.specs.Texts.{HasByte, HasUnit, IsHighSurrogate, IsLowSurrogate, IsEscape, named_escape as the_named_escape, Unescapes};
ghost use Rattle.template_compiler_scanner.specs.Scans.{Unescaped, TakesEscape, SpellsCode, HasLowSurrogate, NoLowSurrogate};

use crate::bytes::byte_at;
use memchr::memchr;
use std::alloc::{AllocError, Global};
use template_compiler_tokens::is_low_surrogate;
use template_values_errors::ErrorKind;

// The character that a letter behind a backslash stands for.
#[tactic(auto, unfolding(template_compiler_tokens::specs::Texts::named_escape))]
fn named_escape(letter: u8) -> Option<char>
    ensures { result ≡ the_named_escape letter }
{
    match letter {
        b'\\' => Some('\\'),
        b'"' => Some('"'),
        b'\'' => Some('\''),
        b'/' => Some('/'),
        b'b' => Some('\x08'),
        b'f' => Some('\x0c'),
        b'n' => Some('\n'),
        b'r' => Some('\r'),
        b't' => Some('\t'),
        _ => None,
    }
}

#[tactic(auto, unfolding(template_compiler_tokens::specs::Numbers::is_digit))]
fn hex_digit(byte: u8) -> Option<u32>
    ensures digit { SomeIff result (is_digit 16 byte ≡ true) (digit_value byte) }
    ensures small { IfSome result (λ digit. digit < 16) }
{
    char::from(byte).to_digit(16)
}

// The number that two hexadecimal digits spell.
fn hex_byte(text: &[u8], at: usize) -> Option<u32>
    requires { at < 100 }
    ensures none { IfNone result ((n : ℕ) → HasByte text.now at n → ⊥) }
    ensures found { IfSome result (λ n. HasByte text.now at n) }
    ensures small { IfSome result (λ n. n < 256) }
{
    let high = hex_digit(byte_at(text, at))?;
    let low = hex_digit(byte_at(text, at + 1))?;
    Some(16 * high + low)
}

// The number that four hexadecimal digits spell.
fn hex_unit(text: &[u8], at: usize) -> Option<u32>
    requires { at < 10 }
    ensures none { IfNone result ((n : ℕ) → HasUnit text.now at n → ⊥) }
    ensures found { IfSome result (λ n. HasUnit text.now at n) }
    ensures small { IfSome result (λ n. n < 65536) }
{
    let high = hex_byte(text, at)?;
    let low = hex_byte(text, at + 2)?;
    Some(256 * high + low)
}

// Behind the backslash of a high surrogate's escape: the low one's.
fn low_surrogate(text: &[u8]) -> Option<u32>
    ensures none { IfNone result (NoLowSurrogate text.now) }
    ensures found { IfSome result (λ low. HasLowSurrogate text.now low) }
{
    if byte_at(text, 5) != b'\\' || byte_at(text, 6) != b'u' {
        return None;
    }
    let low = match hex_unit(text, 7) {
        Some(low) => low,
        None => return None,
    };
    if is_low_surrogate(low) {
        Some(low)
    } else {
        None
    }
}

// `uHHHH`, or two of them that are a high surrogate and its low one.
fn unit_escape(text: &[u8]) -> Option<(u32, usize)>
    requires { slice_index text.now 0 ≡ 117 }
    ensures { SpellsCode text.now result }
{
    let unit = match hex_unit(text, 1) {
        Some(unit) => unit,
        None => return None,
    };
    if unit < 0xd800 || 0xe000 <= unit {
        return Some((unit, 5));
    }
    if 0xdc00 <= unit {
        return None;
    }
    let low = match low_surrogate(text) {
        Some(low) => low,
        None => return None,
    };
    Some((0x10000 + 1024 * (unit - 0xd800) + (low - 0xdc00), 11))
}

// The code of the character that the escape behind a backslash stands for, and how many bytes it takes.
fn escape_code(text: &[u8]) -> Option<(u32, usize)>
    ensures { SpellsCode text.now result }
{
    match byte_at(text, 0) {
        b'x' => match hex_byte(text, 1) {
            Some(code) => Some((code, 3)),
            None => None,
        },
        b'u' => unit_escape(text),
        letter => match named_escape(letter) {
            Some(character) => Some((character as u32, 1)),
            None => None,
        },
    }
}

// The character that the escape behind a backslash stands for, and how many bytes it takes.
fn read_escape(text: &[u8]) -> Option<(char, usize)>
    ensures { SpellsCode text.now result }
{
    match escape_code(text) {
        Some((code, width)) => match char::from_u32(code) {
            Some(character) => Some((character, width)),
            None => None,
        },
        None => None,
    }
}

fn no_memory(_refused: AllocError) -> ErrorKind
    ensures { result ≡ ErrorKind.OutOfMemory }
{
    ErrorKind::OutOfMemory
}

fn push_text(done: &mut String, text: &str) -> Result<(), ErrorKind>
    ensures { MatchResult result (λ _. string_bytes done.new ≡ string_bytes done.old ++ text.now)
        (λ kind. kind ≡ ErrorKind.OutOfMemory) }
{
    match done.push_str(text) {
        Ok(()) => Ok(()),
        Err(refused) => Err(no_memory(refused)),
    }
}

fn push_character(done: &mut String, character: char) -> Result<(), ErrorKind>
    ensures { MatchResult result (λ _. string_bytes done.new ≡ string_bytes done.old ++ encode_utf8 character)
        (λ kind. kind ≡ ErrorKind.OutOfMemory) }
{
    match done.push(character) {
        Ok(()) => Ok(()),
        Err(refused) => Err(no_memory(refused)),
    }
}

// Adds what stands before a backslash and the character of its escape, and answers what stands behind that.
fn take_escape<'text>(
    text: &'text str,
    backslash: usize,
    done: &mut String,
) -> Result<&'text str, ErrorKind>
    requires within { backslash < length text.now }
    requires stands { slice_index text.now backslash ≡ 92 }
    ensures escape { TakesEscape text.now backslash (string_bytes done.old) (string_bytes done.new) result }
    ensures utf8 { IfOk result (λ rest. IsUtf8 rest.now) }
{
    let (before, rest) = text.split_at(backslash);
    let behind = rest.split_at(1).1;
    match read_escape(behind.as_bytes()) {
        Some((character, width)) => {
            push_text(done, before)?;
            push_character(done, character)?;
            Ok(behind.split_at(width).1)
        }
        None => Err(ErrorKind::BadEscape),
    }
}

/// The text that a literal's inside stands for.
pub fn unescape(alloc: Global, inside: &str) -> Result<String, ErrorKind>
    ensures { Unescaped inside.now result }
{
    let mut done = match String::with_capacity(alloc, inside.len()) {
        Ok(done) => done,
        Err(refused) => return Err(no_memory(refused)),
    };
    let mut rest = inside;
    while let Some(backslash) = memchr(b'\\', rest.as_bytes()) {
        rest = take_escape(rest, backslash, &mut done)?;
    }
    push_text(&mut done, rest)?;
    Ok(done)
}
