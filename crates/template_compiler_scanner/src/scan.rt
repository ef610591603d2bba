//! One token.
ghost use Rattle.std.specs.Prelude.{◌≡◌, ◌<◌, IfNone, IfOk, IfSome, Ok, false, length, slice_index, take_while};
ghost use Rattle.template_compiler_tokens.specs.Lexical.{IsSign, is_name_part, is_name_start as name_start};
ghost use Rattle.template_compiler_tokens.specs.Token.{bad, bad_syntax};
ghost use Rattle.std.specs.Str.{IsCharBoundary};
ghost use Rattle.template_compiler_tokens.specs.declared.token.Token.TheVariants.{Ident, Int};
ghost use Rattle.template_compiler_scanner.specs.Scans.{IsLoneDigit, Scans};

use crate::bytes::{begun_name_len, byte_at, is_name_start, name_len};
use crate::numbers::{lone_digit, scan_number};
use crate::signs::scan_sign;
use crate::texts::scan_text;
use std::alloc::Global;
use template_compiler_tokens::Token;
use template_values_errors::ErrorKind;

/// The token that the text begins with, the longest one, and how many bytes it takes. Names and texts without
/// escapes are slices of the text. Linear in the token; only a text with escapes takes memory.
///
/// # Errors
///
/// Where the text begins with no token: `NoFloats` for decimal digits directly before a fraction or an exponent,
/// `BadEscape` for a text literal with an escape that is none, else `SyntaxError`; `OutOfMemory`.
#[inline(always)]
pub fn scan_token<'source>(
    alloc: Global,
    text: &'source str,
) -> Result<(Token<'source>, usize), ErrorKind>
    ensures token { Scans text.now result }
    ensures cut { IfOk result (λ found. IsCharBoundary text.now found.1) }
    ensures some { IfOk result (λ found. 0 < found.1) }
{
    let first = byte_at(text.as_bytes(), 0);
    if is_name_start(first) {
        let width = name_len(text.as_bytes());
        return Ok((Token::Ident(text.split_at(width).0), width));
    }
    if first.is_ascii_digit() {
        return scan_number(text.as_bytes());
    }
    if first == b'"' || first == b'\'' {
        return scan_text(alloc, text);
    }
    scan_sign(text.as_bytes())
}

/// The name that the text begins with, if it begins with one.
#[inline(always)]
pub fn scan_name(text: &str) -> Option<&str>
    ensures token { IfSome result (λ name. Scans text.now (Ok (Ident name, length name.now))) }
    ensures cut { IfSome result (λ name. IsCharBoundary text.now (length name.now)) }
    ensures some { IfSome result (λ name. 0 < length name.now) }
    ensures none { IfNone result (name_start (slice_index text.now 0) ≡ false) }
{
    let bytes = text.as_bytes();
    if is_name_start(byte_at(bytes, 0)) {
        Some(text.split_at(begun_name_len(bytes)).0)
    } else {
        None
    }
}

/// The sign or the bracket that the text begins with, if it begins with one, and how many bytes it takes.
#[inline(always)]
pub fn scan_mark<'source>(text: &str) -> Option<(Token<'source>, usize)>
    ensures token { IfSome result (λ found. Scans text.now (Ok found)) }
    ensures cut { IfSome result (λ found. IsCharBoundary text.now found.1) }
    ensures some { IfSome result (λ found. 0 < found.1) }
    ensures none { IfNone result (IsSign text.now (bad bad_syntax) 0) }
{
    match scan_sign(text.as_bytes()) {
        Ok(found) => Some(found),
        Err(_) => None,
    }
}

/// The value of the number that the text begins with, if that is a digit alone.
#[inline(always)]
pub fn scan_digit(text: &str) -> Option<u64>
    ensures token { IfSome result (λ digit. Scans text.now (Ok (Int digit, 1))) }
    ensures cut { IfSome result (λ _. IsCharBoundary text.now 1) }
    ensures none { IfNone result (IsLoneDigit text.now → ⊥) }
{
    match lone_digit(text.as_bytes()) {
        Some(digit) => Some(digit),
        None => None,
    }
}

/// The longest beginning of the text that may stand in a name.
pub fn leading_name(text: &str) -> &str
    ensures { result.now ≡ take_while is_name_part text.now }
{
    text.split_at(name_len(text.as_bytes())).0
}
