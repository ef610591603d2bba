//! Whole numbers.
ghost use Rattle.std.specs.Prelude.{◌≡◌, IfNone, ◌^◌, ◌<◌, ◌≤◌, ◌+◌, length, take, drop, slice_index, Some, None, IfSome, IsTrue, ◌==◌, ◌&&◌, true};
ghost use Rattle.std.specs.Char.{is_ascii_digit as ascii_digit};
ghost use Rattle.std.specs.Option.{SomeIff};
ghost use Rattle.template_compiler_tokens.specs.Numbers as number;
ghost use Rattle.template_compiler_tokens.specs.Token as token;
ghost use Rattle.template_compiler_tokens.specs.View.{token_of};
ghost use Rattle.template_compiler_scanner.specs.Scans.{IsLoneDigit, ScansNumber};

use crate::bytes::{byte_at, is_name_part};
use template_compiler_tokens::Token;
use template_values_errors::ErrorKind;

// One more than the largest number.
const LIMIT: u128 = 1 << 127;

#[tactic(auto, unfolding(template_compiler_tokens::specs::Numbers::is_digit))]
fn is_digit(base: u32, byte: u8) -> bool
    requires low { 2 ≤ base }
    requires high { base ≤ 16 }
    ensures digit { result ≡ number.is_digit base byte }
    ensures some { IsTrue result → 0 < byte }
{
    char::from(byte).is_digit(base)
}

// The base that a letter behind a `0` names.
#[tactic(auto, unfolding(template_compiler_tokens::specs::Numbers::named_base))]
fn named_base(letter: u8) -> Option<u32>
    ensures base { result ≡ number.named_base letter }
    ensures low { IfSome result (λ base. 2 ≤ base) }
    ensures high { IfSome result (λ base. base ≤ 16) }
{
    match letter {
        b'x' | b'X' => Some(16),
        b'o' | b'O' => Some(8),
        b'b' | b'B' => Some(2),
        _ => None,
    }
}

// The base of the number that the text begins with.
#[tactic(auto, unfolding(template_compiler_tokens::specs::Numbers::base_of, template_compiler_tokens::specs::Numbers::base_by))]
fn base_of(text: &[u8]) -> u32
    ensures base { result ≡ number.base_of text.now }
    ensures low { 2 ≤ result }
    ensures high { result ≤ 16 }
    ensures named { (result ≡ 10 → ⊥) → 2 < length text.now }
{
    match named_base(byte_at(text, 1)) {
        Some(base) if byte_at(text, 0) == b'0' && is_digit(base, byte_at(text, 2)) => base,
        _ => 10,
    }
}

#[tactic(auto, unfolding(template_compiler_tokens::specs::Numbers::goes_on))]
fn goes_on(base: u32, byte: u8, next: u8) -> bool
    requires low { 2 ≤ base }
    requires high { base ≤ 16 }
    ensures { result ≡ number.goes_on base byte next }
{
    is_digit(base, byte) || (byte == b'_' && is_digit(base, next))
}

// How many of the first bytes are digits, or a single `_` between two of them.
fn digits_len(base: u32, text: &[u8]) -> usize
    requires low { 2 ≤ base }
    requires high { base ≤ 16 }
    ensures len { result ≡ number.digits_len base text.now }
    ensures within { result ≤ length text.now }
{
    for (index, byte) in text.iter().enumerate() {
        if !goes_on(base, *byte, byte_at(text, index + 1)) {
            return index;
        }
    }
    text.len()
}

// The number with one more digit, where it is below 2^127.
#[tactic(auto, using(crate::proofs::Digits::with_digit_is, crate::proofs::Digits::with_digit_skips))]
fn with_digit(base: u32, value: u128, byte: u8) -> Option<u128>
    requires low { 2 ≤ base }
    requires high { base ≤ 16 }
    requires small { value < 2 ^ 127 }
    ensures { SomeIff result (number.with_digit base value byte < 2 ^ 127) (number.with_digit base value byte) }
{
    let Some(digit) = char::from(byte).to_digit(base) else {
        return Some(value);
    };
    let Some(shifted) = value.checked_mul(u128::from(base)) else {
        return None;
    };
    match shifted.checked_add(u128::from(digit)) {
        Some(next) if next < LIMIT => Some(next),
        _ => None,
    }
}

// The number that digits spell, where it is below 2^127.
fn value_of(base: u32, digits: &[u8]) -> Option<u128>
    requires low { 2 ≤ base }
    requires high { base ≤ 16 }
    ensures { SomeIff result (number.value_of base digits.now < 2 ^ 127) (number.value_of base digits.now) }
{
    let mut value = 0;
    for byte in digits {
        match with_digit(base, value, *byte) {
            Some(next) => value = next,
            None => return None,
        }
    }
    Some(value)
}

// A fraction or an exponent stands at the start.
#[tactic(auto, unfolding(template_compiler_tokens::specs::Numbers::begins_fraction))]
fn begins_fraction(text: &[u8]) -> bool
    ensures { result ≡ number.begins_fraction text.now }
{
    let next = byte_at(text, 1);
    match byte_at(text, 0) {
        b'.' => next.is_ascii_digit(),
        b'e' | b'E' => {
            next.is_ascii_digit()
                || (matches!(next, b'+' | b'-') && byte_at(text, 2).is_ascii_digit())
        }
        _ => false,
    }
}

// The token of a number.
fn number(value: u128) -> Token<'static>
    ensures { token_of result ≡ token.number value }
{
    match u64::try_from(value) {
        Ok(small) => Token::Int(small),
        Err(_wide) => Token::Int128(value),
    }
}

// How many bytes name a number's base.
#[tactic(auto, unfolding(template_compiler_tokens::specs::Numbers::prefix_width))]
fn prefix_width(text: &[u8], base: u32) -> usize
    requires base { base ≡ number.base_of text.now }
    requires named { (base ≡ 10 → ⊥) → 2 < length text.now }
    ensures width { result ≡ number.prefix_width text.now }
    ensures within { result ≤ length text.now }
{
    if base == 10 { 0 } else { 2 }
}

fn is_float(base: u32, behind: &[u8]) -> bool
    ensures { result ≡ (base == 10 && number.begins_fraction behind.now) }
{
    base == 10 && begins_fraction(behind)
}

/// The number that the text begins with, and how many bytes it takes. A fraction or an exponent directly
/// behind decimal digits is refused by `NoFloats`, a number of 2^127 or more by `SyntaxError`.
pub fn scan_number<'source>(text: &[u8]) -> Result<(Token<'source>, usize), ErrorKind>
    ensures { ScansNumber text.now result }
{
    match lone_digit(text) {
        Some(digit) => Ok((Token::Int(digit), 1)),
        None => scan_digits(text),
    }
}

/// The value of the number that the text begins with, where that is a digit alone, as most are.
#[inline(always)]
pub fn lone_digit(text: &[u8]) -> Option<u64>
    ensures value { IfSome result (λ digit. number.number_at text.now ≡ token.number digit) }
    ensures width { IfSome result (λ digit. number.number_width text.now ≡ 1) }
    ensures digit { IfSome result (λ _. ascii_digit (slice_index text.now 0) ≡ true) }
    ensures none { IfNone result (IsLoneDigit text.now → ⊥) }
{
    let first = byte_at(text, 0);
    let next = byte_at(text, 1);
    if first.is_ascii_digit() && next != b'.' && !is_name_part(next) {
        Some(u64::from(first - b'0'))
    } else {
        None
    }
}

// The same for a number of any length.
#[inline(never)]
fn scan_digits<'source>(text: &[u8]) -> Result<(Token<'source>, usize), ErrorKind>
    ensures { ScansNumber text.now result }
{
    let base = base_of(text);
    let prefix = prefix_width(text, base);
    let behind_prefix = text.split_at(prefix).1;
    let (digits, behind) = behind_prefix.split_at(digits_len(base, behind_prefix));
    if is_float(base, behind) {
        return Err(ErrorKind::NoFloats);
    }
    match value_of(base, digits) {
        Some(value) => Ok((number(value), prefix + digits.len())),
        None => Err(ErrorKind::SyntaxError),
    }
}
