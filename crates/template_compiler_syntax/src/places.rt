//! What stands at the places of a source.
ghost use Rattle.std.specs.Prelude.{◌≡◌, ◌≤◌, ◌<◌, ◌↔◌, ℕ, [], ◌∷◌, IsTrue, MatchOption, take, drop, length};
ghost use Rattle.memchr.specs.Find.{FindsNeedle, IsFirstByte, is_byte};
ghost use Rattle.template_compiler_syntax.specs.Places.{StandsAt, IsFirst, IsNowhere, IsLineEnd};
ghost use Rattle.template_compiler_syntax.specs.Places.{blanks_from as blanks_before, is_first_on_line as first_on_line, newline_len as newline_width, is_blank as blank};

use memchr::{memchr, memmem};

/// The bytes from a place on.
pub(crate) fn rest_from(bytes: &[u8], from: usize) -> &[u8]
    requires { from ≤ length bytes.now }
    ensures { result.now ≡ drop from bytes.now }
{
    bytes.split_at(from).1
}

/// Whether the text stands at the place.
pub fn stands_at(bytes: &[u8], at: usize, text: &[u8]) -> bool
    requires { at ≤ length bytes.now }
    ensures { IsTrue result ↔ StandsAt bytes.now at text.now }
{
    begins_with(rest_from(bytes, at), text)
}

// Most delimiters are of two bytes, which are read at once.
fn begins_with(rest: &[u8], text: &[u8]) -> bool
    ensures { IsTrue result ↔ (take (length text.now) rest.now ≡ text.now) }
{
    match text {
        [first, second] => begins_with_pair(rest, *first, *second),
        _ => begins_with_text(rest, text),
    }
}

fn begins_with_pair(rest: &[u8], first: u8, second: u8) -> bool
    ensures { IsTrue result ↔ (take 2 rest.now ≡ first ∷ second ∷ []) }
{
    match rest {
        [one, other, ..] => *one == first && *other == second,
        _ => false,
    }
}

#[inline(never)]
fn begins_with_text(rest: &[u8], text: &[u8]) -> bool
    ensures { IsTrue result ↔ (take (length text.now) rest.now ≡ text.now) }
{
    rest.starts_with(text)
}

/// The first place from `from` on at which the text stands, which is not empty.
#[inline(always)]
pub fn find_text(bytes: &[u8], from: usize, text: &[u8]) -> Option<usize>
    requires within { from ≤ length bytes.now }
    requires some { 0 < length text.now }
    ensures { MatchOption result (IsNowhere (λ i. StandsAt bytes.now i text.now) from)
        (λ i. IsFirst (λ j. StandsAt bytes.now j text.now) from i) }
{
    if text.len() == 2 {
        return find_pair(bytes, from, text);
    }
    match find_in(rest_from(bytes, from), text) {
        Some(skipped) => Some(from + skipped),
        None => None,
    }
}

// The same for a text of two bytes, as most delimiters are. They stand near, and a search for longer ones begins dear.
fn find_pair(bytes: &[u8], from: usize, text: &[u8]) -> Option<usize>
    requires within { from ≤ length bytes.now }
    requires some { 0 < length text.now }
    ensures { MatchOption result (IsNowhere (λ i. StandsAt bytes.now i text.now) from)
        (λ i. IsFirst (λ j. StandsAt bytes.now j text.now) from i) }
{
    let first = text[0];
    let mut at = from;
    while let Some(skipped) = find_byte(first, rest_from(bytes, at)) {
        let place = at + skipped;
        if stands_at(bytes, place, text) {
            return Some(place);
        }
        at = place + 1;
    }
    None
}

// Where the byte stands first, which most often is at once.
fn find_byte(byte: u8, rest: &[u8]) -> Option<usize>
    ensures { IsFirstByte (is_byte byte) rest.now result }
{
    match rest {
        [first, ..] if *first == byte => Some(0),
        _ => memchr(byte, rest),
    }
}

fn find_in(rest: &[u8], text: &[u8]) -> Option<usize>
    ensures { FindsNeedle rest.now text.now 0 result }
{
    match text {
        [byte] => memchr(*byte, rest),
        _ => memmem::find(rest, text),
    }
}

/// Where the spaces and tabs directly before a place begin. It takes time for each of them.
pub fn blanks_from(bytes: &[u8], at: usize) -> usize
    requires { at ≤ length bytes.now }
    ensures start { result ≡ blanks_before bytes.now at }
    ensures bound { result ≤ at }
{
    let mut start = at;
    while start > 0 && is_blank(bytes[start - 1]) {
        start -= 1;
    }
    start
}

fn is_blank(byte: u8) -> bool
    ensures { result ≡ blank byte }
{
    matches!(byte, b' ' | b'\t')
}

/// Whether only spaces and tabs stand before the place on its line.
pub fn is_first_on_line(bytes: &[u8], at: usize) -> bool
    requires { at ≤ length bytes.now }
    ensures { result ≡ first_on_line bytes.now at }
{
    let start = blanks_from(bytes, at);
    start == 0 || bytes[start - 1] == b'\n'
}

/// How many bytes the newline takes that stands at the place: `\n`, `\r\n`, or none.
pub fn newline_len(bytes: &[u8], at: usize) -> usize
    requires { at ≤ length bytes.now }
    ensures { result ≡ newline_width bytes.now at }
{
    match rest_from(bytes, at) {
        [b'\n', ..] => 1,
        [b'\r', b'\n', ..] => 2,
        _ => 0,
    }
}

/// Where the line ends that the place stands in: at its newline, or with the source.
pub fn find_line_end(bytes: &[u8], from: usize) -> usize
    requires { from ≤ length bytes.now }
    ensures { IsFirst (λ i. IsLineEnd bytes.now i) from result }
{
    match memchr(b'\n', rest_from(bytes, from)) {
        Some(skipped) => {
            let newline = from + skipped;
            if skipped > 0 && bytes[newline - 1] == b'\r' {
                newline - 1
            } else {
                newline
            }
        }
        None => bytes.len(),
    }
}
