//! Where segments end.
ghost use Rattle.std.specs.Prelude.{◌≡◌, ◌≤◌, ◌<◌, IsTrue, true, false, length, slice_index, IfSome};
ghost use Rattle.std.specs.Str.{IsUtf8, IsCharBoundary};
ghost use Rattle.std.specs.Char.{is_ascii_whitespace as white};
ghost use Rattle.template_compiler_syntax.specs.Syntax.{Syntax};
ghost use Rattle.template_compiler_placed_tokens.specs.Finds.{FindsDelimiter, FindsDelimitedEnd, FindsEnd, FindsOpenEnd, FindsPlainEnd};
ghost use Rattle.template_compiler_placed_tokens.specs.Ends.{IsEndText, IsSegmentEnd};

use template_compiler_syntax::{StartMarker, SyntaxConfig, Trim, newline_len, stands_at};

/// Whether white space that parts tokens stands at the place.
pub fn is_white_at(bytes: &[u8], place: usize) -> bool
    ensures { result ≡ white (slice_index bytes.now place) }
{
    match bytes.get(place) {
        Some(byte) => byte.is_ascii_whitespace(),
        None => false,
    }
}

/// Where segments of a kind end under a syntax: its end delimiter is looked up once. Other segments have an empty one.
#[derive(Clone, Copy)]
pub struct SegmentEnd<'syntax> {
    pub syntax: &'syntax SyntaxConfig,
    pub kind: StartMarker,
    pub delimiter: &'syntax str,
    pub first: u8,
}

impl<'syntax> SegmentEnd<'syntax> {
    ghost use Rattle.template_compiler_placed_tokens.specs.Ends.{IsSegmentEnd};

    /// That of segments of the kind.
    #[inline(always)]
    pub fn of(syntax: &'syntax SyntaxConfig, kind: StartMarker) -> SegmentEnd<'syntax>
        ensures end { IsSegmentEnd result }
        ensures syntax { result.syntax.now ≡ syntax.now }
        ensures kind { result.kind ≡ kind }
    {
        let delimiter = end_text(syntax, kind);
        SegmentEnd {
            syntax,
            kind,
            delimiter,
            first: first_byte(delimiter.as_bytes()),
        }
    }

    // Whether an end may begin with the byte: its delimiter, or a sign before that.
    #[inline(always)]
    fn may_begin_with(self, byte: u8) -> bool
        ensures { result ≡ false → (byte ≡ self.entry.first → ⊥) × (byte ≡ 45 → ⊥) × (byte ≡ 43 → ⊥) }
    {
        match byte {
            b'+' | b'-' => true,
            _ => byte == self.first,
        }
    }
}

#[inline(always)]
fn end_text(syntax: &SyntaxConfig, kind: StartMarker) -> &str
    ensures { IsEndText syntax.now kind result.now }
{
    match kind {
        StartMarker::Variable => syntax.variable_delimiters().1,
        StartMarker::Block => syntax.block_delimiters().1,
        StartMarker::Comment | StartMarker::LineStatement | StartMarker::LineComment => "",
    }
}

#[inline(always)]
fn first_byte(text: &[u8]) -> u8
    ensures { result ≡ slice_index text.now 0 }
{
    match text.first() {
        Some(first) => *first,
        None => 0,
    }
}

/// The sign of the segment's end that stands at a token's place, and the place behind that end, where no bracket is open.
/// Few bytes begin an end.
#[inline(always)]
pub(crate) fn black_end_at(
    bytes: &[u8],
    end: SegmentEnd,
    depth: usize,
    place: usize,
) -> Option<(Trim, usize)>
    requires within { place ≤ length bytes.now }
    requires end { IsSegmentEnd end }
    requires black { white (slice_index bytes.now place) ≡ false }
    ensures found { FindsOpenEnd end.entry.syntax.now bytes.now end.entry.kind depth place result }
    ensures cut { IfSome result (λ p. IsUtf8 bytes.now → IsCharBoundary bytes.now p.1) }
{
    match bytes.get(place) {
        Some(byte) if !end.may_begin_with(*byte) => None,
        _ => open_end_at(bytes, end, depth, place),
    }
}

/// The same at white space, which ends line statements alone, and there by a newline.
#[inline(always)]
pub(crate) fn blank_end_at(
    bytes: &[u8],
    end: SegmentEnd,
    depth: usize,
    place: usize,
) -> Option<(Trim, usize)>
    requires within { place ≤ length bytes.now }
    requires blank { white (slice_index bytes.now place) ≡ true }
    ensures found { FindsOpenEnd end.entry.syntax.now bytes.now end.entry.kind depth place result }
    ensures cut { IfSome result (λ p. IsUtf8 bytes.now → IsCharBoundary bytes.now p.1) }
{
    if is_space_at(bytes, place) {
        return None;
    }
    match newline_end_at(bytes, end, depth, place) {
        Some(next) => Some((Trim::Plain, next)),
        None => None,
    }
}

#[inline(always)]
fn is_space_at(bytes: &[u8], place: usize) -> bool
    ensures byte { IsTrue result → slice_index bytes.now place ≡ 32 }
    ensures within { IsTrue result → place < length bytes.now }
{
    match bytes.get(place) {
        Some(byte) => *byte == b' ',
        None => false,
    }
}

// The place behind the end of a line statement that stands at white space.
#[inline(never)]
fn newline_end_at(bytes: &[u8], end: SegmentEnd, depth: usize, place: usize) -> Option<usize>
    requires within { place ≤ length bytes.now }
    requires blank { white (slice_index bytes.now place) ≡ true }
    ensures found { FindsPlainEnd end.entry.syntax.now bytes.now end.entry.kind depth place result }
    ensures cut { IfSome result (λ next. IsUtf8 bytes.now → IsCharBoundary bytes.now next) }
{
    if depth > 0 {
        return None;
    }
    match end.kind {
        StartMarker::LineStatement => match line_end_at(bytes, place) {
            Some((_, next)) => Some(next),
            None => None,
        },
        _ => None,
    }
}

// The same at any place.
#[inline(always)]
fn open_end_at(bytes: &[u8], end: SegmentEnd, depth: usize, place: usize) -> Option<(Trim, usize)>
    requires within { place ≤ length bytes.now }
    requires end { IsSegmentEnd end }
    ensures found { FindsOpenEnd end.entry.syntax.now bytes.now end.entry.kind depth place result }
    ensures cut { IfSome result (λ p. IsUtf8 bytes.now → IsCharBoundary bytes.now p.1) }
{
    if depth == 0 {
        end_at(bytes, end, place)
    } else {
        None
    }
}

// The sign of the segment's end that stands at the place, and the place behind that end.
#[inline(always)]
fn end_at(bytes: &[u8], end: SegmentEnd, place: usize) -> Option<(Trim, usize)>
    requires within { place ≤ length bytes.now }
    requires end { IsSegmentEnd end }
    ensures found { FindsEnd end.entry.syntax.now bytes.now end.entry.kind place result }
    ensures cut { IfSome result (λ p. IsUtf8 bytes.now → IsCharBoundary bytes.now p.1) }
{
    match end.kind {
        StartMarker::Variable | StartMarker::Block => {
            delimited_end_at(bytes, end.delimiter.as_bytes(), place)
        }
        StartMarker::LineStatement => line_end_at(bytes, place),
        StartMarker::Comment | StartMarker::LineComment => None,
    }
}

// The end delimiter at a token's place. Few places have one, and so white space is asked for behind it.
#[inline(always)]
fn delimited_end_at(bytes: &[u8], end: &[u8], place: usize) -> Option<(Trim, usize)>
    requires { place ≤ length bytes.now }
    ensures { FindsDelimitedEnd bytes.now end.now place result }
{
    match delimiter_at(bytes, end, place) {
        Some(found) => {
            if is_white_at(bytes, place) {
                None
            } else {
                Some(found)
            }
        }
        None => None,
    }
}

fn line_end_at(bytes: &[u8], place: usize) -> Option<(Trim, usize)>
    requires { place ≤ length bytes.now }
    ensures { (x : Syntax) → FindsEnd x bytes.now StartMarker.LineStatement place result }
{
    let width = newline_len(bytes, place);
    if width > 0 {
        Some((Trim::Plain, place + width))
    } else if place < bytes.len() {
        None
    } else {
        Some((Trim::Plain, place))
    }
}

#[inline(always)]
fn delimiter_at(bytes: &[u8], end: &[u8], place: usize) -> Option<(Trim, usize)>
    requires { place ≤ length bytes.now }
    ensures { FindsDelimiter bytes.now end.now place result }
{
    if stands_at(bytes, place, end) {
        return Some((Trim::Plain, place + end.len()));
    }
    if place >= bytes.len() {
        return None;
    }
    match Trim::at(bytes, place) {
        Trim::Plain => None,
        sign => {
            if stands_at(bytes, place + 1, end) {
                Some((sign, place + 1 + end.len()))
            } else {
                None
            }
        }
    }
}
