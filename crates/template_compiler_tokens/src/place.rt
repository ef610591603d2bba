//! A place in a source.
ghost use Rattle.std.specs.Prelude.{◌≡◌, ℕ, ◌+◌, ◌-◌, ◌^◌, ◌≤◌, IsTrue, true, false, ◌++◌, List, [], length, min};
ghost use Rattle.template_compiler_tokens.specs.Bytes.{is_newline, begins_character, ArePlain};

use crate::counts::{Counts, count};
use template_compiler_tree::Span;

// What a column, an offset and a character of one byte count for in a place that is one number.
const COLUMN: u64 = 1 << 16;

const OFFSET: u64 = 1 << 32;

const CHARACTER: u64 = COLUMN + OFFSET;

/// A place in a source. Lines begin at 1, columns at 0; lines and columns stop at 65535, offsets at 2^32 - 1.
#[derive(Clone, Copy, Debug, PartialEq, Eq)]
pub struct Place {
    pub line: u16,
    pub column: u16,
    pub offset: u32,
}

impl Place {
    ghost use Rattle.template_compiler_tokens.specs.SourcePlaces.{IsBehind, IsBetween, packed_of, place_in};

    /// Where a source begins.
    pub fn start() -> Place
        ensures { IsBehind [] result }
    {
        Place {
            line: 1,
            column: 0,
            offset: 0,
        }
    }

    /// The place behind a text that begins here, in time linear in the text.
    pub fn after(self, text: &str) -> Place
        ensures { (before : List ℕ) → IsBehind before self → IsBehind (before ++ text.now) result }
    {
        let bytes = text.as_bytes();
        if are_plain(bytes) {
            self.beside(bytes)
        } else {
            self.after_bytes(bytes)
        }
    }

    // The place behind bytes of which each is a character of its line.
    fn beside(self, bytes: &[u8]) -> Place
        ensures { (before : List ℕ) → ArePlain bytes.now → IsBehind before self → IsBehind (before ++ bytes.now) result }
    {
        Place {
            line: self.line,
            column: saturate(self.column as usize + bytes.len()),
            offset: saturate_offset(self.offset, bytes.len()),
        }
    }

    pub(crate) fn after_bytes(self, bytes: &[u8]) -> Place
        ensures { (before : List ℕ) → IsBehind before self → IsBehind (before ++ bytes.now) result }
    {
        let Counts { newlines, column } = count(self.column, bytes);
        Place {
            line: self.line.saturating_add(saturate(newlines)),
            column: saturate(column),
            offset: saturate_offset(self.offset, bytes.len()),
        }
    }

    // The place behind so many characters of one byte each, on the line of this one.
    #[inline(always)]
    pub(crate) fn along(self, passed: usize) -> Place
        requires columns { self.column + passed ≤ 65535 }
        requires offsets { self.offset + passed ≤ 2 ^ 32 - 1 }
        ensures line { result.line ≡ self.line }
        ensures column { result.column ≡ self.column + passed }
        ensures offset { result.offset ≡ self.offset + passed }
    {
        Place::unpacked(self.packed() + passed as u64 * CHARACTER)
    }

    /// The place in one number: a register has room for it.
    #[inline(always)]
    pub(crate) fn packed(self) -> u64
        ensures number { result ≡ packed_of self }
        ensures place { place_in result ≡ self }
    {
        u64::from(self.line) + u64::from(self.column) * COLUMN + u64::from(self.offset) * OFFSET
    }

    /// The place in a number.
    #[inline(always)]
    pub(crate) fn unpacked(packed: u64) -> Place
        ensures { result ≡ place_in packed }
    {
        Place {
            line: (packed % COLUMN) as u16,
            column: (packed / COLUMN % COLUMN) as u16,
            offset: (packed / OFFSET) as u32,
        }
    }

    /// The span from this place to another.
    pub fn to(self, end: Place) -> Span
        ensures { (from upto : List ℕ) → IsBehind from self → IsBehind upto end → IsBetween from upto result }
    {
        Span {
            start_line: self.line,
            start_col: self.column,
            start_offset: self.offset,
            end_line: end.line,
            end_col: end.column,
            end_offset: end.offset,
        }
    }
}

// Only ASCII bytes that are no newlines. Most tokens are made of them, and so is most white space between tokens.
fn are_plain(bytes: &[u8]) -> bool
    ensures { IsTrue result → ArePlain bytes.now }
{
    for byte in bytes {
        if !is_plain(*byte) {
            return false;
        }
    }
    true
}

// An ASCII byte that is no newline.
pub(crate) fn is_plain(byte: u8) -> bool
    ensures line { IsTrue result → is_newline byte ≡ false }
    ensures character { IsTrue result → begins_character byte ≡ true }
{
    byte != b'\n' && byte < 0x80
}

pub(crate) fn saturate(count: usize) -> u16
    ensures { result ≡ min count 65535 }
{
    count.min(u16::MAX as usize) as u16
}

fn saturate_offset(offset: u32, len: usize) -> u32
    ensures { result ≡ min (offset + len) 4294967295 }
{
    offset.saturating_add(len.min(u32::MAX as usize) as u32)
}
