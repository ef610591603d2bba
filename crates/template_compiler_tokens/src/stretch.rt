//! A stretch of a source whose places are told without a look at its bytes.
ghost use Rattle.std.specs.Prelude.{◌≡◌, ◌+◌, ◌-◌, ◌≤◌, ◌<◌, ℕ, List, length, take, slice_index};
ghost use Rattle.template_compiler_tokens.specs.Bytes.{ArePlain};
ghost use Rattle.template_compiler_tokens.specs.SourcePlaces.{IsBehind, place_in, span_between};
ghost use Rattle.template_compiler_tokens.specs.Stretches.{BeginsBy};

use crate::place::{Place, is_plain};
use memchr::memchr;
use template_compiler_tree::Span;

// How many bytes a stretch has at most, so that few are searched again where it ends before them.
const REACH: usize = 256;

/// A stretch of a source in which each byte is a character of its line, and the place where it begins.
#[derive(Clone, Copy, Debug)]
pub struct Stretch {
    pub begin: usize,
    pub end: usize,
    pub first: Place,
}

impl Stretch {
    ghost use Rattle.template_compiler_tokens.specs.SourcePlaces.{IsBehind};
    ghost use Rattle.template_compiler_tokens.specs.Stretches.{BeginsBy, IsStretch, IsNarrow};

    /// The stretch before the first byte of a source.
    pub fn start() -> Stretch
        ensures { (source : List ℕ) → BeginsBy source 0 result }
    {
        Stretch {
            begin: 0,
            end: 0,
            first: Place::start(),
        }
    }

    /// The stretch that reaches a place of the source: this one, or the one that begins there.
    #[inline(always)]
    pub fn reaching(self, source: &str, at: usize) -> Stretch
        requires stretch { IsStretch source.now self }
        requires behind { self.begin ≤ at }
        requires within { at ≤ length source.now }
        ensures stretch { IsStretch source.now result }
        ensures begin { result.begin ≤ at }
        ensures end { at ≤ result.end }
    {
        if at <= self.end {
            self
        } else {
            self.next(source.as_bytes(), at)
        }
    }

    // The stretch that reaches a place behind this one: the one that begins behind the byte that ends this one, most often a
    // newline, if it reaches so far, else the one that begins at the place.
    #[inline(always)]
    fn next(self, bytes: &[u8], at: usize) -> Stretch
        requires stretch { IsStretch bytes.now self }
        requires behind { self.end < at }
        requires within { at ≤ length bytes.now }
        ensures stretch { IsStretch bytes.now result }
        ensures begin { result.begin ≤ at }
        ensures end { at ≤ result.end }
    {
        let line = self.begun(bytes, self.end + 1);
        if at <= line.end {
            line
        } else {
            self.begun(bytes, at)
        }
    }

    // The stretch that begins at a place behind this one.
    #[inline(always)]
    fn begun(self, bytes: &[u8], at: usize) -> Stretch
        requires stretch { IsStretch bytes.now self }
        requires behind { self.end ≤ at }
        requires within { at ≤ length bytes.now }
        ensures stretch { IsStretch bytes.now result }
        ensures begin { result.begin ≡ at }
        ensures end { at ≤ result.end }
    {
        let first = self.place(self.end).after_bytes(&bytes[self.end..at]);
        let columns = (u16::MAX - first.column) as usize;
        let offsets = (u32::MAX - first.offset) as usize;
        let near = beginning(bytes.split_at(at).1, columns.min(offsets).min(REACH));
        Stretch {
            begin: at,
            end: at + plain_len(near),
            first,
        }
    }

    /// The place that stands so many bytes behind the beginning of the source, where the stretch reaches it.
    #[inline(always)]
    pub fn place(self, at: usize) -> Place
        requires begin { self.begin ≤ at }
        requires end { at ≤ self.end }
        requires narrow { IsNarrow self }
        ensures { (source : List ℕ) → IsStretch source self → IsBehind (take at source) result }
    {
        self.first.along(at - self.begin)
    }
}

/// The span between two places of a text, from the stretch that reaches the first or stands before it; and the stretch
/// that reaches the second.
#[inline(always)]
pub fn span_in(text: &str, stretch: Stretch, begin: usize, end: usize) -> (Span, Stretch)
    requires begins { BeginsBy text.now begin stretch }
    requires ordered { begin ≤ end }
    requires within { end ≤ length text.now }
    ensures span { result.0 ≡ span_between (take begin text.now) (take end text.now) }
    ensures begins { BeginsBy text.now end result.1 }
{
    let mut ends = stretch;
    let span = next_span(text, &mut ends, begin, end);
    (span, ends)
}

/// The same, where the stretch is put into the place of the one that is given.
#[inline(always)]
pub fn next_span(text: &str, stretch: &mut Stretch, begin: usize, end: usize) -> Span
    requires begins { BeginsBy text.now begin stretch.old }
    requires ordered { begin ≤ end }
    requires within { end ≤ length text.now }
    ensures span { result ≡ span_between (take begin text.now) (take end text.now) }
    ensures begins { BeginsBy text.now end stretch.new }
{
    let Ends { first, last } = next_ends(text, stretch, begin, end);
    Place::unpacked(first).to(Place::unpacked(last))
}

// The places where a span begins and ends, each in one number.
#[derive(Clone, Copy)]
struct Ends {
    first: u64,
    last: u64,
}

// Most spans end where their stretch does, or before.
#[inline(always)]
fn next_ends(text: &str, stretch: &mut Stretch, begin: usize, end: usize) -> Ends
    requires begins { BeginsBy text.now begin stretch.old }
    requires ordered { begin ≤ end }
    requires within { end ≤ length text.now }
    ensures first { IsBehind (take begin text.now) (place_in result.first) }
    ensures last { IsBehind (take end text.now) (place_in result.last) }
    ensures begins { BeginsBy text.now end stretch.new }
{
    if end <= stretch.end {
        Ends {
            first: stretch.place(begin).packed(),
            last: stretch.place(end).packed(),
        }
    } else {
        ends_beyond(text, stretch, begin, end)
    }
}

#[inline(never)]
fn ends_beyond(text: &str, stretch: &mut Stretch, begin: usize, end: usize) -> Ends
    requires begins { BeginsBy text.now begin stretch.old }
    requires ordered { begin ≤ end }
    requires within { end ≤ length text.now }
    ensures first { IsBehind (take begin text.now) (place_in result.first) }
    ensures last { IsBehind (take end text.now) (place_in result.last) }
    ensures begins { BeginsBy text.now end stretch.new }
{
    let starts = stretch.reaching(text, begin);
    let ends = starts.reaching(text, end);
    *stretch = ends;
    Ends {
        first: starts.place(begin).packed(),
        last: ends.place(end).packed(),
    }
}

// The first bytes, as many as the limit at most.
fn beginning(bytes: &[u8], limit: usize) -> &[u8]
    ensures bytes { result.now ≡ take limit bytes.now }
{
    bytes.split_at(limit.min(bytes.len())).0
}

// How many of the first bytes are ASCII bytes that are no newlines.
fn plain_len(bytes: &[u8]) -> usize
    ensures plain { ArePlain (take result bytes.now) }
    ensures within { result ≤ length bytes.now }
{
    let len = line_len(bytes);
    let line = beginning(bytes, len);
    if line.is_ascii() {
        len
    } else {
        leading_len(bytes)
    }
}

// How many bytes stand before the first newline, or at all.
fn line_len(bytes: &[u8]) -> usize
    ensures line { (i : ℕ) → i < result → slice_index bytes.now i ≡ 10 → ⊥ }
    ensures within { result ≤ length bytes.now }
{
    match memchr(b'\n', bytes) {
        Some(newline) => newline,
        None => bytes.len(),
    }
}

// The same as [`plain_len`], byte by byte.
fn leading_len(bytes: &[u8]) -> usize
    ensures plain { ArePlain (take result bytes.now) }
    ensures within { result ≤ length bytes.now }
{
    for (index, byte) in bytes.iter().enumerate() {
        if !is_plain(*byte) {
            return index;
        }
    }
    bytes.len()
}
