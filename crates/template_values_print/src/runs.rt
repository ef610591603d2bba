//! Runs of bytes that stand for themselves, sought many bytes at a time.
ghost use Rattle.std.specs.Prelude.{◌≡◌, ◌+◌, ◌≤◌, length, drop, map};
ghost use Rattle.std.specs.List.{prefix_len};
ghost use Rattle.std.specs.Str.{IsCharBoundary};
ghost use Rattle.std.specs.Simd.Lanes.{mask_l};
ghost use Rattle.template_values_print.specs.Runs.{is_escaped, is_markup, is_stop, stands};

use std::simd::prelude::*;

/// What a run ends at.
#[derive(Clone, Copy)]
pub(crate) enum Stops {
    /// What HTML reads as markup.
    Markup,
    /// What has an escape between quotes, as values print or as JSON has it.
    Escaped,
}

/// Where the run ends that goes on at `from`: at the first stop, or with the text.
#[inline(always)]
pub(crate) fn run_end(stops: Stops, text: &str, from: usize) -> usize
    requires { from ≤ length text.now }
    ensures value { result ≡ from + prefix_len (stands stops) (drop from text.now) }
    ensures bound { result ≤ length text.now }
    ensures boundary { IsCharBoundary text.now result }
{
    end_in(stops, text.as_bytes(), from)
}

#[inline(always)]
fn end_in(stops: Stops, text: &[u8], from: usize) -> usize
    requires { from ≤ length text.now }
    ensures value { result ≡ from + prefix_len (stands stops) (drop from text.now) }
    ensures bound { result ≤ length text.now }
{
    let mut i = from;
    while text.len() - i >= 16 {
        let found = stops_16(stops, u8x16::from_slice(&text[i..]));
        if found != 0 {
            return i + found.trailing_zeros() as usize;
        }
        i += 16;
    }
    end_within_16(stops, text, i)
}

#[inline(always)]
fn end_within_16(stops: Stops, text: &[u8], from: usize) -> usize
    requires { from ≤ length text.now }
    ensures { result ≡ from + prefix_len (stands stops) (drop from text.now) }
{
    if text.len() - from < 8 {
        return end_within_8(stops, text, from);
    }
    let found = stops_8(stops, u8x8::from_slice(&text[from..]));
    if found != 0 {
        return from + found.trailing_zeros() as usize;
    }
    end_within_8(stops, text, from + 8)
}

#[inline(always)]
fn end_within_8(stops: Stops, text: &[u8], from: usize) -> usize
    requires { from ≤ length text.now }
    ensures { result ≡ from + prefix_len (stands stops) (drop from text.now) }
{
    let mut i = from;
    while i < text.len() && !stops_at(stops, text[i]) {
        i += 1;
    }
    i
}

#[inline(always)]
fn stops_at(stops: Stops, byte: u8) -> bool
    ensures { result ≡ is_stop stops byte }
{
    match stops {
        Stops::Markup => matches!(byte, b'<' | b'>' | b'&' | b'"' | b'\'' | b'/'),
        Stops::Escaped => matches!(byte, 0..=31 | b'"' | b'\\' | 127),
    }
}

#[inline(always)]
fn stops_16(stops: Stops, lanes: u8x16) -> u64
    ensures { result ≡ mask_l (map (is_stop stops) lanes) }
{
    match stops {
        Stops::Markup => markup_16(lanes),
        Stops::Escaped => escaped_16(lanes),
    }
}

#[inline(always)]
fn stops_8(stops: Stops, lanes: u8x8) -> u64
    ensures { result ≡ mask_l (map (is_stop stops) lanes) }
{
    match stops {
        Stops::Markup => markup_8(lanes),
        Stops::Escaped => escaped_8(lanes),
    }
}

// Two each of HTML's six differ in one bit alone: `<` and `>`, `"` and `&`, `'` and `/`.
#[inline(always)]
fn markup_16(lanes: u8x16) -> u64
    ensures { result ≡ mask_l (map is_markup lanes) }
{
    ((lanes | u8x16::splat(2)).simd_eq(u8x16::splat(b'>'))
        | (lanes | u8x16::splat(4)).simd_eq(u8x16::splat(b'&'))
        | (lanes | u8x16::splat(8)).simd_eq(u8x16::splat(b'/'))).to_bitmask()
}

#[inline(always)]
fn markup_8(lanes: u8x8) -> u64
    ensures { result ≡ mask_l (map is_markup lanes) }
{
    ((lanes | u8x8::splat(2)).simd_eq(u8x8::splat(b'>'))
        | (lanes | u8x8::splat(4)).simd_eq(u8x8::splat(b'&'))
        | (lanes | u8x8::splat(8)).simd_eq(u8x8::splat(b'/'))).to_bitmask()
}

#[inline(always)]
fn escaped_16(lanes: u8x16) -> u64
    ensures { result ≡ mask_l (map is_escaped lanes) }
{
    (lanes.simd_eq(u8x16::splat(b'"'))
        | lanes.simd_eq(u8x16::splat(b'\\'))
        | lanes.simd_eq(u8x16::splat(127))
        | lanes.simd_lt(u8x16::splat(32))).to_bitmask()
}

#[inline(always)]
fn escaped_8(lanes: u8x8) -> u64
    ensures { result ≡ mask_l (map is_escaped lanes) }
{
    (lanes.simd_eq(u8x8::splat(b'"'))
        | lanes.simd_eq(u8x8::splat(b'\\'))
        | lanes.simd_eq(u8x8::splat(127))
        | lanes.simd_lt(u8x8::splat(32))).to_bitmask()
}
