//! Texts with references for what HTML reads as markup.
ghost use Rattle.std.specs.Prelude.{◌≡◌, ◌↔◌, ◌+◌, ◌<◌, ◌≤◌, ◌∷◌, [], ◌++◌, Ok, IfErr, IfOk, IfSome, OnErr, IsTrue, IsUtf8, MatchOption, OnSome, length, string_bytes, take};
ghost use Rattle.std.specs.Str.{IsCharBoundary};
ghost use Rattle.template_values_errors.specs.Memory.{NoMemory};
ghost use Rattle.template_values_forms.specs.Escapes.{html, html_byte};
ghost use Rattle.template_values_print.specs.Pieces.{Begins, Waits, Writes};
ghost use Rattle.template_values_print.specs.declared.pieces.Markup.TheVariants.{Html, Plain};

use crate::pieces::push_plain;
use crate::runs::{Stops, run_end};
use std::str;
use template_values_errors::Error;

/// References wait in a block, so that many of them are written at once.
pub const HTML_BLOCK: usize = 256;

/// A text of so many bytes at most fits into a block with its references.
pub const SHORT_TEXT: usize = 40;

// How many bytes a reference takes with what pads it.
const REFERENCE: usize = 8;

// How many bytes a reference has at most.
const LONGEST: usize = 6;

/// Puts a short text with references for HTML's markup at the front of a block, and tells how many bytes it then has.
#[inline(always)]
pub fn put_html(block: &mut [u8; HTML_BLOCK], text: &str) -> usize
    requires { length text.now ≤ SHORT_TEXT }
    ensures put { take result block.new ≡ html text.now }
    ensures bound { result ≤ HTML_BLOCK }
    ensures text { IsUtf8 (html text.now) }
{
    let mut used = 0;
    for byte in text.as_bytes() {
        used = put_byte(block, used, *byte);
    }
    used
}

/// Whether HTML reads a text as text alone, so that it may be written as it is. Takes time linear in the text.
#[inline(always)]
pub fn is_unmarked(text: &str) -> bool
    ensures { IsTrue result ↔ (html text.now ≡ text.now) }
{
    run_end(Stops::Markup, text, 0) == text.len()
}

// Puts what stands for a byte behind the bytes that wait, and tells how many then do.
#[inline(always)]
fn put_byte(block: &mut [u8; HTML_BLOCK], used: usize, byte: u8) -> usize
    requires { used + REFERENCE ≤ HTML_BLOCK }
    ensures put { take result block.new ≡ take used block.old ++ html_byte byte }
    ensures bound { result ≤ used + LONGEST }
{
    match reference_of(byte) {
        Some(reference) => put(block, used, reference),
        None => put_plain(block, used, byte),
    }
}

#[inline(always)]
fn put_plain(block: &mut [u8; HTML_BLOCK], used: usize, byte: u8) -> usize
    requires { used < HTML_BLOCK }
    ensures put { take result block.new ≡ take used block.old ++ byte ∷ [] }
    ensures length { result ≡ used + 1 }
{
    block[used] = byte;
    used + 1
}

/// Writes a text with references for HTML's markup. It stands alone, so that a piece that is written as it is pays nothing for
/// the block.
#[inline(never)]
pub(crate) fn push_html(out: &mut String, piece: &str) -> Result<(), Error>
    ensures { Writes Html (string_bytes out.old) (Ok piece.now) result (string_bytes out.new) }
{
    let plain = plain_length(piece);
    push_unmarked(out, &piece[..plain])?;
    push_marked(out, &piece[plain..])
}

// How many bytes stand before the first that HTML reads as markup.
fn plain_length(piece: &str) -> usize
    ensures plain { html (take result piece.now) ≡ take result piece.now }
    ensures boundary { IsCharBoundary piece.now result }
{
    run_end(Stops::Markup, piece, 0)
}

fn push_unmarked(out: &mut String, piece: &str) -> Result<(), Error>
    requires { html piece.now ≡ piece.now }
    ensures { Writes Html (string_bytes out.old) (Ok piece.now) result (string_bytes out.new) }
{
    push_plain(out, piece)
}

fn push_marked(out: &mut String, piece: &str) -> Result<(), Error>
    ensures { Writes Html (string_bytes out.old) (Ok piece.now) result (string_bytes out.new) }
{
    if piece.is_empty() {
        return Ok(());
    }
    out.reserve(piece.len())?;
    push_references(out, piece)
}

fn push_references(out: &mut String, piece: &str) -> Result<(), Error>
    ensures { Writes Html (string_bytes out.old) (Ok piece.now) result (string_bytes out.new) }
{
    let mut block = [0; HTML_BLOCK];
    let mut used = 0;
    let mut at = 0;
    while at < piece.len() {
        let Some(reference) = reference_of(piece.as_bytes()[at]) else {
            let end = run_end(Stops::Markup, piece, at + 1);
            used = put_piece(out, &mut block, used, &piece[at..end])?;
            at = end;
            continue;
        };
        used = put_reference(out, &mut block, used, reference)?;
        at += 1;
    }
    push_block(out, &block[..used], "")
}

// A reference, and bytes behind it that mean nothing: each is put by one move, since all have one size.
#[derive(Clone, Copy)]
struct Reference {
    padded: &'static [u8; REFERENCE],
    length: usize,
}

fn reference_of(byte: u8) -> Option<Reference>
    ensures is { MatchOption result (html_byte byte ≡ byte ∷ []) (λ r. take r.length r.padded.now ≡ html_byte byte) }
    ensures fits { IfSome result (λ r. r.length ≤ LONGEST) }
    ensures ascii { OnSome result (byte < 128) }
{
    let (padded, length) = match byte {
        b'<' => (b"&lt;....", 4),
        b'>' => (b"&gt;....", 4),
        b'&' => (b"&amp;...", 5),
        b'"' => (b"&quot;..", 6),
        b'\'' => (b"&#x27;..", 6),
        b'/' => (b"&#x2f;..", 6),
        _ => return None,
    };
    Some(Reference { padded, length })
}

// Writes the block, and the piece behind it.
fn push_block(out: &mut String, block: &[u8], piece: &str) -> Result<(), Error>
    requires { IsUtf8 block.now }
    ensures { Writes Plain (string_bytes out.old) (Ok (block.now ++ piece.now)) result (string_bytes out.new) }
{
    push_plain(out, unsafe { str::from_utf8_unchecked(block) })?;
    push_plain(out, piece)
}

// Puts the piece behind the bytes that wait, where it leaves room for a reference, and else writes these and it; tells how
// many bytes then wait.
fn put_piece(
    out: &mut String,
    block: &mut [u8; HTML_BLOCK],
    used: usize,
    piece: &str,
) -> Result<usize, Error>
    requires room { used + REFERENCE ≤ HTML_BLOCK }
    requires text { IsUtf8 (take used block.old) }
    ensures waits { IfOk result (λ next. Waits (string_bytes out.old) (string_bytes out.new) block.new
        ((string_bytes out.old ++ take used block.old) ++ piece.now) next) }
    ensures refused { IfErr result NoMemory }
    ensures begins { OnErr result (Begins (string_bytes out.old) (string_bytes out.new)) }
{
    if piece.len() <= HTML_BLOCK - REFERENCE - used {
        put_bytes(block, used, piece.as_bytes());
        return Ok(used + piece.len());
    }
    push_block(out, &block[..used], piece)?;
    Ok(0)
}

// Puts the reference behind the bytes that wait, and writes these where they then leave no room for another; tells how many
// bytes then wait.
#[inline(always)]
fn put_reference(
    out: &mut String,
    block: &mut [u8; HTML_BLOCK],
    used: usize,
    reference: Reference,
) -> Result<usize, Error>
    requires room { used + REFERENCE ≤ HTML_BLOCK }
    requires fits { reference.length ≤ REFERENCE }
    requires text { IsUtf8 (take used block.old) }
    requires reference { IsUtf8 (take reference.length reference.padded.now) }
    ensures waits { IfOk result (λ next. Waits (string_bytes out.old) (string_bytes out.new) block.new
        ((string_bytes out.old ++ take used block.old) ++ take reference.length reference.padded.now) next) }
    ensures refused { IfErr result NoMemory }
    ensures begins { OnErr result (Begins (string_bytes out.old) (string_bytes out.new)) }
{
    let used = put(block, used, reference);
    if used <= HTML_BLOCK - REFERENCE {
        return Ok(used);
    }
    push_block(out, &block[..used], "")?;
    Ok(0)
}

// Puts bytes behind those that wait.
fn put_bytes(block: &mut [u8; HTML_BLOCK], used: usize, bytes: &[u8])
    requires { used + length bytes.now ≤ HTML_BLOCK }
    ensures length { length block.new ≡ HTML_BLOCK }
    ensures put { take (used + length bytes.now) block.new ≡ take used block.old ++ bytes.now }
{
    block[used..used + bytes.len()].copy_from_slice(bytes);
}

// Puts the reference behind the bytes that wait, and tells how many then do.
fn put(block: &mut [u8; HTML_BLOCK], used: usize, reference: Reference) -> usize
    requires room { used + REFERENCE ≤ HTML_BLOCK }
    requires fits { reference.length ≤ REFERENCE }
    ensures length { result ≡ used + reference.length }
    ensures put { take result block.new ≡ take used block.old ++ take reference.length reference.padded.now }
{
    put_padded(block, used, reference.padded);
    used + reference.length
}

fn put_padded(block: &mut [u8; HTML_BLOCK], used: usize, padded: &[u8; REFERENCE])
    requires { used + REFERENCE ≤ HTML_BLOCK }
    ensures length { length block.new ≡ HTML_BLOCK }
    ensures put { take (used + REFERENCE) block.new ≡ take used block.old ++ padded.now }
{
    block[used..used + REFERENCE].copy_from_slice(padded);
}
