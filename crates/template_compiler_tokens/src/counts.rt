//! What bytes count for in a place: their newlines, and the column behind them.
ghost use Rattle.std.specs.Prelude.{◌≡◌, ◌≤◌, length, count_by, fold};
ghost use Rattle.template_compiler_tokens.specs.Bytes.{is_newline, begins_character, is_between, next_column};

use memchr::memrchr;

// Fewer bytes are gone over one by one: most texts are tokens.
const FEW: usize = 32;

// So many bytes are counted in a number of one byte.
const BLOCK: usize = 128;

/// The newlines of a text, and the column behind it.
#[derive(Clone, Copy)]
pub(crate) struct Counts {
    pub(crate) newlines: usize,
    pub(crate) column: usize,
}

/// What bytes count for, from the column that they begin at.
#[inline(always)]
pub(crate) fn count(column: u16, bytes: &[u8]) -> Counts
    ensures newlines { result.newlines ≡ count_by is_newline bytes.now }
    ensures column { result.column ≡ fold next_column column bytes.now }
{
    if bytes.len() < FEW {
        count_few(column, bytes)
    } else {
        count_many(column, bytes)
    }
}

// The same, byte by byte.
#[inline(always)]
fn count_few(column: u16, bytes: &[u8]) -> Counts
    ensures newlines { result.newlines ≡ count_by is_newline bytes.now }
    ensures column { result.column ≡ fold next_column column bytes.now }
{
    let mut newlines = 0;
    let mut column = column as usize;
    for byte in bytes {
        if *byte == b'\n' {
            newlines += 1;
            column = 0;
        } else if *byte < 0x80 || 0xc0 <= *byte {
            column += 1;
        }
    }
    Counts { newlines, column }
}

// The same, block by block. No byte before the last newline changes the column.
#[inline(never)]
fn count_many(column: u16, bytes: &[u8]) -> Counts
    ensures newlines { result.newlines ≡ count_by is_newline bytes.now }
    ensures column { result.column ≡ fold next_column column bytes.now }
{
    match memrchr(b'\n', bytes) {
        Some(last) => {
            let (lines, line) = bytes.split_at(last + 1);
            Counts {
                newlines: count_between(lines, b'\n', b'\n'),
                column: count_characters(line),
            }
        }
        None => Counts {
            newlines: 0,
            column: column as usize + count_characters(bytes),
        },
    }
}

// How many characters the bytes begin: all but those from 128 to 191 begin one.
fn count_characters(bytes: &[u8]) -> usize
    ensures { result ≡ count_by begins_character bytes.now }
{
    bytes.len() - count_between(bytes, 0x80, 0xbf)
}

// How many bytes are from the low one to the high one.
#[inline(always)]
fn count_between(bytes: &[u8], low: u8, high: u8) -> usize
    ensures { result ≡ count_by (is_between low high) bytes.now }
{
    let mut count = 0;
    let mut rest = bytes;
    while BLOCK < rest.len() {
        let (block, behind) = rest.split_at(BLOCK);
        count += count_in_block(block, low, high) as usize;
        rest = behind;
    }
    count + count_in_block(rest, low, high) as usize
}

// The same of a block. As its count is a byte too, the compiler makes it of sixteen bytes at once.
#[inline(always)]
fn count_in_block(block: &[u8], low: u8, high: u8) -> u8
    requires { length block.now ≤ BLOCK }
    ensures { result ≡ count_by (is_between low high) block.now }
{
    let mut count = 0;
    for byte in block {
        if low <= *byte && *byte <= high {
            count += 1;
        }
    }
    count
}
