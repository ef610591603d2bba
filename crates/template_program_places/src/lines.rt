//! The line of a source that a place lies on.
use memchr::{memchr, memrchr};

/// What lies on the line in front of its end: all up to the first newline, without a carriage return there.
pub(crate) fn up_to_newline(bytes: &[u8]) -> &[u8] {
    without_return(match memchr(b'\n', bytes) {
        Some(end) => &bytes[..end],
        None => bytes,
    })
}

/// What lies behind the last newline.
pub(crate) fn behind_newline(bytes: &[u8]) -> &[u8] {
    match memrchr(b'\n', bytes) {
        Some(newline) => &bytes[newline + 1..],
        None => bytes,
    }
}

/// The line of that number, from 1; empty where the source has no such line. Linear in the source up to there.
pub(crate) fn numbered_line(source: &[u8], number: u16) -> &[u8] {
    let mut left = source;
    for _line in 1..number {
        match next_lines(left) {
            Some(lines) => left = lines,
            None => return &[],
        }
    }
    up_to_newline(left)
}

/// What lies behind the first newline, if there is one.
fn next_lines(bytes: &[u8]) -> Option<&[u8]> {
    match memchr(b'\n', bytes) {
        Some(newline) => Some(&bytes[newline + 1..]),
        None => None,
    }
}

fn without_return(line: &[u8]) -> &[u8] {
    match line.split_last() {
        Some((last, ahead)) if *last == b'\r' => ahead,
        _ => line,
    }
}
