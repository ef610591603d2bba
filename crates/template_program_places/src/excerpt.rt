//! What is shown of the line of a place.
ghost use Rattle.std.specs.Prelude.{◌≤◌, length};

use crate::characters::{count_characters, first_characters, last_characters};
use crate::lines::{behind_newline, numbered_line, up_to_newline};
use template_values_errors::Place;

/// A line of more characters is cut around the place.
const SHOWN: usize = 160;

/// Of a line that is cut, so many characters in front of the place are shown.
const SHOWN_BEFORE: usize = 60;

/// So many bytes hold more characters than are shown, or the whole of what they are taken from.
const WINDOW: usize = 4 * (SHOWN + 1);

/// A line in three parts: in front of the place, the place's own, and behind it.
#[derive(Clone, Copy)]
pub(crate) struct Excerpt<'a> {
    pub(crate) before: &'a [u8],
    pub(crate) own: &'a [u8],
    pub(crate) after: &'a [u8],
    /// Whether the place is underlined: one of which only the line is known is not.
    pub(crate) underlined: bool,
    /// Whether the line goes on in front of what is shown.
    pub(crate) cut_before: bool,
    /// Whether the line goes on behind what is shown.
    pub(crate) cut_after: bool,
}

/// What is shown of the line of a place: of a place of several lines its first. The bytes of a place tell where it lies, or
/// else, where only its line is known, the line's number; none where the source has no such bytes.
pub(crate) fn excerpt_of<'a>(source: &'a str, place: &Place) -> Option<Excerpt<'a>> {
    let bytes = source.as_bytes();
    let start = place.start as usize;
    let end = place.end as usize;
    if start == end && start != bytes.len() {
        return Some(whole_line(bytes, place.line));
    }
    if !source.is_char_boundary(start) {
        return None;
    }
    let (ahead, rest) = bytes.split_at_checked(start)?;
    Some(fitted(split(ahead, rest, end.saturating_sub(start))))
}

/// The line of that number, cut where it is long, with nothing underlined.
fn whole_line(source: &[u8], number: u16) -> Excerpt<'_> {
    let line = numbered_line(source, number);
    let after = first_characters(line, SHOWN);
    Excerpt {
        before: &[],
        own: &[],
        after,
        underlined: false,
        cut_before: false,
        cut_after: after.len() < line.len(),
    }
}

/// The line at the place between `ahead` and `rest`, of which the first `size` bytes are the place's.
fn split<'a>(ahead: &'a [u8], rest: &'a [u8], size: usize) -> Excerpt<'a> {
    let before = behind_newline(last_bytes(ahead));
    let line = up_to_newline(first_bytes(rest));
    let (own, after) = line.split_at(size.min(line.len()));
    Excerpt {
        before,
        own,
        after,
        underlined: true,
        cut_before: false,
        cut_after: false,
    }
}

/// The same line, cut where it is long.
fn fitted(line: Excerpt<'_>) -> Excerpt<'_> {
    if size_of(&line) <= SHOWN {
        return line;
    }
    let before = last_characters(line.before, SHOWN_BEFORE);
    let room = SHOWN.saturating_sub(count_characters(before));
    let own = first_characters(line.own, room);
    let after = first_characters(line.after, room.saturating_sub(count_characters(own)));
    Excerpt {
        before,
        own,
        after,
        underlined: line.underlined,
        cut_before: before.len() < line.before.len(),
        cut_after: own.len() < line.own.len() || after.len() < line.after.len(),
    }
}

/// How many characters the parts have.
fn size_of(line: &Excerpt<'_>) -> usize {
    count_characters(line.before)
        .saturating_add(count_characters(line.own))
        .saturating_add(count_characters(line.after))
}

/// As many of the first bytes as are looked at.
fn first_bytes(bytes: &[u8]) -> &[u8] {
    &bytes[..bytes.len().min(WINDOW)]
}

/// As many of the last bytes as are looked at.
fn last_bytes(bytes: &[u8]) -> &[u8] {
    &bytes[bytes.len().saturating_sub(WINDOW)..]
}
