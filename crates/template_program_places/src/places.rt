//! The places of an error as text.
use crate::characters::begins_character;
use crate::excerpt::{Excerpt, excerpt_of};
use std::alloc::{AllocError, Global};
use template_values_errors::{Error, Place};

/// The places of an error and of its causes, the outermost first: those of the error and then those of each cause, and of each
/// of them the last place first. A place is a line `  at page.html:12:7`; where the templates, as names and sources, have its
/// name, the line of its source follows, and a line of carets below its characters:
///
/// ```text
///   at page.html:12:4
///    |
/// 12 | {{ user.nmae|upper }}
///    |    ^^^^^^^^^^^^^^^
/// ```
///
/// Of several templates of one name the last counts. A line of more than 160 characters is cut around the place: 60 of those in
/// front of it are shown, and 160 in all, with `...` where some are left out.
///
/// Linear in the places, and in the sources where only a line is known. Looks for each place's name among the templates.
///
/// # Errors
///
/// Want of memory.
pub fn places_text(
    alloc: Global,
    error: &Error,
    templates: &[(String, String)],
) -> Result<Vec<u8>, AllocError> {
    let mut text = Vec::new(alloc);
    let mut error = error;
    push_level(&mut text, error, templates)?;
    while let Some(cause) = error.cause() {
        push_level(&mut text, cause, templates)?;
        error = cause;
    }
    Ok(text)
}

// The places of one error, without those of its causes.
fn push_level(
    text: &mut Vec<u8>,
    error: &Error,
    templates: &[(String, String)],
) -> Result<(), AllocError> {
    for place in error.places().iter().rev() {
        push_place(text, place, templates)?;
    }
    Ok(())
}

fn push_place(
    text: &mut Vec<u8>,
    place: &Place,
    templates: &[(String, String)],
) -> Result<(), AllocError> {
    let at = format!(in *text.allocator(); "  at {place}\n")?;
    text.extend_from_slice(at.as_bytes())?;
    let Some(source) = source_of(templates, place.name.as_str()) else {
        return Ok(());
    };
    match excerpt_of(source, place) {
        Some(excerpt) => push_excerpt(text, place.line, excerpt),
        None => Ok(()),
    }
}

// The source of the last template of that name.
fn source_of<'a>(templates: &'a [(String, String)], wanted: &str) -> Option<&'a str> {
    for (name, source) in templates.iter().rev() {
        if name.as_str() == wanted {
            return Some(source.as_str());
        }
    }
    None
}

// The line of the source, below a bar, and the carets.
fn push_excerpt(text: &mut Vec<u8>, line: u16, excerpt: Excerpt<'_>) -> Result<(), AllocError> {
    let number = format!(in *text.allocator(); "{line}")?;
    push_margin(text, number.len())?;
    text.push(b'\n')?;
    text.extend_from_slice(number.as_bytes())?;
    text.extend_from_slice(b" |")?;
    push_line(text, excerpt)?;
    text.push(b'\n')?;
    if excerpt.underlined {
        push_margin(text, number.len())?;
        push_carets(text, excerpt)?;
        text.push(b'\n')?;
    }
    Ok(())
}

// A bar below that of a line whose number has so many digits.
fn push_margin(text: &mut Vec<u8>, digits: usize) -> Result<(), AllocError> {
    for _digit in 0..digits {
        text.push(b' ')?;
    }
    text.extend_from_slice(b" |")
}

// The line, behind a space if it has any characters.
fn push_line(text: &mut Vec<u8>, excerpt: Excerpt<'_>) -> Result<(), AllocError> {
    if excerpt.before.is_empty() && excerpt.own.is_empty() && excerpt.after.is_empty() {
        return Ok(());
    }
    text.push(b' ')?;
    if excerpt.cut_before {
        text.extend_from_slice(b"...")?;
    }
    text.extend_from_slice(excerpt.before)?;
    text.extend_from_slice(excerpt.own)?;
    text.extend_from_slice(excerpt.after)?;
    if excerpt.cut_after {
        text.extend_from_slice(b"...")?;
    }
    Ok(())
}

// Carets below the characters of the place, and one where it has none.
fn push_carets(text: &mut Vec<u8>, excerpt: Excerpt<'_>) -> Result<(), AllocError> {
    text.push(b' ')?;
    if excerpt.cut_before {
        text.extend_from_slice(b"   ")?;
    }
    push_marks(text, excerpt.before, b' ')?;
    if excerpt.own.is_empty() {
        return Ok(text.push(b'^')?);
    }
    push_marks(text, excerpt.own, b'^')
}

// A mark for each character; a tab stays a tab, so that what follows stands below its characters.
fn push_marks(text: &mut Vec<u8>, bytes: &[u8], mark: u8) -> Result<(), AllocError> {
    for byte in bytes {
        if *byte == b'\t' {
            text.push(b'\t')?;
        } else if begins_character(*byte) {
            text.push(mark)?;
        }
    }
    Ok(())
}
