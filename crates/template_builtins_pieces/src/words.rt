//! The words of a text.
ghost use Rattle.std.specs.Prelude.{◌≡◌, IfOk, chars, encode_utf8_all, map};
ghost use Rattle.std.specs.Str.{IsUtf8, drop_trailing_whitespace};
ghost use Rattle.template_builtins_pieces.specs.Reading.{all_shown};
ghost use Rattle.template_builtins_pieces.specs.Words.{before_word, behind_word, first_word, last_word, last_words, words, words_back};

use std::alloc::{AllocError, Global};

// The words, after so many cuts from the left at most.
pub(crate) fn words<'a>(
    alloc: Global,
    text: &'a str,
    limit: usize,
) -> Result<Vec<&'a str>, AllocError>
    ensures { IfOk result (λ parts. all_shown parts.items ≡ words limit text.entry.now) }
{
    let mut parts = Vec::new(alloc);
    let mut rest = text.trim_start();
    let mut left = limit;
    while 0 < left {
        if rest.is_empty() {
            return Ok(parts);
        }
        let (word, after) = split_first_word(rest);
        parts.push(word)?;
        rest = after.trim_start();
        left -= 1;
    }
    if rest.is_empty() {
        return Ok(parts);
    }
    parts.push(rest)?;
    Ok(parts)
}

// The first word of a text that begins with one, and what is behind the white space after it.
fn split_first_word(text: &str) -> (&str, &str)
    ensures word { chars result.0.now ≡ first_word (chars text.now) }
    ensures rest { chars result.1.now ≡ behind_word (chars text.now) }
    ensures front { IsUtf8 result.0.now }
    ensures back { IsUtf8 result.1.now }
{
    match text.split_once(char::is_whitespace) {
        Some(parts) => parts,
        None => (text, ""),
    }
}

// The words, after so many cuts from the right at most.
#[tactic(auto, unfolding(crate::specs::Words::last_words))]
pub(crate) fn last_words<'a>(
    alloc: Global,
    text: &'a str,
    limit: usize,
) -> Result<Vec<&'a str>, AllocError>
    ensures { IfOk result (λ parts. all_shown parts.items ≡ last_words limit text.entry.now) }
{
    let mut parts = words_back(alloc, text, limit)?;
    parts.reverse();
    Ok(parts)
}

// The same, the last one first.
fn words_back<'a>(alloc: Global, text: &'a str, limit: usize) -> Result<Vec<&'a str>, AllocError>
    ensures { IfOk result (λ parts. all_shown parts.items
        ≡ map encode_utf8_all (words_back limit (drop_trailing_whitespace (chars text.entry.now)))) }
{
    let mut parts = Vec::new(alloc);
    let mut rest = text.trim_end();
    let mut left = limit;
    while 0 < left {
        if rest.is_empty() {
            return Ok(parts);
        }
        let (before, word) = split_last_word(rest);
        parts.push(word)?;
        rest = before.trim_end();
        left -= 1;
    }
    if rest.is_empty() {
        return Ok(parts);
    }
    parts.push(rest)?;
    Ok(parts)
}

// What is before the white space ahead of the last word of a text that ends with one, and that word.
fn split_last_word(text: &str) -> (&str, &str)
    ensures rest { chars result.0.now ≡ before_word (chars text.now) }
    ensures word { chars result.1.now ≡ last_word (chars text.now) }
    ensures front { IsUtf8 result.0.now }
    ensures back { IsUtf8 result.1.now }
{
    match text.rsplit_once(char::is_whitespace) {
        Some(parts) => parts,
        None => ("", text),
    }
}
