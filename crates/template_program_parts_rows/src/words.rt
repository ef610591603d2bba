//! Words that are read alone.
use crate::report::Report;
use serde_json::{Map, Value as Json};
use std::alloc::Global;
use template_program_words::{Words, WordsFault, read_words};
use template_rows::texts_of;
use template_values_errors::ErrorKind;

/// What is read of the words, or why they are refused.
pub(crate) fn about_words(
    alloc: Global,
    words: &Json,
    entries: &Map<String, Json>,
    out: &mut Report,
) {
    out.expect_names(entries, &["read", "begins", "holds"]);
    let words = out.or(texts_of(alloc, words), Vec::new(alloc));
    tell(&read_words(alloc, words.as_slice()), entries, out)
}

fn tell(read: &Result<Words<'_>, WordsFault>, entries: &Map<String, Json>, out: &mut Report) {
    match read {
        Ok(read) => out.tell("", read),
        Err(WordsFault::Memory) => out.refuse(ErrorKind::OutOfMemory),
        Err(WordsFault::Help(text)) => tell_text("help", text.as_str(), entries, out),
        Err(WordsFault::Version(text)) => tell_text("version", text.as_str(), entries, out),
        Err(WordsFault::Usage(text)) => tell_text("usage", text.as_str(), entries, out),
        Err(WordsFault::Definition) => out.push_str("definition"),
    }
}

// The word for a text, and whether it begins with what the entries say, and holds it.
fn tell_text(word: &str, text: &str, entries: &Map<String, Json>, out: &mut Report) {
    let begins = out.text_of(entries.get("begins"));
    let holds = out.text_of(entries.get("holds"));
    if !text.starts_with(begins) || !text.contains(holds) {
        out.push_str("another ");
    }
    out.push_str(word)
}
