//! What comes of a line, as it is written.
use std::alloc::{AllocError, Global};
use std::collections::BTreeSet;
use std::fmt::Debug;
use template_compiler_tree::Span;
use template_values_core::Value;
use template_values_errors::{Error, ErrorKind};
use template_values_print::{NoRecords, print_to};

/// What comes of a line, as far as it is written. What is refused on the way is kept, so that what writes need not ask.
#[derive(Drop)]
pub(crate) struct Report {
    pub(crate) text: String,
    /// Why it is not whole, where it is not.
    pub(crate) refused: Option<ErrorKind>,
    /// Whether the place of each token stands behind it.
    pub(crate) with_places: bool,
}

impl Report {
    /// Nothing yet, without places.
    pub(crate) fn new(alloc: Global) -> Report {
        Report {
            text: String::new(alloc),
            refused: None,
            with_places: false,
        }
    }

    /// Keeps the first refusal.
    pub(crate) fn refuse(&mut self, kind: ErrorKind) {
        if self.refused.is_none() {
            self.refused = Some(kind);
        }
    }

    /// Keeps why something was not done, where it was not.
    pub(crate) fn done(&mut self, done: Result<(), Error>) {
        if let Err(error) = done {
            self.refuse(error.kind());
        }
    }

    // Keeps that memory was refused, where it was.
    fn note(&mut self, written: Result<(), AllocError>) {
        if written.is_err() {
            self.refuse(ErrorKind::OutOfMemory);
        }
    }

    pub(crate) fn push(&mut self, c: char) {
        let written = self.text.push(c);
        self.note(written);
    }

    pub(crate) fn push_str(&mut self, text: &str) {
        let written = self.text.push_str(text);
        self.note(written);
    }

    /// A word behind what stands there.
    pub(crate) fn word(&mut self, word: &str) {
        self.push(' ');
        self.push_str(word)
    }

    /// Names in order, after a head, in parentheses.
    pub(crate) fn names(&mut self, head: &str, names: &BTreeSet<String>) {
        self.push('(');
        self.push_str(head);
        for name in names {
            self.word(name.as_str())
        }
        self.push(')')
    }

    /// As `Debug` shows it, behind words.
    pub(crate) fn tell<T: Debug>(&mut self, words: &str, told: &T) {
        let written = write!(self.text, "{words}{told:?}");
        self.note(written);
    }

    /// As `Debug` shows it, behind a head, in parentheses.
    pub(crate) fn group<T: Debug>(&mut self, head: &str, told: &T) {
        let written = write!(self.text, "({head} {told:?})");
        self.note(written);
    }

    /// As `Debug` shows it, with a `;` behind it.
    pub(crate) fn answer<T: Debug>(&mut self, told: &T) {
        let written = write!(self.text, "{told:?};");
        self.note(written);
    }

    /// The kinds of an error, behind words.
    pub(crate) fn error(&mut self, words: &str, error: &Error) {
        let written = write!(self.text, "{words}{error}");
        self.note(written);
    }

    /// A value of no state, as it prints.
    pub(crate) fn value(&mut self, value: &Value) {
        let written = print_to(value, &NoRecords, &mut self.text);
        self.done(written)
    }

    /// The place of what ends here, where places are wanted: `@line:column:offset-line:column:offset`.
    pub(crate) fn place(&mut self, span: Span) {
        if self.with_places {
            let written = write_place(&mut self.text, span);
            self.note(written)
        }
    }
}

fn write_place(text: &mut String, span: Span) -> Result<(), AllocError> {
    write!(
        text,
        "@{}:{}:{}",
        span.start_line, span.start_col, span.start_offset
    )?;
    write!(
        text,
        "-{}:{}:{}",
        span.end_line, span.end_col, span.end_offset
    )
}

/// The refusal of what is of another kind.
pub(crate) fn unreadable() -> Result<(), Error> {
    Err(Error::new(ErrorKind::SyntaxError))
}
