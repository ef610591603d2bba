//! What comes of a line, as it is written.
use serde_json::{Map, Value as Json};
use std::alloc::{AllocError, Global};
use std::fmt::{Debug, Display};
use template_rows::{bytes_of, count_of, expect_names, quoted};
use template_values_core::Value;
use template_values_errors::{Error, ErrorKind};
use template_values_print::{NoRecords, print_to};

/// What comes of a line, as far as it is written. What is refused on the way is kept, so that what writes need not ask.
#[derive(Drop)]
pub(crate) struct Report {
    pub(crate) text: String,
    /// Why it is not whole, where it is not.
    pub(crate) refused: Option<ErrorKind>,
}

impl Report {
    /// Nothing yet.
    pub(crate) fn new(alloc: Global) -> Report {
        Report {
            text: String::new(alloc),
            refused: None,
        }
    }

    /// Keeps the first refusal.
    pub(crate) fn refuse(&mut self, kind: ErrorKind) {
        if self.refused.is_none() {
            self.refused = Some(kind);
        }
    }

    /// Keeps that memory was refused, where it was.
    pub(crate) fn note(&mut self, done: Result<(), AllocError>) {
        if done.is_err() {
            self.refuse(ErrorKind::OutOfMemory);
        }
    }

    /// Keeps that a file could not be had, where it was not.
    pub(crate) fn did(&mut self, is_done: bool) {
        if !is_done {
            self.refuse(ErrorKind::WriteFailure);
        }
    }

    /// The text that was made, or an empty one in its place where memory was refused.
    pub(crate) fn made(&mut self, text: Result<String, AllocError>) -> String {
        match text {
            Ok(text) => text,
            Err(_refused) => {
                self.refuse(ErrorKind::OutOfMemory);
                String::new(*self.text.allocator())
            }
        }
    }

    /// What was read, or another one in its place where it was refused.
    pub(crate) fn or<T: Drop>(&mut self, read: Result<T, Error>, otherwise: T) -> T {
        match read {
            Ok(read) => read,
            Err(error) => {
                self.refuse(error.kind());
                otherwise
            }
        }
    }

    /// Refuses entries of other names than these.
    pub(crate) fn expect_names(&mut self, entries: &Map<String, Json>, known: &[&str]) {
        self.or(expect_names(entries, known), ())
    }

    /// The count of an entry, or another one, if left out.
    pub(crate) fn count_of(&mut self, count: Option<&Json>, otherwise: usize) -> usize {
        self.or(count_of(count), None).unwrap_or(otherwise)
    }

    /// The bytes that are told.
    pub(crate) fn bytes_of(&mut self, bytes: &Json) -> Vec<u8> {
        let alloc = *self.text.allocator();
        self.or(bytes_of(alloc, bytes), Vec::new(alloc))
    }

    pub(crate) fn push_str(&mut self, text: &str) {
        let written = self.text.push_str(text);
        self.note(written)
    }

    /// As `Debug` shows it, behind words.
    pub(crate) fn tell<T: Debug>(&mut self, words: &str, told: &T) {
        let written = write!(self.text, "{words}{told:?}");
        self.note(written)
    }

    /// The kinds of an error, and what else it shows, behind words.
    pub(crate) fn error<E: Display>(&mut self, words: &str, error: &E) {
        let written = write!(self.text, "{words}{error}");
        self.note(written)
    }

    /// A value of no state, as it prints.
    pub(crate) fn value(&mut self, value: &Value) {
        if let Err(error) = print_to(value, &NoRecords, &mut self.text) {
            self.refuse(error.kind());
        }
    }

    /// Bytes as a text of JSON.
    pub(crate) fn quoted(&mut self, bytes: &[u8]) {
        match quoted(*self.text.allocator(), bytes) {
            Ok(text) => self.push_str(text.as_str()),
            Err(_refused) => self.refuse(ErrorKind::OutOfMemory),
        }
    }
}
