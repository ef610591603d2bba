//! What comes of a case, as it is written.
use std::alloc::{AllocError, Global};
use std::collections::BTreeSet;
use std::fmt::Debug;
use template_rows::quoted;
use template_values_core::{Content, Value};
use template_values_errors::{Error, ErrorKind};
use template_values_forms::NoRecords;
use template_values_print::json_outer;

/// What comes of a case, as far as it is written. What is refused on the way is kept, so that what writes need not ask.
#[derive(Drop)]
pub(crate) struct Report {
    pub(crate) text: String,
    /// Why it is not whole, where it is not.
    pub(crate) refused: Option<ErrorKind>,
    /// Whether the places of faults are told.
    pub(crate) tells_places: bool,
}

impl Report {
    /// Nothing yet.
    pub(crate) fn new(alloc: Global) -> Report {
        Report {
            text: String::new(alloc),
            refused: None,
            tells_places: false,
        }
    }

    pub(crate) fn alloc(&self) -> Global {
        *self.text.allocator()
    }

    /// Keeps the first refusal.
    pub(crate) fn refuse(&mut self, kind: ErrorKind) {
        if self.refused.is_none() {
            self.refused = Some(kind);
        }
    }

    /// What was read, or another one in its place where it was refused.
    pub(crate) fn or<T: Drop>(&mut self, read: Result<T, Error>, otherwise: T) -> T {
        match read {
            Ok(read) => read,
            Err(error) => {
                self.refuse(error.kind());
                otherwise
            }
        }
    }

    // Keeps that memory was refused, where it was.
    fn note(&mut self, written: Result<(), AllocError>) {
        if written.is_err() {
            self.refuse(ErrorKind::OutOfMemory);
        }
    }

    pub(crate) fn push(&mut self, c: char) {
        let written = self.text.push(c);
        self.note(written);
    }

    pub(crate) fn push_str(&mut self, text: &str) {
        let written = self.text.push_str(text);
        self.note(written);
    }

    /// A number or the name of a mode, behind words.
    pub(crate) fn tell<T: Debug>(&mut self, words: &str, told: &T) {
        let written = write!(self.text, "{words}{told:?}");
        self.note(written);
    }

    /// The kinds of a fault, behind words.
    pub(crate) fn told(&mut self, words: &str, error: &Error) {
        let written = write!(self.text, "{words}{error}");
        self.note(written);
    }

    /// The kinds of a fault, and behind them its places where they are told.
    pub(crate) fn fault(&mut self, error: &Error) {
        self.told("! ", error);
        if self.tells_places {
            self.push_str(" at");
            self.places(error);
        }
    }

    // The places of each level, the outermost level first.
    fn places(&mut self, error: &Error) {
        self.push_str(" [");
        let mut first = true;
        for place in error.places() {
            if !first {
                self.push_str(", ");
            }
            first = false;
            let written = write!(self.text, "{place}");
            self.note(written);
        }
        self.push(']');
        if let Some(cause) = error.cause() {
            self.places(cause);
        }
    }

    /// Bytes as a text of JSON.
    pub(crate) fn quoted(&mut self, bytes: &[u8]) {
        match quoted(self.alloc(), bytes) {
            Ok(text) => self.push_str(text.as_str()),
            Err(_refused) => self.refuse(ErrorKind::OutOfMemory),
        }
    }

    /// A text, or why there is none.
    pub(crate) fn text(&mut self, text: &Result<String, Error>) {
        match text {
            Ok(text) => self.quoted(text.as_bytes()),
            Err(error) => self.fault(error),
        }
    }

    /// A value as JSON, but for the undefined one, and for functions, namespaces, macros and loops, which are told by their
    /// numbers.
    pub(crate) fn value(&mut self, value: &Value) {
        match value.content() {
            Content::Undefined => self.push_str("undefined"),
            Content::Function(environment, number) => {
                self.numbered("function ", number, environment)
            }
            Content::Namespace(state, number) => self.numbered("namespace ", number, state),
            Content::Macro(state, number) => self.numbered("macro ", number, state),
            Content::Loop(state, number) => self.numbered("loop ", number, state),
            _ => self.json(value),
        }
    }

    // The number of what an environment or a state has, behind words, and then whose it is.
    fn numbered(&mut self, words: &str, number: usize, owner: u64) {
        self.tell(words, &number);
        self.tell(" of ", &owner);
    }

    fn json(&mut self, value: &Value) {
        if let Err(error) = json_outer(value, &NoRecords, &mut self.text) {
            self.refuse(error.kind());
        }
    }

    /// Names as a list, or why there are none.
    pub(crate) fn names(&mut self, names: &Result<BTreeSet<String>, Error>) {
        match names {
            Ok(names) => self.list(names),
            Err(error) => self.fault(error),
        }
    }

    fn list(&mut self, names: &BTreeSet<String>) {
        self.push('[');
        let mut first = true;
        for name in names {
            if !first {
                self.push_str(", ");
            }
            first = false;
            self.push_str(name.as_str());
        }
        self.push(']');
    }
}
