//! What all forms are made of: a head with its parts in parentheses, a list in brackets, words and texts.
use std::alloc::{AllocError, Global};
use template_compiler_tree::{BinOpKind, CompareOpKind, Span, UnaryOpKind};
use template_values_errors::{Error, ErrorKind};

/// A form as far as it is written. What is refused on the way is kept, so that what writes need not ask.
#[derive(Drop)]
pub(crate) struct Form {
    pub(crate) text: String,
    /// Whether the place of each node stands behind it.
    pub(crate) with_places: bool,
    /// Why it is not whole, where it is not.
    pub(crate) refused: Option<ErrorKind>,
    /// Where it was refused: ` at ` before each place.
    pub(crate) places: String,
}

impl Form {
    /// Nothing yet, without places.
    pub(crate) fn new(alloc: Global) -> Form {
        Form {
            text: String::new(alloc),
            with_places: false,
            refused: None,
            places: String::new(alloc),
        }
    }

    /// Keeps the first refusal.
    pub(crate) fn refuse(&mut self, kind: ErrorKind) {
        if self.refused.is_none() {
            self.refused = Some(kind);
        }
    }

    /// Keeps a refusal of a source with its place.
    pub(crate) fn refuse_source(&mut self, error: &Error) {
        self.refuse(error.kind());
        for place in error.places() {
            let written = write!(self.places, " at {place}");
            self.note(written);
        }
    }

    /// Keeps that memory was refused, where it was.
    pub(crate) fn note(&mut self, written: Result<(), AllocError>) {
        if written.is_err() {
            self.refuse(ErrorKind::OutOfMemory);
        }
    }

    pub(crate) fn push(&mut self, c: char) {
        let written = self.text.push(c);
        self.note(written);
    }

    pub(crate) fn push_str(&mut self, text: &str) {
        let written = self.text.push_str(text);
        self.note(written);
    }

    pub(crate) fn push_number(&mut self, number: i128) {
        let written = write!(self.text, "{number}");
        self.note(written);
    }

    /// The place of the node whose form ends here: `@line:column:offset-line:column:offset`.
    pub(crate) fn place(&mut self, span: Span) {
        if self.with_places {
            let written = write_place(&mut self.text, span);
            self.note(written);
        }
    }
}

fn write_place(text: &mut String, span: Span) -> Result<(), AllocError> {
    write!(
        text,
        "@{}:{}:{}",
        span.start_line, span.start_col, span.start_offset
    )?;
    write!(
        text,
        "-{}:{}:{}",
        span.end_line, span.end_col, span.end_offset
    )
}

/// What is left out.
pub(crate) const ABSENT: &str = "-";

/// What has no form here.
pub(crate) const UNKNOWN: &str = "?";

pub(crate) fn unary_word(op: UnaryOpKind) -> &'static str {
    match op {
        UnaryOpKind::Not => "not",
        UnaryOpKind::Neg => "neg",
    }
}

pub(crate) fn binary_word(op: BinOpKind) -> &'static str {
    match op {
        BinOpKind::Eq => "==",
        BinOpKind::Ne => "!=",
        BinOpKind::Lt => "<",
        BinOpKind::Lte => "<=",
        BinOpKind::Gt => ">",
        BinOpKind::Gte => ">=",
        BinOpKind::ScAnd => "and",
        BinOpKind::ScOr => "or",
        BinOpKind::Add => "+",
        BinOpKind::Sub => "-",
        BinOpKind::Mul => "*",
        BinOpKind::Div => "/",
        BinOpKind::FloorDiv => "//",
        BinOpKind::Rem => "%",
        BinOpKind::Pow => "**",
        BinOpKind::Concat => "~",
        BinOpKind::In => "in",
    }
}

pub(crate) fn comparison_word(op: CompareOpKind) -> &'static str {
    match op {
        CompareOpKind::Eq => "==",
        CompareOpKind::Ne => "!=",
        CompareOpKind::Lt => "<",
        CompareOpKind::Lte => "<=",
        CompareOpKind::Gt => ">",
        CompareOpKind::Gte => ">=",
        CompareOpKind::In => "in",
        CompareOpKind::NotIn => "not-in",
    }
}

/// `(head`, before its parts.
pub(crate) fn open(head: &str, out: &mut Form) {
    out.push('(');
    out.push_str(head);
}

/// A word behind what stands there.
pub(crate) fn word(word: &str, out: &mut Form) {
    out.push(' ');
    out.push_str(word);
}

/// The word behind what stands there, or the sign for what is left out.
pub(crate) fn word_if(is_there: bool, there: &str, out: &mut Form) {
    if is_there {
        word(there, out)
    } else {
        word(ABSENT, out)
    }
}

/// A text in double quotes; quotes, backslashes and newlines are escaped.
pub(crate) fn quoted(text: &str, out: &mut Form) {
    out.push('"');
    for c in text.chars() {
        push_escaped(c, out);
    }
    out.push('"');
}

fn push_escaped(c: char, out: &mut Form) {
    match c {
        '"' => out.push_str("\\\""),
        '\\' => out.push_str("\\\\"),
        '\n' => out.push_str("\\n"),
        '\r' => out.push_str("\\r"),
        '\t' => out.push_str("\\t"),
        c => out.push(c),
    }
}
