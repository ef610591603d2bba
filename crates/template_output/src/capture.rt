//! What is captured of a text.
ghost use Rattle.std.specs.Prelude.{◌≡◌, ◌∷◌, [], IfErr, IfOk, OnErr, OnOk};
ghost use Rattle.template_values_errors.specs.Memory.{NoMemory};
ghost use Rattle.template_machine_meaning.specs.Captures.{captured, is_dropping, with_text};
ghost use Rattle.template_output.specs.Captures.{capture_begun_by, capture_of};

use std::alloc::Global;
use template_compiler_code::CaptureMode;
use template_values_core::Value;
use template_values_errors::{AutoEscape, Error};

/// A capture.
#[derive(Drop)]
pub(crate) enum Capture {
    /// It keeps the text that was written in it so far.
    Keeps(String),
    /// It drops what is written.
    Drops,
}

impl Capture {
    /// A capture in which nothing was written.
    pub(crate) fn new(alloc: Global, mode: CaptureMode) -> Capture
        ensures { capture_of result ≡ capture_begun_by mode }
    {
        match mode {
            CaptureMode::Capture => Capture::Keeps(String::new(alloc)),
            CaptureMode::Discard => Capture::Drops,
        }
    }

    /// A text goes behind what is kept.
    pub(crate) fn write(&mut self, text: &str) -> Result<(), Error>
        ensures written { OnOk result (capture_of self.new ≡ with_text text.now (capture_of self.old)) }
        ensures refused { IfErr result NoMemory }
        ensures unchanged { OnErr result (capture_of self.new ≡ capture_of self.old) }
    {
        match self {
            Capture::Keeps(kept) => {
                kept.push_str(text)?;
                Ok(())
            }
            Capture::Drops => Ok(()),
        }
    }

    /// Whether what is written is dropped.
    pub(crate) fn is_dropping(&self) -> bool
        ensures { result ≡ is_dropping (capture_of self.now ∷ []) }
    {
        match self {
            Capture::Keeps(_) => false,
            Capture::Drops => true,
        }
    }

    /// What it ends with: its text, which is safe under an escape; undefined where it was dropped. The text is not copied.
    pub(crate) fn end(self, escape: AutoEscape) -> Result<Value, Error>
        ensures ended { IfOk result (λ v. v ≡ captured escape (capture_of self)) }
        ensures refused { IfErr result NoMemory }
    {
        match (self, escape) {
            (Capture::Drops, _) => Ok(Value::undefined()),
            (Capture::Keeps(text), AutoEscape::None) => Value::from_text(text),
            (Capture::Keeps(text), _) => Value::from_safe_text(text),
        }
    }
}
