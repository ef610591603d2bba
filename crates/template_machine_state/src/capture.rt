//! What is captured of a run's text.
ghost use Rattle.std.specs.Prelude.{◌≡◌, ◌∷◌, [], IfSome, IfNone, IfOk, IfErr, OnOk, OnErr, OnSome, string_bytes};
ghost use Rattle.template_values_errors.specs.Memory.{NoMemory};
ghost use Rattle.template_machine_meaning.specs.World.{keeps, drops};
ghost use Rattle.template_machine_meaning.specs.Captures.{with_text, capture_begun, captured, is_dropping};

use std::alloc::Global;
use std::marker::Model;
use std::mem;
use template_values_core::Value;
use template_values_errors::{AutoEscape, Error};

// The bytes that a capture has room for from its beginning: most texts that are kept are short.
const FIRST_ROOM: usize = 64;

/// A capture: the text that was written in it so far; or it drops what is written.
#[derive(Drop)]
pub(crate) struct Capture {
    text: Option<String>,
}

impl Model for Capture {
    ghost use Rattle.std.specs.Prelude.{option_map, string_bytes};
    ghost use Rattle.template_machine_meaning.specs.World as worlds;
    ghost use Rattle.template_machine_state.specs.Codes.{capture_code, capture_with};

    ghost Value = { worlds.Capture };

    ghost coded = { capture_code };

    ghost view = { λ c. capture_with (option_map string_bytes c.text) };
}

impl Capture {
    /// A capture in which nothing was written, and whose text is kept or dropped. One that keeps it has room for a short one.
    pub(crate) fn new(alloc: Global, keep: bool) -> Capture
        ensures { result ≡ capture_begun keep }
    {
        if keep {
            Capture::of(empty_text(alloc))
        } else {
            Capture { text: None }
        }
    }

    /// A capture that holds a text.
    pub(crate) fn of(text: String) -> Capture
        ensures { result ≡ keeps (string_bytes text) }
    {
        Capture { text: Some(text) }
    }

    /// A text goes behind what is kept.
    ///
    /// # Errors
    ///
    /// [`ErrorKind::OutOfMemory`]; the capture is then as it was.
    ///
    /// [`ErrorKind::OutOfMemory`]: template_values_errors::ErrorKind::OutOfMemory
    pub(crate) fn write(&mut self, text: &str) -> Result<(), Error>
        ensures written { OnOk result (self.new ≡ with_text text.now self.old) }
        ensures refused { IfErr result NoMemory }
        ensures unchanged { OnErr result (self.new ≡ self.old) }
    {
        match &mut self.text {
            Some(kept) => {
                kept.push_str(text)?;
                Ok(())
            }
            None => Ok(()),
        }
    }

    /// Takes the text that is kept, and leaves an empty one; none where it is dropped.
    pub(crate) fn take(&mut self, alloc: Global) -> Option<String>
        ensures taken { IfSome result (λ text. self.old ≡ keeps (string_bytes text)) }
        ensures emptied { OnSome result (self.new ≡ keeps []) }
        ensures dropped { IfNone result (self.old ≡ drops) }
        ensures unchanged { IfNone result (self.new ≡ self.old) }
    {
        match &mut self.text {
            Some(kept) => Some(mem::replace(kept, String::new(alloc))),
            None => None,
        }
    }

    /// Whether what is written is dropped.
    pub(crate) fn is_dropping(&self) -> bool
        ensures { result ≡ is_dropping (self.now ∷ []) }
    {
        self.text.is_none()
    }

    /// What a capture would end with, of a text that is copied.
    ///
    /// # Errors
    ///
    /// [`ErrorKind::OutOfMemory`]
    ///
    /// [`ErrorKind::OutOfMemory`]: template_values_errors::ErrorKind::OutOfMemory
    pub(crate) fn value(&self, alloc: Global, rule: AutoEscape) -> Result<Value, Error>
        ensures told { IfOk result (λ v. v ≡ captured rule self.now) }
        ensures refused { IfErr result NoMemory }
    {
        match &self.text {
            Some(text) => Capture::of(String::from_str(alloc, text.as_str())?).end(rule),
            None => Ok(Value::undefined()),
        }
    }

    /// What a capture ends with: its text, which is safe under an escape; undefined where it was dropped. The text is not
    /// copied.
    ///
    /// # Errors
    ///
    /// [`ErrorKind::OutOfMemory`]
    ///
    /// [`ErrorKind::OutOfMemory`]: template_values_errors::ErrorKind::OutOfMemory
    pub(crate) fn end(self, rule: AutoEscape) -> Result<Value, Error>
        ensures ended { IfOk result (λ v. v ≡ captured rule self) }
        ensures refused { IfErr result NoMemory }
    {
        match (self.text, rule) {
            (None, _) => Ok(Value::undefined()),
            (Some(text), AutoEscape::None) => Value::from_text(text),
            (Some(text), _) => Value::from_safe_text(text),
        }
    }
}

// An empty text, with room for a short one where memory is given for it.
fn empty_text(alloc: Global) -> String
    ensures { string_bytes result ≡ [] }
{
    match String::with_capacity(alloc, FIRST_ROOM) {
        Ok(text) => text,
        Err(_refused) => String::new(alloc),
    }
}
