//! The escape in force, and what of the text is captured.
ghost use Rattle.std.specs.Prelude.{◌≡◌, ◌+◌, ◌<◌, ◌∷◌, [], IfSome, IfNone, IfOk, IfErr, OnOk, OnErr, OnSome, Some, length, string_bytes};
ghost use Rattle.template_values_errors.specs.Memory.{NoMemory};
ghost use Rattle.template_machine_meaning.specs.Captures.{captured, capture_begun};
ghost use Rattle.template_machine_meaning.specs.World.{keeps, drops};
ghost use Rattle.template_machine_state.specs.Changes.{caught, innermost_capture, with_captured, without_capture};

use crate::capture::Capture;
use crate::state::State;
use std::alloc::Global;
use template_values_core::Value;
use template_values_errors::{AutoEscape, Error};

impl<'env> State<'env> {
    /// From now on values are escaped by the rule.
    ///
    /// # Errors
    ///
    /// [`ErrorKind::OutOfMemory`]; the state is then as it was.
    pub fn open_escape(&mut self, rule: AutoEscape) -> Result<(), Error>
        ensures opened { OnOk result (self.new ≡ record self.old { escape = rule; saved = self.old.escape ∷ self.old.saved }) }
        ensures refused { IfErr result NoMemory }
        ensures unchanged { OnErr result (self.new ≡ self.old) }
    {
        self.saved.push(self.escape)?;
        self.escape = rule;
        Ok(())
    }

    /// Values are escaped again as before.
    pub fn close_escape(&mut self)
        requires { 0 < length self.old.saved }
        ensures escape { self.old.saved ≡ self.new.escape ∷ self.new.saved }
        ensures rest { self.new ≡ record self.old { escape = self.new.escape; saved = self.new.saved } }
    {
        match self.saved.pop() {
            Some(rule) => self.escape = rule,
            None => unreachable!(),
        }
    }

    /// Begins a capture, of a text that is kept or of one that is dropped.
    ///
    /// # Errors
    ///
    /// [`ErrorKind::OutOfMemory`]; the state is then as it was.
    pub fn begin_capture(&mut self, alloc: Global, keep: bool) -> Result<(), Error>
        ensures begun { OnOk result (self.new ≡ record self.old { captures = capture_begun keep ∷ self.old.captures }) }
        ensures refused { IfErr result NoMemory }
        ensures unchanged { OnErr result (self.new ≡ self.old) }
    {
        self.captures.push(Capture::new(alloc, keep))?;
        Ok(())
    }

    /// Ends the innermost capture, and gives what it ends with.
    ///
    /// # Errors
    ///
    /// [`ErrorKind::OutOfMemory`]; the capture is then gone.
    pub fn end_capture(&mut self) -> Result<Value, Error>
        requires { 0 < length self.old.captures }
        ensures given { IfOk result (λ v. IfSome (innermost_capture self.old.captures) (λ c. v ≡ captured self.old.escape c)) }
        ensures ended { self.new ≡ without_capture self.old }
        ensures refused { IfErr result NoMemory }
    {
        match self.captures.pop() {
            Some(capture) => capture.end(self.escape),
            None => unreachable!(),
        }
    }

    /// The innermost capture takes a text.
    ///
    /// # Errors
    ///
    /// [`ErrorKind::OutOfMemory`]; the state is then as it was.
    pub fn capture(&mut self, text: &str) -> Result<(), Error>
        requires { 0 < length self.old.captures }
        ensures caught { OnOk result (self.new ≡ caught text.now self.old) }
        ensures refused { IfErr result NoMemory }
        ensures unchanged { OnErr result (self.new ≡ self.old) }
    {
        let last = last_place(self.captures.as_slice());
        self.captures[last].write(text)
    }

    /// Takes the text that the innermost capture keeps, and leaves it an empty one; none where it drops its text.
    pub fn take_captured(&mut self, alloc: Global) -> Option<String>
        requires { 0 < length self.old.captures }
        ensures taken { IfSome result (λ text. innermost_capture self.old.captures ≡ Some (keeps (string_bytes text))) }
        ensures emptied { OnSome result (self.new ≡ with_captured [] self.old) }
        ensures dropped { IfNone result (innermost_capture self.old.captures ≡ Some drops) }
        ensures unchanged { IfNone result (self.new ≡ self.old) }
    {
        let last = last_place(self.captures.as_slice());
        self.captures[last].take(alloc)
    }

    /// The innermost capture keeps a text, in the place of what it had.
    pub fn put_captured(&mut self, text: String)
        requires { 0 < length self.old.captures }
        ensures { self.new ≡ with_captured (string_bytes text) self.old }
    {
        let last = last_place(self.captures.as_slice());
        self.captures[last] = Capture::of(text);
    }
}

// Where the last capture stands.
fn last_place(captures: &[Capture]) -> usize
    requires { 0 < length captures.now }
    ensures { result + 1 ≡ length captures.now }
{
    captures.len() - 1
}
