//! The output.
ghost use Rattle.std.specs.Prelude.{◌≡◌, ◌≢◌, ◌+◌, ◌<◌, ◌∷◌, [], ℕ, List, length, Ok, IfErr, IfOk, OnErr, OnOk};
ghost use Rattle.template_values_errors.specs.Memory.{NoMemory};
ghost use Rattle.template_values_forms.specs.Escaped.{escaped};
ghost use Rattle.template_machine_meaning.specs.Captures.{around_innermost, captured, innermost, is_dropping};
ghost use Rattle.template_machine_meaning.specs.Replies.{kinded};
ghost use Rattle.template_machine_operations.specs.Outcomes.{Prints, TellsFailures, Writes};
ghost use Rattle.template_output.specs.Captures.{IsToldIn, capture_begun_by, captures_in, sink_in, with_written};

use crate::capture::Capture;
use std::alloc::Global;
use template_compiler_code::CaptureMode;
use template_machine_operations::{print, write};
use template_machine_surroundings::Sink;
use template_values_core::Value;
use template_values_errors::{AutoEscape, Error, UndefinedBehavior};
use template_values_forms::Records;
use template_values_print::escape_to;

/// A sink, and captures over it. What is written goes into the innermost capture, or, where none is open, into the sink.
#[derive(Drop)]
pub struct Output<W: Sink + Drop> {
    alloc: Global,
    sink: W,
    captures: Vec<Capture>,
}

impl<W: Sink + Drop> Output<W> {
    /// An output into a sink, where no capture is open.
    pub fn new(alloc: Global, sink: W) -> Output<W>
        ensures sink { sink_in result ≡ sink }
        ensures captures { captures_in result ≡ [] }
    {
        Output {
            alloc,
            sink,
            captures: Vec::new(alloc),
        }
    }

    /// The sink.
    pub fn sink(&self) -> &W
        ensures { result.now ≡ sink_in self.now }
    {
        &self.sink
    }

    /// The sink, with what it took; what is captured is dropped.
    pub fn into_sink(self) -> W
        ensures { result ≡ sink_in self }
    {
        let Output {
            alloc: _,
            sink,
            captures: _,
        } = self;
        sink
    }

    /// Whether what is written is dropped.
    pub fn is_discarding(&self) -> bool
        ensures { result ≡ is_dropping (captures_in self.now) }
    {
        match self.captures.last() {
            Some(capture) => capture.is_dropping(),
            None => false,
        }
    }

    /// Begins a capture, of a text that is kept or of one that is dropped.
    ///
    /// # Errors
    ///
    /// [`ErrorKind::OutOfMemory`](template_values_errors::ErrorKind::OutOfMemory); all is then as it was.
    pub fn begin_capture(&mut self, mode: CaptureMode) -> Result<(), Error>
        ensures begun { OnOk result (captures_in self.new ≡ capture_begun_by mode ∷ captures_in self.old) }
        ensures unchanged { OnErr result (captures_in self.new ≡ captures_in self.old) }
        ensures refused { IfErr result NoMemory }
        ensures sink { sink_in self.new ≡ sink_in self.old }
    {
        self.captures.push(Capture::new(self.alloc, mode))?;
        Ok(())
    }

    /// Ends the innermost capture, and gives what it ends with: its text, which is safe under an escape; undefined where it was
    /// dropped, and where none is open. The text is not copied.
    ///
    /// # Errors
    ///
    /// [`ErrorKind::OutOfMemory`](template_values_errors::ErrorKind::OutOfMemory); the capture is then gone.
    pub fn end_capture(&mut self, escape: AutoEscape) -> Result<Value, Error>
        ensures given { IfOk result (λ v. v ≡ captured escape (innermost (captures_in self.old))) }
        ensures ended { captures_in self.new ≡ around_innermost (captures_in self.old) }
        ensures refused { IfErr result NoMemory }
        ensures sink { sink_in self.new ≡ sink_in self.old }
    {
        match self.captures.pop() {
            Some(capture) => capture.end(escape),
            None => Ok(Value::undefined()),
        }
    }

    /// Writes a text: into the innermost capture, or, where none is open, into the sink, of which no byte is copied on the way.
    ///
    /// # Errors
    ///
    /// [`ErrorKind::OutOfMemory`](template_values_errors::ErrorKind::OutOfMemory), where a capture is then as it was, and
    /// [`ErrorKind::WriteFailure`](template_values_errors::ErrorKind::WriteFailure) where the sink failed; it has taken a
    /// beginning of the text.
    pub fn write_str(&mut self, text: &str) -> Result<(), Error>
        // In a capture.
        ensures caught { OnOk result (captures_in self.new ≡ with_written text.now (captures_in self.old)) }
        ensures unchanged { OnErr result (captures_in self.new ≡ captures_in self.old) }
        ensures apart { captures_in self.old ≢ [] → sink_in self.new ≡ sink_in self.old }

        // Where none is open.
        ensures written { captures_in self.old ≡ [] → Writes text.now result (W.taken (sink_in self.old)) (W.taken (sink_in self.new)) }
        ensures failures { TellsFailures result (W.failures (sink_in self.old)) (W.failures (sink_in self.new)) }
        ensures refused { captures_in self.old ≢ [] → IfErr result NoMemory }
    {
        if self.captures.is_empty() {
            return write(text, &mut self.sink);
        }
        let last = last_place(self.captures.as_slice());
        self.captures[last].write(text)
    }

    /// Writes the text that a value has under an escape, as a print of it does where there is no formatter: an undefined value has
    /// an empty one. What a state knows is looked into for it, as `write_escaped(state.auto_escape(), value, state)`. Linear in the
    /// text.
    ///
    /// # Errors
    ///
    /// What [`escape_to`](template_values_print::escape_to) refuses the value with, and nothing is written; else those of
    /// [`Output::write_str`].
    pub fn write_escaped<R: Records>(
        &mut self,
        escape: AutoEscape,
        value: &Value,
        records: &R,
    ) -> Result<(), Error>
        // In a capture.
        ensures caught { let text = escaped escape (R.known records.now) value.now in
            OnOk result ((t : List ℕ) → text ≡ Ok t → captures_in self.new ≡ with_written t (captures_in self.old)) }
        ensures refused { let text = escaped escape (R.known records.now) value.now in
            captures_in self.old ≢ [] → IsToldIn (kinded text) result }
        ensures unchanged { OnErr result (captures_in self.new ≡ captures_in self.old) }
        ensures apart { captures_in self.old ≢ [] → sink_in self.new ≡ sink_in self.old }

        // Where none is open.
        ensures written { let text = escaped escape (R.known records.now) value.now in
            captures_in self.old ≡ [] → Prints (kinded text) result (W.taken (sink_in self.old)) (W.taken (sink_in self.new)) }
        ensures failures { TellsFailures result (W.failures (sink_in self.old)) (W.failures (sink_in self.new)) }
    {
        let mut text = String::new(self.alloc);
        if self.captures.is_empty() {
            let mode = UndefinedBehavior::Lenient;
            return print(mode, escape, value, records, &mut text, &mut self.sink);
        }
        escape_to(value, escape, records, &mut text)?;
        self.write_str(text.as_str())
    }
}

// Where the last capture stands.
fn last_place(captures: &[Capture]) -> usize
    requires { 0 < length captures.now }
    ensures { result + 1 ≡ length captures.now }
{
    captures.len() - 1
}
