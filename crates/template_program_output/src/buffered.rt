//! A buffer in front of an output.
ghost use Rattle.std.specs.Prelude.{◌≡◌, ◌+◌, ◌≤◌, [], length, take, drop, vec_len, IfOk, OnOk};
ghost use Rattle.std.specs.Io.KnownBytes.{Appends, Keeps};
ghost use Rattle.template_machine_surroundings.specs.Failures.{failures_in};
ghost use Rattle.template_machine_surroundings.specs.Writes.{AppendsBeginning};
ghost use Rattle.template_program_output.specs.Buffer.{failure_count, failures_told, held_in, output_in, taken_by};
ghost use Rattle.template_program_output.specs.Shown.{GrowsBy, IsFlushed, TellsResult};

use crate::Output;
use crate::whole::{write_out, write_whole};
use std::io;
use template_machine_surroundings::{Sink, SinkFault};

/// A sink in front of an output, which holds bytes back until its buffer is full. It takes each piece as a
/// whole, or fails.
#[derive(Drop)]
pub struct Buffered<O> {
    out: O,
    held: Vec<u8>,
    failed: u64,
}

impl<O: Output> Buffered<O> {
    /// A sink in front of `out`, which holds back as much as `buffer` has room for.
    pub fn new(out: O, buffer: Vec<u8>) -> Buffered<O>
        ensures out { output_in result ≡ out }
        ensures held { held_in result ≡ buffer.items }
        ensures failed { failure_count O.shown result ≡ failures_told (O.shown out).answers 0 }
    {
        Buffered {
            out,
            held: buffer,
            failed: 0,
        }
    }

    /// The output. What is held back is not written.
    pub fn into_output(self) -> O
        ensures { result ≡ output_in self }
    {
        let Buffered {
            out,
            held: _,
            failed: _,
        } = self;
        out
    }

    /// Writes what is held back, and flushes the output.
    ///
    /// # Errors
    ///
    /// Those of the output, which is then not flushed if it did not take all; what it did not take is still
    /// held back.
    pub fn flush(&mut self) -> io::Result<()>
        ensures kept { Keeps (taken_by O.shown self.old) (taken_by O.shown self.new) }
        ensures empty { OnOk result (held_in self.new ≡ []) }
        ensures flushed { OnOk result (IsFlushed (O.shown (output_in self.new)).answers) }
        ensures told { TellsResult (O.shown (output_in self.old)).answers (O.shown (output_in self.new)).answers result }
    {
        self.write_held()?;
        self.out.flush_once()
    }

    // Writes what is held back.
    fn write_held(&mut self) -> io::Result<()>
        ensures kept { Keeps (taken_by O.shown self.old) (taken_by O.shown self.new) }
        ensures empty { OnOk result (held_in self.new ≡ []) }
        ensures told { TellsResult (O.shown (output_in self.old)).answers (O.shown (output_in self.new)).answers result }
        ensures counted { self.new.failed ≡ self.old.failed }
    {
        let (count, written) = write_out(&mut self.out, self.held.as_slice());
        remove_front(&mut self.held, count);
        written
    }

    // Takes a piece behind what is held back: holds it back too, if it is shorter than the buffer, or writes it.
    fn write_through(&mut self, bytes: &[u8]) -> io::Result<()>
        ensures written { GrowsBy (taken_by O.shown self.old) (taken_by O.shown self.new) bytes.now result }
        ensures told { TellsResult (O.shown (output_in self.old)).answers (O.shown (output_in self.new)).answers result }
        ensures counted { self.new.failed ≡ self.old.failed }
    {
        self.write_held()?;
        if bytes.len() >= self.held.capacity() {
            return write_whole(&mut self.out, bytes);
        }
        Ok(self.held.extend_from_slice(bytes)?)
    }

    // Takes a piece for which the buffer has no room.
    #[cold]
    #[inline(never)]
    fn put_long(&mut self, bytes: &[u8]) -> Result<usize, SinkFault>
        ensures bound { IfOk result (λ count. count ≤ length bytes.now) }
        ensures bytes { IfOk result (λ count. Appends (taken_by O.shown self.old) (taken_by O.shown self.new) (take count bytes.now)) }
        ensures beginning { AppendsBeginning (taken_by O.shown self.old) (taken_by O.shown self.new) bytes.now }
        ensures counted { failure_count O.shown self.new ≡ failure_count O.shown self.old + failures_in result bytes.now }
    {
        if self.failed == u64::MAX {
            return Err(SinkFault::Memory);
        }
        match self.write_through(bytes) {
            Ok(()) => Ok(bytes.len()),
            Err(error) => match error.kind() {
                io::ErrorKind::OutOfMemory => Err(SinkFault::Memory),
                _ => {
                    self.failed += 1;
                    Err(SinkFault::Device)
                }
            },
        }
    }
}

/// Want of memory is told as [`SinkFault::Memory`], every other failure of the output as [`SinkFault::Device`]. A
/// sink that has failed `u64::MAX` times takes no more, and wants memory.
impl<O: Output> Sink for Buffered<O> {
    ghost taken = { taken_by O.shown };

    ghost failures = { failure_count O.shown };

    ghost can_take = { λ _. Unit {0} };

    #[inline(always)]
    fn put(&mut self, bytes: &[u8]) -> Result<usize, SinkFault> {
        if bytes.len() > self.held.capacity() - self.held.len() {
            return self.put_long(bytes);
        }
        match self.held.extend_from_slice(bytes) {
            Ok(()) => Ok(bytes.len()),
            Err(_refused) => Err(SinkFault::Memory),
        }
    }

    ghost takes_text = { λ bytes utf8. tt };
}

// Takes the first `count` bytes away.
fn remove_front(bytes: &mut Vec<u8>, count: usize)
    requires { count ≤ vec_len bytes.old }
    ensures { bytes.new.items ≡ drop count bytes.old.items }
{
    let len = bytes.len();
    bytes.as_mut_slice().copy_within(count..len, 0);
    bytes.truncate(len - count);
}
