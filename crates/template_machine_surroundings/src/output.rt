//! Where rendered text goes: sinks that take bytes, and the loop that puts a whole text into one.

ghost use Rattle.std.specs.Prelude.{◌≡◌, ℕ, ◌+◌, ◌<◌, ◌≤◌, ◌↔◌, ◌∷◌, [], ◌++◌, List, Option, length, take, drop, IfOk, OnOk, OnErr, IsErrOf, IsOkUnless, IsUtf8, Ok, Some, None, string_bytes, string_capacity, string_len};
ghost use Rattle.std.specs.Io.KnownBytes.{Appends};
ghost use Rattle.template_machine_surroundings.specs.Writes.{AppendsBeginning};
ghost use Rattle.template_machine_surroundings.specs.Failures.{failures_in};

use crate::{SinkFault, rest_after};

/// What takes rendered bytes. A sink names the bytes that it has taken, or tells none, and counts
/// its failures.
pub trait Sink {
    // The bytes taken so far, where the sink tells them.
    ghost taken: { Self → Option (List ℕ) };

    // How often the sink failed: `Device`, and `Ok(0)` for a piece that isn't empty.
    ghost failures: { Self → ℕ };

    // The pieces that the sink can take.
    ghost can_take: { List ℕ → Type 0 };

    /// Takes a beginning of `bytes`: at `Ok(count)` its first `count` bytes.
    ///
    /// # Errors
    ///
    /// [`SinkFault::Memory`] where a growth was refused, [`SinkFault::Device`] for every other
    /// failure. A beginning of the piece may then have been taken.
    fn put(&mut self, bytes: &[u8]) -> Result<usize, SinkFault>
        requires { can_take bytes.now }
        ensures bound { IfOk result (λ count. count ≤ length bytes.now) }
        ensures bytes { IfOk result (λ count. Appends (taken self.old) (taken self.new) (take count bytes.now)) }
        ensures beginning { AppendsBeginning (taken self.old) (taken self.new) bytes.now }
        ensures rest { IfOk result (λ count. can_take (drop count bytes.now)) }
        ensures counted { failures self.new ≡ failures self.old + failures_in result bytes.now };

    // Every sink can take a text.
    ghost takes_text: { (bytes : List ℕ) → IsUtf8 bytes → can_take bytes };
}

/// Takes text at its end, a piece as a whole. It fails only where it must grow and finds no memory.
impl Sink for String {
    ghost taken = { λ text. Some (string_bytes text) };

    ghost failures = { λ _. 0 };

    ghost can_take = { IsUtf8 };

    fn put(&mut self, bytes: &[u8]) -> Result<usize, SinkFault>
        requires { IsUtf8 bytes.now }
        ensures whole { IfOk result (λ count. count ≡ length bytes.now) }
        ensures appended { OnOk result (string_bytes self.new ≡ string_bytes self.old ++ bytes.now) }
        ensures kept { OnErr result (string_bytes self.new ≡ string_bytes self.old) }
        ensures only_memory { IsOkUnless result SinkFault.Memory }
        ensures only_to_grow { OnErr result (string_capacity self.old < string_len self.old + length bytes.now) }
    {
        // The caller has shown that the piece is UTF-8.
        let text = unsafe { str::from_utf8_unchecked(bytes) };
        match self.push_str(text) {
            Ok(()) => Ok(bytes.len()),
            Err(_refused) => Err(SinkFault::Memory),
        }
    }

    ghost takes_text = { λ bytes utf8. utf8 };
}

/// Takes all bytes and forgets them.
#[derive(Clone, Copy, Debug, Default)]
pub struct NullWriter;

impl Sink for NullWriter {
    ghost taken = { λ _. None };

    ghost failures = { λ _. 0 };

    ghost can_take = { λ _. Unit {0} };

    fn put(&mut self, bytes: &[u8]) -> Result<usize, SinkFault>
        ensures whole { result ≡ Ok (length bytes.now) }
    {
        Ok(bytes.len())
    }

    ghost takes_text = { λ bytes utf8. tt };
}

/// Puts a whole text into a sink, by as many calls of [`Sink::put`] as it needs: one, and one more for
/// each piece that the sink took short. No byte is copied, none is handed in again once it is taken, and
/// no memory is taken but by the sink.
///
/// # Errors
///
/// The sink's own fault, and [`SinkFault::Device`] where the sink takes nothing of what is left. The
/// sink has then taken a beginning of the text.
#[inline(always)]
pub fn write_text<S: Sink>(sink: &mut S, text: &str) -> Result<(), SinkFault>
    ensures done { OnOk result (Appends (S.taken sink.old) (S.taken sink.new) text.now) }
    ensures beginning { OnErr result (AppendsBeginning (S.taken sink.old) (S.taken sink.new) text.now) }

    ensures quiet { OnOk result (S.failures sink.new ≡ S.failures sink.old) }
    ensures device { IsErrOf result SinkFault.Device ↔ (S.failures sink.old < S.failures sink.new) }
    ensures memory { IsErrOf result SinkFault.Memory → S.failures sink.new ≡ S.failures sink.old }
{
    let bytes = text.as_bytes();
    if bytes.is_empty() {
        return Ok(());
    }
    // Mostly the first call takes all.
    let count = sink.put(bytes)?;
    if count == bytes.len() {
        return Ok(());
    }
    if count == 0 {
        return Err(SinkFault::Device);
    }
    write_bytes(sink, rest_after(bytes, count))
}

// Puts all bytes into a sink, by as many calls of [`Sink::put`] as it needs.
#[cold]
#[inline(never)]
fn write_bytes<S: Sink>(sink: &mut S, bytes: &[u8]) -> Result<(), SinkFault>
    requires { S.can_take bytes.now }
    ensures done { OnOk result (Appends (S.taken sink.old) (S.taken sink.new) bytes.now) }
    ensures beginning { OnErr result (AppendsBeginning (S.taken sink.old) (S.taken sink.new) bytes.now) }

    ensures quiet { OnOk result (S.failures sink.new ≡ S.failures sink.old) }
    ensures device { IsErrOf result SinkFault.Device ↔ (S.failures sink.old < S.failures sink.new) }
    ensures memory { IsErrOf result SinkFault.Memory → S.failures sink.new ≡ S.failures sink.old }
{
    let mut rest = bytes;
    while !rest.is_empty() {
        let count = sink.put(rest)?;
        if count == 0 {
            return Err(SinkFault::Device);
        }
        rest = rest_after(rest, count);
    }
    Ok(())
}
