// A sink over a writer.
ghost use Rattle.std.specs.Prelude.{◌≡◌, ◌≢◌, ◌+◌, ◌≤◌, ◌∷◌, [], Err, None, length, IfOk, OnSome, IfNone, IsErrOf, IsSomeAnd};
ghost use Rattle.std.specs.Io.KnownBytes.{WriteAppends};
ghost use Rattle.std.specs.IoError.{error_kind};
ghost use Rattle.std.specs.declared.io.ErrorKind.{ErrorKind as IoKind};
ghost use Rattle.template_machine_surroundings.specs.Wrapper.{failure_count};
ghost use Rattle.template_machine_surroundings.specs.Answered.{AnswersOnce, PassesOn};
ghost use Rattle.template_machine_surroundings.specs.Failures.{failures_in};

use crate::{Sink, SinkFault, Writer, write_once};
use std::io;
use template_values_errors::{Error, ErrorKind};

/// A sink over a writer, whose last error it keeps. It takes and tells what the writer takes and
/// tells.
#[derive(Drop)]
pub struct WriteWrapper<W: Writer> {
    /// The writer.
    pub w: W,
    /// The last error of the writer, but for want of memory.
    pub err: Option<io::Error>,
    failed: u64,
}

impl<W: Writer> WriteWrapper<W> {
    /// A sink over `w` that has met no failure.
    pub fn new(w: W) -> WriteWrapper<W>
        ensures writer { result.w ≡ w }
        ensures no_error { result.err ≡ None }
        ensures no_failure { failure_count result ≡ 0 }
    {
        WriteWrapper {
            w,
            err: None,
            failed: 0,
        }
    }

    /// The error that a caller is to see: [`ErrorKind::WriteFailure`] where the writer's error is
    /// kept, which is then taken, else `original`.
    pub fn take_err(&mut self, original: Error) -> Error
        ensures fault { OnSome self.old.err (result ≡ ErrorKind.WriteFailure ∷ []) }
        ensures original { IfNone self.old.err (result ≡ original) }
        ensures taken { self.new ≡ record self.old { err = None } }
    {
        match self.err.take() {
            Some(_error) => Error::new(ErrorKind::WriteFailure),
            None => original,
        }
    }
}

/// Hands each piece to the writer, once. Want of memory is told as [`SinkFault::Memory`]; every other
/// error, an interrupted write among them, is kept in `err` and told as [`SinkFault::Device`]. A wrapper
/// that has failed `u64::MAX` times writes no more, and wants memory.
impl<W: Writer> Sink for WriteWrapper<W> {
    ghost taken = { λ s. W.contents s.w };

    ghost failures = { failure_count };

    ghost can_take = { λ _. Unit {0} };

    #[inline(always)]
    fn put(&mut self, bytes: &[u8]) -> Result<usize, SinkFault>
        ensures bound { IfOk result (λ count. count ≤ length bytes.now) }
        ensures bytes { WriteAppends (W.contents self.old.w) (W.contents self.new.w) result bytes.now }
        ensures counted { failure_count self.new ≡ failure_count self.old + failures_in result bytes.now }

        // Beyond the trait: one write is made, and its answer decides; a full count makes none.
        ensures answered { failure_count self.old ≢ u64.MAX → AnswersOnce (W.answers self.old.w) (W.answers self.new.w)
            (PassesOn result self.old.err self.new.err) }
        ensures full { failure_count self.old ≡ u64.MAX → (result ≡ Err SinkFault.Memory) × (self.new ≡ self.old) }

        // The same of `err`, of writers that tell no answers too.
        ensures error { IsErrOf result SinkFault.Device
            → IsSomeAnd self.new.err (λ error. error_kind error ≢ IoKind.OutOfMemory) }
        ensures no_error { result ≢ Err SinkFault.Device → self.new.err ≡ self.old.err }
    {
        if self.failed == u64::MAX {
            return Err(SinkFault::Memory);
        }
        write_once(&mut self.w, &mut self.failed, &mut self.err, bytes)
    }

    ghost takes_text = { λ bytes utf8. tt };
}
