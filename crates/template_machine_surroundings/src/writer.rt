//! Writers, and what becomes of their answers.
ghost use Rattle.std.specs.Prelude.{◌≡◌, ◌≢◌, ℕ, ◌+◌, ◌≤◌, List, Option, Result, Err, None, length, drop, IfOk, IsErrOf, IsSomeAnd};
ghost use Rattle.std.specs.Io.{WritesAtMost};
ghost use Rattle.std.specs.Io.KnownBytes.{WriteAppends};
ghost use Rattle.std.specs.IoError.{error_kind};
ghost use Rattle.std.specs.declared.io.Error.{Error as IoError};
ghost use Rattle.std.specs.declared.io.ErrorKind.{ErrorKind as IoKind};
ghost use Rattle.template_machine_surroundings.specs.Answered.{AnswersOnce, PassesOn};
ghost use Rattle.template_machine_surroundings.specs.Failures.{failures_in};

use crate::fault::SinkFault;
use std::io;

/// A writer that may tell, beside the bytes that it holds, what it answered to each write. Every
/// [`io::Write`] is one, and tells none of its answers: so what is proved over all writers holds
/// whatever they answer.
pub trait Writer {
    // The bytes that the writer holds, where they are known.
    ghost contents: { Self → Option (List ℕ) };

    // What it answered to the writes so far, where it tells.
    ghost answers: { Self → Option (List (Result ℕ IoError)) };

    /// Writes a beginning of `bytes`, once; how many bytes were taken.
    ///
    /// # Errors
    ///
    /// Those of the writer.
    fn write_piece(&mut self, bytes: &[u8]) -> io::Result<usize>
        ensures bound { WritesAtMost result bytes.now }
        ensures bytes { WriteAppends (contents self.old) (contents self.new) result bytes.now }
        ensures told { AnswersOnce (answers self.old) (answers self.new) (λ answer. answer ≡ result) };
}

impl<W: io::Write> Writer for W {
    ghost contents = { λ writer. W.contents writer };

    ghost answers = { λ _. None };

    #[inline(always)]
    fn write_piece(&mut self, bytes: &[u8]) -> io::Result<usize> {
        self.write(bytes)
    }
}

/// Writes a beginning of a piece, once. Want of memory is told as [`SinkFault::Memory`]; every other error of the writer is
/// counted, kept in `err` and told as [`SinkFault::Device`]; that nothing is taken of a piece that isn't empty is counted.
///
/// # Errors
///
/// As the writer answers.
#[inline(always)]
pub fn write_once<W: Writer>(
    writer: &mut W,
    failed: &mut u64,
    err: &mut Option<io::Error>,
    bytes: &[u8],
) -> Result<usize, SinkFault>
    requires { failed.old ≢ u64.MAX }
    ensures bound { IfOk result (λ count. count ≤ length bytes.now) }
    ensures bytes { WriteAppends (W.contents writer.old) (W.contents writer.new) result bytes.now }
    ensures counted { failed.new ≡ failed.old + failures_in result bytes.now }
    ensures answered { AnswersOnce (W.answers writer.old) (W.answers writer.new) (PassesOn result err.old err.new) }
    ensures error { IsErrOf result SinkFault.Device → IsSomeAnd err.new (λ error. error_kind error ≢ IoKind.OutOfMemory) }
    ensures no_error { result ≢ Err SinkFault.Device → err.new ≡ err.old }
{
    match writer.write_piece(bytes) {
        Ok(count) => {
            if count == 0 && !bytes.is_empty() {
                *failed += 1;
            }
            Ok(count)
        }
        Err(error) => Err(keep_error(failed, err, error)),
    }
}

// Keeps an error of a writer and counts it, but for want of memory; tells what fault it is.
#[cold]
#[inline(never)]
fn keep_error(failed: &mut u64, err: &mut Option<io::Error>, error: io::Error) -> SinkFault
    requires { failed.old ≢ u64.MAX }
    ensures counted { (bytes : List ℕ) → failed.new ≡ failed.old + failures_in (Err result) bytes }
    ensures passed { PassesOn (Err result) err.old err.new (Err error) }
    ensures error { result ≡ SinkFault.Device → IsSomeAnd err.new (λ kept. error_kind kept ≢ IoKind.OutOfMemory) }
    ensures no_error { result ≢ SinkFault.Device → err.new ≡ err.old }
{
    if error.kind() == io::ErrorKind::OutOfMemory {
        return SinkFault::Memory;
    }
    *failed += 1;
    *err = Some(error);
    SinkFault::Device
}

/// What follows the first `count` bytes.
#[inline]
pub fn rest_after(bytes: &[u8], count: usize) -> &[u8]
    requires { count ≤ length bytes.now }
    ensures { result.now ≡ drop count bytes.now }
{
    bytes.split_at(count).1
}
