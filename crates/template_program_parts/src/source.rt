//! Readers that tell whether one of their reads has failed.
ghost use Rattle.std.specs.Prelude.{◌≡◌, ◌||◌, ℕ, List, Bool, IfErr, Option, Result, None, Some, false, true};
ghost use Rattle.std.specs.IoError.{error_kind};
ghost use Rattle.std.specs.declared.io.ErrorKind.TheVariants.{OutOfMemory};
ghost use Rattle.std.specs.Io.{ReadsAtMost};
ghost use Rattle.std.specs.Io.KnownBytes.{ReadConsumes};
ghost use Rattle.std.specs.declared.io.Error.{Error as IoError};
ghost use Rattle.template_machine_surroundings.specs.Answered.{AnswersOnce};
ghost use Rattle.template_program_parts.specs.Answered.{TellsRead};
ghost use Rattle.template_program_parts.specs.Faults.{is_file_fault};
ghost use Rattle.template_program_parts.specs.Wrapper.{reader_in, failed_before};

use crate::FileFault;
use std::io::{self, Read};

/// A reader that may tell, beside the bytes that are left, what it answered to each read, and that its
/// reads do not fail. Every [`Read`] is one, and tells neither: so what is proved over all readers holds
/// whatever they answer.
pub trait Reader {
    // The bytes that are left, where they are known.
    ghost remaining: { Self → Option (List ℕ) };

    // What it answered to the reads so far, where it tells.
    ghost answers: { Self → Option (List (Result ℕ IoError)) };

    // Whether a read of it may fail, but for want of memory.
    ghost may_fail: { Self → Bool };

    /// Reads once, into the front of `piece`; how many bytes came. No byte comes only at the end,
    /// and where `piece` is empty.
    ///
    /// # Errors
    ///
    /// Those of the reader.
    fn read_once(&mut self, piece: &mut [u8]) -> io::Result<usize>
        ensures bound { ReadsAtMost result piece.new }
        ensures bytes { ReadConsumes (remaining self.old) (remaining self.new) result piece.new }
        ensures told { AnswersOnce (answers self.old) (answers self.new) (λ answer. answer ≡ result) }
        ensures sound { may_fail self.old ≡ false → may_fail self.new ≡ false }
        ensures memory { may_fail self.old ≡ false → IfErr result (λ error. error_kind error ≡ OutOfMemory) };
}

impl<R: Read> Reader for R {
    ghost remaining = { λ reader. R.remaining reader };

    ghost answers = { λ _. None };

    ghost may_fail = { λ _. true };

    fn read_once(&mut self, piece: &mut [u8]) -> io::Result<usize> {
        self.read(piece)
    }
}

/// A reader that tells whether one of its reads has failed.
pub trait Source {
    // The bytes that are left, where they are known.
    ghost remaining: { Self → Option (List ℕ) };

    // Whether a read has failed so far.
    ghost has_failed: { Self → Bool };

    // Whether a read may fail, but for want of memory.
    ghost may_fail: { Self → Bool };

    /// Reads once, into the front of `piece`; how many bytes came. No byte comes only at the end,
    /// and where `piece` is empty.
    ///
    /// # Errors
    ///
    /// [`FileFault::Memory`] where the read wanted memory, [`FileFault::File`] for every other
    /// failure.
    fn read_piece(&mut self, piece: &mut [u8]) -> Result<usize, FileFault>
        ensures bound { ReadsAtMost result piece.new }
        ensures bytes { ReadConsumes (remaining self.old) (remaining self.new) result piece.new }
        ensures failed { has_failed self.new ≡ (has_failed self.old || is_file_fault result) }
        ensures sound { may_fail self.old ≡ false → may_fail self.new ≡ false }
        ensures memory { may_fail self.old ≡ false → is_file_fault result ≡ false };
}

/// A slice, of which no read fails.
impl Source for &[u8] {
    ghost remaining = { λ source. Some source.now };

    ghost has_failed = { λ _. false };

    ghost may_fail = { λ _. false };

    fn read_piece(&mut self, piece: &mut [u8]) -> Result<usize, FileFault> {
        Ok(self.read(piece)?)
    }
}

/// Any reader, lent, which notes a failed read. A read that was interrupted has failed too.
#[derive(Drop)]
pub struct ReadWrapper<'a, R> {
    reader: &'a mut R,
    has_failed: bool,
}

impl<'a, R: Reader> ReadWrapper<'a, R> {
    /// A reader of which no read has failed yet.
    pub fn new(reader: &'a mut R) -> ReadWrapper<'a, R>
        ensures remaining { ⟦<ReadWrapper<'a, R> as Source>⟧.remaining result ≡ R.remaining reader.entry.now }
        ensures unfailed { ⟦<ReadWrapper<'a, R> as Source>⟧.has_failed result ≡ false }
        ensures may_fail { ⟦<ReadWrapper<'a, R> as Source>⟧.may_fail result ≡ R.may_fail reader.entry.now }
    {
        ReadWrapper {
            reader,
            has_failed: false,
        }
    }
}

impl<R: Reader> Source for ReadWrapper<'_, R> {
    ghost remaining = { λ source. R.remaining (reader_in source) };

    ghost has_failed = { failed_before };

    ghost may_fail = { λ source. R.may_fail (reader_in source) };

    fn read_piece(&mut self, piece: &mut [u8]) -> Result<usize, FileFault>
        ensures bound { ReadsAtMost result piece.new }
        ensures bytes { ReadConsumes (R.remaining (reader_in self.old)) (R.remaining (reader_in self.new)) result piece.new }
        ensures failed { failed_before self.new ≡ (failed_before self.old || is_file_fault result) }
        ensures sound { R.may_fail (reader_in self.old) ≡ false → R.may_fail (reader_in self.new) ≡ false }
        ensures memory { R.may_fail (reader_in self.old) ≡ false → is_file_fault result ≡ false }

        // Beyond the trait: one read is made, and its answer decides.
        ensures answered { AnswersOnce (R.answers (reader_in self.old)) (R.answers (reader_in self.new)) (TellsRead result) }
    {
        match self.reader.read_once(piece) {
            Ok(count) => Ok(count),
            Err(error) => {
                let fault = FileFault::from(error);
                if fault == FileFault::File {
                    self.has_failed = true;
                }
                Err(fault)
            }
        }
    }
}
