//! Outputs.
ghost use Rattle.std.specs.Io.{WritesAtMost};
ghost use Rattle.std.specs.Io.KnownBytes.{Keeps, WriteAppends};
ghost use Rattle.std.specs.Prelude.{None};
ghost use Rattle.template_program_output.specs.Shown.{Shown, TellsAnswer};
ghost use Rattle.template_program_output.specs.Answer.{to_write, to_flush};

use std::io;

/// An output that may show the bytes that it holds, and what it answered to each write and each flush.
/// Every [`io::Write`] is one, and shows none of its answers: so what is proved over all outputs holds
/// whatever they answer.
pub trait Output {
    // The bytes that it holds, and what it answered so far, where these are known.
    ghost shown: { Self → Shown };

    /// Writes a beginning of `bytes`, once; how many bytes were taken.
    ///
    /// # Errors
    ///
    /// Those of the output.
    fn write_once(&mut self, bytes: &[u8]) -> io::Result<usize>
        ensures bound { WritesAtMost result bytes.now }
        ensures bytes { WriteAppends (shown self.old).bytes (shown self.new).bytes result bytes.now }
        ensures told { TellsAnswer (shown self.old).answers (shown self.new).answers (to_write result) };

    /// Hands on what was taken.
    ///
    /// # Errors
    ///
    /// Those of the output.
    fn flush_once(&mut self) -> io::Result<()>
        ensures bytes { Keeps (shown self.old).bytes (shown self.new).bytes }
        ensures told { TellsAnswer (shown self.old).answers (shown self.new).answers (to_flush result) };
}

impl<W: io::Write> Output for W {
    ghost shown = { λ writer. record { bytes = W.contents writer; answers = None } };

    #[inline(always)]
    fn write_once(&mut self, bytes: &[u8]) -> io::Result<usize> {
        self.write(bytes)
    }

    fn flush_once(&mut self) -> io::Result<()> {
        self.flush()
    }
}
