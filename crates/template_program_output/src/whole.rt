//! Texts, written whole.
ghost use Rattle.std.specs.Prelude.{◌≡◌, ◌≤◌, length, take, OnOk, IfOk};
ghost use Rattle.std.specs.Io.KnownBytes.{Appends, WriteAppends};
ghost use Rattle.template_program_output.specs.Shown.{IsFlushed, TellsResult, Writes};
ghost use Rattle.template_program_output.specs.Answer.{without_count};

use crate::Output;
use std::io;

/// Writes all bytes, by as many writes as it needs. A write that was interrupted is made again.
///
/// # Errors
///
/// That of the output, or `WriteZero` where it takes nothing: it has then taken a beginning of the bytes.
/// `OutOfMemory` where it was interrupted more than `u64::MAX` times.
pub fn write_whole<O: Output>(out: &mut O, bytes: &[u8]) -> io::Result<()>
    ensures { Writes (O.shown out.old) (O.shown out.new) bytes.now result }
{
    write_out(out, bytes).1
}

/// Writes until all is written or a write fails; how many bytes were taken.
pub(crate) fn write_out<O: Output>(out: &mut O, bytes: &[u8]) -> (usize, io::Result<()>)
    ensures bound { result.0 ≤ length bytes.now }
    ensures all { OnOk result.1 (result.0 ≡ length bytes.now) }
    ensures bytes { Appends (O.shown out.old).bytes (O.shown out.new).bytes (take result.0 bytes.now) }
    ensures told { TellsResult (O.shown out.old).answers (O.shown out.new).answers result.1 }
{
    let mut written = 0;
    for _turn in 0..u64::MAX {
        if written == bytes.len() {
            return (written, Ok(()));
        }
        match write_some(out, &bytes[written..]) {
            Ok(count) => written += count,
            Err(error) => return (written, Err(error)),
        }
    }
    (written, Err(io::Error::from(io::ErrorKind::OutOfMemory)))
}

// One write; how many bytes were taken, which is none where it was interrupted.
fn write_some<O: Output>(out: &mut O, bytes: &[u8]) -> io::Result<usize>
    ensures bound { IfOk result (λ count. count ≤ length bytes.now) }
    ensures bytes { WriteAppends (O.shown out.old).bytes (O.shown out.new).bytes result bytes.now }
    ensures told { TellsResult (O.shown out.old).answers (O.shown out.new).answers (without_count result) }
{
    match out.write_once(bytes) {
        Ok(0) => Err(io::Error::from(io::ErrorKind::WriteZero)),
        Ok(count) => Ok(count),
        Err(error) => match error.kind() {
            io::ErrorKind::Interrupted => Ok(0),
            _ => Err(error),
        },
    }
}

/// Writes all bytes, and flushes the output where that went well.
///
/// # Errors
///
/// Those of [`write_whole`], and those of the flush: the output has then taken all.
pub fn write_flushed<O: Output>(out: &mut O, bytes: &[u8]) -> io::Result<()>
    ensures written { Writes (O.shown out.old) (O.shown out.new) bytes.now result }
    ensures flushed { OnOk result (IsFlushed (O.shown out.new).answers) }
{
    write_whole(out, bytes)?;
    out.flush_once()
}
