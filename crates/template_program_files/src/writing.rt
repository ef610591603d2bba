//! A file, written by what writes to outputs.
ghost use Rattle.std.specs.Prelude.{◌≡◌, ℕ, None, IfErr, IfOk, IsErrOf};
ghost use Rattle.template_program_output.specs.Shown.{Shown};
ghost use Rattle.template_program_files.specs.Written.{IsRefused, IsWritten};

use crate::{Draft, Placing};
use template_program_output::Output;
use template_program_parts::{DONE, FileFault};

/// What writes to an output, and ends with a status: 0 where all is written.
pub trait Writer {
    // What the output and the one for faults show before and after, and the status.
    ghost writes: { Self → Shown → Shown → Shown → Shown → ℕ → Type 0 };

    /// Writes to `out`, and tells a fault on `fault`. Gives the output back behind the status.
    fn write_to<O: Output, F: Output>(&self, out: O, fault: &mut F) -> (u8, O)
        ensures { writes self.now (O.shown out) (O.shown result.1) (F.shown fault.old) (F.shown fault.new) result.0 };
}

/// Writes the file at `path`: opens a draft, which the writer writes, and which takes its place where the status is 0.
/// Where it is another, what stood there stays. The status is the writer's.
///
/// # Errors
///
/// [`FileFault::File`] where no draft can be opened, and then nothing is written, or where it cannot take its place:
/// then all was written, with status 0. [`FileFault::Memory`] where memory was refused, in the same two ways.
pub fn write_file<S: Placing + AllocGlobal, W: Writer, F: Output>(
    rt: &S,
    path: &str,
    writer: &W,
    fault: &mut F,
) -> Result<u8, FileFault>
    ensures written { IfOk result (λ status. IsWritten (S.fresh rt.now path.now) (S.placed rt.now path.now)
        (λ before after. W.writes writer.now before after (F.shown fault.old) (F.shown fault.new) status) status) }
    ensures refused { IfErr result (λ _. IsRefused (S.fresh rt.now path.now) (F.shown fault.old) (F.shown fault.new)
        (λ before after. W.writes writer.now before after (F.shown fault.old) (F.shown fault.new) 0)) }
    ensures file { IsErrOf result FileFault.File → S.fresh rt.now path.now ≡ None }
{
    let Draft { out, name } = rt.create(rt.alloc(), path)?;
    let (status, out) = writer.write_to(out, fault);
    let draft = Draft { out, name };
    if status != DONE {
        rt.discard(draft);
        return Ok(status);
    }
    rt.place(draft, path)?;
    Ok(status)
}
