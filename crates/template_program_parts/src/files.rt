//! Whole files.
ghost use Rattle.std.specs.Prelude.{◌≡◌, ◌<◌, ℕ, List, Option, None, Some, IfErr, IfOk, IfSome, IsErrOf, false, string_bytes, string_len, vec_len};
ghost use Rattle.std.specs.IoError.{error_kind};
ghost use Rattle.std.specs.declared.io.ErrorKind.TheVariants.{OutOfMemory};
ghost use Rattle.template_program_parts.specs.Reading.{LacksFile, LacksText};

use crate::{FileFault, ReadWrapper, Reader, read_text, read_whole};
use std::rt::Files;
use std::{fs, io};

/// What opens inputs by their paths, and may tell what stands under a path: that can then be opened and read, if
/// there is memory. Every runtime with files is one, and tells nothing: so what is proved over all file systems
/// holds whatever the files hold.
pub trait FileSystem {
    /// An input that is open.
    type Input: Reader + Drop;

    // What stands under a path, where it is told.
    ghost content: { Self → List ℕ → Option (List ℕ) };

    /// Opens the input at `path`, to be read from its front.
    ///
    /// # Errors
    ///
    /// Those of the file system.
    fn open_input(&self, path: &str) -> io::Result<Self::Input>
        ensures opened { IfOk result (λ input. IfSome (content self.now path.now)
            (λ all. Self.Input.remaining input ≡ Some all)) }
        ensures sound { IfOk result (λ input. IfSome (content self.now path.now)
            (λ _. Self.Input.may_fail input ≡ false)) }
        ensures refused { IfErr result (λ error. IfSome (content self.now path.now)
            (λ _. error_kind error ≡ OutOfMemory)) };
}

impl<R: Files> FileSystem for R {
    type Input = R::File;

    ghost content = { λ _ _. None };

    fn open_input(&self, path: &str) -> io::Result<R::File> {
        fs::open(self, path)
    }
}

/// The bytes of the file at `path`, which are fewer than `limit`.
///
/// # Errors
///
/// [`FileFault::File`] where the file cannot be opened, a read fails, or it has `limit` bytes or more, of
/// which no more are read; [`FileFault::Memory`] where memory was refused.
pub fn read_file<S: FileSystem + AllocGlobal>(
    rt: &S,
    path: &str,
    limit: usize,
) -> Result<Vec<u8>, FileFault>
    ensures whole { IfOk result (λ bytes. IfSome (S.content rt.now path.now) (λ all. bytes.items ≡ all)) }
    ensures below { IfOk result (λ bytes. vec_len bytes < limit) }
    ensures file { IsErrOf result FileFault.File → LacksFile (S.content rt.now path.now) limit }
{
    let mut file = rt.open_input(path)?;
    read_whole(rt.alloc(), &mut ReadWrapper::new(&mut file), limit)
}

/// The text of the file at `path`, read as [`read_file`] does.
///
/// # Errors
///
/// As [`read_file`], and [`FileFault::File`] where the bytes are no UTF-8.
pub fn read_text_file<S: FileSystem + AllocGlobal>(
    rt: &S,
    path: &str,
    limit: usize,
) -> Result<String, FileFault>
    ensures whole { IfOk result (λ text. IfSome (S.content rt.now path.now) (λ all. string_bytes text ≡ all)) }
    ensures below { IfOk result (λ text. string_len text < limit) }
    ensures file { IsErrOf result FileFault.File → LacksText (S.content rt.now path.now) limit }
{
    let mut input = rt.open_input(path)?;
    read_text(rt.alloc(), &mut ReadWrapper::new(&mut input), limit)
}
