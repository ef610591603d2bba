//! Outputs that take their place when all is written.
ghost use Rattle.std.specs.Prelude.{◌≡◌, ℕ, List, Option, IfErr, IfOk, IfSome, OnOk};
ghost use Rattle.std.specs.IoError.{error_kind};
ghost use Rattle.std.specs.declared.io.ErrorKind.TheVariants.{OutOfMemory};
ghost use Rattle.template_program_output.specs.Shown.{Shown};

use std::alloc::Global;
use std::io;
use template_program_output::Output;

/// An output that has not taken its place yet.
#[derive(Drop)]
pub struct Draft<O> {
    /// What is written to.
    pub out: O,
    /// The name that it has until then. `None` where it is written in its place.
    pub name: Option<String>,
}

/// What opens outputs by their paths, so that each takes its place when all is written, and may tell what an output
/// shows when it is opened: it can then be opened, and take its place, if there is memory. Every runtime with files is
/// one, and tells nothing: so what is proved over all of them holds whatever becomes of the files.
pub trait Placing {
    /// An output that is open.
    type Out: Output + Drop;

    // What the output for a path shows when it is opened, where that is told.
    ghost fresh: { Self → List ℕ → Option Shown };

    // An output took its place under a path, and showed this then.
    ghost placed: { Self → List ℕ → Shown → Type 0 };

    /// Opens the output for `path`. What stands there stays as it is.
    ///
    /// # Errors
    ///
    /// Those of the file system.
    fn create(&self, alloc: Global, path: &str) -> io::Result<Draft<Self::Out>>
        ensures opened { IfOk result (λ draft. IfSome (fresh self.now path.now) (λ shown. Self.Out.shown draft.out ≡ shown)) }
        ensures refused { IfErr result (λ error. IfSome (fresh self.now path.now) (λ _. error_kind error ≡ OutOfMemory)) };

    /// Gives the output its place under `path`, in place of what stands there.
    ///
    /// # Errors
    ///
    /// Those of the file system: what stands there stays, and the draft goes.
    fn place(&self, draft: Draft<Self::Out>, path: &str) -> io::Result<()>
        ensures taken { OnOk result (placed self.now path.now (Self.Out.shown draft.out)) }
        ensures refused { IfErr result (λ error. IfSome (fresh self.now path.now) (λ _. error_kind error ≡ OutOfMemory)) };

    /// Lets the draft go. What stands under its path stays.
    fn discard(&self, draft: Draft<Self::Out>);
}
