//! What lists folders.
ghost use Rattle.std.specs.Prelude.{◌≡◌, ℕ, List, Option, None, IfErr, IfOk, IfSome};
ghost use Rattle.std.specs.IoError.{error_kind};
ghost use Rattle.std.specs.declared.io.ErrorKind.TheVariants.{OutOfMemory};
ghost use Rattle.template_program_files.specs.Below.{Standing};
ghost use Rattle.template_program_files.specs.Views.{standing_in};

use std::alloc::Global;
use std::fs::DirEntry;
use std::rt::Files;
use std::{fs, io};

/// What stands in a folder under its name.
#[derive(Debug, Drop)]
pub enum Entry {
    /// A regular file.
    File(String),
    /// A folder.
    Folder(String),
}

/// What lists folders by their paths, and may tell what stands in one: that can then be listed, if there is memory. Every
/// runtime with files is one, and tells nothing: so what is proved over all of them holds whatever the folders hold.
pub trait Folders {
    // What stands in the folder at a path, where it is told.
    ghost entries: { Self → List ℕ → Option (List Standing) };

    /// The regular files and the folders in the folder at `path`, in any order. Links, pipes, sockets and devices are
    /// passed over, and names that are no UTF-8.
    ///
    /// # Errors
    ///
    /// Those of the file system.
    fn list(&self, path: &str) -> io::Result<Vec<Entry>>
        ensures listed { IfOk result (λ found. IfSome (entries self.now path.now) (λ all. standing_in found.items ≡ all)) }
        ensures refused { IfErr result (λ error. IfSome (entries self.now path.now) (λ _. error_kind error ≡ OutOfMemory)) };
}

impl<R: Files + AllocGlobal + Clone + Drop> Folders for R {
    ghost entries = { λ _ _. None };

    fn list(&self, path: &str) -> io::Result<Vec<Entry>> {
        let mut entries = Vec::new(self.alloc());
        for found in fs::read_dir(self, path)? {
            if let Some(entry) = entry_of(self.alloc(), found)? {
                entries.push(entry)?;
            }
        }
        Ok(entries)
    }
}

// The entry, unless it is passed over. What it is is asked for without following a link.
fn entry_of<R: Files + Clone + Drop>(
    alloc: Global,
    found: io::Result<DirEntry<R, Global>>,
) -> io::Result<Option<Entry>> {
    let entry = match found {
        Ok(entry) => entry,
        Err(error) => return unless_bad_name(error),
    };
    let kind = entry.file_type()?;
    if kind.is_file() {
        Ok(Some(Entry::File(String::from_str(alloc, entry.file_name())?)))
    } else if kind.is_dir() {
        Ok(Some(Entry::Folder(String::from_str(alloc, entry.file_name())?)))
    } else {
        Ok(None)
    }
}

// A name that is no UTF-8 is passed over.
fn unless_bad_name(error: io::Error) -> io::Result<Option<Entry>> {
    match error.kind() {
        io::ErrorKind::InvalidFilename => Ok(None),
        _ => Err(error),
    }
}
