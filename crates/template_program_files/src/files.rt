//! Drafts as files: each stands beside the file whose place it takes.
ghost use Rattle.std.specs.Prelude.{◌≡◌, None, IfErr, IfOk, OnOk, option_map, string_bytes};
ghost use Rattle.template_program_files.specs.Names as spec;
ghost use Rattle.template_program_files.specs.Names.{IsNamedBeside};

use crate::{Draft, Placing};
use std::alloc::Global;
use std::fs::{File, Metadata, OpenFile};
use std::rt::Files;
use std::{fs, io};

/// How many names are tried for a draft.
const NAMES: u32 = 10_000;

/// A draft is a new file beside the one of its path, under that one's name and a suffix that no file has, with the
/// permissions of the file whose place it takes. What is no regular file, as a device or a link, is written in its place.
impl<R: Files> Placing for R {
    type Out = R::File;

    ghost fresh = { λ _ _. None };

    ghost placed = { λ _ _ _. Unit {0} };

    fn create(&self, alloc: Global, path: &str) -> io::Result<Draft<R::File>> {
        match fs::symlink_metadata(self, path) {
            Ok(found) => open_over(self, alloc, path, &found),
            Err(error) => match error.kind() {
                io::ErrorKind::NotFound => open_beside(self, alloc, path),
                _ => Err(error),
            },
        }
    }

    fn place(&self, draft: Draft<R::File>, path: &str) -> io::Result<()>
        ensures taken { OnOk result (Unit {0}) }
        ensures refused { IfErr result (λ _. Unit {0}) }
    {
        let Draft { out: _, name } = draft;
        let Some(name) = name else {
            return Ok(());
        };
        let renamed = fs::rename(self, name.as_str(), path);
        if renamed.is_err() {
            let _ = fs::remove_file(self, name.as_str());
        }
        renamed
    }

    fn discard(&self, draft: Draft<R::File>) {
        let Draft { out: _, name } = draft;
        if let Some(name) = name {
            let _ = fs::remove_file(self, name.as_str());
        }
    }
}

// Opens a draft where something stands at `path`.
fn open_over<R: Files>(
    files: &R,
    alloc: Global,
    path: &str,
    found: &Metadata,
) -> io::Result<Draft<R::File>> {
    if !found.is_file() {
        return Ok(Draft {
            out: fs::create(files, path)?,
            name: None,
        });
    }
    let draft = open_beside(files, alloc, path)?;
    match draft.out.set_permissions(found.permissions()) {
        Ok(()) => Ok(draft),
        Err(error) => {
            files.discard(draft);
            Err(error)
        }
    }
}

// Opens a new file beside `path`, under the first of the names that no file has.
fn open_beside<R: Files>(files: &R, alloc: Global, path: &str) -> io::Result<Draft<R::File>>
    ensures { IfOk result (λ draft. IsNamedBeside path.now (option_map (λ name. string_bytes name) draft.name)) }
{
    for number in 0..NAMES {
        let name = draft_name(alloc, path, number)?;
        match File::create_new(files, name.as_str()) {
            Ok(out) => {
                return Ok(Draft {
                    out,
                    name: Some(name),
                });
            }
            Err(error) => match error.kind() {
                io::ErrorKind::AlreadyExists => {}
                _ => return Err(error),
            },
        }
    }
    Err(io::Error::from(io::ErrorKind::AlreadyExists))
}

// The path with a number and `.part` behind it.
fn draft_name(alloc: Global, path: &str, number: u32) -> io::Result<String>
    ensures { IfOk result (λ name. string_bytes name ≡ spec.draft_name path.now number) }
{
    Ok(format!(in alloc; "{path}.{number}.part")?)
}
