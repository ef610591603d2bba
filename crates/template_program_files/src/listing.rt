//! The files below a folder.
ghost use Rattle.std.specs.Prelude.{◌≡◌, ◌∷◌, [], ◌++◌, ℕ, List, IfErr, IfOk, IsErrOf, None, OnOk, codes, string_bytes};
ghost use Rattle.std.specs.List.{All, Contains};
ghost use Rattle.template_program_files.specs.Below.{IsBelow, IsFolderBelow, IsNamedBelow, files_in, folders_in, maybe, name_below, surely};
ghost use Rattle.template_program_files.specs.Views.{entry_of, names_in, standing_in};

use crate::folders::{Entry, Folders};
use crate::names::together;
use std::alloc::Global;
use template_program_parts::FileFault;

// What was found so far below a folder: the files, and the folders, each with a `/` behind it.
#[derive(Drop)]
struct Found {
    files: Vec<String>,
    folders: Vec<String>,
}

/// The files below the folder at `base`, which ends in a `/`, by their paths from there, in any order. Folders are gone
/// through one after another.
pub(crate) fn files_below<S: Folders + AllocGlobal>(
    rt: &S,
    base: &str,
) -> Result<Vec<String>, FileFault>
    ensures complete { IfOk result (λ files. (folders : List (List ℕ)) (name : List ℕ)
        → IsBelow (surely (S.entries rt.now)) base.now folders name → Contains (names_in files.items) (name_below folders name)) }
    ensures sound { IfOk result (λ files. All (IsNamedBelow (maybe (S.entries rt.now)) base.now) (names_in files.items)) }
    ensures file { IsErrOf result FileFault.File → (p : List ℕ) × IsFolderBelow (maybe (S.entries rt.now)) base.now p
        × (S.entries rt.now (base.now ++ p) ≡ None) }
{
    let alloc = rt.alloc();
    let mut found = Found {
        files: Vec::new(alloc),
        folders: Vec::new(alloc),
    };
    found.folders.push(String::new(alloc))?;
    for next in 0..usize::MAX {
        if next >= found.folders.len() {
            return Ok(found.files);
        }
        let folder = found.folders[next].clone()?;
        let path = together(alloc, base, folder.as_str())?;
        let entries = rt.list(path.as_str())?;
        add_entries(alloc, folder.as_str(), entries.as_slice(), &mut found)?;
    }
    // So many folders find no room.
    Err(FileFault::Memory)
}

// What stands in a folder is found.
fn add_entries(
    alloc: Global,
    folder: &str,
    entries: &[Entry],
    found: &mut Found,
) -> Result<(), FileFault>
    ensures files { OnOk result (names_in found.new.files.items
        ≡ names_in found.old.files.items ++ files_in folder.now (standing_in entries.now)) }
    ensures folders { OnOk result (names_in found.new.folders.items
        ≡ names_in found.old.folders.items ++ folders_in folder.now (standing_in entries.now)) }
    ensures memory { IfErr result (λ fault. fault ≡ FileFault.Memory) }
{
    for entry in entries {
        add_entry(alloc, folder, entry, found)?;
    }
    Ok(())
}

fn add_entry(alloc: Global, folder: &str, entry: &Entry, found: &mut Found) -> Result<(), FileFault>
    ensures files { OnOk result (names_in found.new.files.items
        ≡ names_in found.old.files.items ++ files_in folder.now (entry_of entry.now ∷ [])) }
    ensures folders { OnOk result (names_in found.new.folders.items
        ≡ names_in found.old.folders.items ++ folders_in folder.now (entry_of entry.now ∷ [])) }
    ensures memory { IfErr result (λ fault. fault ≡ FileFault.Memory) }
{
    match entry {
        Entry::File(name) => {
            let path = together(alloc, folder, name.as_str())?;
            found.files.push(path)?;
            Ok(())
        }
        Entry::Folder(name) => {
            let mut path = together(alloc, folder, name.as_str())?;
            path.push_str("/")?;
            found.folders.push(path)?;
            Ok(())
        }
    }
}
