//! The texts of the files below a folder.
ghost use Rattle.std.specs.Prelude.{◌≡◌, ◌<◌, ◌≤◌, ◌++◌, ℕ, List, IfOk, IfSome, IsErrOf, length, codes, sum_by, string_bytes};
ghost use Rattle.std.specs.List.{All, Contains};
ghost use Rattle.std.specs.List.Sorted.{IsStrictlySortedBy};
ghost use Rattle.std.specs.Cmp.Lexicographic.{slice_cmp};
ghost use Rattle.std.specs.Ordering.{nat_cmp};
ghost use Rattle.template_program_files.specs.Below.{IsBelow, IsNamedBelow, maybe, name_below, surely};
ghost use Rattle.template_program_files.specs.Refused.{IsRefused, LacksFile};
ghost use Rattle.template_program_files.specs.Views.{SaysText, file_names, names_in, text_size};

use crate::folders::Folders;
use crate::listing::files_below;
use crate::names::{ordered, together};
use template_program_parts::{FileFault, FileSystem, read_file};

/// A file below a folder.
#[derive(Debug, Drop)]
pub struct FolderFile {
    /// Its path from the folder, as `layouts/base.html`.
    pub name: String,
    /// Its text, unless it is no UTF-8.
    pub text: Option<String>,
}

/// The regular files below the folder at `path`, under their paths from there, in the order of the bytes of these. Links
/// are not followed, pipes, sockets and devices not opened, and names that are no UTF-8 are passed over. Each file is read
/// once, and all texts take fewer than `limit` bytes. Takes time in proportion to the bytes, and n log n comparisons for
/// n names.
///
/// # Errors
///
/// [`FileFault::File`] where a folder or a file cannot be opened or read, and where the texts take `limit` bytes or more,
/// or one file what is left of these; [`FileFault::Memory`] where memory was refused.
pub fn read_folder<S: Folders + FileSystem + AllocGlobal>(
    rt: &S,
    path: &str,
    limit: usize,
) -> Result<Vec<FolderFile>, FileFault>
    ensures ascending { IfOk result (λ files. IsStrictlySortedBy (slice_cmp nat_cmp) (file_names files.items)) }
    ensures below { IfOk result (λ files. sum_by (λ file. text_size file.text) files.items < limit) }
    ensures texts { IfOk result (λ files. All (λ file. IfSome (S.content rt.now (path.now ++ codes "/" ++ string_bytes file.name))
        (SaysText file.text)) files.items) }

    // Each file that is told to stand there is among them, and no other where all is told.
    ensures complete { IfOk result (λ files. (folders : List (List ℕ)) (name : List ℕ)
        → IsBelow (surely (S.entries rt.now)) (path.now ++ codes "/") folders name
        → Contains (file_names files.items) (name_below folders name)) }
    ensures sound { IfOk result (λ files. All (IsNamedBelow (maybe (S.entries rt.now)) (path.now ++ codes "/")) (file_names files.items)) }
    ensures file { IsErrOf result FileFault.File → IsRefused (S.entries rt.now) (S.content rt.now) path.now limit }
{
    if path.is_empty() || limit == 0 {
        return Err(FileFault::File);
    }
    let base = together(rt.alloc(), path, "/")?;
    let names = ordered(files_below(rt, base.as_str())?)?;
    read_files(rt, base.as_str(), names, limit)
}

// The files of the names.
fn read_files<S: FileSystem + AllocGlobal>(
    rt: &S,
    base: &str,
    names: Vec<String>,
    limit: usize,
) -> Result<Vec<FolderFile>, FileFault>
    requires { 0 < limit }
    ensures names { IfOk result (λ files. file_names files.items ≡ names_in names.items) }
    ensures below { IfOk result (λ files. sum_by (λ file. text_size file.text) files.items < limit) }
    ensures texts { IfOk result (λ files. All (λ file. IfSome (S.content rt.now (base.now ++ string_bytes file.name))
        (SaysText file.text)) files.items) }
    ensures file { IsErrOf result FileFault.File → LacksFile (S.content rt.now) base.now limit (names_in names.items) }
{
    let mut files = Vec::new(rt.alloc());
    let mut left = limit;
    for name in names {
        let file = read_one(rt, base, name, left)?;
        left -= text_len(&file.text);
        files.push(file)?;
    }
    Ok(files)
}

// The file of a name, whose text takes fewer bytes than `limit`.
fn read_one<S: FileSystem + AllocGlobal>(
    rt: &S,
    base: &str,
    name: String,
    limit: usize,
) -> Result<FolderFile, FileFault>
    ensures name { IfOk result (λ file. string_bytes file.name ≡ string_bytes name) }
    ensures below { IfOk result (λ file. text_size file.text < limit) }
    ensures text { IfOk result (λ file. IfSome (S.content rt.now (base.now ++ string_bytes file.name)) (SaysText file.text)) }
    ensures file { IsErrOf result FileFault.File → IfSome (S.content rt.now (base.now ++ string_bytes name)) (λ all. limit ≤ length all) }
{
    let path = together(rt.alloc(), base, name.as_str())?;
    let bytes = read_file(rt, path.as_str(), limit)?;
    let text = String::from_utf8(bytes).ok();
    Ok(FolderFile { name, text })
}

// How many bytes a text takes.
fn text_len(text: &Option<String>) -> usize
    ensures { result ≡ text_size text.now }
{
    match text {
        Some(text) => text.len(),
        None => 0,
    }
}
