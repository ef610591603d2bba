//! Names of the files of a folder that the words name.
ghost use Rattle.std.specs.Prelude.{◌≡◌, ◌⊎◌, All, Contains, IfErr, IfSome, OnOk, Some, map, option_map};
ghost use Rattle.std.specs.Cmp.Lexicographic.{slice_cmp};
ghost use Rattle.std.specs.List.Sorted.{IsStrictlySortedBy};
ghost use Rattle.std.specs.Ordering.{nat_cmp};
ghost use Rattle.template_program_files.specs.Views.{file_names};
ghost use Rattle.template_program_run.specs.Folders.{IsLacking, IsNoText, IsPathIn, MayBeMain, RefusesMain, RefusesPaths, TellsText, is_absolute as begins_absolute};

use template_program_files::FolderFile;
use template_program_parts::FileFault;

/// Refuses a path that names no text in the folder, unless it is an absolute one. Takes log n comparisons a path for n
/// files.
pub(crate) fn check_paths(files: &[FolderFile], paths: &[&str]) -> Result<(), FileFault>
    requires { IsStrictlySortedBy (slice_cmp nat_cmp) (file_names files.now) }
    ensures named { OnOk result (All (IsPathIn files.now) (map (λ path. path.now) paths.now)) }
    ensures lacking { IfErr result (λ fault. RefusesPaths files.now (map (λ path. path.now) paths.now)) }
{
    for path in paths {
        check_path(files, path)?;
    }
    Ok(())
}

/// Refuses a path that names no text in the folder, unless it is an absolute one.
pub(crate) fn check_path(files: &[FolderFile], path: &str) -> Result<(), FileFault>
    requires { IsStrictlySortedBy (slice_cmp nat_cmp) (file_names files.now) }
    ensures named { OnOk result (IsPathIn files.now path.now) }
    ensures lacking { IfErr result (λ fault. IsLacking files.now path.now) }
{
    if is_absolute(path) {
        return Ok(());
    }
    match has_text(files, path) {
        Some(true) => Ok(()),
        _ => Err(FileFault::File),
    }
}

/// Refuses the name of a main template that a file has which is no text.
pub(crate) fn check_main(files: &[FolderFile], main: Option<&str>) -> Result<(), FileFault>
    requires { IsStrictlySortedBy (slice_cmp nat_cmp) (file_names files.now) }
    ensures named { OnOk result (IfSome (option_map (λ name. name.now) main.entry) (MayBeMain files.now)) }
    ensures no_text { IfErr result (λ fault. RefusesMain files.now (option_map (λ name. name.now) main.entry)) }
{
    match main {
        Some(name) => check_name(files, name),
        None => Ok(()),
    }
}

fn check_name(files: &[FolderFile], name: &str) -> Result<(), FileFault>
    requires { IsStrictlySortedBy (slice_cmp nat_cmp) (file_names files.now) }
    ensures named { OnOk result (MayBeMain files.now name.now) }
    ensures no_text { IfErr result (λ fault. IsNoText files.now name.now) }
{
    match has_text(files, name) {
        Some(false) => Err(FileFault::File),
        _ => Ok(()),
    }
}

// Whether the file of a name is a text, if one stands there.
fn has_text(files: &[FolderFile], name: &str) -> Option<bool>
    requires { IsStrictlySortedBy (slice_cmp nat_cmp) (file_names files.now) }
    ensures { TellsText files.now name.now result }
{
    match files.binary_search_by(|file| file.name.as_str().cmp(name)) {
        Ok(place) => Some(files[place].text.is_some()),
        Err(_) => None,
    }
}

/// Whether a path begins with a `/`.
pub(crate) fn is_absolute(path: &str) -> bool
    ensures { result ≡ begins_absolute path.now }
{
    match path.as_bytes().first() {
        Some(first) => *first == b'/',
        None => false,
    }
}
