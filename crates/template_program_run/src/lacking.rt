//! Which of the files that the words name cannot be had.
ghost use Rattle.std.specs.Cmp.Lexicographic.{slice_cmp};
ghost use Rattle.std.specs.List.Sorted.{IsStrictlySortedBy};
ghost use Rattle.std.specs.Ordering.{nat_cmp};
ghost use Rattle.template_program_files.specs.Views.{file_names};

use crate::inputs::INPUT_LIMIT;
use crate::named::{check_main, check_path, is_absolute};
use template_program_files::{FolderFile, Folders, read_folder};
use template_program_parts::{FileFault, FileSystem, read_file, read_text_file};
use template_program_words::{RenderWords, Words};

/// The path of the first of the files that cannot be had, found by reading them again: the folder, what names no text in it, a
/// template, or a file of the context; else the input, which is `-` where it is data and else `<stdin>`.
pub(crate) fn lacking_path<'a, R: FileSystem + Folders + AllocGlobal>(
    rt: &R,
    words: &Words<'a>,
) -> &'a str {
    match words {
        Words::Render(words) => lacking_to_render(rt, words),
        Words::Names(words) => {
            lacking_template(rt, words.templates, words.main, words.files.as_slice()).unwrap_or(
                "<stdin>",
            )
        }
        Words::Check(words) => {
            lacking_template(rt, words.templates, None, words.files.as_slice()).unwrap_or("<stdin>")
        }
    }
}

fn lacking_to_render<'a, R: FileSystem + Folders + AllocGlobal>(
    rt: &R,
    words: &RenderWords<'a>,
) -> &'a str {
    match lacking_template(rt, words.templates, words.main, words.files.as_slice()) {
        Some(path) => path,
        None => lacking_document(rt, words),
    }
}

fn lacking_document<'a, R: FileSystem + AllocGlobal>(rt: &R, words: &RenderWords<'a>) -> &'a str {
    match words.context {
        Some(path) if lacks_file(rt, path) => path,
        _ => lacking_data(rt, words.data_files.as_slice()),
    }
}

fn lacking_data<'a, R: FileSystem + AllocGlobal>(rt: &R, paths: &[&'a str]) -> &'a str {
    let mut input = "<stdin>";
    for path in paths {
        if *path == "-" {
            input = *path;
        } else if lacks_file(rt, path) {
            return *path;
        }
    }
    input
}

fn lacking_template<'a, R: FileSystem + Folders + AllocGlobal>(
    rt: &R,
    folder: Option<&'a str>,
    main: Option<&'a str>,
    paths: &[&'a str],
) -> Option<&'a str> {
    let Some(folder) = folder else {
        return lacking_text(rt, paths, false);
    };
    match read_folder(rt, folder, INPUT_LIMIT) {
        Ok(files) => lacking_below(rt, files.as_slice(), main, paths),
        Err(_) => Some(folder),
    }
}

fn lacking_below<'a, R: FileSystem + AllocGlobal>(
    rt: &R,
    files: &[FolderFile],
    main: Option<&'a str>,
    paths: &[&'a str],
) -> Option<&'a str>
    requires { IsStrictlySortedBy (slice_cmp nat_cmp) (file_names files.now) }
{
    match lacking_name(files, paths) {
        Some(path) => Some(path),
        None if check_main(files, main).is_err() => main,
        None => lacking_text(rt, paths, true),
    }
}

// The first of the paths that names no text in the folder.
fn lacking_name<'a>(files: &[FolderFile], paths: &[&'a str]) -> Option<&'a str>
    requires { IsStrictlySortedBy (slice_cmp nat_cmp) (file_names files.now) }
{
    for path in paths {
        if check_path(files, path).is_err() {
            return Some(*path);
        }
    }
    None
}

// The first of the paths, or of the absolute ones alone, that is no text.
fn lacking_text<'a, R: FileSystem + AllocGlobal>(
    rt: &R,
    paths: &[&'a str],
    absolute_alone: bool,
) -> Option<&'a str> {
    for path in paths {
        let is_read = !absolute_alone || is_absolute(path);
        if is_read && lacks_text(rt, path) {
            return Some(*path);
        }
    }
    None
}

fn lacks_text<R: FileSystem + AllocGlobal>(rt: &R, path: &str) -> bool {
    match read_text_file(rt, path, INPUT_LIMIT) {
        Err(FileFault::File) => true,
        _ => false,
    }
}

fn lacks_file<R: FileSystem + AllocGlobal>(rt: &R, path: &str) -> bool {
    match read_file(rt, path, INPUT_LIMIT) {
        Err(FileFault::File) => true,
        _ => false,
    }
}
