//! The templates of a folder that the words name.
ghost use Rattle.std.specs.Prelude.{◌≡◌, ◌++◌, map, true, IfErr, IfOk, IsErrOf};
ghost use Rattle.std.specs.List.{filter};
ghost use Rattle.template_program_parts.specs.Context.{text_pairs};
ghost use Rattle.template_program_reached.specs.Sifted.{Sifts};
ghost use Rattle.template_program_run.specs.Folders.{AreBelow, AreSifted, LacksSifted, folder_templates, is_absolute as begins_absolute};
ghost use Rattle.template_program_run.specs.Naming.{naming_in, reads_input_beside as is_read_beside};
ghost use Rattle.template_program_run.specs.Served.{syntax_under};
ghost use Rattle.template_program_run.specs.Templates.{AreTemplates, IsSameInput, LacksTemplate};
ghost use Rattle.template_program_run.specs.Told.{told_by};

use crate::inputs::{INPUT_LIMIT, read_templates};
use crate::named::{check_main, check_paths, is_absolute};
use crate::naming::{Naming, named_main, reads_input_beside};
use crate::options::Options;
use std::alloc::{AllocError, Global};
use template_compiler_syntax::SyntaxConfig;
use template_program_files::{FolderFile, Folders, read_folder};
use template_program_parts::{FileFault, FileSystem, Reader};
use template_program_reached::readable;

/// The templates of the folder and those behind them, as [`read_below`] reads them: the ones that the main one reaches, or
/// that can be read.
pub(crate) fn read_sifted<R: FileSystem + Folders + AllocGlobal, I: Reader>(
    rt: &R,
    folder: &str,
    naming: Naming<'_>,
    options: Options<'_>,
    input: &mut I,
) -> Result<Vec<(String, String)>, FileFault>
    ensures read { IfOk result (λ templates.
        AreSifted (told_by (R.entries rt.now) (R.content rt.now) (I.may_fail input.old) (I.remaining input.old))
        folder.now (naming_in naming.entry) (syntax_under options.entry) (text_pairs templates.items)) }
    ensures refused { IsErrOf result FileFault.File
        → LacksSifted (told_by (R.entries rt.now) (R.content rt.now) (I.may_fail input.old) (I.remaining input.old))
        folder.now (naming_in naming.entry) }
    ensures kept { naming.entry.input_is_taken ≡ true
        → IsSameInput (I.may_fail input.old) (I.remaining input.old) (I.may_fail input.new) (I.remaining input.new) }
{
    let templates = read_below(rt, folder, naming, input)?;
    sifted(rt.alloc(), templates, named_main(naming), options)
}

/// The templates of the folder, and behind them the files of absolute paths, or the input where no path is given and no
/// main template named.
pub(crate) fn read_below<R: FileSystem + Folders + AllocGlobal, I: Reader>(
    rt: &R,
    folder: &str,
    naming: Naming<'_>,
    input: &mut I,
) -> Result<Vec<(String, String)>, FileFault>
    ensures read { IfOk result (λ templates.
        AreBelow (told_by (R.entries rt.now) (R.content rt.now) (I.may_fail input.old) (I.remaining input.old))
        folder.now (naming_in naming.entry) (text_pairs templates.items)) }
    ensures refused { IsErrOf result FileFault.File
        → LacksSifted (told_by (R.entries rt.now) (R.content rt.now) (I.may_fail input.old) (I.remaining input.old))
        folder.now (naming_in naming.entry) }
    ensures kept { naming.entry.input_is_taken ≡ true
        → IsSameInput (I.may_fail input.old) (I.remaining input.old) (I.may_fail input.new) (I.remaining input.new) }
{
    let files = read_folder(rt, folder, INPUT_LIMIT)?;
    check_paths(files.as_slice(), naming.paths)?;
    check_main(files.as_slice(), naming.main)?;
    let behind = read_behind(rt, naming, input)?;
    templates_of(rt.alloc(), files, behind)
}

// The files of the absolute paths, or the input, if it is read.
fn read_behind<R: FileSystem + AllocGlobal, I: Reader>(
    rt: &R,
    naming: Naming<'_>,
    input: &mut I,
) -> Result<Vec<(String, String)>, FileFault>
    ensures read { IfOk result (λ templates. AreTemplates (R.content rt.now) (I.remaining input.old)
        (filter begins_absolute (naming_in naming.entry).paths) (text_pairs templates.items) (is_read_beside (naming_in naming.entry))) }
    ensures refused { IsErrOf result FileFault.File → LacksTemplate (R.content rt.now) (I.may_fail input.old) (I.remaining input.old)
        (filter begins_absolute (naming_in naming.entry).paths) (is_read_beside (naming_in naming.entry)) }
    ensures kept { naming.entry.input_is_taken ≡ true
        → IsSameInput (I.may_fail input.old) (I.remaining input.old) (I.may_fail input.new) (I.remaining input.new) }
{
    let absolute = absolute_paths(rt.alloc(), naming.paths)?;
    read_templates(rt, absolute.as_slice(), reads_input_beside(naming), input)
}

// The absolute ones of the paths.
fn absolute_paths<'a>(alloc: Global, paths: &[&'a str]) -> Result<Vec<&'a str>, AllocError>
    ensures { IfOk result (λ absolute. map (λ path. path.now) absolute.items
        ≡ filter begins_absolute (map (λ path. path.now) paths.now)) }
{
    let mut absolute = Vec::new(alloc);
    for path in paths {
        if is_absolute(path) {
            absolute.push(*path)?;
        }
    }
    Ok(absolute)
}

// The texts of the folder as templates, and behind them others.
fn templates_of(
    alloc: Global,
    files: Vec<FolderFile>,
    mut behind: Vec<(String, String)>,
) -> Result<Vec<(String, String)>, FileFault>
    ensures memory { IfErr result (λ fault. fault ≡ FileFault.Memory) }
    ensures templates { IfOk result (λ all. text_pairs all.items ≡ folder_templates files.items ++ text_pairs behind.items) }
{
    let mut templates = texts_of(alloc, files)?;
    templates.append(&mut behind)?;
    Ok(templates)
}

// The texts of the folder as templates.
fn texts_of(alloc: Global, files: Vec<FolderFile>) -> Result<Vec<(String, String)>, AllocError>
    ensures { IfOk result (λ all. text_pairs all.items ≡ folder_templates files.items) }
{
    let mut templates = Vec::new(alloc);
    for file in files {
        let FolderFile { name, text } = file;
        if let Some(text) = text {
            templates.push((name, text))?;
        }
    }
    Ok(templates)
}

// Those of the templates that the main one reaches, or that can be read.
fn sifted(
    alloc: Global,
    templates: Vec<(String, String)>,
    main: &str,
    options: Options<'_>,
) -> Result<Vec<(String, String)>, FileFault>
    ensures memory { IfErr result (λ fault. fault ≡ FileFault.Memory) }
    ensures sifted { IfOk result (λ left. let all = text_pairs templates.items in
        Sifts (syntax_under options.entry) all main.now all (text_pairs left.items)) }
{
    let standard = SyntaxConfig::new();
    match readable(alloc, templates, main, options.syntax.unwrap_or(&standard)) {
        Ok(left) => Ok(left),
        Err(_) => Err(FileFault::Memory),
    }
}
