//! The check of the templates that the words name.
ghost use Rattle.std.specs.Prelude.{◌≡◌, IfOk, IsErrOf};
ghost use Rattle.template_program_parts.specs.Context.{text_pairs};
ghost use Rattle.template_program_run.specs.Asked.{served_by};
ghost use Rattle.template_program_run.specs.Inputs.{AreCheckedOf, LacksOne, LacksTemplateOf};
ghost use Rattle.template_program_run.specs.Naming.{naming_in, naming_of};
ghost use Rattle.template_program_run.specs.Served.{served_under};
ghost use Rattle.template_program_run.specs.Starts.{ChecksWords};
ghost use Rattle.template_program_run.specs.Told.{told_by};

use crate::folder::read_below;
use crate::inputs::read_templates;
use crate::naming::{Naming, check_naming, reads_input};
use crate::options::Options;
use crate::telling::refuse_file;
use template_program_check::check_to;
use template_program_files::Folders;
use template_program_output::Output;
use template_program_parts::{FileFault, FileSystem, Reader};
use template_program_words::{CheckWords, Words};

/// Reads the templates that the words name, and checks them.
pub(crate) fn check_words<R: FileSystem + Folders + AllocGlobal, I: Reader, O: Output, F: Output>(
    rt: &R,
    words: &CheckWords<'_>,
    options: Options<'_>,
    input: &mut I,
    out: O,
    fault: &mut F,
) -> (u8, O)
    requires { served_under options ≡ served_by (Words.Check words.now) }
    ensures { ChecksWords (Words.Check words.now) words.now.builtins
        (told_by (R.entries rt.now) (R.content rt.now) (I.may_fail input.old) (I.remaining input.old))
        (O.shown out) (O.shown result.1) (F.shown fault.old) (F.shown fault.new) result.0 }
{
    let templates = match read_checked(rt, words, input) {
        Ok(templates) => templates,
        Err(refused) => {
            let status = refuse_file(rt.alloc(), refused, options.tells_where, "", fault);
            return (status, out);
        }
    };
    check_to(
        rt.alloc(),
        templates.as_slice(),
        options.syntax,
        words.builtins,
        out,
        fault,
    )
}

// The templates that are checked, in order.
fn read_checked<R: FileSystem + Folders + AllocGlobal, I: Reader>(
    rt: &R,
    words: &CheckWords<'_>,
    input: &mut I,
) -> Result<Vec<(String, String)>, FileFault>
    ensures read { IfOk result (λ templates.
        AreCheckedOf (told_by (R.entries rt.now) (R.content rt.now) (I.may_fail input.old) (I.remaining input.old))
        (naming_of (Words.Check words.now)).folder (naming_of (Words.Check words.now)) (text_pairs templates.items)) }
    ensures refused { IsErrOf result FileFault.File
        → LacksOne (told_by (R.entries rt.now) (R.content rt.now) (I.may_fail input.old) (I.remaining input.old)) (Words.Check words.now) }
{
    read_all(rt, check_naming(words), input)
}

// All templates of the folder, if one is given; else the files of the paths, or the input where none is given.
fn read_all<R: FileSystem + Folders + AllocGlobal, I: Reader>(
    rt: &R,
    naming: Naming<'_>,
    input: &mut I,
) -> Result<Vec<(String, String)>, FileFault>
    ensures read { IfOk result (λ templates.
        AreCheckedOf (told_by (R.entries rt.now) (R.content rt.now) (I.may_fail input.old) (I.remaining input.old))
        (naming_in naming.entry).folder (naming_in naming.entry) (text_pairs templates.items)) }
    ensures refused { IsErrOf result FileFault.File
        → LacksTemplateOf (told_by (R.entries rt.now) (R.content rt.now) (I.may_fail input.old) (I.remaining input.old))
        (naming_in naming.entry).folder (naming_in naming.entry) }
{
    match naming.folder {
        Some(folder) => read_below(rt, folder, naming, input),
        None => read_templates(rt, naming.paths, reads_input(naming), input),
    }
}
