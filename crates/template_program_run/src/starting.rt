//! The program's body.
ghost use Rattle.std.specs.Prelude.{◌≡◌, map};
ghost use Rattle.std.specs.IoError.{error_kind};
ghost use Rattle.clap.specs.Words.{fault_of, subcommand_of};
ghost use Rattle.template_program_parts.specs.Context.{text_pairs};
ghost use Rattle.template_program_words.specs.CommandLine.{program};
ghost use Rattle.template_program_output.specs.Lines.{error_line};
ghost use Rattle.template_program_output.specs.Shown.{Puts};
ghost use Rattle.template_program_run.specs.Asked.{served_by};
ghost use Rattle.template_program_run.specs.Inputs.{AskForRun};
ghost use Rattle.template_program_run.specs.Served.{served_under};
ghost use Rattle.template_program_run.specs.Starts.{DoesUnderSyntax, DoesWords, FollowsWords, RunsWords, Starts, TellsLine, TellsWords, arguments_line, file_line, words_status};
ghost use Rattle.template_program_run.specs.Told.{told_by};
ghost use Rattle.template_program_run.specs.Status.{arguments_status, file_status, syntax_status};

use crate::checking::check_words;
use crate::documents::documents_of;
use crate::inputs::{ReadContext, read_inputs};
use crate::lacking::lacking_path;
use crate::options::Options;
use crate::parts::ContextParts;
use crate::placing::perform_to;
use crate::serving::{expression_of, options_of, output_of, syntax_words, values_of};
use crate::syntax::syntax_of;
use crate::telling::{refuse_file, tell_error, tell_memory, tell_text, tell_word};
use crate::values::check_values;
use std::io;
use template_program_contexts::Document;
use template_program_files::{Folders, Placing};
use template_program_output::{Output, write_flushed};
use template_program_parts::{DONE, FileFault, FileSystem, MEMORY, Reader, WORDS};
use template_program_words::{Words, WordsFault, read_words};
use template_values_errors::{Error, ErrorKind};

/// Runs the program: reads the words, and puts together the syntax that they set; then reads the templates' files (of the
/// folder, where one is named, or else the input, where no file is named), then the files of the context and of its data, and
/// writes what is asked to `out` through a buffer, or to the file that the words name in its place, and a fault to `fault` where
/// something is refused: the text of refused words as it is, any other as one line. Where the words ask for places, the line is
/// followed by those of the fault: of a template's fault as [`template_program_places::places_text`] tells them, of a context's
/// the document and the line or the path in it, of a file its path. What cannot be written there changes nothing.
///
/// In a folder each regular file below it is a template under its path from there, and files and a main template that are
/// named by no absolute path are among them: a named file that is not there or no UTF-8 is refused, as is a main template
/// that is no UTF-8. Other files that are no UTF-8, and sources that are refused and that the main template does not reach by
/// literal names, count as absent. Files named by absolute paths are read beside the folder's, and so is the input where
/// neither a file nor a main template is named: it is the main one then.
///
/// The context is the file of `--context`, which is JSON, and over it, in order, those of `--data`, TOML where the name ends in
/// `.toml` and else JSON; `-` there is the input, which then is no template: where no file is named the main template is one that
/// `--main` names in a folder, or it does not stand. Over these go the texts of `-D`, and over both the values of `--json`, which
/// are JSON: one that is none is refused as a definition without `=` is, before any file is read.
///
/// Where the words ask for an expression, its value is written in place of a main template, which need not stand: the input is
/// no template then, and the files that are named are templates all the same.
///
/// A check reads the templates, all those of a folder, and writes a line to `out` for each that is refused and, with builtins,
/// for each name of a filter, a test or a function that nothing has; its status is 5 where there is a line.
///
/// The status is 0 where all is written, or help or the version was asked for, 1 for a fault of the
/// render, 2 for words or a syntax that are refused, 3 for a file, 4 for the context, 5 for a template or an
/// expression that is refused or a main template that does not stand, and 6 where memory was refused.
///
/// Gives the output back behind the status. Holds all templates, the context and the output's buffer of 8 KiB in
/// memory.
pub fn start<R: FileSystem + Folders + Placing + AllocGlobal, I: Reader, O: Output, F: Output>(
    rt: &R,
    words: &[&str],
    input: &mut I,
    out: O,
    fault: &mut F,
) -> (u8, O)
    ensures { Starts (fault_of program (map (λ word. word.now) words.now)) (subcommand_of program (map (λ word. word.now) words.now))
        (told_by (R.entries rt.now) (R.content rt.now) (I.may_fail input.old) (I.remaining input.old))
        (R.fresh rt.now) (R.placed rt.now)
        (O.shown out) (O.shown result.1) (F.shown fault.old) (F.shown fault.new) result.0 }
{
    match read_words(rt.alloc(), words) {
        Ok(words) => follow_words(rt, &words, input, out, fault),
        Err(refused) => refuse_words(&refused, out, fault),
    }
}

// Does what the words ask for, once the values that they give are JSON.
fn follow_words<R: FileSystem + Folders + Placing + AllocGlobal, I: Reader, O: Output, F: Output>(
    rt: &R,
    words: &Words<'_>,
    input: &mut I,
    out: O,
    fault: &mut F,
) -> (u8, O)
    ensures { FollowsWords words.now (told_by (R.entries rt.now) (R.content rt.now) (I.may_fail input.old) (I.remaining input.old))
        (R.fresh rt.now) (R.placed rt.now)
        (O.shown out) (O.shown result.1) (F.shown fault.old) (F.shown fault.new) result.0 }
{
    match check_values(rt.alloc(), values_of(words)) {
        Ok(()) => do_under_syntax(rt, words, input, out, fault),
        Err(refused) => refuse_words(&refused, out, fault),
    }
}

// Does what the words ask for, once the syntax that they set is put together.
fn do_under_syntax<
    R: FileSystem + Folders + Placing + AllocGlobal,
    I: Reader,
    O: Output,
    F: Output,
>(rt: &R, words: &Words<'_>, input: &mut I, out: O, fault: &mut F) -> (u8, O)
    ensures { DoesUnderSyntax words.now (told_by (R.entries rt.now) (R.content rt.now) (I.may_fail input.old) (I.remaining input.old))
        (R.fresh rt.now) (R.placed rt.now)
        (O.shown out) (O.shown result.1) (F.shown fault.old) (F.shown fault.new) result.0 }
{
    match syntax_of(rt.alloc(), syntax_words(words)) {
        Ok(syntax) => {
            let options = options_of(words, syntax.as_ref());
            do_words(rt, words, options, input, out, fault)
        }
        Err(refused) => (refuse_syntax(&refused, fault), out),
    }
}

// Does what the words ask for: runs it, or checks the templates.
fn do_words<R: FileSystem + Folders + Placing + AllocGlobal, I: Reader, O: Output, F: Output>(
    rt: &R,
    words: &Words<'_>,
    options: Options<'_>,
    input: &mut I,
    out: O,
    fault: &mut F,
) -> (u8, O)
    requires { served_under options ≡ served_by words.now }
    ensures { DoesWords words.now (told_by (R.entries rt.now) (R.content rt.now) (I.may_fail input.old) (I.remaining input.old))
        (R.fresh rt.now) (R.placed rt.now)
        (O.shown out) (O.shown result.1) (F.shown fault.old) (F.shown fault.new) result.0 }
{
    match words {
        Words::Render(_) => run_words(rt, words, options, input, out, fault),
        Words::Names(_) => run_words(rt, words, options, input, out, fault),
        Words::Check(check) => check_words(rt, check, options, input, out, fault),
    }
}

// Reads the files that the words name, and runs with them what the words ask for.
fn run_words<R: FileSystem + Folders + Placing + AllocGlobal, I: Reader, O: Output, F: Output>(
    rt: &R,
    words: &Words<'_>,
    options: Options<'_>,
    input: &mut I,
    out: O,
    fault: &mut F,
) -> (u8, O)
    requires run { AskForRun words.now }
    requires served { served_under options ≡ served_by words.now }
    ensures { RunsWords words.now (told_by (R.entries rt.now) (R.content rt.now) (I.may_fail input.old) (I.remaining input.old))
        (R.fresh rt.now) (R.placed rt.now)
        (O.shown out) (O.shown result.1) (F.shown fault.old) (F.shown fault.new) result.0 }
{
    let inputs = match read_inputs(rt, words, options, input) {
        Ok(inputs) => inputs,
        Err(refused) => return (refuse_inputs(rt, words, options, refused, fault), out),
    };
    let Ok(documents) = documents_of(rt.alloc(), &inputs.context.documents) else {
        return (
            refuse_inputs(rt, words, options, FileFault::Memory, fault),
            out,
        );
    };
    let context = parts_of(&inputs.context, documents.as_slice());
    perform_to(
        rt,
        output_of(words),
        options,
        expression_of(words),
        &inputs,
        context,
        out,
        fault,
    )
}

// What the context is made of, where these are its documents.
fn parts_of<'a>(context: &'a ReadContext, documents: &'a [Document<'a>]) -> ContextParts<'a>
    ensures documents { result.documents.now ≡ documents.entry.now }
    ensures values { text_pairs result.values.now ≡ text_pairs context.entry.now.values.items }
    ensures floats { result.floats ≡ context.entry.now.floats }
{
    ContextParts {
        documents,
        values: context.values.as_slice(),
        floats: context.floats,
    }
}

fn refuse_words<O: Output, F: Output>(refused: &WordsFault, mut out: O, fault: &mut F) -> (u8, O)
    ensures status { result.0 ≡ words_status refused.now }
    ensures told { TellsWords refused.now (O.shown out) (O.shown result.1) (F.shown fault.old) (F.shown fault.new) }
{
    match refused {
        WordsFault::Memory => {
            tell_memory(fault);
            (MEMORY, out)
        }
        WordsFault::Help(text) | WordsFault::Version(text) => {
            let _ = write_flushed(&mut out, text.as_bytes());
            (DONE, out)
        }
        WordsFault::Usage(text) => {
            tell_text(fault, text.as_str());
            (WORDS, out)
        }
        WordsFault::Definition => {
            tell_word(fault, "Arguments");
            (WORDS, out)
        }
    }
}

/// Tells that the arguments cannot be had, before [`start`]: for want of memory, with status 6, or because
/// one of them is no UTF-8, with status 2.
pub fn refuse_arguments<F: Output>(refused: &io::Error, fault: &mut F) -> u8
    ensures status { result ≡ arguments_status (error_kind refused.now) }
    ensures told { Puts (F.shown fault.old) (F.shown fault.new) (arguments_line (error_kind refused.now)) }
{
    match refused.kind() {
        io::ErrorKind::OutOfMemory => {
            tell_memory(fault);
            MEMORY
        }
        _ => {
            tell_word(fault, "Arguments");
            WORDS
        }
    }
}

// Tells why a syntax is refused.
fn refuse_syntax<F: Output>(refused: &Error, fault: &mut F) -> u8
    ensures status { result ≡ syntax_status refused.now }
    ensures told { Puts (F.shown fault.old) (F.shown fault.new) (error_line refused.now) }
{
    tell_error(fault, refused);
    match refused.kind() {
        ErrorKind::OutOfMemory => MEMORY,
        _ => WORDS,
    }
}

// Tells that a file or an input cannot be had, and which where places are asked for.
fn refuse_inputs<R: FileSystem + Folders + AllocGlobal, F: Output>(
    rt: &R,
    words: &Words<'_>,
    options: Options<'_>,
    refused: FileFault,
    fault: &mut F,
) -> u8
    ensures status { result ≡ file_status refused }
    ensures told { TellsLine options.entry.tells_where (file_line refused) (F.shown fault.old) (F.shown fault.new) }
{
    let path = match refused {
        FileFault::File if options.tells_where => lacking_path(rt, words),
        _ => "",
    };
    refuse_file(rt.alloc(), refused, options.tells_where, path, fault)
}
