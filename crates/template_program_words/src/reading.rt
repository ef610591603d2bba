//! The command line, read.
ghost use Rattle.std.specs.Prelude.{◌≡◌, [], map, IfErr, IfOk, OnOk};
ghost use Rattle.clap.specs.Words.{fault_of, subcommand_of};
ghost use Rattle.template_program_words.specs.CommandLine.{program};
ghost use Rattle.template_program_words.specs.Reading.{ReadsWords};
ghost use Rattle.template_program_words.specs.Refusals.{RefusesWords};

use crate::faults::{WordsFault, fault_from};
use crate::found::words_in;
use crate::options::program as template_program;
use crate::words::Words;
use std::alloc::Global;

/// Reads the command line; `words` are those behind the program's own name. They are read from the left, and
/// the first that asks for help or for the version, or that is a mistake, decides. What `clap` refuses is told
/// before a mode of another name is, that before another word behind `--autoescape`, that before another word behind
/// `--floats`, and that before a definition without `=`, behind `-D` or `--json`.
///
/// # Errors
///
/// Help, the version, what `clap` refuses, a mode of another name, another word behind `--autoescape` or `--floats`, a
/// definition without `=`, or want of memory.
pub fn read_words<'a>(alloc: Global, words: &'a [&'a str]) -> Result<Words<'a>, WordsFault>
    // What `clap` finds in the words, by its own account of a command line.
    ensures reads { IfOk result (ReadsWords (subcommand_of program (map (λ word. word.now) words.entry.now))) }
    ensures taken { OnOk result (fault_of program (map (λ word. word.now) words.entry.now) ≡ []) }

    // An error of `clap` has one of the kinds that this account lists.
    ensures refuses { IfErr result (RefusesWords
        (fault_of program (map (λ word. word.now) words.entry.now))
        (subcommand_of program (map (λ word. word.now) words.entry.now))) }
{
    match template_program(alloc)?.try_get_matches_from(words) {
        Ok(matches) => words_in(alloc, &matches),
        Err(error) => Err(fault_from(alloc, &error)),
    }
}
