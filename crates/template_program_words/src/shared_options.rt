//! The words that more than one command takes.
ghost use Rattle.std.specs.Prelude.{◌≡◌, false};
ghost use Rattle.clap.specs.Words.{rule_of};
ghost use Rattle.template_program_words.specs.CommandLine as line;

use crate::options::{flag_option, taking, text_option};
use clap::{Arg, ArgAction};
use std::alloc::Global;

pub(crate) fn builtins<'a>(alloc: Global) -> Arg<'a>
    ensures rule { rule_of result ≡ line.builtins_option }
    ensures local { result.global ≡ false }
{
    let help = "Templates have the builtin filters and tests; none if not given";
    flag_option(alloc, "builtins", help)
}

pub(crate) fn main<'a>(alloc: Global) -> Arg<'a>
    ensures rule { rule_of result ≡ line.main_option }
    ensures local { result.global ≡ false }
{
    let help = "The name of the main template, in place of the first";
    text_option(alloc, "main", "NAME", help)
}

pub(crate) fn output<'a>(alloc: Global) -> Arg<'a>
    ensures rule { rule_of result ≡ line.output_option }
    ensures local { result.global ≡ false }
{
    let help =
        "The file that is written, in place of standard output; a fault leaves what stood there";
    text_option(alloc, "output", "FILE", help).short('o')
}

pub(crate) fn tells_where<'a>(alloc: Global) -> Arg<'a>
    ensures rule { rule_of result ≡ line.where_option }
    ensures local { result.global ≡ false }
{
    let help =
        "Tells on standard error the places of a fault, after its line, each with its line of the source";
    flag_option(alloc, "where", help)
}

pub(crate) fn templates<'a>(alloc: Global) -> Arg<'a>
    ensures rule { rule_of result ≡ line.templates_option }
    ensures local { result.global ≡ false }
{
    let help = "A folder: each file below it is a template, under its path from there";
    text_option(alloc, "templates", "FOLDER", help)
}

pub(crate) fn files<'a>(alloc: Global) -> Arg<'a>
    ensures rule { rule_of result ≡ line.files_argument }
    ensures local { result.global ≡ false }
{
    let help =
        "The templates; a later one of the same path replaces; standard input, as <stdin>, where none is given";
    taking(alloc, "files", "FILE", help)
        .num_args(0..)
        .action(ArgAction::Append)
}
