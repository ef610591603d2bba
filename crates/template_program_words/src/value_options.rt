//! The words on values.
ghost use Rattle.std.specs.Prelude.{◌≡◌, IfOk, All, false, map};
ghost use Rattle.clap.specs.Words.{rule_of};
ghost use Rattle.template_program_words.specs.CommandLine as line;

use crate::options::{flag_option, text_option};
use clap::{Arg, ArgAction};
use std::alloc::{AllocError, Global};

/// `[--data FILE]... [--json NAME=JSON]... [--floats FORM] [--autoescape FORMAT] [--expression TEXT] [--as-json]`
pub(crate) fn value_arguments<'a>(alloc: Global) -> Result<Vec<Arg<'a>>, AllocError>
    ensures rules { IfOk result (λ arguments. map rule_of arguments.items ≡ line.value_rules) }
    ensures local { IfOk result (λ arguments. All (λ a. a.global ≡ false) arguments.items) }
{
    Ok(vec![in alloc;
        data_file(alloc),
        json(alloc),
        floats(alloc),
        autoescape(alloc),
        expression(alloc),
        as_json(alloc),
    ]?)
}

// An option with a text that may be repeated.
fn texts_option<'a>(alloc: Global, name: &'a str, value: &'a str, help: &'a str) -> Arg<'a>
    ensures rule { rule_of result ≡ line.texts_option name.entry.now }
    ensures local { result.global ≡ false }
{
    text_option(alloc, name, value, help).action(ArgAction::Append)
}

fn data_file<'a>(alloc: Global) -> Arg<'a>
    ensures rule { rule_of result ≡ line.data_option }
    ensures local { result.global ≡ false }
{
    let help =
        "A file of JSON, or of TOML where its name ends with .toml, or - for standard input: its names go over the \
         context; may be repeated";
    texts_option(alloc, "data", "FILE", help)
}

fn json<'a>(alloc: Global) -> Arg<'a>
    ensures rule { rule_of result ≡ line.json_option }
    ensures local { result.global ≡ false }
{
    let help =
        "Sets a value over the context and over each -D of the same name, split at the first `=`; may be repeated, the \
         last of a name wins";
    texts_option(alloc, "json", "NAME=JSON", help)
}

fn floats<'a>(alloc: Global) -> Arg<'a>
    ensures rule { rule_of result ≡ line.floats_option }
    ensures local { result.global ≡ false }
{
    let help = "What a float of the context is: text, as it is spelled; refused if not given";
    text_option(alloc, "floats", "FORM", help)
}

fn autoescape<'a>(alloc: Global) -> Arg<'a>
    ensures rule { rule_of result ≡ line.autoescape_option }
    ensures local { result.global ≡ false }
{
    let help =
        "How values are escaped: none, html, json, or name (if not given), as the template's name says";
    text_option(alloc, "autoescape", "FORMAT", help)
}

fn expression<'a>(alloc: Global) -> Arg<'a>
    ensures rule { rule_of result ≡ line.expression_option }
    ensures local { result.global ≡ false }
{
    let help =
        "An expression whose value is printed, in place of a template: standard input is no template, --main means \
         nothing, and each FILE is read and added, so that one that is refused ends the program";
    text_option(alloc, "expression", "TEXT", help)
}

fn as_json<'a>(alloc: Global) -> Arg<'a>
    ensures rule { rule_of result ≡ line.as_json_option }
    ensures local { result.global ≡ false }
{
    flag_option(
        alloc,
        "as-json",
        "Prints the value of the expression as JSON",
    )
}
