//! The words that the program takes.
ghost use Rattle.std.specs.Prelude.{◌≡◌, IfOk, All, false, map};
ghost use Rattle.clap.specs.Words.{app_of, rule_of};
ghost use Rattle.clap.specs.declared.builder.command.Command.TheViews.{out-Command};
ghost use Rattle.template_program_words.specs.CommandLine as line;

use crate::shared_options::{builtins, files, main, output, tells_where, templates};
use crate::syntax_options::{syntax_flags, syntax_texts};
use crate::value_options::value_arguments;
use clap::{Arg, ArgAction, Command, value_parser};
use std::alloc::{AllocError, Global};

// What the program ends with.
const STATUSES: &str = "\
Status:
  0  all is written, or help or the version was asked for
  1  the render ended with a fault
  2  the words were refused
  3  a file or the input was refused
  4  the context was refused
  5  a template was refused, or the main one is not there
  6  memory was refused";

/// The program, with its three commands.
pub(crate) fn program<'a>(alloc: Global) -> Result<Command<'a>, AllocError>
    ensures { IfOk result (λ command. app_of command ≡ line.program) }
{
    bare_program(alloc)?
        .subcommand(render(alloc)?)?
        .subcommand(names(alloc)?)?
        .subcommand(check(alloc)?)
}

// The program without its commands.
fn bare_program<'a>(alloc: Global) -> Result<Command<'a>, AllocError>
    ensures { IfOk result (λ command. app_of command ≡ line.bare_program) }
{
    Command::new(alloc, "template")
        .about("Renders a template over a JSON context, or prints the names that it can ask for")
        .version("0.1.0")
        .after_help(STATUSES)
        .no_binary_name(true)
        .subcommand_required(true)
        .bin_name("template")
}

/// `render [--context FILE] [-D NAME=TEXT]... [--fuel N] [--limit N] [--undefined MODE] [--builtins] [--main NAME] [-o FILE]
/// [--where] [--templates FOLDER] [--data FILE]... [--json NAME=JSON]... [--floats FORM] [--autoescape FORMAT]
/// [--expression TEXT] [--as-json] [SYNTAX] [FILE...]`
fn render<'a>(alloc: Global) -> Result<Command<'a>, AllocError>
    ensures app { IfOk result (λ command. app_of command ≡ line.render_command) }
    ensures local { IfOk result (λ command. (out-Command command).has_globals ≡ false) }
{
    Command::new(alloc, "render")
        .about("Renders the main template to standard output")
        .args(render_arguments(alloc)?)?
        .args(value_arguments(alloc)?)?
        .args(syntax_flags(alloc)?)?
        .args(syntax_texts(alloc)?)
}

fn render_arguments<'a>(alloc: Global) -> Result<Vec<Arg<'a>>, AllocError>
    ensures rules { IfOk result (λ arguments. map rule_of arguments.items ≡ line.render_rules) }
    ensures local { IfOk result (λ arguments. All (λ a. a.global ≡ false) arguments.items) }
{
    Ok(vec![in alloc;
        context(alloc),
        definition(alloc),
        fuel(alloc),
        limit(alloc),
        undefined(alloc),
        builtins(alloc),
        main(alloc),
        output(alloc),
        tells_where(alloc),
        templates(alloc),
        files(alloc),
    ]?)
}

/// `names [--builtins] [--main NAME] [-o FILE] [--where] [--json] [--templates FOLDER] [SYNTAX] [FILE...]`
fn names<'a>(alloc: Global) -> Result<Command<'a>, AllocError>
    ensures app { IfOk result (λ command. app_of command ≡ line.names_command) }
    ensures local { IfOk result (λ command. (out-Command command).has_globals ≡ false) }
{
    Command::new(alloc, "names")
        .about("Prints the names of a context that can matter to the main template, one a line")
        .args(names_arguments(alloc)?)?
        .args(syntax_flags(alloc)?)?
        .args(syntax_texts(alloc)?)
}

fn names_arguments<'a>(alloc: Global) -> Result<Vec<Arg<'a>>, AllocError>
    ensures rules { IfOk result (λ arguments. map rule_of arguments.items ≡ line.names_rules) }
    ensures local { IfOk result (λ arguments. All (λ a. a.global ≡ false) arguments.items) }
{
    Ok(vec![in alloc;
        builtins(alloc),
        main(alloc),
        output(alloc),
        tells_where(alloc),
        names_json(alloc),
        templates(alloc),
        files(alloc),
    ]?)
}

/// `check [--builtins] [--templates FOLDER] [SYNTAX] [FILE...]`
fn check<'a>(alloc: Global) -> Result<Command<'a>, AllocError>
    ensures app { IfOk result (λ command. app_of command ≡ line.check_command) }
    ensures local { IfOk result (λ command. (out-Command command).has_globals ≡ false) }
{
    Command::new(alloc, "check")
        .about("Prints each refusal of the templates, as page.html:12:7: SyntaxError, one a line")
        .args(check_arguments(alloc)?)?
        .args(syntax_flags(alloc)?)?
        .args(syntax_texts(alloc)?)
}

fn check_arguments<'a>(alloc: Global) -> Result<Vec<Arg<'a>>, AllocError>
    ensures rules { IfOk result (λ arguments. map rule_of arguments.items ≡ line.check_rules) }
    ensures local { IfOk result (λ arguments. All (λ a. a.global ≡ false) arguments.items) }
{
    Ok(vec![in alloc; checked_builtins(alloc), templates(alloc), files(alloc)]?)
}

/// An argument with a value, of this name in help.
pub(crate) fn taking<'a>(alloc: Global, id: &'a str, value: &'a str, help: &'a str) -> Arg<'a>
    ensures rule { rule_of result ≡ line.taking_value id.entry.now }
    ensures local { result.global ≡ false }
{
    Arg::new(alloc, id).value_name(value).help(help)
}

/// An option with a text, of this name in help.
pub(crate) fn text_option<'a>(
    alloc: Global,
    name: &'a str,
    value: &'a str,
    help: &'a str,
) -> Arg<'a>
    ensures rule { rule_of result ≡ line.text_option name.entry.now }
    ensures local { result.global ≡ false }
{
    taking(alloc, name, value, help).long(name)
}

/// A flag.
pub(crate) fn flag_option<'a>(alloc: Global, name: &'a str, help: &'a str) -> Arg<'a>
    ensures rule { rule_of result ≡ line.flag_option name.entry.now }
    ensures local { result.global ≡ false }
{
    Arg::new(alloc, name)
        .long(name)
        .help(help)
        .action(ArgAction::SetTrue)
}

fn context<'a>(alloc: Global) -> Arg<'a>
    ensures rule { rule_of result ≡ line.context_option }
    ensures local { result.global ≡ false }
{
    let help = "The context: a file that holds a JSON object; an empty one if not given";
    text_option(alloc, "context", "FILE", help)
}

fn definition<'a>(alloc: Global) -> Arg<'a>
    ensures rule { rule_of result ≡ line.definition_option }
    ensures local { result.global ≡ false }
{
    let help =
        "Sets a text over the context, split at the first `=`; may be repeated, the last of a name wins";
    taking(alloc, "definition", "NAME=TEXT", help)
        .short('D')
        .action(ArgAction::Append)
}

fn fuel<'a>(alloc: Global) -> Arg<'a>
    ensures rule { rule_of result ≡ line.fuel_option }
    ensures local { result.global ≡ false }
{
    let help =
        "Stops the render at its N-th step of the price list, which is not run: N - 1 steps are";
    taking(alloc, "fuel", "N", help)
        .long("fuel")
        .value_parser(value_parser!(u64))
}

fn limit<'a>(alloc: Global) -> Arg<'a>
    ensures rule { rule_of result ≡ line.limit_option }
    ensures local { result.global ≡ false }
{
    let help = "How deep the render may be; 500 if not given";
    taking(alloc, "limit", "N", help)
        .long("limit")
        .value_parser(value_parser!(u16))
}

fn undefined<'a>(alloc: Global) -> Arg<'a>
    ensures rule { rule_of result ≡ line.undefined_option }
    ensures local { result.global ≡ false }
{
    let help =
        "What may be done with undefined values: lenient (if not given), chainable, semistrict or strict";
    text_option(alloc, "undefined", "MODE", help)
}

fn names_json<'a>(alloc: Global) -> Arg<'a>
    ensures rule { rule_of result ≡ line.names_json_option }
    ensures local { result.global ≡ false }
{
    flag_option(
        alloc,
        "json",
        "Prints the names as a JSON list, on one line",
    )
}

fn checked_builtins<'a>(alloc: Global) -> Arg<'a>
    ensures rule { rule_of result ≡ line.builtins_option }
    ensures local { result.global ≡ false }
{
    let help =
        "Templates have the builtin filters and tests: each name of a filter, test or function that nothing has is \
         printed too";
    flag_option(alloc, "builtins", help)
}
