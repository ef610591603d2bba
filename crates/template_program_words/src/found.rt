//! What `clap` found in the words.
ghost use Rattle.std.specs.Prelude.{◌≡◌, [], Some, codes, map, IfErr, IfOk};
ghost use Rattle.clap.specs.Words.{found_of, rows_of, subcommand_rows_of};
ghost use Rattle.template_program_words.specs.Reading.{Defines, ReadsText, ReadsWords, has_flag, values_of};
ghost use Rattle.template_program_words.specs.Refusals.{RefusesWords, RefusesDefinitions, RefusesRender};
ghost use Rattle.template_program_words.specs.declared.faults.WordsFault.TheVariants.{Memory};

use crate::choices::{escape_in, floats_in, undefined_in};
use crate::definitions::{Definition, split_definition};
use crate::faults::WordsFault;
use crate::syntax::syntax_words;
use crate::words::{CheckWords, NamesWords, RenderWords, Words};
use clap::ArgMatches;
use std::alloc::{AllocError, Global};

/// How deep a render may be where no word says it.
const DEFAULT_LIMIT: u16 = 500;

/// What the matches ask for.
pub(crate) fn words_in<'a>(alloc: Global, matches: &ArgMatches<'a>) -> Result<Words<'a>, WordsFault>
    ensures reads { IfOk result (ReadsWords (subcommand_rows_of matches.now)) }
    ensures refuses { IfErr result (RefusesWords [] (subcommand_rows_of matches.now)) }
{
    if let Some(render) = matches.subcommand_matches("render") {
        return render_words(alloc, render);
    }
    if let Some(names) = matches.subcommand_matches("names") {
        return names_words(alloc, names);
    }
    if let Some(check) = matches.subcommand_matches("check") {
        return check_words(alloc, check);
    }

    // `clap` requires a command and knows these three.
    Err(WordsFault::Usage(String::new(alloc)))
}

fn render_words<'a>(alloc: Global, matches: &ArgMatches<'a>) -> Result<Words<'a>, WordsFault>
    ensures reads { IfOk result (ReadsWords (Some (codes "render", rows_of (found_of matches.now)))) }
    ensures refuses { IfErr result (RefusesRender (rows_of (found_of matches.now))) }
{
    let undefined = undefined_in(alloc, matches)?;
    let autoescape = escape_in(alloc, matches)?;
    let float_texts = floats_in(alloc, matches)?;
    Ok(Words::Render(RenderWords {
        context: text(matches, "context"),
        definitions: definitions(alloc, matches, "definition")?,
        values: definitions(alloc, matches, "json")?,
        data_files: values(alloc, matches, "data")?,
        float_texts,
        expression: text(matches, "expression"),
        as_json: is_flagged(matches, "as-json"),
        fuel: matches.get_one::<u64>("fuel"),
        limit: matches.get_one::<u16>("limit").unwrap_or(DEFAULT_LIMIT),
        undefined,
        autoescape,
        builtins: is_flagged(matches, "builtins"),
        syntax: syntax_words(matches),
        main: text(matches, "main"),
        output: text(matches, "output"),
        tells_where: is_flagged(matches, "where"),
        templates: text(matches, "templates"),
        files: values(alloc, matches, "files")?,
    }))
}

fn names_words<'a>(alloc: Global, matches: &ArgMatches<'a>) -> Result<Words<'a>, WordsFault>
    ensures reads { IfOk result (ReadsWords (Some (codes "names", rows_of (found_of matches.now)))) }
    ensures refuses { IfErr result (λ fault. fault ≡ Memory) }
{
    Ok(Words::Names(NamesWords {
        builtins: is_flagged(matches, "builtins"),
        syntax: syntax_words(matches),
        main: text(matches, "main"),
        output: text(matches, "output"),
        tells_where: is_flagged(matches, "where"),
        json: is_flagged(matches, "json"),
        templates: text(matches, "templates"),
        files: values(alloc, matches, "files")?,
    }))
}

fn check_words<'a>(alloc: Global, matches: &ArgMatches<'a>) -> Result<Words<'a>, WordsFault>
    ensures reads { IfOk result (ReadsWords (Some (codes "check", rows_of (found_of matches.now)))) }
    ensures refuses { IfErr result (λ fault. fault ≡ Memory) }
{
    Ok(Words::Check(CheckWords {
        builtins: is_flagged(matches, "builtins"),
        syntax: syntax_words(matches),
        templates: text(matches, "templates"),
        files: values(alloc, matches, "files")?,
    }))
}

/// Is this flag set?
pub(crate) fn is_flagged(matches: &ArgMatches<'_>, id: &str) -> bool
    ensures { result ≡ has_flag id.now (rows_of (found_of matches.now)) }
{
    matches.get_one::<bool>(id).unwrap_or(false)
}

/// The text of `id`.
pub(crate) fn text<'a>(matches: &ArgMatches<'a>, id: &str) -> Option<&'a str>
    ensures { ReadsText id.now (rows_of (found_of matches.now)) result }
{
    matches.get_str(id)
}

/// All values of `id`.
fn values<'a>(alloc: Global, matches: &ArgMatches<'a>, id: &str) -> Result<Vec<&'a str>, AllocError>
    ensures { IfOk result (λ values. map (λ value. value.now) values.items
        ≡ values_of id.now (rows_of (found_of matches.now))) }
{
    Vec::from_slice(alloc, matches.get_strs(id).unwrap_or(&[]))
}

/// All values of `id`, as definitions.
fn definitions<'a>(
    alloc: Global,
    matches: &ArgMatches<'a>,
    id: &str,
) -> Result<Vec<Definition<'a>>, WordsFault>
    ensures defines { IfOk result (λ definitions. Defines (values_of id.now (rows_of (found_of matches.now))) definitions.items) }
    ensures refuses { IfErr result (RefusesDefinitions (values_of id.now (rows_of (found_of matches.now)))) }
{
    let words = values(alloc, matches, id)?;
    definitions_in(alloc, words.as_slice())
}

fn definitions_in<'a>(alloc: Global, words: &[&'a str]) -> Result<Vec<Definition<'a>>, WordsFault>
    ensures defines { IfOk result (λ definitions.
        Defines (map (λ text. text.now) words.now) definitions.items) }
    ensures refuses { IfErr result (RefusesDefinitions (map (λ text. text.now) words.now)) }
{
    let mut definitions = Vec::new(alloc);
    for text in words {
        let Some(definition) = split_definition(text) else {
            return Err(WordsFault::Definition);
        };
        definitions.push(definition)?;
    }
    Ok(definitions)
}
