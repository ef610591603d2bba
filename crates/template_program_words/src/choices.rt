//! Options that take one word of a few.
ghost use Rattle.std.specs.Prelude.{◌≡◌, Some, codes, IfErr, IfOk};
ghost use Rattle.clap.specs.Words.{first_of, found_of, rows_of};
ghost use Rattle.template_program_words.specs.Escapes.{escape_of};
ghost use Rattle.template_program_words.specs.Floats.{floats_of};
ghost use Rattle.template_program_words.specs.Modes.{mode_of};
ghost use Rattle.template_program_words.specs.Refusals.{NamesNoEscape, NamesNoFloats, NamesNoMode, RefusesFor};

use crate::escapes::{EscapeWord, escape_named};
use crate::faults::{WordsFault, unknown_value};
use crate::floats::floats_named;
use crate::found::text;
use crate::modes::mode_named;
use clap::ArgMatches;
use std::alloc::Global;
use template_values_errors::UndefinedBehavior;

/// The mode that `--undefined` names.
pub(crate) fn undefined_in(
    alloc: Global,
    matches: &ArgMatches<'_>,
) -> Result<UndefinedBehavior, WordsFault>
    ensures reads { IfOk result (λ mode. mode_of (first_of (codes "undefined") (rows_of (found_of matches.now))) ≡ Some mode) }
    ensures refuses { IfErr result (RefusesFor (NamesNoMode (rows_of (found_of matches.now)))) }
{
    let Some(name) = text(matches, "undefined") else {
        return Ok(UndefinedBehavior::Lenient);
    };
    let possible = "lenient, chainable, semistrict, strict";
    match mode_named(name) {
        Some(mode) => Ok(mode),
        None => Err(unknown_value(alloc, name, "--undefined <MODE>", possible)),
    }
}

/// How `--autoescape` says that values are escaped.
pub(crate) fn escape_in(alloc: Global, matches: &ArgMatches<'_>) -> Result<EscapeWord, WordsFault>
    ensures reads { IfOk result (λ escape. escape_of (first_of (codes "autoescape") (rows_of (found_of matches.now))) ≡ Some escape) }
    ensures refuses { IfErr result (RefusesFor (NamesNoEscape (rows_of (found_of matches.now)))) }
{
    let Some(name) = text(matches, "autoescape") else {
        return Ok(EscapeWord::Name);
    };
    let possible = "none, html, json, name";
    match escape_named(name) {
        Some(escape) => Ok(escape),
        None => Err(unknown_value(alloc, name, "--autoescape <FORMAT>", possible)),
    }
}

/// Whether `--floats` says that a float of the context is a text.
pub(crate) fn floats_in(alloc: Global, matches: &ArgMatches<'_>) -> Result<bool, WordsFault>
    ensures reads { IfOk result (λ texts. floats_of (first_of (codes "floats") (rows_of (found_of matches.now))) ≡ Some texts) }
    ensures refuses { IfErr result (RefusesFor (NamesNoFloats (rows_of (found_of matches.now)))) }
{
    let Some(name) = text(matches, "floats") else {
        return Ok(false);
    };
    match floats_named(name) {
        Some(texts) => Ok(texts),
        None => Err(unknown_value(alloc, name, "--floats <FORM>", "text")),
    }
}
