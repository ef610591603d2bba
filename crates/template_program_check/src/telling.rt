//! A check whose lines are written to an output.
ghost use Rattle.std.specs.Prelude.{◌≡◌, ◌∷◌, [], ℕ, List, IfErr, IfOk, string_bytes};
ghost use Rattle.template_values_errors.specs.Memory.{NoMemory};
ghost use Rattle.template_compiled.specs.Sources.{read_by};
ghost use Rattle.template_program_parts.specs.Context.{text_pairs};
ghost use Rattle.template_program_output.specs.Lines.{error_line};
ghost use Rattle.template_program_output.specs.Shown.{Puts};
ghost use Rattle.template_program_check.specs.Ends.{EndsCheck, Finds, TellsEnd, TellsIfAsked, TellsLines, check_status, given_syntax, read_under};

use crate::{Checked, check, unknown_names};
use std::alloc::Global;
use template_compiled::{CompiledTemplate, TemplateConfig};
use template_compiler_syntax::SyntaxConfig;
use template_program_output::{Output, write_error, write_flushed};
use template_program_parts::{DONE, MEMORY, Outcome, TEMPLATE, after_flush, status_of};
use template_values_errors::{Error, ErrorKind};

/// Checks templates under a syntax, or else the default one, and writes a line to `out` for each that is refused and then,
/// with builtins, one for each name of a filter, a test or a function that nothing has. Gives the status and the output
/// back: 0 where nothing is found, else 5; 6 for want of memory, and 1 where the output fails, which the line of a fault
/// tells. Holds all templates compiled, and the lines, in memory.
pub fn check_to<O: Output, F: Output>(
    alloc: Global,
    templates: &[(String, String)],
    syntax: Option<&SyntaxConfig>,
    builtins: bool,
    out: O,
    fault: &mut F,
) -> (u8, O)
    ensures { EndsCheck (given_syntax syntax.entry) builtins (text_pairs templates.now)
        (O.shown out) (O.shown result.1) (F.shown fault.old) (F.shown fault.new) result.0 }
{
    match find(alloc, templates, syntax, builtins) {
        Ok(lines) => tell_lines(lines.as_str(), out, fault),
        Err(_wanting) => {
            tell_memory(fault);
            (MEMORY, out)
        }
    }
}

// The lines of what is found.
fn find(
    alloc: Global,
    templates: &[(String, String)],
    syntax: Option<&SyntaxConfig>,
    builtins: bool,
) -> Result<String, Error>
    ensures found { IfOk result (λ lines. Finds (given_syntax syntax.entry) builtins (text_pairs templates.now) (string_bytes lines)) }
    ensures refused { IfErr result NoMemory }
{
    let config = config_of(syntax)?;
    let Checked {
        mut lines,
        accepted,
    } = check(alloc, templates, &config)?;
    let unknown = unknown_if_asked(alloc, builtins, accepted.as_slice())?;
    lines.push_str(unknown.as_str())?;
    Ok(lines)
}

// What templates are compiled under: the syntax, or else the default one, and escapes by name.
fn config_of(syntax: Option<&SyntaxConfig>) -> Result<TemplateConfig, Error>
    ensures read { IfOk result (λ config. (text : List ℕ) → read_by config text
        ≡ read_under (given_syntax syntax.entry) text) }
    ensures refused { IfErr result NoMemory }
{
    let mut config = TemplateConfig::new();
    if let Some(syntax) = syntax {
        config.syntax_config = syntax.clone()?;
    }
    Ok(config)
}

fn unknown_if_asked(
    alloc: Global,
    builtins: bool,
    accepted: &[CompiledTemplate<'_>],
) -> Result<String, Error>
    ensures told { IfOk result (λ lines. TellsIfAsked builtins accepted.now (string_bytes lines)) }
    ensures refused { IfErr result NoMemory }
{
    if builtins {
        unknown_names(alloc, accepted)
    } else {
        Ok(String::new(alloc))
    }
}

// Writes the lines, and tells where the output fails.
fn tell_lines<O: Output, F: Output>(lines: &str, mut out: O, fault: &mut F) -> (u8, O)
    ensures { TellsLines lines.now (O.shown out) (O.shown result.1) (F.shown fault.old) (F.shown fault.new) result.0 }
{
    let outcome = after_flush(Outcome::Done, write_flushed(&mut out, lines.as_bytes()));
    (tell_end(&outcome, lines, fault), out)
}

// The status of the lines where they are written; else that of the outcome, whose fault is told.
fn tell_end<F: Output>(outcome: &Outcome, lines: &str, fault: &mut F) -> u8
    ensures { TellsEnd outcome.now lines.now (F.shown fault.old) (F.shown fault.new) result }
{
    match outcome {
        Outcome::Done => status_for(lines),
        Outcome::Render(error) | Outcome::Context(error) | Outcome::Template(error) => {
            tell_error(fault, error);
            status_of(outcome)
        }
    }
}

fn tell_memory<F: Output>(fault: &mut F)
    ensures { Puts (F.shown fault.old) (F.shown fault.new) (error_line (ErrorKind.OutOfMemory ∷ [])) }
{
    tell_error(fault, &Error::new(ErrorKind::OutOfMemory));
}

fn tell_error<F: Output>(fault: &mut F, error: &Error)
    ensures { Puts (F.shown fault.old) (F.shown fault.new) (error_line error.now) }
{
    let _ = write_error(fault, error);
}

fn status_for(lines: &str) -> u8
    ensures { result ≡ check_status lines.now }
{
    if lines.is_empty() { DONE } else { TEMPLATE }
}
