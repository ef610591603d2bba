//! Which templates are refused.
ghost use Rattle.std.specs.Prelude.{◌≡◌, ◌++◌, ℕ, List, IfErr, IfOk, OnOk, string_bytes};
ghost use Rattle.template_values_errors.specs.Memory.{NoMemory};
ghost use Rattle.template_compiled.specs.Sources.{read_by};
ghost use Rattle.template_program_parts.specs.Context.{text_pairs};
ghost use Rattle.template_program_check.specs.Checked.{Checks, ChecksOne};
ghost use Rattle.template_program_check.specs.Lines.{IsRefusalLine};

use crate::lines::refusal_line;
use std::alloc::Global;
use template_compiled::{CompiledTemplate, TemplateConfig};
use template_values_errors::{Error, ErrorKind};

/// What a check of templates found.
#[derive(Drop)]
pub struct Checked<'source> {
    /// A line for each template that is refused, in order: where it is refused, a colon and the error's kinds.
    pub lines: String,
    /// The others, compiled, in order.
    pub accepted: Vec<CompiledTemplate<'source>>,
}

/// Compiles each of the templates, given as names and sources, under a configuration. Linear in the sources, besides what
/// the operators of constant trees cost.
///
/// # Errors
///
/// [`ErrorKind::OutOfMemory`].
pub fn check<'source>(
    alloc: Global,
    templates: &'source [(String, String)],
    config: &TemplateConfig,
) -> Result<Checked<'source>, Error>
    ensures checks { IfOk result (λ found. Checks (read_by config.now) (text_pairs templates.entry.now)
        (string_bytes found.lines) found.accepted.items) }
    ensures refused { IfErr result NoMemory }
{
    let mut found = Checked {
        lines: String::new(alloc),
        accepted: Vec::new(alloc),
    };
    for (name, source) in templates {
        check_one(alloc, name.as_str(), source.as_str(), config, &mut found)?;
    }
    Ok(found)
}

// Compiles a template.
fn check_one<'source>(
    alloc: Global,
    name: &'source str,
    source: &'source str,
    config: &TemplateConfig,
    found: &mut Checked<'source>,
) -> Result<(), Error>
    ensures checked { OnOk result (ChecksOne name.now (read_by config.now source.now)
        (string_bytes found.old.lines) found.old.accepted.items (string_bytes found.new.lines) found.new.accepted.items) }
    ensures refused { IfErr result NoMemory }
{
    match CompiledTemplate::new(alloc, name, source, config) {
        Ok(template) => {
            found.accepted.push(template)?;
            Ok(())
        }
        Err(error) => add_refusal(alloc, name, &error, &mut found.lines),
    }
}

// Adds the line of a refusal that is no want of memory.
fn add_refusal(alloc: Global, name: &str, error: &Error, lines: &mut String) -> Result<(), Error>
    ensures own { OnOk result (¬ NoMemory error.now) }
    ensures added { OnOk result ((line : List ℕ) × IsRefusalLine error.now line
        × (string_bytes lines.new ≡ string_bytes lines.old ++ line)) }
    ensures refused { IfErr result NoMemory }
{
    match error.kind() {
        ErrorKind::OutOfMemory => Err(Error::new(ErrorKind::OutOfMemory)),
        _ => {
            let line = refusal_line(alloc, name, error)?;
            lines.push_str(line.as_str())?;
            Ok(())
        }
    }
}
