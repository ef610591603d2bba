//! Which names nothing has.
ghost use Rattle.std.specs.Prelude.{[], IfErr, IfOk, OnOk, option_map, slice_get, string_bytes};
ghost use Rattle.std.specs.BTreeSet.{contains_text};
ghost use Rattle.template_values_errors.specs.Memory.{NoMemory};
ghost use Rattle.template_compiler_code.specs.Listing.{code_in};
ghost use Rattle.template_compiler_code.specs.Streams.{streams_in};
ghost use Rattle.template_program_check.specs.Names.{named_in};
ghost use Rattle.template_program_check.specs.Unknown.{TellsAll, TellsBlocks, TellsCode, TellsIf, TellsIfThere, TellsNamed, TellsTemplate, TellsUnknown};

use crate::lines::{name_line, place_of};
use crate::named::{Named, naming};
use crate::stored::stored_names;
use std::alloc::{AllocError, Global};
use std::collections::BTreeSet;
use template_compiled::CompiledTemplate;
use template_compiler_code::{CompiledBlock, Instructions};
use template_values_errors::Error;

/// A line for each place in the templates where a filter, a test or a function is named that nothing has: no builtin, no
/// function of an environment's own, and, if it is a function, no template that stores the name. Of each template what
/// stands outside of its blocks comes first. Takes a look-up for each of these places.
///
/// # Errors
///
/// [`ErrorKind::OutOfMemory`](template_values_errors::ErrorKind::OutOfMemory).
pub fn unknown_names(alloc: Global, templates: &[CompiledTemplate<'_>]) -> Result<String, Error>
    ensures told { IfOk result (λ lines. TellsUnknown templates.now (string_bytes lines)) }
    ensures refused { IfErr result NoMemory }
{
    let stored = stored_names(alloc, templates)?;
    Ok(lines_of(alloc, templates, &stored)?)
}

fn lines_of(
    alloc: Global,
    templates: &[CompiledTemplate<'_>],
    stored: &BTreeSet<String>,
) -> Result<String, AllocError>
    ensures { IfOk result (λ lines. TellsAll (contains_text stored.now) templates.now [] (string_bytes lines)) }
{
    let mut lines = String::new(alloc);
    for template in templates {
        tell_template(alloc, template, stored, &mut lines)?;
    }
    Ok(lines)
}

fn tell_template(
    alloc: Global,
    template: &CompiledTemplate<'_>,
    stored: &BTreeSet<String>,
    lines: &mut String,
) -> Result<(), AllocError>
    ensures { OnOk result (TellsTemplate (contains_text stored.now) template.now (string_bytes lines.old) (string_bytes lines.new)) }
{
    tell_code(alloc, template.instructions(), stored, lines)?;
    tell_blocks(alloc, template.blocks(), stored, lines)
}

fn tell_blocks(
    alloc: Global,
    blocks: &[CompiledBlock<'_>],
    stored: &BTreeSet<String>,
    lines: &mut String,
) -> Result<(), AllocError>
    ensures { OnOk result (TellsBlocks (contains_text stored.now) (streams_in blocks.now)
        (string_bytes lines.old) (string_bytes lines.new)) }
{
    for block in blocks {
        tell_code(alloc, &block.instructions, stored, lines)?;
    }
    Ok(())
}

fn tell_code(
    alloc: Global,
    code: &Instructions<'_>,
    stored: &BTreeSet<String>,
    lines: &mut String,
) -> Result<(), AllocError>
    ensures { OnOk result (TellsCode (contains_text stored.now) (code_in code.now) (string_bytes lines.old) (string_bytes lines.new)) }
{
    let count = code.len() as u32;
    for index in 0..count {
        tell_at(alloc, code, index, stored, lines)?;
    }
    Ok(())
}

fn tell_at(
    alloc: Global,
    code: &Instructions<'_>,
    index: u32,
    stored: &BTreeSet<String>,
    lines: &mut String,
) -> Result<(), AllocError>
    ensures { OnOk result (TellsIfThere (contains_text stored.now) (slice_get (code_in code.now) index)
        (string_bytes lines.old) (string_bytes lines.new)) }
{
    match code.get(index) {
        Some(instruction) => tell_if_named(alloc, code, index, naming(instruction), stored, lines),
        None => Ok(()),
    }
}

fn tell_if_named(
    alloc: Global,
    code: &Instructions<'_>,
    index: u32,
    named: Option<Named<'_>>,
    stored: &BTreeSet<String>,
    lines: &mut String,
) -> Result<(), AllocError>
    ensures { OnOk result (TellsIf (contains_text stored.now) (option_map named_in named.entry)
        (string_bytes lines.old) (string_bytes lines.new)) }
{
    match named {
        Some(named) => tell_named(alloc, code, index, named, stored, lines),
        None => Ok(()),
    }
}

// Adds the line of what the instruction at a place names, if nothing has it.
fn tell_named(
    alloc: Global,
    code: &Instructions<'_>,
    index: u32,
    named: Named<'_>,
    stored: &BTreeSet<String>,
    lines: &mut String,
) -> Result<(), AllocError>
    ensures { OnOk result (TellsNamed (contains_text stored.now) (named_in named.entry) (string_bytes lines.old) (string_bytes lines.new)) }
{
    if named.is_had(stored) {
        return Ok(());
    }
    let unknown = code.placed(Error::new(named.kind()), index);
    let place = place_of(alloc, code.name(), &unknown)?;
    let line = name_line(alloc, place.as_str(), named.kind(), named.name())?;
    lines.push_str(line.as_str())
}
