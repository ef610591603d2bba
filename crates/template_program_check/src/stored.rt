//! The names that templates store.
ghost use Rattle.std.specs.Prelude.{◌≡◌, ℕ, List, IfOk, OnOk, option_map};
ghost use Rattle.std.specs.BTreeSet.{contains_text};
ghost use Rattle.template_compiler_code.specs.Listing.{code_in};
ghost use Rattle.template_compiler_code.specs.View.{code_of};
ghost use Rattle.template_compiler_code.specs.Streams.{streams_in};
ghost use Rattle.template_compiler_names.specs.Among.{Adds};
ghost use Rattle.template_program_check.specs.Names.{is_stored_at, is_stored_by, is_stored_in, is_stored_in_blocks, is_stored_in_one};

use std::alloc::{AllocError, Global};
use std::collections::BTreeSet;
use template_compiled::CompiledTemplate;
use template_compiler_code::{CompiledBlock, Instruction, Instructions};
use template_compiler_names::add_name;

/// The names that templates store: by `set`, imports and macros, and as targets and arguments.
pub(crate) fn stored_names(
    alloc: Global,
    templates: &[CompiledTemplate<'_>],
) -> Result<BTreeSet<String>, AllocError>
    ensures { IfOk result (λ names. (name : List ℕ) → contains_text names name ≡ is_stored_in templates.now name) }
{
    let mut names = BTreeSet::new(alloc);
    for template in templates {
        add_stored(alloc, template, &mut names)?;
    }
    Ok(names)
}

// Adds the names that a template stores, in its blocks too.
fn add_stored(
    alloc: Global,
    template: &CompiledTemplate<'_>,
    names: &mut BTreeSet<String>,
) -> Result<(), AllocError>
    ensures { OnOk result (Adds (is_stored_by template.now) names.old names.new) }
{
    add_stored_in(alloc, template.instructions(), names)?;
    add_stored_in_blocks(alloc, template.blocks(), names)
}

fn add_stored_in_blocks(
    alloc: Global,
    blocks: &[CompiledBlock<'_>],
    names: &mut BTreeSet<String>,
) -> Result<(), AllocError>
    ensures { OnOk result (Adds (is_stored_in_blocks (streams_in blocks.now)) names.old names.new) }
{
    for block in blocks {
        add_stored_in(alloc, &block.instructions, names)?;
    }
    Ok(())
}

// Adds the names that instructions store.
fn add_stored_in(
    alloc: Global,
    code: &Instructions<'_>,
    names: &mut BTreeSet<String>,
) -> Result<(), AllocError>
    ensures { OnOk result (Adds (is_stored_in_one (code_in code.now)) names.old names.new) }
{
    let count = code.len() as u32;
    for index in 0..count {
        add_stored_at(alloc, code.get(index), names)?;
    }
    Ok(())
}

// Adds the name that an instruction stores, if there is one.
fn add_stored_at(
    alloc: Global,
    instruction: Option<&Instruction<'_>>,
    names: &mut BTreeSet<String>,
) -> Result<(), AllocError>
    ensures { OnOk result (Adds (is_stored_at (option_map (λ i. code_of i.now) instruction.entry)) names.old names.new) }
{
    match instruction {
        Some(Instruction::StoreLocal(name)) => add_name(alloc, names, name.as_str()),
        _ => Ok(()),
    }
}
