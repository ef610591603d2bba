//! The streams of a compiled template, as streams that were accepted: what runs a stream that it is handed takes no other.

ghost use Rattle.std.specs.Prelude.{◌≡◌, IfOk, IfErr};
ghost use Rattle.std.specs.List.{All};
ghost use Rattle.template_values_errors.specs.Memory.{NoMemory};
ghost use Rattle.template_compiler_code.specs.Listing.{code_in};
ghost use Rattle.template_compiler_code.specs.Streams.{stream_in as block_stream, streams_in};
ghost use Rattle.template_compiler_code_shapes.specs.Checked.{kind_in, stream_in};
ghost use Rattle.template_compiler_code_shapes.specs.Streams.{IsGood};
ghost use Rattle.template_compiler_code_shapes.specs.declared.StreamKind.{StreamKind};
ghost use Rattle.template_compiled.specs.Compiled.{code_for};
ghost use Rattle.template_compiled.specs.Sources.{tree_in};
ghost use Rattle.template_compiled.specs.Streams.{streams_of};
ghost use Rattle.template_compiled.specs.Checked.{IsGoodBlock, IsOfTemplate, checked_stream, checked_streams};

use crate::{CompiledTemplate, trees_run};
use std::alloc::Global;
use std::borrow::CowStr;
use template_compiler_code::{CompiledBlock, Instructions};
use template_compiler_code_shapes::{Checked, verify};
use template_compiler_generator::templates_are_accepted;
use template_values_errors::Error;

/// A compiled template whose streams were accepted.
#[derive(Drop)]
pub struct CheckedTemplate<'source> {
    /// Its own stream.
    pub instructions: Checked<'source>,
    /// Those of its blocks, in order, those inside others too.
    pub blocks: Vec<CheckedBlock<'source>>,
}

/// A block of a template: its name, whether a template that extends this one has to give a body of its own, and the code of its
/// body here, which was accepted.
#[derive(Drop)]
pub struct CheckedBlock<'source> {
    pub name: CowStr<'source>,
    pub required: bool,
    pub instructions: Checked<'source>,
}

/// Has the streams of a compiled template checked. They are accepted, as a template's: never is `BadStream` told. Takes for each
/// stream what [`verify`] takes.
///
/// # Errors
///
/// [`ErrorKind::OutOfMemory`](template_values_errors::ErrorKind::OutOfMemory)
pub fn check_template<'source>(
    alloc: Global,
    template: CompiledTemplate<'source>,
) -> Result<CheckedTemplate<'source>, Error>
    ensures code { IfOk result (λ t. code_in (stream_in t.instructions) ≡ code_for template.entry) }
    ensures kind { IfOk result (λ t. kind_in t.instructions ≡ StreamKind.Template) }
    ensures blocks { IfOk result (λ t. checked_streams t.blocks.items ≡ streams_of (tree_in template.entry.source)) }
    ensures kinds { IfOk result (λ t. All IsOfTemplate t.blocks.items) }
    ensures refused { IfErr result NoMemory }
{
    trees_run();
    templates_are_accepted();
    let (instructions, blocks) = template.into_streams();
    let instructions = accepted(alloc, instructions)?;
    let blocks = check_blocks(alloc, blocks)?;
    Ok(CheckedTemplate {
        instructions,
        blocks,
    })
}

// What is good as a template's stream is accepted, unless no memory is left.
fn accepted<'source>(
    alloc: Global,
    instructions: Instructions<'source>,
) -> Result<Checked<'source>, Error>
    requires { IsGood StreamKind.Template (code_in instructions) }
    ensures stream { IfOk result (λ checked. stream_in checked ≡ instructions.entry) }
    ensures kind { IfOk result (λ checked. kind_in checked ≡ StreamKind.Template) }
    ensures refused { IfErr result NoMemory }
{
    match verify(alloc, instructions) {
        Ok(checked) => Ok(checked),
        Err((error, _instructions)) => Err(error),
    }
}

// The blocks, whose streams are accepted.
fn check_blocks<'source>(
    alloc: Global,
    blocks: Vec<CompiledBlock<'source>>,
) -> Result<Vec<CheckedBlock<'source>>, Error>
    requires { All IsGoodBlock blocks.items }
    ensures same { IfOk result (λ bs. checked_streams bs.items ≡ streams_in blocks.entry.items) }
    ensures kinds { IfOk result (λ bs. All IsOfTemplate bs.items) }
    ensures refused { IfErr result NoMemory }
{
    let mut checked = Vec::with_capacity(alloc, blocks.len())?;
    for block in blocks {
        checked.push(check_block(alloc, block)?)?;
    }
    Ok(checked)
}

// A block, whose stream is accepted.
fn check_block<'source>(
    alloc: Global,
    block: CompiledBlock<'source>,
) -> Result<CheckedBlock<'source>, Error>
    requires { IsGoodBlock block }
    ensures same { IfOk result (λ b. checked_stream b ≡ block_stream block.entry) }
    ensures kind { IfOk result IsOfTemplate }
    ensures refused { IfErr result NoMemory }
{
    let CompiledBlock {
        name,
        required,
        instructions,
    } = block;
    Ok(CheckedBlock {
        name,
        required,
        instructions: accepted(alloc, instructions)?,
    })
}
