//! The streams of a template's blocks: the body of each has code of its own.
ghost use Rattle.std.specs.Prelude.{◌≡◌, false, IfOk, IfErr};
ghost use Rattle.template_values_errors.specs.Memory.{NoMemory};
ghost use Rattle.template_compiler_tree_parts.specs.Listed.{statements_in};
ghost use Rattle.template_compiler_walk.specs.Runnable.{AreRunnableStatements};
ghost use Rattle.template_compiler_code.specs.Streams.{stream_in, streams_in};
ghost use Rattle.template_compiler_names_needed.specs.Seen.{tree_of};
ghost use Rattle.template_compiled.specs.Streams.{stream_of, streams_of};

use crate::room::put_body;
use std::alloc::Global;
use std::borrow::CowStr;
use template_compiler_code::{CompiledBlock, Instructions};
use template_compiler_generator::number_names;
use template_compiler_names_needed::blocks;
use template_compiler_tree_statements::{Block, Stmt};
use template_values_errors::Error;

// The streams of the blocks in a template's body, in order.
pub(crate) fn compile_blocks<'source>(
    alloc: Global,
    name: &'source str,
    source: &'source str,
    body: &[Stmt<'source>],
) -> Result<Vec<CompiledBlock<'source>>, Error>
    requires { AreRunnableStatements false (statements_in body.now) }
    ensures streams { IfOk result (λ bs. streams_in bs.items ≡ streams_of (statements_in body.now)) }
    ensures refused { IfErr result NoMemory }
{
    let nodes = blocks(alloc, body)?;
    let mut compiled = Vec::new(alloc);
    for i in 0..nodes.len() {
        compiled.push(compile_block(alloc, name, source, nodes[i])?)?;
    }
    Ok(compiled)
}

// The stream of a block.
fn compile_block<'source>(
    alloc: Global,
    name: &'source str,
    source: &'source str,
    block: &Block<'source>,
) -> Result<CompiledBlock<'source>, Error>
    requires { AreRunnableStatements false (statements_in block.now.body.items) }
    ensures stream { IfOk result (λ b. stream_in b ≡ stream_of (tree_of block.now)) }
    ensures refused { IfErr result NoMemory }
{
    let mut instructions = Instructions::new(alloc, name, source);
    put_body(alloc, &mut instructions, &block.body)?;
    number_names(alloc, &mut instructions)?;
    instructions.shrink_to_fit();
    instructions.number_parts();
    Ok(CompiledBlock {
        name: CowStr::Borrowed(block.name),
        required: block.required,
        instructions,
    })
}
