//! The code of a template's blocks.

ghost use Rattle.std.specs.Prelude.{◌≡◌, IfOk, IfErr, option_map};
ghost use Rattle.template_values_errors.specs.Memory.{NoMemory};
ghost use Rattle.template_compiler_code.specs.Streams.{stream_among, stream_in, streams_in};

use crate::Instructions;
use std::alloc::Global;
use std::borrow::CowStr;
use template_values_errors::Error;

/// A block of a template: its name, whether a template that extends this one has to give a body of its own, and the code of its
/// body here.
#[derive(Drop)]
pub struct CompiledBlock<'source> {
    pub name: CowStr<'source>,
    pub required: bool,
    pub instructions: Instructions<'source>,
}

impl<'source> CompiledBlock<'source> {
    /// The same block with texts of its own, which are copied where they were borrowed. Takes time and memory linear in the
    /// instructions and in those texts.
    ///
    /// # Errors
    ///
    /// [`ErrorKind::OutOfMemory`](template_values_errors::ErrorKind::OutOfMemory)
    pub fn into_owned<'owned>(self, alloc: Global) -> Result<CompiledBlock<'owned>, Error>
        ensures same { IfOk result (λ b. stream_in b ≡ stream_in self.entry) }
        ensures refused { IfErr result NoMemory }
    {
        let CompiledBlock {
            name,
            required,
            instructions,
        } = self;
        Ok(CompiledBlock {
            name: CowStr::Owned(name.into_owned(alloc)?),
            required,
            instructions: instructions.into_owned(alloc)?,
        })
    }
}

/// The same blocks with texts of their own, each as by [`CompiledBlock::into_owned`].
///
/// # Errors
///
/// [`ErrorKind::OutOfMemory`](template_values_errors::ErrorKind::OutOfMemory)
pub fn own_blocks<'owned>(
    alloc: Global,
    blocks: Vec<CompiledBlock<'_>>,
) -> Result<Vec<CompiledBlock<'owned>>, Error>
    ensures same { IfOk result (λ bs. streams_in bs.items ≡ streams_in blocks.entry.items) }
    ensures refused { IfErr result NoMemory }
{
    let mut copies = Vec::with_capacity(alloc, blocks.len())?;
    for block in blocks {
        copies.push(block.into_owned(alloc)?)?;
    }
    Ok(copies)
}

/// The first of the blocks that has a name. Linear in the number of blocks.
pub fn block_among<'a, 'source>(
    blocks: &'a [CompiledBlock<'source>],
    name: &str,
) -> Option<&'a CompiledBlock<'source>>
    ensures { option_map (λ b. stream_in b.now) result ≡ stream_among name.now (streams_in blocks.now) }
{
    for block in blocks {
        if block.name.as_str() == name {
            return Some(block);
        }
    }
    None
}
