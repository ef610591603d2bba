//! What is put back behind a run within a run.

use std::marker::Model;
use template_machine_tables::{BlockStack, Stream};
use template_values_errors::AutoEscape;

/// What a state had before a run within it began, and has again behind that; and how many frames and captures it had open, and
/// how many templates it had loaded.
#[derive(Drop)]
pub struct Caller<'env> {
    pub(crate) here: Stream<'env>,
    pub(crate) block: Option<&'env str>,
    pub(crate) parent: Option<&'env str>,
    pub(crate) blocks: BlockStack<'env>,
    pub(crate) loaded: usize,
    pub(crate) frames: usize,
    pub(crate) writes: Option<u32>,
    pub(crate) base: usize,
    pub(crate) floor: usize,
    pub(crate) outer: usize,
    pub(crate) escape: AutoEscape,
    pub(crate) saved: Vec<AutoEscape>,
    pub(crate) first: AutoEscape,
    pub(crate) captures: usize,
}

impl<'env> Model for Caller<'env> {
    ghost use Rattle.std.specs.Prelude.{◌+◌, ◌^◌, ◌<◌, option_copied, reverse};
    ghost use Rattle.template_machine_meaning.specs.Plans as plans;
    ghost use Rattle.template_machine_tables.specs.Streams.{stream_of};
    ghost use Rattle.template_machine_state.specs.Codes.{caller_code};

    ghost Value = { plans.Caller };

    ghost coded = { caller_code };

    ghost view = { λ c. record {
      here = stream_of c.here;
      block = option_copied c.block;
      parent = option_copied c.parent;
      blocks = c.blocks;
      loaded = c.loaded;
      frames = c.frames;
      writes = c.writes;
      base = c.base;
      floor = c.floor;
      outer = c.outer;
      escape = c.escape;
      saved = reverse c.saved.items;
      first = c.first;
      captures = c.captures;
    } };

    ghost invariant = { λ c. c.frames + c.outer < 2 ^ 64 };
}
