//! The definitions of the values of the template language, as contracts see them, and their limits.
#![tactic(auto)]

ghost use Rattle.std.specs.Prelude.{◌≡◌, ◌<◌, ◌↔◌, IsTrue};

use std::mem::swap;

/// How many levels a value may nest.
pub const DEPTH_LIMIT: u32 = 500;

/// The most bytes that a repeated text may have.
pub const REPEATED_TEXT_LIMIT: usize = 1 << 24;

/// The most items that a repeated list may have.
pub const REPEATED_LIST_LIMIT: usize = 100000;

/// Whether a value may not nest so many levels.
pub fn is_too_deep(levels: u32) -> bool
    ensures { IsTrue result ↔ (DEPTH_LIMIT < levels) }
{
    DEPTH_LIMIT < levels
}

/// The value that was given last under a key takes the place of the one that stands there.
pub fn replace_value<V>(standing: &mut V, given: &mut V)
    ensures { standing.new ≡ given.old }
{
    swap(standing, given);
}
