//! The levels of a fuel.
ghost use Rattle.std.specs.Prelude.{◌+◌, ◌<◌, ◌^◌};

// What was consumed of a fuel, and what remains of it.
#[derive(Clone, Copy)]
pub(crate) struct Levels {
    pub(crate) consumed: u64,
    pub(crate) remaining: u64,
    // They were one number once.
    ghost fits: { consumed + remaining < 2 ^ 64 },
}
