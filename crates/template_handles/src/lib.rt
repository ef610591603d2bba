//! A box as its pointer, for who keeps it where no box can stand.
#![tactic(auto)]

ghost use Rattle.std.specs.Prelude.{◌≡◌};
ghost use Rattle.std.specs.Box.Ownership.{box_owns};

use std::alloc::Allocator;
use std::marker::Model;

/// A box, taken apart into its pointer and its allocator.
pub struct RawBox<T, A: Allocator> {
    /// Where the value stands.
    pub at: *mut T,
    /// What its block is given up to.
    pub alloc: A,
    /// The value.
    pub ghost value: { T },
}

impl<T, A: Allocator> Model for RawBox<T, A> {
    ghost also_owns = { λ b. box_owns (A.dealloc_token b.alloc) T.row b.at b.value };
}

impl<T: Drop, A: Allocator> RawBox<T, A> {
    /// The parts of a box.
    pub fn of(whole: Box<T, A>) -> RawBox<T, A>
        ensures { result.value ≡ whole.value }
    {
        let (at, alloc) = Box::into_raw_with_allocator(whole);
        RawBox { at, alloc }
    }

    /// The box of these parts.
    pub fn into_box(self) -> Box<T, A>
        ensures { result.value ≡ self.value }
    {
        let RawBox { at, alloc } = self;
        unsafe { Box::from_raw(alloc, at) }
    }
}
