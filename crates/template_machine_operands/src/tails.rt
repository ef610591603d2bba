//! The end of a list.

ghost use Rattle.std.specs.Prelude.{◌≡◌, ◌-◌, ◌≤◌, length, take, drop, IfOk, OnOk, OnErr};

use std::alloc::AllocError;

/// Takes so many items from the end of a list that has them, in their order. Linear in their number.
///
/// # Errors
///
/// Want of memory; the list is then as it was.
pub fn take_last<T>(items: &mut Vec<T>, count: usize) -> Result<Vec<T>, AllocError>
    requires { count ≤ length items.old.items }
    ensures left { OnOk result (items.new.items ≡ take (length items.old.items - count) items.old.items) }
    ensures taken { IfOk result (λ last. last.items ≡ drop (length items.old.items - count) items.old.items) }
    ensures unchanged { OnErr result (items.new ≡ items.old) }
{
    items.split_off(items.len() - count)
}
