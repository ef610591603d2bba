//! Lists that grow at their end, whatever they hold.
ghost use Rattle.std.specs.Prelude.{◌≡◌, ◌∷◌, ◌++◌, [], IsTrue, not, IfErr, OnOk, OnErr};
ghost use Rattle.template_values_errors.specs.Memory.{NoMemory};

use template_values_errors::{Error, ErrorKind};

// An item goes behind the others.
#[inline(always)]
pub(crate) fn push_to<T: Drop>(items: &mut Vec<T>, item: T) -> Result<(), Error>
    ensures pushed { OnOk result (items.new.items ≡ items.old.items ++ item ∷ []) }
    ensures refused { IfErr result NoMemory }
    ensures unchanged { OnErr result (items.new.items ≡ items.old.items) }
{
    if items.len() < items.capacity() {
        items.push_reserved(item);
        return Ok(());
    }
    if push_growing(items, item) {
        Ok(())
    } else {
        Err(Error::new(ErrorKind::OutOfMemory))
    }
}

// The same where there may be no room for one more; tells whether memory was given.
#[cold]
#[inline(never)]
pub(crate) fn push_growing<T: Drop>(items: &mut Vec<T>, item: T) -> bool
    ensures pushed { IsTrue result → items.new.items ≡ items.old.items ++ item ∷ [] }
    ensures unchanged { IsTrue (not result) → items.new.items ≡ items.old.items }
{
    items.push(item).is_ok()
}
