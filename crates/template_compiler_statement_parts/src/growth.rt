//! Lists that grow, whatever they hold.
ghost use Rattle.std.specs.Prelude.{◌≡◌, ◌++◌, ◌∷◌, [], IfErr, OnOk};
ghost use Rattle.template_compiler_stream.specs.declared.refusal.Refusal.TheVariants as refusals;

use template_compiler_stream::Refusal;

/// Puts an item behind the others.
///
/// # Errors
///
/// Want of memory.
pub fn put<T: Drop>(items: &mut Vec<T>, item: T) -> Result<(), Refusal>
    ensures put { OnOk result (items.new.items ≡ items.old.items ++ item ∷ []) }
    ensures refused { IfErr result (λ refusal. refusal ≡ refusals.OutOfMemory) }
{
    items.push(item)?;
    Ok(())
}
