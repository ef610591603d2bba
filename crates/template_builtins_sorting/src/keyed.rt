//! Items with the keys that they are compared by, and their stable order.
ghost use Rattle.std.specs.Prelude.{◌≡◌, IfErr, IfOk};
ghost use Rattle.template_values_errors.specs.Memory.{NoMemory};
ghost use Rattle.template_builtins_sorting.specs.Sorted.{falls, first_of, first_of_two, in_order, rises, stands_before};

use template_values_core::Value;
use template_values_errors::Error;

/// An item with the key that it is compared by.
#[derive(Drop)]
pub struct Keyed {
    /// What the item is compared by.
    pub key: Value,
    /// The item.
    pub item: Value,
}

/// Puts the items in the order of their keys, or in the reverse order; items of equal keys stay in the order that they have. Takes
/// n log n comparisons for n items, and n where they are in order.
///
/// # Errors
///
/// [`ErrorKind::OutOfMemory`](template_values_errors::ErrorKind::OutOfMemory)
pub fn sort_keyed(keyed: Vec<Keyed>, is_reversed: bool) -> Result<Vec<Keyed>, Error>
    ensures sorted { IfOk result (λ v. v.items ≡ in_order (stands_before is_reversed) keyed.items) }
    ensures refused { IfErr result NoMemory }
{
    if is_reversed {
        fall(keyed)
    } else {
        rise(keyed)
    }
}

fn rise(mut keyed: Vec<Keyed>) -> Result<Vec<Keyed>, Error>
    ensures sorted { IfOk result (λ v. v.items ≡ in_order rises keyed.items) }
    ensures refused { IfErr result NoMemory }
{
    keyed.sort_by(|left, right| left.key.cmp(&right.key))?;
    Ok(keyed)
}

fn fall(mut keyed: Vec<Keyed>) -> Result<Vec<Keyed>, Error>
    ensures sorted { IfOk result (λ v. v.items ≡ in_order falls keyed.items) }
    ensures refused { IfErr result NoMemory }
{
    keyed.sort_by(|left, right| right.key.cmp(&left.key))?;
    Ok(keyed)
}

/// The item of the first key in order, or in the reverse order; of equal ones the first. Takes as many comparisons as there are items.
pub fn first_keyed(mut keyed: Vec<Keyed>, is_reversed: bool) -> Option<Keyed>
    ensures { result ≡ first_of (stands_before is_reversed) keyed.items }
{
    let mut first = None;
    while let Some(next) = keyed.pop() {
        first = Some(first_of_two(next, first, is_reversed));
    }
    first
}

// Which of two comes first: one, or one that is behind it in the list.
fn first_of_two(next: Keyed, later: Option<Keyed>, is_reversed: bool) -> Keyed
    ensures { result ≡ first_of_two (stands_before is_reversed) next later }
{
    match later {
        Some(first) => {
            if stands_before(&first, &next, is_reversed) {
                first
            } else {
                next
            }
        }
        None => next,
    }
}

fn stands_before(left: &Keyed, right: &Keyed, is_reversed: bool) -> bool
    ensures { result ≡ stands_before is_reversed left.now right.now }
{
    if is_reversed {
        right.key < left.key
    } else {
        left.key < right.key
    }
}
