//! Items whose keys are equal.
ghost use Rattle.std.specs.Prelude.{◌≡◌, [], ◌∷◌, IfErr, IfOk, map};
ghost use Rattle.template_values_errors.specs.Memory.{NoMemory};
ghost use Rattle.template_builtins_sorting.specs.Alike.{distinct, runs, runs_from};
ghost use Rattle.template_builtins_sorting.specs.Runs.{held_by};

use crate::keyed::Keyed;
use std::alloc::Global;
use std::collections::BTreeSet;
use template_values_core::Value;
use template_values_errors::Error;

/// Items of equal keys that stand together.
#[derive(Drop)]
pub struct Run {
    /// The first of the items.
    pub first: Value,
    /// The items, the first among them.
    pub items: Vec<Value>,
}

/// The items whose keys are not equal to one before them. They are shared. Takes n log n comparisons for n items.
///
/// # Errors
///
/// [`ErrorKind::OutOfMemory`](template_values_errors::ErrorKind::OutOfMemory)
pub fn distinct_items(alloc: Global, keyed: &[Keyed]) -> Result<Vec<Value>, Error>
    ensures kept { IfOk result (λ v. v.items ≡ map (λ x. x.item) (distinct keyed.now)) }
    ensures refused { IfErr result NoMemory }
{
    let mut seen = BTreeSet::new(alloc);
    let mut items = Vec::new(alloc);
    for next in keyed {
        if seen.insert(next.key.copy()?)? {
            items.push(next.item.copy()?)?;
        }
    }
    Ok(items)
}

/// The items of neighbours whose keys are equal, together. They are shared. Linear.
///
/// # Errors
///
/// [`ErrorKind::OutOfMemory`](template_values_errors::ErrorKind::OutOfMemory)
pub fn runs(alloc: Global, keyed: &[Keyed]) -> Result<Vec<Run>, Error>
    ensures runs { IfOk result (λ v. map held_by v.items ≡ runs keyed.now) }
    ensures refused { IfErr result NoMemory }
{
    match keyed.split_first() {
        Some((first, others)) => runs_from(alloc, first, others),
        None => Ok(Vec::new(alloc)),
    }
}

// The items of those that are alike the first, then those of each run behind them.
fn runs_from(alloc: Global, first: &Keyed, others: &[Keyed]) -> Result<Vec<Run>, Error>
    ensures runs { IfOk result (λ v. map held_by v.items ≡ runs_from first.now (first.now.item ∷ []) others.now) }
    ensures refused { IfErr result NoMemory }
{
    let mut runs = Vec::new(alloc);
    let mut first = first;
    let mut items = one(alloc, &first.item)?;
    for next in others {
        if next.key == first.key {
            items.push(next.item.copy()?)?;
        } else {
            runs.push(closed(first, items)?)?;
            items = one(alloc, &next.item)?;
            first = next;
        }
    }
    runs.push(closed(first, items)?)?;
    Ok(runs)
}

fn closed(first: &Keyed, items: Vec<Value>) -> Result<Run, Error>
    ensures held { IfOk result (λ r. held_by r ≡ (first.now.item, items.items)) }
    ensures refused { IfErr result NoMemory }
{
    Ok(Run {
        first: first.item.copy()?,
        items,
    })
}

/// A list of one item.
///
/// # Errors
///
/// [`ErrorKind::OutOfMemory`](template_values_errors::ErrorKind::OutOfMemory)
pub fn one(alloc: Global, item: &Value) -> Result<Vec<Value>, Error>
    ensures one { IfOk result (λ v. v.items ≡ item.now ∷ []) }
    ensures refused { IfErr result NoMemory }
{
    let mut items = Vec::new(alloc);
    items.push(item.copy()?)?;
    Ok(items)
}
