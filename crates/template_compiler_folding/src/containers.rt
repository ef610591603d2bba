//! What containers of literals are.
ghost use Rattle.std.specs.Prelude.{◌≡◌, IfOk, IfErr};
ghost use Rattle.template_values_errors.specs.Memory.{NoMemory};
ghost use Rattle.template_values_core.specs.Shape.{pairs_in};
ghost use Rattle.template_compiler_tree.specs.Tree.{list_literal, tuple_literal, map_literal};
ghost use Rattle.template_compiler_tree.specs.View.{expressions_in};
ghost use Rattle.template_compiler_walk.specs.Constants.{constant_of};
ghost use Rattle.template_compiler_walk.specs.Containers.{pairs_with};

use crate::literal_values::literals;
use crate::operators::settled;
use std::alloc::Global;
use template_compiler_tree::Expr;
use template_values_core::{Entry, Value};
use template_values_errors::Error;
use template_values_operations::{make_list, make_map, make_tuple};

// The keys with the values at their places.
fn entries_with(alloc: Global, keys: &[Value], values: &[Value]) -> Result<Vec<Entry>, Error>
    ensures entries { IfOk result (λ entries. pairs_in entries.items ≡ pairs_with keys.now values.now) }
    ensures refused { IfErr result NoMemory }
{
    let mut entries = Vec::new(alloc);
    for (i, key) in keys.iter().enumerate() {
        if values.len() <= i {
            return Ok(entries);
        }
        let key = key.copy()?;
        let value = values[i].copy()?;
        entries.push(Entry { key, value })?;
    }
    Ok(entries)
}

/// The value of a list whose items are literals; of another one there is none. Linear in the items.
///
/// # Errors
///
/// [`ErrorKind::OutOfMemory`](template_values_errors::ErrorKind::OutOfMemory).
pub fn fold_list<'source>(alloc: Global, items: &[Expr<'source>]) -> Result<Option<Value>, Error>
    ensures folded { IfOk result (λ o. o ≡ constant_of (list_literal (expressions_in items.now))) }
    ensures refused { IfErr result NoMemory }
{
    match literals(alloc, items)? {
        Some(values) => settled(make_list(alloc, values)),
        None => Ok(None),
    }
}

/// The value of a tuple whose items are literals; of another one there is none. Linear in the items.
///
/// # Errors
///
/// As [`fold_list`].
pub fn fold_tuple<'source>(alloc: Global, items: &[Expr<'source>]) -> Result<Option<Value>, Error>
    ensures folded { IfOk result (λ o. o ≡ constant_of (tuple_literal (expressions_in items.now))) }
    ensures refused { IfErr result NoMemory }
{
    match literals(alloc, items)? {
        Some(values) => settled(make_tuple(alloc, values)),
        None => Ok(None),
    }
}

/// The value of a map whose keys and values are literals; of another one there is none. Takes n log n
/// comparisons for n keys.
///
/// # Errors
///
/// As [`fold_list`].
pub fn fold_map<'source>(
    alloc: Global,
    keys: &[Expr<'source>],
    values: &[Expr<'source>],
) -> Result<Option<Value>, Error>
    ensures folded { IfOk result (λ o. o ≡ constant_of (map_literal (expressions_in keys.now) (expressions_in values.now))) }
    ensures refused { IfErr result NoMemory }
{
    let keys = match literals(alloc, keys)? {
        Some(keys) => keys,
        None => return Ok(None),
    };
    let values = match literals(alloc, values)? {
        Some(values) => values,
        None => return Ok(None),
    };
    settled(make_map(alloc, entries_with(alloc, &keys, &values)?))
}
