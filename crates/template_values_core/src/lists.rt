//! Lists and tuples made from items.
ghost use Rattle.std.specs.Prelude.{◌≡◌, ◌<◌, ◌≤◌, [], ◌∷◌, Err, IfErr, IfOk};
ghost use Rattle.template_values_model.specs.Val.{list, tuple, vals_of};
ghost use Rattle.template_values_core.specs.Answers.{TooDeep};
ghost use Rattle.template_values_core.specs.Depth.{depth, vals_depth};
ghost use Rattle.template_values_core.specs.Held.{HoldsItems};

use crate::value::{Repr, Value, larger};
use std::alloc::Global;
use std::rc::Rc;
use template_values_errors::{Error, ErrorKind};
use template_values_model::{DEPTH_LIMIT, is_too_deep};

/// Items that are shared, and the depth of a container of them.
struct SharedItems {
    levels: u32,
    items: Rc<Vec<Value>>,
}

impl Value {
    /// A list of the items, which it takes as they are. Linear in their number: it asks each for its depth.
    ///
    /// # Errors
    ///
    /// - [`ErrorKind::InvalidOperation`], if the list would nest deeper than [`DEPTH_LIMIT`] levels.
    /// - [`ErrorKind::OutOfMemory`]
    pub fn from_list(alloc: Global, items: Vec<Value>) -> Result<Value, Error>
        ensures made { IfOk result (λ v. v ≡ list (vals_of items.items)) }
        ensures bound { IfOk result (λ v. depth v ≤ DEPTH_LIMIT) }
        ensures refused { IfErr result (TooDeep (list (vals_of items.items))) }
        ensures deep { DEPTH_LIMIT < depth (list (vals_of items.items)) → result ≡ Err (ErrorKind.InvalidOperation ∷ []) }
    {
        let shared = shared_items(alloc, items)?;
        let SharedItems { levels, items } = shared;
        Ok(Value {
            levels,
            repr: Repr::List(items),
        })
    }

    /// A tuple of the items, which it takes as they are. Linear in their number: it asks each for its depth.
    ///
    /// # Errors
    ///
    /// - [`ErrorKind::InvalidOperation`], if the tuple would nest deeper than [`DEPTH_LIMIT`] levels.
    /// - [`ErrorKind::OutOfMemory`]
    pub fn from_tuple(alloc: Global, items: Vec<Value>) -> Result<Value, Error>
        ensures made { IfOk result (λ v. v ≡ tuple (vals_of items.items)) }
        ensures bound { IfOk result (λ v. depth v ≤ DEPTH_LIMIT) }
        ensures refused { IfErr result (TooDeep (tuple (vals_of items.items))) }
        ensures deep { DEPTH_LIMIT < depth (tuple (vals_of items.items)) → result ≡ Err (ErrorKind.InvalidOperation ∷ []) }
    {
        let shared = shared_items(alloc, items)?;
        let SharedItems { levels, items } = shared;
        Ok(Value {
            levels,
            repr: Repr::Tuple(items),
        })
    }
}

fn shared_items(alloc: Global, items: Vec<Value>) -> Result<SharedItems, Error>
    ensures made { IfOk result (λ s. HoldsItems s items.items) }
    ensures refused { IfErr result (TooDeep (list (vals_of items.items))) }
    ensures deep { DEPTH_LIMIT < depth (list (vals_of items.items)) → result ≡ Err (ErrorKind.InvalidOperation ∷ []) }
{
    let levels = deepest_of(items.as_slice()) + 1;
    if is_too_deep(levels) {
        return Err(Error::new(ErrorKind::InvalidOperation));
    }
    Ok(SharedItems {
        levels,
        items: Rc::new(alloc, items)?,
    })
}

fn deepest_of(items: &[Value]) -> u32
    ensures is { result ≡ vals_depth (vals_of items.now) }
    ensures bound { result ≤ DEPTH_LIMIT }
{
    let mut deepest = 0;
    for item in items {
        deepest = larger(deepest, item.levels());
    }
    deepest
}
