//! What stands under names, where each name has one text.
ghost use Rattle.std.specs.Prelude.{IfErr, OnErr, OnOk, Some};
ghost use Rattle.std.specs.BTreeMap.{IsUnchanged, Updates};
ghost use Rattle.std.specs.String.{string_cmp};
ghost use Rattle.template_values_errors.specs.Memory.{NoMemory};

use std::collections::BTreeMap;
use template_values_errors::{Error, ErrorKind};

/// What is given under a name goes in the place of what stands there. Takes a look-up among the names.
///
/// # Errors
///
/// [`ErrorKind::OutOfMemory`]; what stands is then as it was.
pub fn put_under<T: Drop>(
    standing: &mut BTreeMap<String, T>,
    name: String,
    given: T,
) -> Result<(), Error>
    ensures stands { OnOk result (Updates string_cmp standing.old standing.new name (Some given)) }
    ensures refused { IfErr result NoMemory }
    ensures unchanged { OnErr result (IsUnchanged standing.old standing.new) }
{
    match standing.insert(name, given) {
        Ok(_replaced) => Ok(()),
        Err(_refused) => Err(Error::new(ErrorKind::OutOfMemory)),
    }
}
