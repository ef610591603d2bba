//! Copies of arguments.
ghost use Rattle.std.specs.Prelude.{◌≡◌, IfOk, IfErr};
ghost use Rattle.template_values_errors.specs.Memory.{NoMemory};

use std::alloc::Global;
use template_values_core::Value;
use template_values_errors::Error;

/// Copies of values, in their order, for one that asks the machine further with the arguments that it was given. Their contents are
/// shared. Linear in their number.
///
/// # Errors
///
/// [`ErrorKind::OutOfMemory`](template_values_errors::ErrorKind::OutOfMemory)
pub fn copy_all(alloc: Global, values: &[Value]) -> Result<Vec<Value>, Error>
    ensures copies { IfOk result (λ copies. copies.items ≡ values.now) }
    ensures refused { IfErr result NoMemory }
{
    let mut copies = Vec::with_capacity(alloc, values.len())?;
    for value in values {
        copies.push(value.copy()?)?;
    }
    Ok(copies)
}
