//! Copies. A refused growth is OutOfMemory alone.
ghost use Rattle.std.specs.Prelude.{◌≡◌, ◌++◌, Ok, OnOk, IfOk, IfErr, option_copied, unwrap_or};
ghost use Rattle.template_values_errors.specs.Memory.{NoMemory};
ghost use Rattle.template_values_model.specs.Gives.{Gives};
ghost use Rattle.template_values_model.specs.Val.{undefined};

use std::alloc::Global;
use template_values_core::Value;
use template_values_errors::Error;

/// Puts copies of items behind the others.
pub(crate) fn push_copies(items: &mut Vec<Value>, more: &[Value]) -> Result<(), Error>
    ensures ok { OnOk result (items.new.items ≡ items.old.items ++ more.now) }
    ensures refused { IfErr result NoMemory }
{
    for item in more {
        items.push(item.copy()?)?;
    }
    Ok(())
}

/// Copies of the items.
///
/// # Errors
///
/// [`ErrorKind::OutOfMemory`](template_values_errors::ErrorKind::OutOfMemory)
pub fn copies(alloc: Global, items: &[Value]) -> Result<Vec<Value>, Error>
    ensures ok { IfOk result (λ v. v.items ≡ items.now) }
    ensures refused { IfErr result NoMemory }
{
    let mut copies = Vec::with_capacity(alloc, items.len())?;
    push_copies(&mut copies, items)?;
    Ok(copies)
}

/// A copy of the value, or undefined where there is none.
///
/// # Errors
///
/// [`ErrorKind::OutOfMemory`](template_values_errors::ErrorKind::OutOfMemory)
pub fn copy_or_undefined(value: Option<&Value>) -> Result<Value, Error>
    ensures { Gives result (Ok (unwrap_or (option_copied value.entry) undefined)) }
{
    match value {
        Some(value) => value.copy(),
        None => Ok(Value::undefined()),
    }
}
