//! Modules.
ghost use Rattle.std.specs.Prelude.{◌≡◌, [], IfOk, IfErr, string_bytes, unwrap_or};
ghost use Rattle.template_values_errors.specs.Memory.{NoMemory};
ghost use Rattle.template_values_core.specs.Answers.{text_in};
ghost use Rattle.template_values_core.specs.Shape.{pairs_in};
ghost use Rattle.template_machine_meaning.specs.Replies.{kinded};
ghost use Rattle.template_machine_operations.specs.Answers.{Answers};
ghost use Rattle.template_machine_operations.specs.Modules.{module_with};

use std::alloc::Global;
use template_values_core::{Entry, Value};
use template_values_errors::Error;

/// The module of names with their values, and of the text that was written: what a capture of it ended with, so that a text that
/// was dropped is empty. The values are moved into it, the text is copied. Takes n log n comparisons for n names, and n where they
/// are in order.
///
/// # Errors
///
/// As [`build_list`](crate::build_list).
pub fn module_from(alloc: Global, names: Vec<Entry>, written: &Value) -> Result<Value, Error>
    ensures { Answers result (kinded (module_with (pairs_in names.items) written.now)) }
{
    let text = text_of(alloc, written)?;
    Value::from_module(alloc, names, text)
}

/// A copy of the text of a value; of other values an empty one.
fn text_of(alloc: Global, value: &Value) -> Result<String, Error>
    ensures made { IfOk result (λ text. string_bytes text ≡ unwrap_or (text_in value.now) []) }
    ensures refused { IfErr result NoMemory }
{
    match value.as_str() {
        Some(text) => Ok(String::from_str(alloc, text)?),
        None => Ok(String::new(alloc)),
    }
}
