//! Numbers of a document.
ghost use Rattle.std.specs.Prelude.{◌≡◌, IfErr, IfOk};
ghost use Rattle.template_values_json.specs.Spelled.{number_value};
ghost use Rattle.template_values_errors.specs.Memory.{NoMemory};

use crate::whole_in;
use std::alloc::Global;
use template_values_core::Value;
use template_values_errors::Error;

/// A number of JSON: a whole number of 64 bits, or the text that spells another one.
#[tactic(auto, unfolding(crate::specs::Spelled::number_value))]
pub(crate) fn number_value(alloc: Global, text: &str) -> Result<Value, Error>
    ensures made { IfOk result (λ v. v ≡ number_value text.now) }
    ensures refused { IfErr result NoMemory }
{
    match whole_in(text.as_bytes()) {
        Some(whole) => Ok(Value::from_int(whole)),
        None => Value::from_str(alloc, text),
    }
}
