//! The values of JSON in which no JSON stands.

ghost use Rattle.std.specs.Prelude.{◌≡◌, false, IfErr, IfOk};
ghost use Rattle.serde_json.specs.View.{view};
ghost use Rattle.serde_json.specs.Written.{has_float};
ghost use Rattle.template_values_json.specs.Leaves.{IsLeaf, IsFloatRefusal, leaf_value};

use serde_json::Value as Json;
use template_values_core::Value;
use template_values_errors::{Error, ErrorKind};

/// The value that null, a truth value, a number or a text stands for, moving the text.
///
/// # Errors
///
/// - [`ErrorKind::NoFloats`], if it is a float.
/// - [`ErrorKind::OutOfMemory`].
pub fn value_of_leaf(json: Json) -> Result<Value, Error>
    requires leaf { IsLeaf (view json) }
    ensures whole { IfOk result (λ _. has_float (view json) ≡ false) }
    ensures is { IfOk result (λ v. v ≡ leaf_value (view json)) }
    ensures refused { IfErr result (IsFloatRefusal (has_float (view json))) }
{
    match json {
        Json::Null => Ok(Value::none()),
        Json::Bool(value) => Ok(Value::from_bool(value)),
        Json::Number(number) => match number.as_i128() {
            Some(number) => Ok(Value::from_int(number)),
            None => Err(Error::new(ErrorKind::NoFloats)),
        },
        Json::String(text) => Value::from_text(text),
        Json::Array(_) => unreachable!(),
        Json::Object(_) => unreachable!(),
    }
}
