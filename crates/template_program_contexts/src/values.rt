//! Values that are given as JSON.
ghost use Rattle.std.specs.Prelude.{◌≡◌, ◌<◌, None, Some, IfOk, IfErr, option_map};
ghost use Rattle.template_values_core.specs.Depth.{depth};
ghost use Rattle.template_values_json.specs.Contexts.{context_of};
ghost use Rattle.template_values_json.specs.Json.{data_in, value_of, IsRefusal};
ghost use Rattle.template_values_model.specs.declared.TheConstants.{DEPTH_LIMIT};
ghost use Rattle.template_program_contexts.specs.Values.{fault_of_data, fault_of_value};

use crate::texts::spelled_value;
use crate::whole::{read_json, value_from};
use std::alloc::Global;
use template_values_core::Value;
use template_values_errors::Error;
use template_values_json::Floats;

/// The value that a text is as JSON.
pub(crate) fn value_of_text(alloc: Global, text: &str, floats: Floats) -> Result<Value, Error>
    ensures faultless { IfOk result (λ _. fault_of_value floats text.now ≡ None) }
    ensures is { IfOk result (λ v. context_of floats text.now ≡ Some v) }
    ensures shallow { IfOk result (λ v. depth v < DEPTH_LIMIT) }
    ensures refused { IfErr result (IsRefusal (fault_of_value floats text.now)) }
{
    match floats {
        Floats::Refused => whole_value(alloc, text),
        Floats::AsSpelled => spelled_value(alloc, text),
    }
}

fn whole_value(alloc: Global, text: &str) -> Result<Value, Error>
    ensures faultless { IfOk result (λ _. fault_of_data (data_in text.now) ≡ None) }
    ensures is { IfOk result (λ v. option_map value_of (data_in text.now) ≡ Some v) }
    ensures shallow { IfOk result (λ v. depth v < DEPTH_LIMIT) }
    ensures refused { IfErr result (IsRefusal (fault_of_data (data_in text.now))) }
{
    let json = read_json(alloc, text)?;
    value_from(alloc, json)
}
