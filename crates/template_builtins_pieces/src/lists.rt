//! Texts in lists and tuples.
ghost use Rattle.std.specs.Prelude.{◌≡◌, ◌<◌, IfErr, IfOk, map};
ghost use Rattle.template_builtins_arguments.specs.Texts as texts;
ghost use Rattle.template_builtins_pieces.specs.Partitions as partitions;
ghost use Rattle.template_builtins_pieces.specs.Reading.{all_shown};
ghost use Rattle.template_builtins_texts.specs.Lists as lists;
ghost use Rattle.template_values_core.specs.Depth.{vals_depth};
ghost use Rattle.template_values_errors.specs.Memory.{NoMemory};
ghost use Rattle.template_values_model.specs.Val.{list, tuple, vals_of};

use std::alloc::Global;
use template_builtins_arguments::text_made;
use template_values_core::Value;
use template_values_errors::Error;
use template_values_model::DEPTH_LIMIT;

// A list of texts, safe or plain.
pub(crate) fn text_list(alloc: Global, safe: bool, parts: &[&str]) -> Result<Value, Error>
    ensures made { IfOk result (λ v. v ≡ lists.text_list safe (all_shown parts.now)) }
    ensures refused { IfErr result NoMemory }
{
    let items = text_values(alloc, safe, parts)?;
    shallow_list(alloc, items)
}

// A tuple of three plain texts.
pub(crate) fn three_texts(
    alloc: Global,
    first: &str,
    second: &str,
    third: &str,
) -> Result<Value, Error>
    ensures made { IfOk result (λ v. v ≡ partitions.three_texts first.now second.now third.now) }
    ensures refused { IfErr result NoMemory }
{
    let items = text_values(alloc, false, &[first, second, third])?;
    shallow_tuple(alloc, items)
}

fn text_values(alloc: Global, safe: bool, parts: &[&str]) -> Result<Vec<Value>, Error>
    ensures made { IfOk result (λ items. items.items ≡ map (texts.text_made safe) (all_shown parts.now)) }
    ensures refused { IfErr result NoMemory }
{
    let mut values = Vec::new(alloc);
    for part in parts {
        values.push(text_made(safe, String::from_str(alloc, part)?)?)?;
    }
    Ok(values)
}

fn shallow_list(alloc: Global, items: Vec<Value>) -> Result<Value, Error>
    requires { vals_depth (vals_of items.items) < DEPTH_LIMIT }
    ensures made { IfOk result (λ v. v ≡ list (vals_of items.items)) }
    ensures refused { IfErr result NoMemory }
{
    Value::from_list(alloc, items)
}

fn shallow_tuple(alloc: Global, items: Vec<Value>) -> Result<Value, Error>
    requires { vals_depth (vals_of items.items) < DEPTH_LIMIT }
    ensures made { IfOk result (λ v. v ≡ tuple (vals_of items.items)) }
    ensures refused { IfErr result NoMemory }
{
    Value::from_tuple(alloc, items)
}
