//! Texts parted at another.
ghost use Rattle.std.specs.Prelude.{◌≡◌, ◌<◌, IfErr, IfOk, length};
ghost use Rattle.template_builtins_arguments.specs.Answers.{Tells};
ghost use Rattle.template_builtins_pieces.specs.Cuts.{last_place};
ghost use Rattle.template_builtins_pieces.specs.Partitions as partitions;
ghost use Rattle.template_builtins_pieces.specs.declared.splitting.Side.TheVariants as side;
ghost use Rattle.template_builtins_texts.specs.Replacing.{place_of};
ghost use Rattle.template_values_errors.specs.Memory.{NoMemory};

use crate::lists::three_texts;
use crate::reading::{placed, plain_text, text_argument};
use crate::splitting::Side;
use std::alloc::Global;
use template_builtins_arguments::refusal;
use template_values_core::Value;
use template_values_errors::Error;

pub(crate) fn partition(
    alloc: Global,
    side: Side,
    value: &Value,
    arguments: &[Value],
) -> Result<Value, Error>
    ensures { Tells result (partitions.partition side value.now arguments.now) }
{
    let given = placed(&["sep"], 1, arguments)?;
    let text = plain_text(value)?;
    let separator = text_argument(given.at(0))?;
    partitioned(alloc, side, text, separator)
}

fn partitioned(alloc: Global, side: Side, text: &str, separator: &str) -> Result<Value, Error>
    ensures { Tells result (partitions.partitioned side text.now separator.now) }
{
    if separator.is_empty() {
        return refusal();
    }
    match side {
        Side::Left => parted_first(alloc, text, separator),
        Side::Right => parted_last(alloc, text, separator),
    }
}

fn parted_first(alloc: Global, text: &str, separator: &str) -> Result<Value, Error>
    requires { 0 < length separator.now }
    ensures made { IfOk result (λ v. v ≡ partitions.parted side.Left separator.now text.now (place_of separator.now text.now)) }
    ensures refused { IfErr result NoMemory }
{
    match text.split_once(separator) {
        Some((before, after)) => three_texts(alloc, before, separator, after),
        None => three_texts(alloc, text, "", ""),
    }
}

fn parted_last(alloc: Global, text: &str, separator: &str) -> Result<Value, Error>
    requires { 0 < length separator.now }
    ensures made { IfOk result (λ v. v ≡ partitions.parted side.Right separator.now text.now (last_place separator.now text.now)) }
    ensures refused { IfErr result NoMemory }
{
    match text.rsplit_once(separator) {
        Some((before, after)) => three_texts(alloc, before, separator, after),
        None => three_texts(alloc, "", "", text),
    }
}
