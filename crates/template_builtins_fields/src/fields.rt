//! Fields: an argument's place, and the layout behind a colon.
ghost use Rattle.std.specs.Prelude.{◌≡◌, ◌≤◌, IfOk, IfSome, length, option_map, string_bytes};
ghost use Rattle.std.specs.Str.{IsUtf8};
ghost use Rattle.template_builtins_arguments.specs.Answers.{TellsAs};
ghost use Rattle.template_builtins_fields.specs.Formats as formats;
ghost use Rattle.template_callables.specs.Views.{seen_in};

use crate::arguments::{Numbering, argument_for};
use crate::formats::Part;
use crate::layouts::layout_in;
use crate::padding::laid_out;
use crate::shown::shown;
use std::alloc::Global;
use template_builtins_arguments::refusal;
use template_callables::CallView;
use template_values_core::Value;
use template_values_errors::Error;

// What stands for the field up to the first closing brace, and what is behind that.
#[tactic(auto, unfolding(crate::specs::Formats::field_part))]
pub(crate) fn field_part<'a>(
    alloc: Global,
    view: &CallView<'_>,
    arguments: &[Value],
    numbering: Numbering,
    behind: &'a str,
) -> Result<Part<'a>, Error>
    ensures part { TellsAs formats.seen result (formats.field_part (seen_in view.now) arguments.now numbering behind.entry.now) }
    ensures less { IfOk result (λ part. length part.rest.now ≤ length behind.entry.now) }
    ensures rest { IfOk result (λ part. IsUtf8 part.rest.now) }
{
    let (field, rest) = field_in(behind)?;
    let (name, layout) = parted(field);
    let found = argument_for(arguments, numbering, name)?;
    let text = field_text(alloc, view, layout, found.value)?;
    Ok(Part {
        text,
        numbering: found.numbering,
        rest,
    })
}

// The field up to the first closing brace, in which there is no brace, and what is behind it.
#[tactic(auto, unfolding(crate::specs::Formats::field_in))]
fn field_in(behind: &str) -> Result<(&str, &str), Error>
    ensures parts { TellsAs formats.both_seen result (formats.field_in behind.now) }
    ensures less { IfOk result (λ parts. length parts.1.now ≤ length behind.now) }
    ensures rest { IfOk result (λ parts. IsUtf8 parts.1.now) }
{
    let Some((field, rest)) = closing(behind) else {
        return refusal();
    };
    if has_opening(field) {
        return refusal();
    }
    Ok((field, rest))
}

// What is before the first closing brace, and what is behind it.
fn closing(text: &str) -> Option<(&str, &str)>
    ensures parts { option_map formats.both_seen result ≡ formats.cut 125 text.now }
    ensures less { IfSome result (λ parts. length parts.1.now ≤ length text.now) }
    ensures rest { IfSome result (λ parts. IsUtf8 parts.1.now) }
{
    text.split_once('}')
}

fn has_opening(text: &str) -> bool
    ensures { result ≡ formats.has 123 text.now }
{
    text.as_bytes().iter().any(|byte| *byte == b'{')
}

// What is before the first colon, and what is behind it.
fn parted(field: &str) -> (&str, &str)
    ensures name { result.0.now ≡ formats.name_in field.now }
    ensures layout { result.1.now ≡ formats.layout_in_field field.now }
{
    match field.split_once(':') {
        Some((name, layout)) => (name, layout),
        None => (field, ""),
    }
}

// A value as a layout has it.
#[tactic(auto, unfolding(crate::specs::Formats::field_text))]
fn field_text(
    alloc: Global,
    view: &CallView<'_>,
    layout: &str,
    value: &Value,
) -> Result<String, Error>
    ensures { TellsAs (λ s. string_bytes s) result (formats.field_text (seen_in view.now) layout.now value.now) }
{
    let layout = layout_in(alloc, layout)?;
    let form = shown(alloc, view, layout.kind, value)?;
    laid_out(alloc, layout, &form)
}
