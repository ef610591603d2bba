//! Texts with letters in another case.
ghost use Rattle.std.specs.Prelude.{◌≡◌, ◌++◌, IfOk, OnOk, encode_utf8_all, option_to_list, string_bytes};
ghost use Rattle.std.specs.Char.Iter.{case_mapping_chars};
ghost use Rattle.std.specs.StrCase.Lower.{str_to_lowercase};
ghost use Rattle.std.specs.StrCase.Upper.{str_to_uppercase};
ghost use Rattle.template_builtins_arguments.specs.Answers.{Tells};
ghost use Rattle.template_builtins_methods.specs.Cases as cases;
ghost use Rattle.template_builtins_methods.specs.Reading.{changed};
ghost use Rattle.template_builtins_texts.specs.Cases.{capitalized, title_char};

use crate::reading::lone_text;
use std::alloc::{AllocError, Global};
use std::char::ToUppercase;
use template_builtins_texts::TextFilter;
use template_callables::CallView;
use template_values_core::Value;
use template_values_errors::Error;

pub(crate) fn upper(alloc: Global, value: &Value, arguments: &[Value]) -> Result<Value, Error>
    ensures { Tells result (changed str_to_uppercase value.now arguments.now) }
{
    let text = lone_text(value, arguments)?;
    Value::from_text(text.to_uppercase(alloc)?)
}

pub(crate) fn lower(alloc: Global, value: &Value, arguments: &[Value]) -> Result<Value, Error>
    ensures { Tells result (changed str_to_lowercase value.now arguments.now) }
{
    let text = lone_text(value, arguments)?;
    Value::from_text(text.to_lowercase(alloc)?)
}

pub(crate) fn title(alloc: Global, value: &Value, arguments: &[Value]) -> Result<Value, Error>
    ensures { Tells result (changed cases.titled value.now arguments.now) }
{
    let text = lone_text(value, arguments)?;
    Value::from_text(titled(alloc, text)?)
}

pub(crate) fn swap_case(alloc: Global, value: &Value, arguments: &[Value]) -> Result<Value, Error>
    ensures { Tells result (changed cases.swapped value.now arguments.now) }
{
    let text = lone_text(value, arguments)?;
    Value::from_text(swapped(alloc, text)?)
}

// As the filter of that name, of the plain text.
#[tactic(auto, using(crate::proofs::Casing::capitalized_plain))]
pub(crate) fn capitalize(
    alloc: Global,
    view: &CallView<'_>,
    value: &Value,
    arguments: &[Value],
) -> Result<Value, Error>
    ensures { Tells result (changed capitalized value.now arguments.now) }
{
    let text = lone_text(value, arguments)?;
    let plain = Value::from_str(alloc, text)?;
    TextFilter::Capitalize.apply(alloc, view, &plain, &[])
}

// Each letter behind one that has a case in lower case, each other one in upper.
fn titled(alloc: Global, text: &str) -> Result<String, AllocError>
    ensures { IfOk result (λ t. string_bytes t ≡ cases.titled text.now) }
{
    let mut out = String::new(alloc);
    let mut begins = true;
    for character in text.chars() {
        push_title(&mut out, begins, character)?;
        begins = begins_behind(character);
    }
    Ok(out)
}

fn push_title(out: &mut String, begins: bool, character: char) -> Result<(), AllocError>
    ensures { OnOk result (string_bytes out.new ≡ string_bytes out.old ++ encode_utf8_all (title_char begins character)) }
{
    if begins {
        push_mapped(out, character.to_uppercase())
    } else {
        push_mapped(out, character.to_lowercase())
    }
}

// Whether a letter behind the character is in upper case.
fn begins_behind(character: char) -> bool
    ensures { result ≡ cases.begins_behind character }
{
    !(character.is_lowercase() || character.is_uppercase())
}

// Upper case in lower, lower case in upper.
fn swapped(alloc: Global, text: &str) -> Result<String, AllocError>
    ensures { IfOk result (λ t. string_bytes t ≡ cases.swapped text.now) }
{
    let mut out = String::new(alloc);
    for character in text.chars() {
        push_swapped(&mut out, character)?;
    }
    Ok(out)
}

fn push_swapped(out: &mut String, character: char) -> Result<(), AllocError>
    ensures { OnOk result (string_bytes out.new ≡ string_bytes out.old ++ encode_utf8_all (cases.swapped_char character)) }
{
    if character.is_uppercase() {
        push_mapped(out, character.to_lowercase())
    } else if character.is_lowercase() {
        push_mapped(out, character.to_uppercase())
    } else {
        push_some(out, Some(character))
    }
}

// A character becomes at most three.
fn push_mapped(out: &mut String, mut mapped: ToUppercase) -> Result<(), AllocError>
    ensures { OnOk result (string_bytes out.new ≡ string_bytes out.old ++ encode_utf8_all (case_mapping_chars mapped)) }
{
    push_some(out, mapped.next())?;
    push_some(out, mapped.next())?;
    push_some(out, mapped.next())
}

fn push_some(out: &mut String, character: Option<char>) -> Result<(), AllocError>
    ensures { OnOk result (string_bytes out.new ≡ string_bytes out.old ++ encode_utf8_all (option_to_list character)) }
{
    match character {
        Some(character) => out.push(character),
        None => Ok(()),
    }
}
