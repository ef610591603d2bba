//! Maps as the attributes of an element.
ghost use Rattle.std.specs.Prelude.{◌≡◌, IfErr, IfOk, Ok, string_bytes, true};
ghost use Rattle.template_builtins_arguments.specs.Answers.{Tells, TellsAs};
ghost use Rattle.template_builtins_arguments.specs.Given.{given_by};
ghost use Rattle.template_builtins_arguments.specs.Texts.{piece_of};
ghost use Rattle.template_builtins_web.specs.Attributes as names;
ghost use Rattle.template_builtins_web.specs.Elements as elements;
ghost use Rattle.template_builtins_web.specs.Filters as filters;
ghost use Rattle.template_builtins_web.specs.Pieces.{enclosed, followed};
ghost use Rattle.template_callables.specs.Views.{seen_in};
ghost use Rattle.template_values_core.specs.Maps.{pairs_of};
ghost use Rattle.template_values_core.specs.Shape.{pairs_in};
ghost use Rattle.template_values_errors.specs.Memory.{NoMemory};
ghost use Rattle.template_values_model.specs.Val.{safe_text};

use std::alloc::Global;
use template_builtins_arguments::{Arguments, printed, push_piece, refusal};
use template_callables::CallView;
use template_values_core::{Content, Entry, Value};
use template_values_errors::Error;

pub(crate) fn xml_attributes(
    alloc: Global,
    view: &CallView<'_>,
    value: &Value,
    arguments: &[Value],
) -> Result<Value, Error>
    ensures { Tells result (filters.xml_attributes (seen_in view.now) value.now arguments.now) }
{
    let given = Arguments::read(&["autospace"], 0, arguments)?;
    xml_given(alloc, view, value, given)
}

fn xml_given(
    alloc: Global,
    view: &CallView<'_>,
    value: &Value,
    given: Arguments<'_>,
) -> Result<Value, Error>
    ensures { Tells result (filters.xml_given (seen_in view.now) value.now (given_by given.entry 0)) }
{
    let text = attributes_of(alloc, view, value)?;
    xml_spaced(alloc, view, given, text)
}

fn xml_spaced(
    alloc: Global,
    view: &CallView<'_>,
    given: Arguments<'_>,
    text: String,
) -> Result<Value, Error>
    ensures { Tells result (filters.xml_spaced (seen_in view.now) (given_by given.entry 0) (string_bytes text)) }
{
    let wanted = given.flag(view, 0, true)?;
    safe_spaced(alloc, wanted, text)
}

// A safe text, without its first character where no space is wanted.
fn safe_spaced(alloc: Global, wanted: bool, text: String) -> Result<Value, Error>
    ensures made { IfOk result (λ v. v ≡ safe_text (names.spaced wanted (string_bytes text))) }
    ensures refused { IfErr result NoMemory }
{
    if wanted {
        return Value::from_safe_text(text);
    }
    Value::from_safe_text(String::from_str(alloc, without_first(text.as_str()))?)
}

fn without_first(text: &str) -> &str
    ensures { result.now ≡ names.without_first text.now }
{
    let mut characters = text.chars();
    characters.next();
    characters.as_str()
}

fn attributes_of(alloc: Global, view: &CallView<'_>, value: &Value) -> Result<String, Error>
    ensures { TellsAs string_bytes result (elements.attributes_of (seen_in view.now) value.now) }
{
    match value.content() {
        Content::Map(entries) => attributes(alloc, view, entries),
        Content::KeywordMap(entries) => attributes(alloc, view, entries),
        Content::Module(entries, _text) => attributes(alloc, view, entries),
        _ => refusal(),
    }
}

fn attributes(alloc: Global, view: &CallView<'_>, entries: &[Entry]) -> Result<String, Error>
    ensures { TellsAs string_bytes result (elements.attributes (seen_in view.now) (pairs_of (pairs_in entries.now))) }
{
    let mut text = String::new(alloc);
    for entry in entries {
        text = with_entry(alloc, view, entry, text)?;
    }
    Ok(text)
}

// The text with an attribute behind it, where the value makes one.
fn with_entry(
    alloc: Global,
    view: &CallView<'_>,
    entry: &Entry,
    text: String,
) -> Result<String, Error>
    ensures { TellsAs string_bytes result
        (followed (Ok (string_bytes text)) (elements.entry_text (seen_in view.now) entry.now.key entry.now.value)) }
{
    if is_absent(&entry.value) {
        return Ok(text);
    }
    with_attribute(alloc, view, &entry.key, &entry.value, text)
}

fn is_absent(value: &Value) -> bool
    ensures { result ≡ names.is_absent value.now }
{
    match value.content() {
        Content::None | Content::Undefined | Content::SilentUndefined => true,
        _ => false,
    }
}

fn with_attribute(
    alloc: Global,
    view: &CallView<'_>,
    key: &Value,
    value: &Value,
    text: String,
) -> Result<String, Error>
    ensures { TellsAs string_bytes result
        (followed (Ok (string_bytes text)) (elements.attribute (seen_in view.now) key.now value.now)) }
{
    named(alloc, view, key)?;
    let whole = with_enclosed(view, " ", key, "=\"", text)?;
    with_enclosed(view, "", value, "\"", whole)
}

// The text with what stands for a value between two texts behind it.
fn with_enclosed(
    view: &CallView<'_>,
    before: &str,
    value: &Value,
    behind: &str,
    text: String,
) -> Result<String, Error>
    ensures { TellsAs string_bytes result
        (followed (Ok (string_bytes text)) (enclosed before.now (piece_of (seen_in view.now) true value.now) behind.now)) }
{
    let mut whole = text;
    whole.push_str(before)?;
    push_piece(view, true, value, &mut whole)?;
    whole.push_str(behind)?;
    Ok(whole)
}

// Tests whether a key may be a name.
fn named(alloc: Global, view: &CallView<'_>, key: &Value) -> Result<(), Error>
    ensures { Tells result (elements.named (seen_in view.now) key.now) }
{
    let name = printed(alloc, view, key)?;
    if has_barred(name.as_str()) {
        return refusal();
    }
    Ok(())
}

fn has_barred(name: &str) -> bool
    ensures { result ≡ names.has_barred name.now }
{
    name.chars().any(|character| is_barred(character))
}

fn is_barred(character: char) -> bool
    ensures { result ≡ names.is_barred character }
{
    character.is_whitespace() || matches!(character, '/' | '>' | '=')
}
