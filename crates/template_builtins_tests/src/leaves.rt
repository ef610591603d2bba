//! When values without items are identical.
ghost use Rattle.std.specs.Prelude.{◌≡◌};
ghost use Rattle.template_values_model.specs.Val as values;
ghost use Rattle.template_builtins_tests.specs.Identity.{identical};

use template_values_core::{Content, Value};

pub(crate) fn is_silent(value: &Value) -> bool
    ensures { result ≡ identical values.silent_undefined value.now }
{
    match value.content() {
        Content::SilentUndefined => true,
        _ => false,
    }
}

pub(crate) fn is_undefined(value: &Value) -> bool
    ensures { result ≡ identical values.undefined value.now }
{
    match value.content() {
        Content::Undefined => true,
        _ => false,
    }
}

pub(crate) fn is_none(value: &Value) -> bool
    ensures { result ≡ identical values.none value.now }
{
    match value.content() {
        Content::None => true,
        _ => false,
    }
}

pub(crate) fn is_truth(holds: bool, value: &Value) -> bool
    ensures { result ≡ identical (values.truth holds) value.now }
{
    match value.content() {
        Content::Truth(true) => holds,
        Content::Truth(false) => !holds,
        _ => false,
    }
}

pub(crate) fn is_int(number: i128, value: &Value) -> bool
    ensures { result ≡ identical (values.int number) value.now }
{
    match value.content() {
        Content::Int(other) => number == other,
        _ => false,
    }
}

pub(crate) fn is_text(text: &str, value: &Value) -> bool
    ensures { result ≡ identical (values.text text.now) value.now }
{
    match value.content() {
        Content::Text(other) => text == other,
        _ => false,
    }
}

pub(crate) fn is_safe_text(text: &str, value: &Value) -> bool
    ensures { result ≡ identical (values.safe_text text.now) value.now }
{
    match value.content() {
        Content::SafeText(other) => text == other,
        _ => false,
    }
}

pub(crate) fn is_bytes(bytes: &[u8], value: &Value) -> bool
    ensures { result ≡ identical (values.bytes bytes.now) value.now }
{
    match value.content() {
        Content::Bytes(other) => bytes == other,
        _ => false,
    }
}

pub(crate) fn is_function(id: u64, number: usize, value: &Value) -> bool
    ensures { result ≡ identical (values.function id number) value.now }
{
    match value.content() {
        Content::Function(other, place) => id == other && number == place,
        _ => false,
    }
}

pub(crate) fn is_namespace(id: u64, number: usize, value: &Value) -> bool
    ensures { result ≡ identical (values.namespace id number) value.now }
{
    match value.content() {
        Content::Namespace(other, place) => id == other && number == place,
        _ => false,
    }
}

pub(crate) fn is_loop(id: u64, number: usize, value: &Value) -> bool
    ensures { result ≡ identical (values.loop_record id number) value.now }
{
    match value.content() {
        Content::Loop(other, place) => id == other && number == place,
        _ => false,
    }
}

pub(crate) fn is_macro(id: u64, number: usize, value: &Value) -> bool
    ensures { result ≡ identical (values.macro_record id number) value.now }
{
    match value.content() {
        Content::Macro(other, place) => id == other && number == place,
        _ => false,
    }
}
