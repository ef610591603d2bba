//! The kinds of values.
ghost use Rattle.std.specs.Prelude.{◌≡◌};
ghost use Rattle.template_builtins_tests.specs.Kinds as kinds;

use template_builtins_arguments::is_safe;
use template_values_core::{Content, Value};
use template_values_operators::kinds::{is_none, is_undefined};

/// A kind that a value is asked for.
#[derive(Clone, Copy)]
pub enum ValueKind {
    /// Not undefined.
    Defined,
    /// Undefined.
    Undefined,
    /// `none`.
    None,
    /// A truth value.
    Boolean,
    /// The truth value true.
    True,
    /// The truth value false.
    False,
    /// A whole number.
    Number,
    /// A number with a fraction, which no value is.
    Float,
    /// A text.
    String,
    /// Bytes.
    Bytes,
    /// A list, a tuple or a text.
    Sequence,
    /// A map, a keyword map, a module or a namespace.
    Mapping,
    /// What a loop goes over, but none and undefined.
    Iterable,
    /// A function, a macro or a loop.
    Callable,
    /// A safe text.
    Safe,
}

impl ValueKind {
    /// Whether the value is of this kind.
    pub fn holds(self, value: &Value) -> bool
        ensures { result ≡ kinds.is_of_kind self value.now }
    {
        match self {
            ValueKind::Defined => !is_undefined(value),
            ValueKind::Undefined => is_undefined(value),
            ValueKind::None => is_none(value),
            ValueKind::Boolean => is_boolean(value),
            ValueKind::True => is_true(value),
            ValueKind::False => is_false(value),
            ValueKind::Number => is_number(value),
            ValueKind::Float => false,
            ValueKind::String => is_string(value),
            ValueKind::Bytes => is_bytes(value),
            ValueKind::Sequence => is_sequence(value),
            ValueKind::Mapping => is_mapping(value),
            ValueKind::Iterable => is_iterable(value),
            ValueKind::Callable => is_callable(value),
            ValueKind::Safe => is_safe(value),
        }
    }
}

fn is_boolean(value: &Value) -> bool
    ensures { result ≡ kinds.is_boolean value.now }
{
    match value.content() {
        Content::Truth(_) => true,
        _ => false,
    }
}

fn is_true(value: &Value) -> bool
    ensures { result ≡ kinds.is_true value.now }
{
    match value.content() {
        Content::Truth(holds) => holds,
        _ => false,
    }
}

fn is_false(value: &Value) -> bool
    ensures { result ≡ kinds.is_false value.now }
{
    match value.content() {
        Content::Truth(holds) => !holds,
        _ => false,
    }
}

fn is_number(value: &Value) -> bool
    ensures { result ≡ kinds.is_number value.now }
{
    match value.content() {
        Content::Int(_) => true,
        _ => false,
    }
}

fn is_string(value: &Value) -> bool
    ensures { result ≡ kinds.is_string value.now }
{
    match value.content() {
        Content::Text(_) | Content::SafeText(_) => true,
        _ => false,
    }
}

fn is_bytes(value: &Value) -> bool
    ensures { result ≡ kinds.is_bytes value.now }
{
    match value.content() {
        Content::Bytes(_) => true,
        _ => false,
    }
}

fn is_sequence(value: &Value) -> bool
    ensures { result ≡ kinds.is_sequence value.now }
{
    match value.content() {
        Content::List(_) | Content::Tuple(_) | Content::Text(_) | Content::SafeText(_) => true,
        _ => false,
    }
}

fn is_mapping(value: &Value) -> bool
    ensures { result ≡ kinds.is_mapping value.now }
{
    match value.content() {
        Content::Map(_) | Content::KeywordMap(_) | Content::Module(..) | Content::Namespace(..) =>
            true,
        _ => false,
    }
}

fn is_iterable(value: &Value) -> bool
    ensures { result ≡ kinds.is_iterable value.now }
{
    is_sequence(value) || is_mapping(value)
}

fn is_callable(value: &Value) -> bool
    ensures { result ≡ kinds.is_callable value.now }
{
    match value.content() {
        Content::Function(..) | Content::Loop(..) | Content::Macro(..) => true,
        _ => false,
    }
}
