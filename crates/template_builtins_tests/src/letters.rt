//! Texts of letters of one case.
ghost use Rattle.std.specs.Prelude.{◌≡◌};
ghost use Rattle.template_builtins_tests.specs.Letters as letters;

use template_values_core::Value;

// Whether it is a text with a lower case letter and no upper case one.
pub(crate) fn is_lower(value: &Value) -> bool
    ensures { result ≡ letters.is_lower value.now }
{
    match value.as_str() {
        Some(text) => has_lower(text) && !has_upper(text),
        None => false,
    }
}

// Whether it is a text with an upper case letter and no lower case one.
pub(crate) fn is_upper(value: &Value) -> bool
    ensures { result ≡ letters.is_upper value.now }
{
    match value.as_str() {
        Some(text) => has_upper(text) && !has_lower(text),
        None => false,
    }
}

fn has_lower(text: &str) -> bool
    ensures { result ≡ letters.has_lower text.now }
{
    text.chars().any(|character| character.is_lowercase())
}

fn has_upper(text: &str) -> bool
    ensures { result ≡ letters.has_upper text.now }
{
    text.chars().any(|character| character.is_uppercase())
}
