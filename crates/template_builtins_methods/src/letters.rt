//! What the characters of texts are.
ghost use Rattle.std.specs.Prelude.{◌≡◌, ◌||◌, chars};
ghost use Rattle.std.specs.Char.{is_whitespace};
ghost use Rattle.std.specs.Char.Unicode.Alphabetic.{is_alphabetic};
ghost use Rattle.std.specs.Char.Unicode.Numeric.{is_numeric};
ghost use Rattle.std.specs.List.{list_all};
ghost use Rattle.template_builtins_arguments.specs.Answers.{Tells};
ghost use Rattle.template_builtins_methods.specs.Letters as letters;
ghost use Rattle.template_builtins_methods.specs.Reading.{asked};
ghost use Rattle.template_builtins_tests.specs.Letters.{has_lower, has_upper};

use crate::reading::lone_text;
use template_values_core::Value;
use template_values_errors::Error;

pub(crate) fn is_digit(value: &Value, arguments: &[Value]) -> Result<Value, Error>
    ensures { Tells result (asked letters.are_digits value.now arguments.now) }
{
    let text = lone_text(value, arguments)?;
    Ok(Value::from_bool(are_digits(text)))
}

pub(crate) fn is_alpha(value: &Value, arguments: &[Value]) -> Result<Value, Error>
    ensures { Tells result (asked letters.are_letters value.now arguments.now) }
{
    let text = lone_text(value, arguments)?;
    Ok(Value::from_bool(are_letters(text)))
}

pub(crate) fn is_alnum(value: &Value, arguments: &[Value]) -> Result<Value, Error>
    ensures { Tells result (asked letters.are_letters_or_digits value.now arguments.now) }
{
    let text = lone_text(value, arguments)?;
    Ok(Value::from_bool(are_letters_or_digits(text)))
}

pub(crate) fn is_space(value: &Value, arguments: &[Value]) -> Result<Value, Error>
    ensures { Tells result (asked letters.are_spaces value.now arguments.now) }
{
    let text = lone_text(value, arguments)?;
    Ok(Value::from_bool(are_spaces(text)))
}

pub(crate) fn is_lower(value: &Value, arguments: &[Value]) -> Result<Value, Error>
    ensures { Tells result (asked letters.are_lower value.now arguments.now) }
{
    let text = lone_text(value, arguments)?;
    Ok(Value::from_bool(has_lower(text) && !has_upper(text)))
}

pub(crate) fn is_upper(value: &Value, arguments: &[Value]) -> Result<Value, Error>
    ensures { Tells result (asked letters.are_upper value.now arguments.now) }
{
    let text = lone_text(value, arguments)?;
    Ok(Value::from_bool(has_upper(text) && !has_lower(text)))
}

fn are_digits(text: &str) -> bool
    ensures { result ≡ letters.are_digits text.now }
{
    !text.is_empty() && each_is_digit(text)
}

fn each_is_digit(text: &str) -> bool
    ensures { result ≡ list_all is_numeric (chars text.now) }
{
    text.chars().all(|character| character.is_numeric())
}

fn are_letters(text: &str) -> bool
    ensures { result ≡ letters.are_letters text.now }
{
    !text.is_empty() && each_is_letter(text)
}

fn each_is_letter(text: &str) -> bool
    ensures { result ≡ list_all is_alphabetic (chars text.now) }
{
    text.chars().all(|character| character.is_alphabetic())
}

fn are_letters_or_digits(text: &str) -> bool
    ensures { result ≡ letters.are_letters_or_digits text.now }
{
    !text.is_empty() && each_is_letter_or_digit(text)
}

fn each_is_letter_or_digit(text: &str) -> bool
    ensures { result ≡ list_all (λ c. is_alphabetic c || is_numeric c) (chars text.now) }
{
    text.chars().all(|character| character.is_alphanumeric())
}

fn are_spaces(text: &str) -> bool
    ensures { result ≡ letters.are_spaces text.now }
{
    !text.is_empty() && each_is_space(text)
}

fn each_is_space(text: &str) -> bool
    ensures { result ≡ list_all is_whitespace (chars text.now) }
{
    text.chars().all(|character| character.is_whitespace())
}

fn has_lower(text: &str) -> bool
    ensures { result ≡ has_lower text.now }
{
    text.chars().any(|character| character.is_lowercase())
}

fn has_upper(text: &str) -> bool
    ensures { result ≡ has_upper text.now }
{
    text.chars().any(|character| character.is_uppercase())
}
