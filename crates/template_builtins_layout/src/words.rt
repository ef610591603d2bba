//! The words of a text.
ghost use Rattle.std.specs.Prelude.{◌≡◌};
ghost use Rattle.template_builtins_arguments.specs.Answers.{Tells};
ghost use Rattle.template_builtins_layout.specs.Filters as filters;
ghost use Rattle.template_builtins_layout.specs.Words.{begins_word, is_word_character, word_count};
ghost use Rattle.template_callables.specs.Views.{seen_in};

use crate::reading::lone_text;
use std::alloc::Global;
use template_callables::CallView;
use template_values_core::Value;
use template_values_errors::Error;

pub(crate) fn count_words(
    alloc: Global,
    view: &CallView<'_>,
    value: &Value,
    arguments: &[Value],
) -> Result<Value, Error>
    ensures { Tells result (filters.count_words (seen_in view.now) value.now arguments.now) }
{
    let text = lone_text(alloc, view, value, arguments)?;
    Ok(Value::from_int(word_count(text.as_str()) as i128))
}

fn word_count(text: &str) -> usize
    ensures { result ≡ word_count text.now }
{
    let mut count = 0;
    let mut inside = false;
    for character in text.chars() {
        if begins_word(inside, character) {
            count += 1;
        }
        inside = is_word_character(character);
    }
    count
}

// Whether a word begins at the character, where one goes on before it or not.
fn begins_word(inside: bool, character: char) -> bool
    ensures { result ≡ begins_word inside character }
{
    is_word_character(character) && !inside
}

fn is_word_character(character: char) -> bool
    ensures { result ≡ is_word_character character }
{
    character.is_alphabetic() || character.is_numeric() || character == '_'
}
