//! The word that says what a float of a context is.
ghost use Rattle.std.specs.Prelude.{◌≡◌};
ghost use Rattle.template_program_words.specs.Floats as floats;

/// Whether the word says that a float is a text; `None` where it says nothing.
pub(crate) fn floats_named(word: &str) -> Option<bool>
    ensures { result ≡ floats.floats_named word.now }
{
    match word {
        "text" => Some(true),
        _ => None,
    }
}
