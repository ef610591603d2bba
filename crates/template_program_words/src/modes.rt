//! The words that name what may be done with undefined values.
ghost use Rattle.std.specs.Prelude.{◌≡◌};
ghost use Rattle.template_program_words.specs.Modes as modes;

use template_values_errors::UndefinedBehavior;

/// What the word stands for; `None` where it is none of the four.
pub(crate) fn mode_named(word: &str) -> Option<UndefinedBehavior>
    ensures { result ≡ modes.mode_named word.now }
{
    match word {
        "lenient" => Some(UndefinedBehavior::Lenient),
        "chainable" => Some(UndefinedBehavior::Chainable),
        "semistrict" => Some(UndefinedBehavior::SemiStrict),
        "strict" => Some(UndefinedBehavior::Strict),
        _ => None,
    }
}
