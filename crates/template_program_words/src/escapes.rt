//! The words that name how values are escaped.
ghost use Rattle.std.specs.Prelude.{◌≡◌};
ghost use Rattle.template_program_words.specs.Escapes as escapes;

/// How the values that templates print are escaped.
#[derive(Clone, Copy, Debug, PartialEq, Eq)]
pub enum EscapeWord {
    /// Not at all.
    None,
    /// As HTML.
    Html,
    /// As JSON.
    Json,
    /// As the name of each template says.
    Name,
}

/// What the word stands for; `None` where it is none of the four.
pub(crate) fn escape_named(word: &str) -> Option<EscapeWord>
    ensures { result ≡ escapes.escape_named word.now }
{
    match word {
        "none" => Some(EscapeWord::None),
        "html" => Some(EscapeWord::Html),
        "json" => Some(EscapeWord::Json),
        "name" => Some(EscapeWord::Name),
        _ => None,
    }
}
