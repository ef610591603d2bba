//! The texts that the command line sets over the context.
ghost use Rattle.std.specs.Prelude.{◌≡◌, ◌↔◌, Contains, IfSome, IsSome};
ghost use Rattle.template_program_words.specs.Definitions.{equals_sign, definition_name, definition_text};

/// A text that stands for a name.
#[derive(Clone, Copy, Debug, PartialEq, Eq)]
pub struct Definition<'a> {
    /// The name.
    pub name: &'a str,
    /// The text.
    pub text: &'a str,
}

/// Splits `NAME=TEXT` at its first `=`. `None` where there is none.
pub fn split_definition<'a>(words: &'a str) -> Option<Definition<'a>>
    ensures found { IsSome result ↔ Contains words.entry.now equals_sign }
    ensures name { IfSome result (λ definition. definition.name.now ≡ definition_name words.entry.now) }
    ensures text { IfSome result (λ definition. definition.text.now ≡ definition_text words.entry.now) }
{
    let (name, text) = words.split_once('=')?;
    Some(Definition { name, text })
}
