//! The first character of a text.
ghost use Rattle.std.specs.Prelude.{◌≡◌, ◌++◌, [], IfSome, MatchOption};
ghost use Rattle.std.specs.Char.{encode_utf8};
ghost use Rattle.std.specs.Str.{IsUtf8};
ghost use Rattle.template_builtins_layout.specs.Characters.{BeginsWith};

// The first character, and what is behind it.
pub(crate) fn split_first(text: &str) -> Option<(char, &str)>
    ensures parts { MatchOption result (text.now ≡ []) (λ p. text.now ≡ encode_utf8 p.0 ++ p.1.now) }
    ensures rest { IfSome result (λ p. IsUtf8 p.1.now) }
{
    let mut characters = text.chars();
    let first = characters.next()?;
    Some((first, characters.as_str()))
}

// The first character as a text, and what is behind it.
pub(crate) fn split_text(text: &str) -> Option<(&str, &str)>
    ensures parts { MatchOption result (text.now ≡ []) (λ p. BeginsWith text.now p.0.now p.1.now) }
    ensures rest { IfSome result (λ p. IsUtf8 p.1.now) }
{
    let mut characters = text.chars();
    let first = characters.next()?;
    Some((&text[..first.len_utf8()], characters.as_str()))
}
