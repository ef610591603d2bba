//! The first and the last character of a text.
ghost use Rattle.std.specs.Prelude.{◌≡◌, ◌∷◌, ◌++◌, [], MatchOption, chars};
ghost use Rattle.std.specs.Str.{IsUtf8};

// The first character, and what is behind it.
pub(crate) fn split_first(text: &str) -> Option<(char, &str)>
    ensures parts { MatchOption result (text.now ≡ []) (λ p. chars text.now ≡ p.0 ∷ chars p.1.now) }
    ensures rest { MatchOption result (text.now ≡ []) (λ p. IsUtf8 p.1.now) }
{
    let mut characters = text.chars();
    let first = characters.next()?;
    Some((first, characters.as_str()))
}

// What is before the last character, and that.
pub(crate) fn split_last(text: &str) -> Option<(&str, char)>
    ensures parts { MatchOption result (text.now ≡ []) (λ p. chars text.now ≡ chars p.0.now ++ p.1 ∷ []) }
    ensures rest { MatchOption result (text.now ≡ []) (λ p. IsUtf8 p.0.now) }
{
    let mut characters = text.chars();
    let last = characters.next_back()?;
    Some((characters.as_str(), last))
}
