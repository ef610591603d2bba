//! The words of a line, with the white space before each.
ghost use Rattle.std.specs.Prelude.{◌≡◌, ◌++◌, IfSome, chars, encode_utf8_all};
ghost use Rattle.std.specs.Str.{IsUtf8};
ghost use Rattle.template_builtins_layout.specs.Pieces as pieces;

use crate::characters::split_first;

fn is_kind(blank: bool, character: char) -> bool
    ensures { result ≡ pieces.is_kind blank character }
{
    is_blank(character) == blank
}

#[tactic(auto, unfolding(crate::specs::Pieces::is_blank))]
fn is_blank(character: char) -> bool
    ensures { result ≡ pieces.is_blank character }
{
    (character as u32) < 128 && character.is_whitespace()
}

// What is behind the first characters of a kind.
fn behind_ones(blank: bool, text: &str) -> &str
    ensures parts { text.entry.now ≡ encode_utf8_all (pieces.first_ones blank (chars text.entry.now)) ++ result.now }
    ensures rest { chars result.now ≡ pieces.behind_ones blank (chars text.entry.now) }
{
    let mut rest = text;
    while let Some((character, after)) = split_first(rest) {
        if !is_kind(blank, character) {
            return rest;
        }
        rest = after;
    }
    rest
}

// The first characters of a kind, and what is behind them.
fn split_at_ones(blank: bool, text: &str) -> (&str, &str)
    ensures front { chars result.0.now ≡ pieces.first_ones blank (chars text.entry.now) }
    ensures spelled { result.0.now ≡ encode_utf8_all (pieces.first_ones blank (chars text.entry.now)) }
    ensures rest { chars result.1.now ≡ pieces.behind_ones blank (chars text.entry.now) }
    ensures text { IsUtf8 result.1.now }
{
    let rest = behind_ones(blank, text);
    let size = text.len() - rest.len();
    (&text[..size], rest)
}

// White space with the word behind it, and what is behind that.
pub(crate) fn split_word(text: &str) -> Option<((&str, &str), &str)>
    ensures parts { pieces.Gives result (pieces.first_piece (chars text.entry.now)) }
    ensures rest { IfSome result (λ p. IsUtf8 p.1.now) }
{
    let (gap, inner) = split_at_ones(true, text);
    if inner.is_empty() {
        return None;
    }
    let (word, after) = split_at_ones(false, inner);
    Some(((gap, word), after))
}
