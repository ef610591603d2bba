//! Blocks of one word: raw blocks begin and end with them.
ghost use Rattle.std.specs.Prelude.{◌≡◌, ◌≤◌, ◌↔◌, IfSome, IsTrue, length, codes};
ghost use Rattle.std.specs.Str.{IsCharBoundary};
ghost use Rattle.template_compiler_tokens.specs.Lexical.{Begins};
ghost use Rattle.template_compiler_tokens.specs.Token.{identifier};
ghost use Rattle.template_compiler_placed_tokens.specs.Finds.{FindsWord, FindsEndBehind, FindsRawEnd, IsName};
ghost use Rattle.template_compiler_syntax.specs.Syntax.{IsSet};
ghost use Rattle.template_compiler_syntax.specs.Places.{StandsAt};
ghost use Rattle.template_compiler_syntax.specs.Segments.{inside_from as the_inside_from};

use crate::inside::{Found, next_place};
use crate::starts::inside_from;
use template_compiler_scanner::leading_name;
use template_compiler_syntax::{StartMarker, SyntaxConfig, Trim, find_text};

/// The sign of a block's end, and the place behind it, if this name is the block's only word. Its inside begins at the place.
#[inline(always)]
pub fn only_word(
    source: &str,
    syntax: &SyntaxConfig,
    from: usize,
    word: &str,
) -> Option<(Trim, usize)>
    requires cut { IsCharBoundary source.now from }
    requires name { IsName word.now }
    ensures found { FindsWord syntax.now source.now from word.now result }
    ensures cut { IfSome result (λ p. IsCharBoundary source.now p.1) }
{
    match next_place(source, syntax, StartMarker::Block, 0, from) {
        Found::End(_, _, _) => None,
        Found::Token(place) => {
            if begins_with_name(source.split_at(place).1, word) {
                end_behind(source, syntax, place + word.len())
            } else {
                None
            }
        }
    }
}

// Whether the name is the token that the text begins with.
#[inline(always)]
fn begins_with_name(text: &str, name: &str) -> bool
    requires { IsName name.now }
    ensures { IsTrue result ↔ Begins text.now (identifier name.now) (length name.now) }
{
    is_same(leading_name(text), name)
}

// The end of a block behind white space.
#[inline(always)]
fn end_behind(source: &str, syntax: &SyntaxConfig, from: usize) -> Option<(Trim, usize)>
    requires { IsCharBoundary source.now from }
    ensures found { FindsEndBehind syntax.now source.now from result }
    ensures cut { IfSome result (λ p. IsCharBoundary source.now p.1) }
{
    match next_place(source, syntax, StartMarker::Block, 0, from) {
        Found::End(_, last, next) => Some((last, next)),
        Found::Token(_) => None,
    }
}

fn is_same(first: &str, second: &str) -> bool
    ensures { IsTrue result ↔ (first.now ≡ second.now) }
{
    first == second
}

/// Where the block stands that ends raw data from a place on, the sign of its end, and the place behind it.
#[inline(always)]
pub(crate) fn find_raw_end(
    source: &str,
    syntax: &SyntaxConfig,
    from: usize,
) -> Option<(usize, Trim, usize)>
    requires { from ≤ length source.now }
    ensures found { FindsRawEnd syntax.now source.now from result }
    ensures cut { IfSome result (λ p. IsCharBoundary source.now p.0 × IsCharBoundary source.now p.2) }
{
    let start = syntax.block_delimiters().0;
    let mut at = from;
    while let Some(place) = find_text(source.as_bytes(), at, start.as_bytes()) {
        if let Some((last, next)) = raw_end_at(source, syntax, place) {
            return Some((place, last, next));
        }
        at = place + 1;
    }
    None
}

#[inline(always)]
fn raw_end_at(source: &str, syntax: &SyntaxConfig, place: usize) -> Option<(Trim, usize)>
    requires stands { StandsAt source.now place syntax.now.block_start }
    requires set { IsSet syntax.now.block_start }
    ensures found { FindsWord syntax.now source.now (the_inside_from syntax.now source.now StartMarker.Block place)
        (codes "endraw") result }
    ensures cut { IfSome result (λ p. IsCharBoundary source.now place × IsCharBoundary source.now p.1) }
{
    let inside = inside_from(source, syntax, StartMarker::Block, place);
    only_word(source, syntax, inside, "endraw")
}
