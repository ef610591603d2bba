//! What stands inside segments.
ghost use Rattle.std.specs.Prelude.{IfOk, ◌≡◌, ◌≤◌, ◌<◌, ◌^◌, length};
ghost use Rattle.std.specs.Str.{IsCharBoundary};
ghost use Rattle.template_compiler_tokens.specs.View.{token_of};
ghost use Rattle.template_compiler_syntax.specs.Segments.{open_brackets};
ghost use Rattle.template_compiler_placed_tokens.specs.Ends.{IsSegmentEnd};
ghost use Rattle.template_compiler_placed_tokens.specs.Finds.{FindsPlace};
ghost use Rattle.template_compiler_placed_tokens.specs.Left.{end_token as token_of_end};
ghost use Rattle.template_compiler_placed_tokens.specs.Reads.{ReadsInside};

use crate::ends::{SegmentEnd, black_end_at, blank_end_at, is_white_at};
use crate::stage::Stage;
use std::alloc::Global;
use template_compiler_scanner::scan_token;
use template_compiler_syntax::{Edge, StartMarker, SyntaxConfig, Trim};
use template_compiler_tokens::Token;
use template_values_errors::ErrorKind;

/// What stands behind the white space inside a segment.
#[derive(Clone, Copy)]
pub enum Found {
    /// The segment's end at the first place, with this sign; what follows the segment stands at the second.
    End(usize, Trim, usize),
    /// A token, or what is none, at the place.
    Token(usize),
}

/// What stands behind the white space at a place inside a segment, where so many brackets are open.
#[inline(always)]
pub(crate) fn next_place(
    source: &str,
    syntax: &SyntaxConfig,
    kind: StartMarker,
    depth: usize,
    from: usize,
) -> Found
    requires { IsCharBoundary source.now from }
    ensures { FindsPlace syntax.now source.now kind depth from result }
{
    next_place_of(source, SegmentEnd::of(syntax, kind), depth, from)
}

/// The same inside a segment that ends so.
#[inline(always)]
pub fn next_place_of(source: &str, end: SegmentEnd, depth: usize, from: usize) -> Found
    requires start { IsCharBoundary source.now from }
    requires end { IsSegmentEnd end }
    ensures { FindsPlace end.entry.syntax.now source.now end.entry.kind depth from result }
{
    let bytes = source.as_bytes();
    let mut place = from;
    'blanks: while is_white_at(bytes, place) {
        if let Some((last, next)) = blank_end_at(bytes, end, depth, place) {
            return Found::End(place, last, next);
        }
        place += 1;
    }
    if let Some((last, next)) = black_end_at(bytes, end, depth, place) {
        return Found::End(place, last, next);
    }
    Found::Token(place)
}

/// A token, with the places where its text begins and ends, and where what follows stands.
#[derive(Drop)]
pub struct Piece<'source> {
    pub token: Token<'source>,
    pub stage: Stage,
    pub begin: usize,
    pub end: usize,
    pub next: usize,
}

/// The next token inside a segment from a place on, where so many brackets are open.
#[inline(always)]
pub(crate) fn next_inside<'source>(
    alloc: Global,
    source: &'source str,
    syntax: &SyntaxConfig,
    kind: StartMarker,
    depth: usize,
    from: usize,
) -> Result<Piece<'source>, ErrorKind>
    requires start { IsCharBoundary source.now from }
    requires depth { depth ≤ from }
    ensures read { ReadsInside syntax.now source.now kind depth from result }
    ensures ahead { IfOk result (λ piece. from ≤ piece.next) }
{
    match next_place(source, syntax, kind, depth, from) {
        Found::End(place, last, next) => Ok(Piece {
            token: end_token(kind),
            stage: Stage::Data(Edge::Beside(kind, last)),
            begin: place,
            end: next,
            next,
        }),
        Found::Token(place) => {
            match scan_token(alloc, source.split_at(place).1) {
                Ok((token, width)) => {
                    let depth = brackets_behind(&token, depth);
                    let end = place + width;
                    Ok(Piece {
                        token,
                        stage: Stage::Inside(kind, depth),
                        begin: place,
                        end,
                        next: end,
                    })
                }
                Err(kind) => Err(kind),
            }
        }
    }
}

/// The marker that ends a segment of the kind.
#[inline(always)]
pub fn end_token(kind: StartMarker) -> Token<'static>
    ensures { token_of result ≡ token_of_end kind }
{
    match kind {
        StartMarker::Variable => Token::VariableEnd,
        _ => Token::BlockEnd,
    }
}

/// How many brackets are open behind a token.
#[inline(always)]
pub fn brackets_behind(token: &Token, depth: usize) -> usize
    requires { depth < 2 ^ 63 }
    ensures { result ≡ open_brackets (token_of token.now) depth }
{
    match token {
        Token::BracketOpen | Token::ParenOpen | Token::BraceOpen => depth + 1,
        Token::BracketClose | Token::ParenClose | Token::BraceClose => depth.saturating_sub(1),
        _ => depth,
    }
}
