// All tokens that are left, in one go.
ghost use Rattle.std.specs.Prelude.{◌≡◌, ◌∷◌, [], ◌++◌, IfOk, IfSome, MatchResult};
ghost use Rattle.template_compiler_tokens.specs.Stretches.{BeginsBy};
ghost use Rattle.template_compiler_syntax.specs.Known.{Knows};
ghost use Rattle.template_compiler_tokenizer.specs.Held.{Holds, ReadsAll, ReadsNext, StandsIn, left_of};
ghost use Rattle.template_compiler_placed_tokens.specs.Reads.{IsCut};

use crate::reach::{Reached, read_data};
use crate::segment::{Inner, read_inside};
use std::alloc::Global;
use template_compiler_placed_tokens::{Piece, SegmentEnd, Stage, next_piece};
use template_compiler_syntax::{Edge, StartFinder, SyntaxConfig};
use template_compiler_tokens::{Stretch, Token, next_span};
use template_compiler_tree::Span;
use template_values_errors::ErrorKind;

/// Where a reader stands in a source.
#[derive(Clone, Copy)]
pub struct Standing {
    pub stage: Stage,
    pub from: usize,
    pub stretch: Stretch,
}

/// Reads the tokens that are left, and puts them behind those that are held.
pub(crate) fn read_all<'source>(
    alloc: Global,
    source: &'source str,
    syntax: &SyntaxConfig,
    finder: &mut StartFinder,
    first: Standing,
    tokens: &mut Vec<(Token<'source>, Span)>,
) -> Result<(), ErrorKind>
    requires stands { StandsIn syntax.now source.now first }
    requires knows { Knows syntax.now source.now first.from finder.old }
    ensures { ReadsAll source.now tokens.old.items (left_of syntax.now source.now first) tokens.new.items result }
{
    let mut stage = first.stage;
    let mut at = Inner {
        depth: 0,
        from: first.from,
        stretch: first.stretch,
    };
    'parts: loop {
        if let Stage::Data(left) = stage {
            match read_data(
                source,
                syntax,
                finder,
                left,
                &mut at.from,
                &mut at.stretch,
                tokens,
            ) {
                Reached::Inside(kind) => stage = Stage::Inside(kind, 0),
                Reached::Data(kind, sign) => {
                    stage = Stage::Data(Edge::Beside(kind, sign));
                    continue 'parts;
                }
                Reached::Start(kind) => stage = Stage::Start(kind),
                Reached::End => return Ok(()),
                Reached::Refused(kind) => return Err(kind),
            }
        }
        if let Stage::Inside(kind, depth) = stage {
            at.depth = depth;
            let end = SegmentEnd::of(syntax, kind);
            match read_inside(alloc, source, end, &mut at, tokens) {
                Ok(last) => stage = Stage::Data(Edge::Beside(kind, last)),
                Err(refused) => return Err(refused),
            }
        } else {
            let start = Standing {
                stage,
                from: at.from,
                stretch: at.stretch,
            };
            match read_piece(alloc, source, syntax, finder, start, tokens) {
                Ok(Some(next)) => {
                    stage = next.stage;
                    at.from = next.from;
                    at.stretch = next.stretch;
                }
                Ok(None) => return Ok(()),
                Err(refused) => return Err(refused),
            }
        }
    }
}

// Reads the next token from a start marker on; none at the end. Few starts are not entered at once.
#[inline(never)]
fn read_piece<'source>(
    alloc: Global,
    source: &'source str,
    syntax: &SyntaxConfig,
    finder: &mut StartFinder,
    start: Standing,
    tokens: &mut Vec<(Token<'source>, Span)>,
) -> Result<Option<Standing>, ErrorKind>
    requires stands { StandsIn syntax.now source.now start }
    requires knows { Knows syntax.now source.now start.from finder.old }
    ensures read { ReadsNext syntax.now source.now tokens.old.items start tokens.new.items result }
    ensures knows { IfOk result (λ read. IfSome read (λ next. Knows syntax.now source.now next.from finder.new)) }
{
    match next_piece(alloc, source, syntax, finder, start.stage, start.from) {
        Ok(Some(piece)) => match hold(source, start, piece, tokens) {
            Ok(next) => Ok(Some(next)),
            Err(refused) => Err(refused),
        },
        Ok(None) => Ok(None),
        Err(refused) => Err(refused),
    }
}

/// Puts a token that was read from where the reader stands behind those that are held.
#[inline(always)]
pub(crate) fn hold<'source>(
    source: &str,
    at: Standing,
    piece: Piece<'source>,
    tokens: &mut Vec<(Token<'source>, Span)>,
) -> Result<Standing, ErrorKind>
    requires cut { IsCut source.now at.from piece }
    requires begins { BeginsBy source.now at.from at.stretch }
    ensures { Holds source.now piece.entry tokens.old.items tokens.new.items result }
{
    let Piece {
        token,
        stage,
        begin,
        end,
        next,
    } = piece;
    let mut stretch = at.stretch;
    let span = next_span(source, &mut stretch, begin, end);
    push(tokens, token, span)?;
    Ok(Standing {
        stage,
        from: next,
        stretch,
    })
}

/// Puts a token with its span behind those that are held.
#[inline(always)]
pub(crate) fn push<'source>(
    tokens: &mut Vec<(Token<'source>, Span)>,
    token: Token<'source>,
    span: Span,
) -> Result<(), ErrorKind>
    ensures { MatchResult result (λ _. tokens.new.items ≡ tokens.old.items ++ (token.entry, span) ∷ [])
        (λ kind. (tokens.new.items ≡ tokens.old.items) × (kind ≡ ErrorKind.OutOfMemory)) }
{
    match tokens.push((token, span)) {
        Ok(()) => Ok(()),
        Err(_refused) => Err(ErrorKind::OutOfMemory),
    }
}
