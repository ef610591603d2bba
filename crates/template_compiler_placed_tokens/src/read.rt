//! The next token from a place on.
ghost use Rattle.std.specs.Prelude.{◌≡◌, IfOk, IfSome};
ghost use Rattle.std.specs.Str.{IsCharBoundary};
ghost use Rattle.template_compiler_syntax.specs.Known.{Knows};
ghost use Rattle.template_compiler_syntax.specs.Segments.{IsNextStart};
ghost use Rattle.template_compiler_syntax.specs.declared.edges.Edge.{Edge};
ghost use Rattle.template_compiler_placed_tokens.specs.Left.{data_tokens, left_at};
ghost use Rattle.template_compiler_placed_tokens.specs.Reads.{IsStage};
ghost use Rattle.template_compiler_placed_tokens.specs.Read.{ReadsOrEnds};

use crate::data::{Step, data_step, enter};
use crate::inside::{Piece, next_inside};
use crate::stage::Stage;
use std::alloc::Global;
use template_compiler_syntax::{Edge, StartFinder, StartMarker, SyntaxConfig};
use template_values_errors::ErrorKind;

/// The next token from a place in data on, behind what stands on its left; none at the end. Comments are passed.
pub(crate) fn next_in_data<'source>(
    source: &'source str,
    syntax: &SyntaxConfig,
    finder: &mut StartFinder,
    left: Edge,
    from: usize,
) -> Result<Option<Piece<'source>>, ErrorKind>
    requires cut { IsCharBoundary source.now from }
    requires knows { Knows syntax.now source.now from finder.old }
    ensures read { ReadsOrEnds syntax.now source.now from (data_tokens syntax.now source.now left from) result }
    ensures knows { IfOk result (λ read. IfSome read (λ piece. Knows syntax.now source.now piece.next finder.new)) }
{
    let mut edge = left;
    let mut place = from;
    loop {
        match data_step(source, syntax, finder, edge, place) {
            Ok(Step::Reads(piece)) => return Ok(Some(piece)),
            Ok(Step::Passes(passed, next)) => {
                edge = passed;
                place = next;
            }
            Ok(Step::Ends) => return Ok(None),
            Err(kind) => return Err(kind),
        }
    }
}

// The next token from a start marker on; none at the end.
fn next_at_start<'source>(
    source: &'source str,
    syntax: &SyntaxConfig,
    finder: &mut StartFinder,
    kind: StartMarker,
    start: usize,
) -> Result<Option<Piece<'source>>, ErrorKind>
    requires start { IsNextStart syntax.now source.now start start kind }
    requires knows { Knows syntax.now source.now start finder.old }
    ensures read { ReadsOrEnds syntax.now source.now start (data_tokens syntax.now source.now Edge.Nothing start) result }
    ensures knows { IfOk result (λ read. IfSome read (λ piece. Knows syntax.now source.now piece.next finder.new)) }
{
    let (_, _) = syntax.block_delimiters();
    match enter(source, syntax, kind, start) {
        Ok(Step::Reads(piece)) => Ok(Some(piece)),
        Ok(Step::Passes(edge, next)) => next_in_data(source, syntax, finder, edge, next),
        Ok(Step::Ends) => Ok(None),
        Err(refused) => Err(refused),
    }
}

/// The next token from a place on, where this stands; none at the end.
#[inline(never)]
pub fn next_piece<'source>(
    alloc: Global,
    source: &'source str,
    syntax: &SyntaxConfig,
    finder: &mut StartFinder,
    stage: Stage,
    from: usize,
) -> Result<Option<Piece<'source>>, ErrorKind>
    requires stage { IsStage syntax.now source.now stage from }
    requires knows { Knows syntax.now source.now from finder.old }
    ensures read { ReadsOrEnds syntax.now source.now from (left_at syntax.now source.now stage from) result }
    ensures knows { IfOk result (λ read. IfSome read (λ piece. Knows syntax.now source.now piece.next finder.new)) }
{
    match stage {
        Stage::Data(left) => next_in_data(source, syntax, finder, left, from),
        Stage::Start(kind) => next_at_start(source, syntax, finder, kind, from),
        Stage::Inside(kind, depth) => match next_inside(alloc, source, syntax, kind, depth, from) {
            Ok(piece) => Ok(Some(piece)),
            Err(refused) => Err(refused),
        },
    }
}
