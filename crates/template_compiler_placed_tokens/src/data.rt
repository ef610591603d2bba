//! Data, and what begins behind it.
ghost use Rattle.std.specs.Prelude.{◌≡◌, ◌≤◌, ◌↔◌, ℕ, Some, IsTrue, length, codes};
ghost use Rattle.std.specs.Str.{IsCharBoundary};
ghost use Rattle.template_compiler_syntax.specs.Segments.{IsNextStart, HasNoStart, HoldsInside, only};
ghost use Rattle.template_compiler_syntax.specs.Known.{Knows};
ghost use Rattle.template_compiler_syntax.specs.Syntax.{IsUsable};
ghost use Rattle.template_compiler_placed_tokens.specs.Left.{data_tokens};
ghost use Rattle.template_compiler_placed_tokens.specs.Steps.{FindsRawData, Steps};
ghost use Rattle.template_compiler_syntax.specs.declared.edges.Edge.{Edge};

use crate::inside::Piece;
use crate::stage::Stage;
use crate::starts::inside_from;
use crate::words::{find_raw_end, only_word};
use template_compiler_syntax::{
    Edge, StartFinder, StartMarker, SyntaxConfig, Trim, comment_sign, data_start, data_text,
    find_line_end, find_text, is_first_on_line, newline_len, start_sign,
};
use template_compiler_tokens::Token;
use template_values_errors::ErrorKind;

/// A step over data.
#[derive(Drop)]
pub(crate) enum Step<'source> {
    /// A token was read.
    Reads(Piece<'source>),
    /// A segment without tokens was passed; data goes on at the place, behind this.
    Passes(Edge, usize),
    /// Nothing follows.
    Ends,
}

/// A step over the data at a place, behind what stands on its left: the data, or what begins behind it.
#[inline(always)]
pub(crate) fn data_step<'source>(
    source: &'source str,
    syntax: &SyntaxConfig,
    finder: &mut StartFinder,
    left: Edge,
    from: usize,
) -> Result<Step<'source>, ErrorKind>
    requires cut { IsCharBoundary source.now from }
    requires knows { Knows syntax.now source.now from finder.old }
    ensures step { Steps syntax.now source.now from (data_tokens syntax.now source.now left from) result }
    ensures knows { Knows syntax.now source.now from finder.new }
{
    let (_, _) = syntax.block_delimiters();
    match finder.next_start(source.as_bytes(), syntax, from) {
        Some((start, kind)) => before_start(source, syntax, left, from, start, kind),
        None => last_data(source, syntax, left, from),
    }
}

// The data behind which nothing begins.
fn last_data<'source>(
    source: &'source str,
    syntax: &SyntaxConfig,
    left: Edge,
    from: usize,
) -> Result<Step<'source>, ErrorKind>
    requires cut { IsCharBoundary source.now from }
    requires usable { IsUsable syntax.now }
    requires none { HasNoStart syntax.now source.now from }
    ensures { Steps syntax.now source.now from (data_tokens syntax.now source.now left from) result }
{
    let to = source.len();
    let text = data_text(source, syntax, left, Edge::Nothing, from, to);
    if is_nothing(text) {
        return Ok(Step::Ends);
    }
    let begin = data_start(source, syntax, left, from, to);
    Ok(Step::Reads(Piece {
        token: Token::TemplateData(text),
        stage: Stage::Data(Edge::Nothing),
        begin,
        end: begin + text.len(),
        next: to,
    }))
}

// The data before a start marker, or what begins there.
#[inline(always)]
fn before_start<'source>(
    source: &'source str,
    syntax: &SyntaxConfig,
    left: Edge,
    from: usize,
    start: usize,
    kind: StartMarker,
) -> Result<Step<'source>, ErrorKind>
    requires cut { IsCharBoundary source.now from }
    requires usable { IsUsable syntax.now }
    requires start { IsNextStart syntax.now source.now from start kind }
    ensures { Steps syntax.now source.now from (data_tokens syntax.now source.now left from) result }
{
    let _inside = inside_from(source, syntax, kind, start);
    let right = Edge::Beside(kind, start_sign(source.as_bytes(), syntax, kind, start));
    let text = data_text(source, syntax, left, right, from, start);
    if is_nothing(text) {
        return enter(source, syntax, kind, start);
    }
    let begin = data_start(source, syntax, left, from, start);
    Ok(Step::Reads(Piece {
        token: Token::TemplateData(text),
        stage: Stage::Start(kind),
        begin,
        end: begin + text.len(),
        next: start,
    }))
}

/// What begins at a start marker.
#[inline(always)]
pub(crate) fn enter<'source>(
    source: &'source str,
    syntax: &SyntaxConfig,
    kind: StartMarker,
    start: usize,
) -> Result<Step<'source>, ErrorKind>
    requires usable { IsUsable syntax.now }
    requires start { IsNextStart syntax.now source.now start start kind }
    ensures { Steps syntax.now source.now start (data_tokens syntax.now source.now Edge.Nothing start) result }
{
    match kind {
        StartMarker::Variable => enter_print(source, syntax, start),
        StartMarker::Block => enter_block(source, syntax, start),
        StartMarker::Comment => enter_comment(source, syntax, start),
        StartMarker::LineStatement => enter_line_statement(source, syntax, start),
        StartMarker::LineComment => enter_line_comment(source, syntax, start),
    }
}

// A print begins: its start is a token.
fn enter_print<'source>(
    source: &'source str,
    syntax: &SyntaxConfig,
    start: usize,
) -> Result<Step<'source>, ErrorKind>
    requires usable { IsUsable syntax.now }
    requires start { IsNextStart syntax.now source.now start start StartMarker.Variable }
    ensures { Steps syntax.now source.now start (data_tokens syntax.now source.now Edge.Nothing start) result }
{
    let inside = inside_from(source, syntax, StartMarker::Variable, start);
    Ok(Step::Reads(Piece {
        token: Token::VariableStart,
        stage: Stage::Inside(StartMarker::Variable, 0),
        begin: start,
        end: inside,
        next: inside,
    }))
}

// A line statement begins.
fn enter_line_statement<'source>(
    source: &'source str,
    syntax: &SyntaxConfig,
    start: usize,
) -> Result<Step<'source>, ErrorKind>
    requires usable { IsUsable syntax.now }
    requires start { IsNextStart syntax.now source.now start start StartMarker.LineStatement }
    ensures { Steps syntax.now source.now start (data_tokens syntax.now source.now Edge.Nothing start) result }
{
    let inside = inside_from(source, syntax, StartMarker::LineStatement, start);
    Ok(Step::Reads(Piece {
        token: Token::BlockStart,
        stage: Stage::Inside(StartMarker::LineStatement, 0),
        begin: start,
        end: inside,
        next: inside,
    }))
}

// A block begins, or raw data.
#[inline(always)]
fn enter_block<'source>(
    source: &'source str,
    syntax: &SyntaxConfig,
    start: usize,
) -> Result<Step<'source>, ErrorKind>
    requires usable { IsUsable syntax.now }
    requires start { IsNextStart syntax.now source.now start start StartMarker.Block }
    ensures { Steps syntax.now source.now start (data_tokens syntax.now source.now Edge.Nothing start) result }
{
    let inside = inside_from(source, syntax, StartMarker::Block, start);
    match only_word(source, syntax, inside, "raw") {
        Some((inner, from)) => enter_raw(source, syntax, start, inner, from),
        None => Ok(Step::Reads(Piece {
            token: Token::BlockStart,
            stage: Stage::Inside(StartMarker::Block, 0),
            begin: start,
            end: inside,
            next: inside,
        })),
    }
}

// Raw data, up to the block that ends it.
fn enter_raw<'source>(
    source: &'source str,
    syntax: &SyntaxConfig,
    start: usize,
    inner: Trim,
    from: usize,
) -> Result<Step<'source>, ErrorKind>
    requires usable { IsUsable syntax.now }
    requires start { IsNextStart syntax.now source.now start start StartMarker.Block }
    requires raw { HoldsInside syntax.now source.now StartMarker.Block start (only (codes "raw")) (Some (inner, from)) }
    requires cut { IsCharBoundary source.now from }
    ensures { Steps syntax.now source.now start (data_tokens syntax.now source.now Edge.Nothing start) result }
{
    let Some(raw) = raw_data(source, syntax, inner, from) else {
        return Err(ErrorKind::SyntaxError);
    };
    let RawData {
        text,
        begin,
        last,
        next,
    } = raw;
    if is_nothing(text) {
        return Ok(Step::Passes(Edge::Beside(StartMarker::Block, last), next));
    }
    Ok(Step::Reads(Piece {
        token: Token::TemplateData(text),
        stage: Stage::Data(Edge::Beside(StartMarker::Block, last)),
        begin,
        end: begin + text.len(),
        next,
    }))
}

/// What is left of a raw block's data, and where it ends.
#[derive(Clone, Copy)]
pub struct RawData<'source> {
    /// The data, which may be empty.
    pub text: &'source str,
    /// Where it begins.
    pub begin: usize,
    /// The sign of the end of the block that ends it.
    pub last: Trim,
    /// The place behind that block.
    pub next: usize,
}

/// The data of a raw block, up to the block that ends it. Its inside begins at the place, behind the sign of its own end.
#[inline(always)]
pub fn raw_data<'source>(
    source: &'source str,
    syntax: &SyntaxConfig,
    inner: Trim,
    from: usize,
) -> Option<RawData<'source>>
    requires usable { IsUsable syntax.now }
    requires cut { IsCharBoundary source.now from }
    ensures { (i : ℕ) → IsNextStart syntax.now source.now i i StartMarker.Block →
        HoldsInside syntax.now source.now StartMarker.Block i (only (codes "raw")) (Some (inner, from)) →
        FindsRawData syntax.now source.now i result }
{
    let Some((to, last, next)) = find_raw_end(source, syntax, from) else {
        return None;
    };
    let _inside = inside_from(source, syntax, StartMarker::Block, to);
    let right = Edge::Beside(
        StartMarker::Block,
        start_sign(source.as_bytes(), syntax, StartMarker::Block, to),
    );
    let left = Edge::Beside(StartMarker::Block, inner);
    let text = data_text(source, syntax, left, right, from, to);
    let begin = data_start(source, syntax, left, from, to);
    Some(RawData {
        text,
        begin,
        last,
        next,
    })
}

// A comment, up to its first end.
fn enter_comment<'source>(
    source: &'source str,
    syntax: &SyntaxConfig,
    start: usize,
) -> Result<Step<'source>, ErrorKind>
    requires usable { IsUsable syntax.now }
    requires start { IsNextStart syntax.now source.now start start StartMarker.Comment }
    ensures { Steps syntax.now source.now start (data_tokens syntax.now source.now Edge.Nothing start) result }
{
    let bytes = source.as_bytes();
    let inside = inside_from(source, syntax, StartMarker::Comment, start);
    let text = syntax.comment_delimiters().1;
    match find_text(bytes, inside, text.as_bytes()) {
        Some(end) => {
            let last = comment_sign(bytes, inside, end);
            Ok(Step::Passes(Edge::Beside(StartMarker::Comment, last), end + text.len()))
        }
        None => Err(ErrorKind::SyntaxError),
    }
}

// A line comment, with its newline where it begins its line.
fn enter_line_comment<'source>(
    source: &'source str,
    syntax: &SyntaxConfig,
    start: usize,
) -> Result<Step<'source>, ErrorKind>
    requires usable { IsUsable syntax.now }
    requires start { IsNextStart syntax.now source.now start start StartMarker.LineComment }
    ensures { Steps syntax.now source.now start (data_tokens syntax.now source.now Edge.Nothing start) result }
{
    let bytes = source.as_bytes();
    let inside = inside_from(source, syntax, StartMarker::LineComment, start);
    let end = find_line_end(bytes, inside);
    let edge = Edge::Beside(StartMarker::LineComment, Trim::Plain);
    if is_first_on_line(bytes, start) {
        Ok(Step::Passes(edge, end + newline_len(bytes, end)))
    } else {
        Ok(Step::Passes(edge, end))
    }
}

/// Whether nothing is left of data.
pub fn is_nothing(text: &str) -> bool
    ensures { IsTrue result ↔ (length text.now ≡ 0) }
{
    text.is_empty()
}
