// Steps over data, whose tokens are held.
ghost use Rattle.std.specs.Prelude.{◌≡◌, ◌≤◌, ℕ, IsTrue, length};
ghost use Rattle.std.specs.Str.{IsCharBoundary};
ghost use Rattle.template_compiler_tokens.specs.Stretches.{BeginsBy};
ghost use Rattle.template_compiler_tokens.specs.declared.stretch.Stretch.{Stretch};
ghost use Rattle.template_compiler_syntax.specs.Known.{Knows};
ghost use Rattle.template_compiler_syntax.specs.Segments.{HasNoStart, IsNextStart, inside_from as the_inside_from, start_sign as sign_of_start};
ghost use Rattle.template_compiler_syntax.specs.declared.edges.Edge.{Edge};
ghost use Rattle.template_compiler_syntax.specs.Syntax.{Syntax, IsUsable};
ghost use Rattle.template_compiler_tokens.specs.Lexical.{Begins};
ghost use Rattle.template_compiler_tokens.specs.Token.{identifier};
ghost use Rattle.template_compiler_tokens.specs.View.{token_of};
ghost use Rattle.template_compiler_placed_tokens.specs.Left.{data_tokens};
ghost use Rattle.template_compiler_tokenizer.specs.Reaches.{FindsBlack, HoldsNext, HoldsUpTo, Reaches, ReadsRaw};

use crate::all::push;
use template_compiler_placed_tokens::{inside_from, is_nothing, is_white_at, only_word, raw_data};
use template_compiler_syntax::{
    Edge, Start, StartFinder, StartMarker, SyntaxConfig, Trim, comment_sign, data_between,
    find_text,
};
use template_compiler_tokens::{Stretch, Token, next_span};
use template_compiler_tree::Span;
use template_values_errors::ErrorKind;

/// What a reader reached from a place in data on.
#[derive(Clone, Copy)]
pub(crate) enum Reached {
    /// The inside of a segment of the kind.
    Inside(StartMarker),
    /// Data, behind a segment of the kind whose end has the sign.
    Data(StartMarker, Trim),
    /// A start marker of the kind, which is not entered yet.
    Start(StartMarker),
    /// The end: nothing follows.
    End,
    /// What is refused, and the kind says why; or memory was wanting.
    Refused(ErrorKind),
}

/// Reads the data at a place, behind what stands on its left, and what begins behind it if that is short to read.
#[inline(always)]
pub(crate) fn read_data<'source>(
    source: &'source str,
    syntax: &SyntaxConfig,
    finder: &mut StartFinder,
    left: Edge,
    from: &mut usize,
    stretch: &mut Stretch,
    tokens: &mut Vec<(Token<'source>, Span)>,
) -> Reached
    requires cut { IsCharBoundary source.now from.old }
    requires knows { Knows syntax.now source.now from.old finder.old }
    requires begins { BeginsBy source.now from.old stretch.old }
    ensures reached { Reaches syntax.now source.now tokens.old.items from.old (data_tokens syntax.now source.now left from.old)
        tokens.new.items from.new stretch.new result }
    ensures knows { Knows syntax.now source.now from.old finder.new }
{
    let (_, _) = syntax.block_delimiters();
    match finder.find_start(source.as_bytes(), syntax, *from) {
        Some(start) => {
            let _inside = inside_from(source, syntax, start.kind, start.place);
            match hold_data(source, syntax, left, start, *from, stretch, tokens) {
                Ok(()) => read_start(source, syntax, start, from, stretch, tokens),
                Err(kind) => Reached::Refused(kind),
            }
        }
        None => read_last(source, syntax, left, *from, *stretch, tokens),
    }
}

// The data behind which nothing begins.
#[inline(never)]
fn read_last<'source>(
    source: &'source str,
    syntax: &SyntaxConfig,
    left: Edge,
    from: usize,
    stretch: Stretch,
    tokens: &mut Vec<(Token<'source>, Span)>,
) -> Reached
    requires cut { IsCharBoundary source.now from }
    requires usable { IsUsable syntax.now }
    requires none { HasNoStart syntax.now source.now from }
    requires begins { BeginsBy source.now from stretch }
    ensures { (next : ℕ) (behind : Stretch) →
        Reaches syntax.now source.now tokens.old.items from (data_tokens syntax.now source.now left from) tokens.new.items next behind
        result }
{
    let to = source.len();
    let (text, begin) = data_between(source, syntax, left, Edge::Nothing, from, to);
    if is_nothing(text) {
        return Reached::End;
    }
    let mut stretch = stretch;
    let token = Token::TemplateData(text);
    match hold_token(
        source,
        token,
        begin,
        begin + text.len(),
        &mut stretch,
        tokens,
    ) {
        Ok(()) => Reached::End,
        Err(kind) => Reached::Refused(kind),
    }
}

// The data before a start marker, if any is left of it. Most segments follow one another.
#[inline(always)]
fn hold_data<'source>(
    source: &'source str,
    syntax: &SyntaxConfig,
    left: Edge,
    start: Start,
    from: usize,
    stretch: &mut Stretch,
    tokens: &mut Vec<(Token<'source>, Span)>,
) -> Result<(), ErrorKind>
    requires cut { IsCharBoundary source.now from }
    requires usable { IsUsable syntax.now }
    requires start { IsNextStart syntax.now source.now from start.place start.kind }
    requires sign { start.sign ≡ sign_of_start syntax.now source.now start.kind start.place }
    requires place { IsCharBoundary source.now start.place }
    requires begins { BeginsBy source.now from stretch.old }
    ensures { HoldsUpTo source.now tokens.old.items (data_tokens syntax.now source.now left from)
        tokens.new.items (data_tokens syntax.now source.now Edge.Nothing start.place) start.place stretch.new result }
{
    if from == start.place {
        return Ok(());
    }
    let right = Edge::Beside(start.kind, start.sign);
    let (text, begin) = data_between(source, syntax, left, right, from, start.place);
    if is_nothing(text) {
        return Ok(());
    }
    let token = Token::TemplateData(text);
    hold_token(source, token, begin, begin + text.len(), stretch, tokens)
}

// Puts a token between two places behind those that are held.
#[inline(always)]
fn hold_token<'source>(
    source: &str,
    token: Token<'source>,
    begin: usize,
    end: usize,
    stretch: &mut Stretch,
    tokens: &mut Vec<(Token<'source>, Span)>,
) -> Result<(), ErrorKind>
    requires begins { BeginsBy source.now begin stretch.old }
    requires ordered { begin ≤ end }
    requires within { end ≤ length source.now }
    ensures held { HoldsNext source.now tokens.old.items (token_of token.entry) begin end tokens.new.items result }
    ensures begins { BeginsBy source.now end stretch.new }
{
    let span = next_span(source, stretch, begin, end);
    push(tokens, token, span)
}

// What begins at a start marker.
#[inline(always)]
fn read_start<'source>(
    source: &'source str,
    syntax: &SyntaxConfig,
    start: Start,
    from: &mut usize,
    stretch: &mut Stretch,
    tokens: &mut Vec<(Token<'source>, Span)>,
) -> Reached
    requires usable { IsUsable syntax.now }
    requires start { IsNextStart syntax.now source.now start.place start.place start.kind }
    requires inside { start.inside ≡ the_inside_from syntax.now source.now start.kind start.place }
    requires begins { BeginsBy source.now start.place stretch.old }
    ensures { Reaches syntax.now source.now tokens.old.items start.place (data_tokens syntax.now source.now Edge.Nothing start.place)
        tokens.new.items from.new stretch.new result }
{
    match start.kind {
        StartMarker::Variable => read_print(source, syntax, start, from, stretch, tokens),
        StartMarker::Block => read_block(source, syntax, start, from, stretch, tokens),
        StartMarker::Comment => read_comment(source, syntax, start, from, stretch, tokens),
        StartMarker::LineStatement | StartMarker::LineComment => {
            let _inside = inside_from(source, syntax, start.kind, start.place);
            *from = start.place;
            Reached::Start(start.kind)
        }
    }
}

// A print begins: its start is a token.
#[inline(always)]
fn read_print<'source>(
    source: &'source str,
    syntax: &SyntaxConfig,
    start: Start,
    from: &mut usize,
    stretch: &mut Stretch,
    tokens: &mut Vec<(Token<'source>, Span)>,
) -> Reached
    requires usable { IsUsable syntax.now }
    requires start { IsNextStart syntax.now source.now start.place start.place StartMarker.Variable }
    requires inside { start.inside ≡ the_inside_from syntax.now source.now StartMarker.Variable start.place }
    requires begins { BeginsBy source.now start.place stretch.old }
    ensures { Reaches syntax.now source.now tokens.old.items start.place (data_tokens syntax.now source.now Edge.Nothing start.place)
        tokens.new.items from.new stretch.new result }
{
    let _inside = inside_from(source, syntax, StartMarker::Variable, start.place);
    *from = start.inside;
    match hold_token(
        source,
        Token::VariableStart,
        start.place,
        start.inside,
        stretch,
        tokens,
    ) {
        Ok(()) => Reached::Inside(StartMarker::Variable),
        Err(kind) => Reached::Refused(kind),
    }
}

// A block begins, and its start is a token; or raw data, which is read.
#[inline(always)]
fn read_block<'source>(
    source: &'source str,
    syntax: &SyntaxConfig,
    start: Start,
    from: &mut usize,
    stretch: &mut Stretch,
    tokens: &mut Vec<(Token<'source>, Span)>,
) -> Reached
    requires usable { IsUsable syntax.now }
    requires start { IsNextStart syntax.now source.now start.place start.place StartMarker.Block }
    requires inside { start.inside ≡ the_inside_from syntax.now source.now StartMarker.Block start.place }
    requires begins { BeginsBy source.now start.place stretch.old }
    ensures { Reaches syntax.now source.now tokens.old.items start.place (data_tokens syntax.now source.now Edge.Nothing start.place)
        tokens.new.items from.new stretch.new result }
{
    let _inside = inside_from(source, syntax, StartMarker::Block, start.place);
    let place = behind_white_space(source, start.inside);
    let rest = source.split_at(place).1;
    if may_begin_with(rest.as_bytes(), "raw".as_bytes()) {
        let mut next = start.place;
        let mut behind = *stretch;
        match read_raw(source, syntax, start.inside, &mut next, &mut behind, tokens) {
            Raw::Data(last) => {
                *from = next;
                *stretch = behind;
                return Reached::Data(StartMarker::Block, last);
            }
            Raw::Refused(kind) => return Reached::Refused(kind),
            Raw::Other => {}
        }
    }
    *from = place;
    match hold_token(
        source,
        Token::BlockStart,
        start.place,
        start.inside,
        stretch,
        tokens,
    ) {
        Ok(()) => Reached::Inside(StartMarker::Block),
        Err(kind) => Reached::Refused(kind),
    }
}

// Whether the text may begin with the word, by its first byte. Most blocks are told so from raw ones.
fn may_begin_with(text: &[u8], word: &[u8]) -> bool
    ensures { (n : ℕ) → Begins text.now (identifier word.now) n → IsTrue result }
{
    match word.first() {
        Some(wanted) => match text.first() {
            Some(first) => *first == *wanted,
            None => true,
        },
        None => true,
    }
}

// What a block is that may be raw data.
#[derive(Clone, Copy)]
pub(crate) enum Raw {
    /// Raw data, which the end of a block with this sign ends.
    Data(Trim),
    /// Raw data that never ends; or memory was wanting.
    Refused(ErrorKind),
    /// Another block.
    Other,
}

// Reads raw data, if the block is such that begins at the place and has its inside at the other.
// Few blocks are asked: the reader's place and stretch are copies, so that those of all others stay in registers.
#[inline(never)]
fn read_raw<'source>(
    source: &'source str,
    syntax: &SyntaxConfig,
    inside: usize,
    from: &mut usize,
    stretch: &mut Stretch,
    tokens: &mut Vec<(Token<'source>, Span)>,
) -> Raw
    requires usable { IsUsable syntax.now }
    requires start { IsNextStart syntax.now source.now from.old from.old StartMarker.Block }
    requires inside { inside ≡ the_inside_from syntax.now source.now StartMarker.Block from.old }
    requires cut { IsCharBoundary source.now inside }
    requires begins { BeginsBy source.now from.old stretch.old }
    ensures { ReadsRaw syntax.now source.now tokens.old.items from.old tokens.new.items from.new stretch.new result }
{
    match only_word(source, syntax, inside, "raw") {
        Some((inner, begin)) => match raw_data(source, syntax, inner, begin) {
            Some(raw) => {
                *from = raw.next;
                if is_nothing(raw.text) {
                    return Raw::Data(raw.last);
                }
                let end = raw.begin + raw.text.len();
                let token = Token::TemplateData(raw.text);
                match hold_token(source, token, raw.begin, end, stretch, tokens) {
                    Ok(()) => Raw::Data(raw.last),
                    Err(kind) => Raw::Refused(kind),
                }
            }
            None => Raw::Refused(ErrorKind::SyntaxError),
        },
        None => Raw::Other,
    }
}

// Where the white space ends that stands at a place in a block.
#[inline(always)]
fn behind_white_space(source: &str, from: usize) -> usize
    requires { IsCharBoundary source.now from }
    ensures { (x : Syntax) → FindsBlack x source.now from result }
{
    let bytes = source.as_bytes();
    let mut place = from;
    while is_white_at(bytes, place) {
        place += 1;
    }
    place
}

// A comment, up to its first end.
#[inline(always)]
fn read_comment<'source>(
    source: &str,
    syntax: &SyntaxConfig,
    start: Start,
    from: &mut usize,
    stretch: &Stretch,
    tokens: &Vec<(Token<'source>, Span)>,
) -> Reached
    requires usable { IsUsable syntax.now }
    requires start { IsNextStart syntax.now source.now start.place start.place StartMarker.Comment }
    requires inside { start.inside ≡ the_inside_from syntax.now source.now StartMarker.Comment start.place }
    requires begins { BeginsBy source.now start.place stretch.now }
    ensures { Reaches syntax.now source.now tokens.now.items start.place (data_tokens syntax.now source.now Edge.Nothing start.place)
        tokens.now.items from.new stretch.now result }
{
    let _inside = inside_from(source, syntax, StartMarker::Comment, start.place);
    let bytes = source.as_bytes();
    let text = syntax.comment_delimiters().1;
    match find_text(bytes, start.inside, text.as_bytes()) {
        Some(end) => {
            *from = end + text.len();
            Reached::Data(StartMarker::Comment, comment_sign(bytes, start.inside, end))
        }
        None => Reached::Refused(ErrorKind::SyntaxError),
    }
}
