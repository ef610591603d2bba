//! The search for the next start marker.
ghost use Rattle.std.specs.Prelude.{◌≡◌, ◌≤◌, ◌+◌, ◌<◌, ◌↔◌, ℕ, List, [], ◌∷◌, IsTrue, MatchOption, Option, None, slice_index, length};
ghost use Rattle.memchr.specs.Find.{IsFirstByte, is_byte};
ghost use Rattle.std.specs.Bool.{OnTrue};
ghost use Rattle.template_compiler_syntax.specs.Syntax.{Syntax, IsSet, HasDefaultStarts, start_text as start_of};
ghost use Rattle.template_compiler_syntax.specs.declared.StartMarker.{StartMarker};
ghost use Rattle.template_compiler_syntax.specs.Places.{IsFirst, IsNowhere};
ghost use Rattle.template_compiler_syntax.specs.Segments.{IsEligible, inside_from as the_inside_from, start_sign as sign_of_start};
ghost use Rattle.template_compiler_syntax.specs.Known.{IsKnown, IsSought, IsNearer, StaysNearest, IsNextOrNone, IsBraces, IsBracesOf};

use crate::edges::Trim;
use crate::places::{find_text, is_first_on_line, rest_from};
use crate::{StartMarker, SyntaxConfig};
use memchr::memchr;
use template_compiler_tokens::goes_before;

/// What is known of the start markers of one kind from a place on.
#[derive(Clone, Copy)]
pub enum Known {
    /// Nothing yet.
    Unsearched,
    /// None stands before this one.
    At(usize),
    /// There is none.
    Nowhere,
}

/// A start marker in a source.
#[derive(Clone, Copy)]
pub struct Start {
    /// Which one.
    pub kind: StartMarker,
    /// The sign behind it.
    pub sign: Trim,
    /// Where it begins.
    pub place: usize,
    /// Where the inside of its segment begins, behind the sign.
    pub inside: usize,
}

/// Searches one source for start markers, from left to right, in time that grows with the source alone:
/// it keeps where the next marker of each kind stands.
#[derive(Drop)]
pub struct StartFinder {
    pub has_default_starts: bool,
    pub variable: Known,
    pub block: Known,
    pub comment: Known,
    pub line_statement: Known,
    pub line_comment: Known,
}

impl StartFinder {
    ghost use Rattle.template_compiler_syntax.specs.Known.{FindsStart, Knows};

    /// A finder for one source under the syntax.
    pub fn new(syntax: &SyntaxConfig) -> StartFinder
        ensures { (s : List ℕ) → Knows syntax.now s 0 result }
    {
        StartFinder {
            has_default_starts: syntax.has_default_starts(),
            variable: Known::Unsearched,
            block: Known::Unsearched,
            comment: Known::Unsearched,
            line_statement: Known::Unsearched,
            line_comment: Known::Unsearched,
        }
    }

    /// The next start marker from a place on: the leftmost that is eligible, and there the longest.
    /// The searches of one source go from left to right.
    #[inline(always)]
    pub fn next_start(
        &mut self,
        bytes: &[u8],
        syntax: &SyntaxConfig,
        from: usize,
    ) -> Option<(usize, StartMarker)>
        requires within { from ≤ length bytes.now }
        requires knows { Knows syntax.now bytes.now from self.old }
        ensures found { IsNextOrNone syntax.now bytes.now from result }
        ensures knows { Knows syntax.now bytes.now from self.new }
    {
        if self.has_default_starts {
            find_braces(bytes, from)
        } else {
            self.find_nearest(bytes, syntax, from)
        }
    }

    /// The same with the marker's sign, and where the inside of its segment begins.
    #[inline(always)]
    pub fn find_start(&mut self, bytes: &[u8], syntax: &SyntaxConfig, from: usize) -> Option<Start>
        requires within { from ≤ length bytes.now }
        requires knows { Knows syntax.now bytes.now from self.old }
        ensures found { FindsStart syntax.now bytes.now from result }
        ensures knows { Knows syntax.now bytes.now from self.new }
    {
        if self.has_default_starts {
            match find_braces(bytes, from) {
                Some((place, kind)) => Some(start_at(bytes, kind, place, place + 2)),
                None => None,
            }
        } else {
            self.find_nearest_start(bytes, syntax, from)
        }
    }

    #[inline(never)]
    fn find_nearest_start(
        &mut self,
        bytes: &[u8],
        syntax: &SyntaxConfig,
        from: usize,
    ) -> Option<Start>
        requires within { from ≤ length bytes.now }
        requires knows { Knows syntax.now bytes.now from self.old }
        ensures found { FindsStart syntax.now bytes.now from result }
        ensures knows { Knows syntax.now bytes.now from self.new }
    {
        match self.find_nearest(bytes, syntax, from) {
            Some((place, kind)) => {
                let behind = place + start_len(syntax, kind);
                Some(start_at(bytes, kind, place, behind))
            }
            None => None,
        }
    }

    #[inline(never)]
    fn find_nearest(
        &mut self,
        bytes: &[u8],
        syntax: &SyntaxConfig,
        from: usize,
    ) -> Option<(usize, StartMarker)>
        requires within { from ≤ length bytes.now }
        requires knows { Knows syntax.now bytes.now from self.old }
        ensures found { IsNextOrNone syntax.now bytes.now from result }
        ensures knows { Knows syntax.now bytes.now from self.new }
    {
        let variable = next_known(self.variable, bytes, syntax, from, StartMarker::Variable);
        let block = next_known(self.block, bytes, syntax, from, StartMarker::Block);
        let comment = next_known(self.comment, bytes, syntax, from, StartMarker::Comment);
        let line_statement = next_known(
            self.line_statement,
            bytes,
            syntax,
            from,
            StartMarker::LineStatement,
        );
        let line_comment = next_known(
            self.line_comment,
            bytes,
            syntax,
            from,
            StartMarker::LineComment,
        );
        self.variable = variable;
        self.block = block;
        self.comment = comment;
        self.line_statement = line_statement;
        self.line_comment = line_comment;
        let nearest = nearer(syntax, None, variable, StartMarker::Variable);
        let nearest = nearer(syntax, nearest, block, StartMarker::Block);
        let nearest = nearer(syntax, nearest, comment, StartMarker::Comment);
        let nearest = nearer(syntax, nearest, line_statement, StartMarker::LineStatement);
        nearer(syntax, nearest, line_comment, StartMarker::LineComment)
    }
}

// The start marker of the kind that stands between two places.
fn start_at(bytes: &[u8], kind: StartMarker, place: usize, behind: usize) -> Start
    requires { behind ≤ length bytes.now }
    ensures kind { result.kind ≡ kind }
    ensures place { result.place ≡ place }
    ensures sign { (x : Syntax) → behind ≡ place + length (start_of x kind) → result.sign ≡ sign_of_start x bytes.now kind place }
    ensures inside { (x : Syntax) → behind ≡ place + length (start_of x kind) → result.inside ≡ the_inside_from x bytes.now kind place }
{
    let sign = match kind {
        StartMarker::Variable | StartMarker::Block | StartMarker::Comment => Trim::at(
            bytes, behind,
        ),
        StartMarker::LineStatement | StartMarker::LineComment => Trim::Plain,
    };
    Start {
        kind,
        sign,
        place,
        inside: behind + sign.width(),
    }
}

// The nearer of a start marker and the first one of another kind; of two at one place the longer.
fn nearer(
    syntax: &SyntaxConfig,
    nearest: Option<(usize, StartMarker)>,
    known: Known,
    kind: StartMarker,
) -> Option<(usize, StartMarker)>
    ensures { IsNearer syntax.now nearest known kind result }
{
    let Known::At(place) = known else {
        return nearest;
    };
    match nearest {
        Some((nearest_place, nearest_kind)) => {
            if stays_nearest(syntax, nearest_place, nearest_kind, place, kind) {
                nearest
            } else {
                Some((place, kind))
            }
        }
        None => Some((place, kind)),
    }
}

fn stays_nearest(
    syntax: &SyntaxConfig,
    nearest_place: usize,
    nearest_kind: StartMarker,
    place: usize,
    kind: StartMarker,
) -> bool
    ensures { IsTrue result ↔ StaysNearest syntax.now nearest_place nearest_kind place kind }
{
    let nearest_len = start_len(syntax, nearest_kind);
    let len = start_len(syntax, kind);
    goes_before(nearest_place, nearest_len, place, len)
}

fn start_len(syntax: &SyntaxConfig, kind: StartMarker) -> usize
    ensures { result ≡ length (start_of syntax.now kind) }
{
    syntax.start_text(kind).len()
}

// Where the first start marker of the kind stands from the place on; it is sought where the one that is known is behind.
fn next_known(
    known: Known,
    bytes: &[u8],
    syntax: &SyntaxConfig,
    from: usize,
    kind: StartMarker,
) -> Known
    requires within { from ≤ length bytes.now }
    requires known { IsKnown syntax.now bytes.now from kind known }
    ensures { IsSought syntax.now bytes.now from kind result }
{
    match known {
        Known::Nowhere => known,
        Known::At(place) if place >= from => known,
        _ => find_marker(bytes, syntax, from, kind),
    }
}

// The first start marker of the kind from the place on.
fn find_marker(bytes: &[u8], syntax: &SyntaxConfig, from: usize, kind: StartMarker) -> Known
    requires { from ≤ length bytes.now }
    ensures { IsSought syntax.now bytes.now from kind result }
{
    let text = syntax.start_text(kind).as_bytes();
    if text.is_empty() {
        return Known::Nowhere;
    }
    let mut at = from;
    while let Some(place) = find_text(bytes, at, text) {
        if is_eligible(bytes, place, kind) {
            return Known::At(place);
        }
        at = place + 1;
    }
    Known::Nowhere
}

// A line statement begins where only spaces and tabs stand before it on its line.
fn is_eligible(bytes: &[u8], place: usize, kind: StartMarker) -> bool
    requires { place ≤ length bytes.now }
    ensures { IsTrue result ↔ IsEligible kind bytes.now place }
{
    match kind {
        StartMarker::LineStatement => is_first_on_line(bytes, place),
        _ => true,
    }
}

// The next start marker of the default syntax.
fn find_braces(bytes: &[u8], from: usize) -> Option<(usize, StartMarker)>
    requires { from ≤ length bytes.now }
    ensures { (x : Syntax) → HasDefaultStarts x → IsNextOrNone x bytes.now from result }
{
    let mut at = from;
    while let Some(skipped) = find_brace(rest_from(bytes, at)) {
        let brace = at + skipped;
        match marker_at(bytes, brace) {
            Some(kind) => return Some((brace, kind)),
            None => at = brace + 1,
        }
    }
    None
}

// Where the first `{` stands. Most segments follow one another, or a byte of data.
fn find_brace(rest: &[u8]) -> Option<usize>
    ensures { IsFirstByte (is_byte 123) rest.now result }
{
    match rest {
        [b'{', ..] => Some(0),
        [_, b'{', ..] => Some(1),
        _ => memchr(b'{', rest),
    }
}

// The start marker of the default syntax whose `{` stands at the place.
fn marker_at(bytes: &[u8], brace: usize) -> Option<StartMarker>
    requires within { brace < length bytes.now }
    requires opens { slice_index bytes.now brace ≡ 123 }
    ensures { MatchOption result (IsBraces bytes.now brace → ⊥) (λ kind. IsBraces bytes.now brace × IsBracesOf bytes.now brace kind) }
{
    match bytes.get(brace + 1) {
        Some(b'{') => Some(StartMarker::Variable),
        Some(b'%') => Some(StartMarker::Block),
        Some(b'#') => Some(StartMarker::Comment),
        _ => None,
    }
}
