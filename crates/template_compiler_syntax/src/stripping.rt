//! What white space of data goes.
ghost use Rattle.std.specs.Prelude.{◌≡◌, ◌-◌, ◌≤◌, drop, length};
ghost use Rattle.std.specs.Str.{IsCharBoundary};
ghost use Rattle.template_compiler_syntax.specs.Places.{stretch, newline_len as newline_width};
ghost use Rattle.template_compiler_syntax.specs.Stripping.{stripped_from, stripped_to, less_start, less_blanks as place_less_blanks, strips_blanks as blanks_go, is_minus as strips_all};

use crate::edges::{Edge, Trim};
use crate::places::{blanks_from, is_first_on_line, newline_len};
use crate::{StartMarker, SyntaxConfig};
use template_compiler_tokens::behind_white_space;

/// The data between two places of a source, less the white space that what stands beside it takes.
/// It takes time for the white space that goes alone.
#[inline(always)]
pub fn data_text<'source>(
    source: &'source str,
    syntax: &SyntaxConfig,
    left: Edge,
    right: Edge,
    from: usize,
    to: usize,
) -> &'source str
    requires ordered { from ≤ to }
    requires start { IsCharBoundary source.now from }
    requires end { IsCharBoundary source.now to }
    ensures text { let begin = stripped_from syntax.now source.now left from to in
        result.now ≡ stretch source.now begin (stripped_to syntax.now source.now right begin to) }
    ensures within { stripped_to syntax.now source.now right (stripped_from syntax.now source.now left from to) to ≤ to }
{
    data_between(source, syntax, left, right, from, to).0
}

/// The same, and where it begins.
#[inline(always)]
pub fn data_between<'source>(
    source: &'source str,
    syntax: &SyntaxConfig,
    left: Edge,
    right: Edge,
    from: usize,
    to: usize,
) -> (&'source str, usize)
    requires ordered { from ≤ to }
    requires start { IsCharBoundary source.now from }
    requires end { IsCharBoundary source.now to }
    ensures text { let begin = stripped_from syntax.now source.now left from to in
        result.0.now ≡ stretch source.now begin (stripped_to syntax.now source.now right begin to) }
    ensures within { stripped_to syntax.now source.now right (stripped_from syntax.now source.now left from to) to ≤ to }
    ensures begin { result.1 ≡ stripped_from syntax.now source.now left from to }
    ensures ahead { from ≤ result.1 }
{
    let text = without_start(&source[from..to], syntax, left);
    let begin = to - text.len();
    if is_minus(right) {
        (text.trim_end(), begin)
    } else if strips_blanks(syntax, right) {
        let end = less_blanks(source.as_bytes(), to);
        (text.split_at(end.saturating_sub(begin)).0, begin)
    } else {
        (text, begin)
    }
}

/// Where the data between two places begins, less the white space that what stands on its left takes.
/// It takes time for the white space that goes alone.
pub fn data_start(source: &str, syntax: &SyntaxConfig, left: Edge, from: usize, to: usize) -> usize
    requires ordered { from ≤ to }
    requires start { IsCharBoundary source.now from }
    requires end { IsCharBoundary source.now to }
    ensures start { result ≡ stripped_from syntax.now source.now left from to }
    ensures ahead { from ≤ result }
    ensures within { result ≤ to }
{
    let text = without_start(&source[from..to], syntax, left);
    to - text.len()
}

fn without_start<'source>(text: &'source str, syntax: &SyntaxConfig, left: Edge) -> &'source str
    ensures text { result.now ≡ less_start syntax.now left text.now }
    ensures bound { length result.now ≤ length text.now }
    ensures tail { result.now ≡ drop (length text.now - length result.now) text.now }
{
    match left {
        Edge::Beside(_, Trim::Minus) => behind_white_space(text),
        Edge::Beside(StartMarker::Block | StartMarker::Comment, Trim::Plain) => {
            if syntax.trim_blocks() {
                without_newline(text)
            } else {
                text
            }
        }
        _ => text,
    }
}

// The text behind the newline that it begins with.
fn without_newline(text: &str) -> &str
    ensures text { result.now ≡ drop (newline_width text.now 0) text.now }
    ensures bound { length result.now ≤ length text.now }
    ensures tail { result.now ≡ drop (length text.now - length result.now) text.now }
{
    text.split_at(newline_len(text.as_bytes(), 0)).1
}

fn is_minus(right: Edge) -> bool
    ensures { result ≡ strips_all right }
{
    matches!(right, Edge::Beside(_, Trim::Minus))
}

fn strips_blanks(syntax: &SyntaxConfig, right: Edge) -> bool
    ensures { result ≡ blanks_go syntax.now right }
{
    match right {
        Edge::Beside(StartMarker::Block | StartMarker::Comment, Trim::Plain) =>
            syntax.lstrip_blocks(),
        Edge::Beside(StartMarker::LineStatement | StartMarker::LineComment, Trim::Plain) => true,
        _ => false,
    }
}

// The place, less the spaces and tabs before it where only they stand before it on its line.
fn less_blanks(bytes: &[u8], place: usize) -> usize
    requires { place ≤ length bytes.now }
    ensures { result ≡ place_less_blanks bytes.now place }
{
    if is_first_on_line(bytes, place) {
        blanks_from(bytes, place)
    } else {
        place
    }
}
