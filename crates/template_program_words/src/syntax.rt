//! The words that set the syntax of templates, read.
ghost use Rattle.clap.specs.Words.{found_of, rows_of};
ghost use Rattle.template_program_words.specs.Reading.{ReadsSyntax};

use crate::found::{is_flagged, text};
use clap::ArgMatches;

/// The words that set the syntax of templates. What no word sets is as in the default syntax.
#[derive(Clone, Copy, Debug)]
pub struct SyntaxWords<'a> {
    /// Whether one newline after a block or a comment is taken off.
    pub trim_blocks: bool,
    /// Whether the spaces and tabs before a block or a comment that begins its line are taken off.
    pub lstrip_blocks: bool,
    /// Whether a newline at the end of a template stays.
    pub keep_trailing_newline: bool,
    /// Whether `scoped` may stand behind a block's name.
    pub scoped_blocks: bool,
    /// What begins a line that is a statement.
    pub line_statement: Option<&'a str>,
    /// What begins a comment that ends with its line.
    pub line_comment: Option<&'a str>,
    /// What blocks begin with.
    pub block_start: Option<&'a str>,
    /// What blocks end with.
    pub block_end: Option<&'a str>,
    /// What prints begin with.
    pub variable_start: Option<&'a str>,
    /// What prints end with.
    pub variable_end: Option<&'a str>,
    /// What comments begin with.
    pub comment_start: Option<&'a str>,
    /// What comments end with.
    pub comment_end: Option<&'a str>,
}

/// What the matches say of the syntax.
pub(crate) fn syntax_words<'a>(matches: &ArgMatches<'a>) -> SyntaxWords<'a>
    ensures { ReadsSyntax (rows_of (found_of matches.now)) result }
{
    SyntaxWords {
        trim_blocks: is_flagged(matches, "trim-blocks"),
        lstrip_blocks: is_flagged(matches, "lstrip-blocks"),
        keep_trailing_newline: is_flagged(matches, "keep-trailing-newline"),
        scoped_blocks: is_flagged(matches, "scoped-blocks"),
        line_statement: text(matches, "line-statement"),
        line_comment: text(matches, "line-comment"),
        block_start: text(matches, "block-start"),
        block_end: text(matches, "block-end"),
        variable_start: text(matches, "variable-start"),
        variable_end: text(matches, "variable-end"),
        comment_start: text(matches, "comment-start"),
        comment_end: text(matches, "comment-end"),
    }
}
