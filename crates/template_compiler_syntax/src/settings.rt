// What a syntax is made of.
ghost use Rattle.std.specs.Prelude.{◌≡◌, ◌↔◌, IfOk, IsTrue};

use std::alloc::{AllocError, Global};
use std::borrow::CowStr;
use template_compiler_tokens::are_apart;

/// What a kind of segment begins and ends with.
#[derive(Clone, Drop)]
pub(crate) struct Delimiters {
    pub(crate) start: CowStr<'static>,
    pub(crate) end: CowStr<'static>,
}

/// What begins a line that is a statement, or a comment.
#[derive(Clone, Drop)]
pub(crate) struct Prefixes {
    pub(crate) line_statement: CowStr<'static>,
    pub(crate) line_comment: CowStr<'static>,
}

/// Which white space goes beside segments.
#[derive(Clone, Copy)]
pub(crate) struct WhiteSpace {
    pub(crate) trim_blocks: bool,
    pub(crate) lstrip_blocks: bool,
    pub(crate) keep_trailing_newline: bool,
}

/// The delimiters, the prefixes, what goes beside them, and whether blocks may be `scoped`. An empty prefix is none.
#[derive(Clone, Drop)]
pub(crate) struct Settings {
    pub(crate) blocks: Delimiters,
    pub(crate) variables: Delimiters,
    pub(crate) comments: Delimiters,
    pub(crate) prefixes: Prefixes,
    pub(crate) white_space: WhiteSpace,
    pub(crate) scoped_blocks: bool,
}

impl Settings {
    ghost use Rattle.template_compiler_syntax.specs.Settings.{syntax_of};
    ghost use Rattle.template_compiler_syntax.specs.Syntax.{IsUsable, IsFilled, IsApart, default_syntax};

    pub(crate) fn standard() -> Settings
        ensures { syntax_of result ≡ default_syntax }
    {
        Settings {
            blocks: Delimiters {
                start: CowStr::Borrowed("{%"),
                end: CowStr::Borrowed("%}"),
            },
            variables: Delimiters {
                start: CowStr::Borrowed("{{"),
                end: CowStr::Borrowed("}}"),
            },
            comments: Delimiters {
                start: CowStr::Borrowed("{#"),
                end: CowStr::Borrowed("#}"),
            },
            prefixes: Prefixes {
                line_statement: CowStr::Borrowed(""),
                line_comment: CowStr::Borrowed(""),
            },
            white_space: WhiteSpace {
                trim_blocks: false,
                lstrip_blocks: false,
                keep_trailing_newline: false,
            },
            scoped_blocks: false,
        }
    }

    /// Segments can be told apart.
    pub(crate) fn are_usable(&self) -> bool
        ensures { IsTrue result ↔ IsUsable (syntax_of self.now) }
    {
        self.are_filled() && self.are_apart()
    }

    fn are_filled(&self) -> bool
        ensures { IsTrue result ↔ IsFilled (syntax_of self.now) }
    {
        !(self.variables.start.is_empty()
            || self.blocks.start.is_empty()
            || self.comments.start.is_empty()
            || self.variables.end.is_empty()
            || self.blocks.end.is_empty()
            || self.comments.end.is_empty())
    }

    fn are_apart(&self) -> bool
        ensures { IsTrue result ↔ IsApart (syntax_of self.now) }
    {
        let variable = self.variables.start.as_str();
        let block = self.blocks.start.as_str();
        let comment = self.comments.start.as_str();
        let line_statement = self.prefixes.line_statement.as_str();
        let line_comment = self.prefixes.line_comment.as_str();
        are_apart(variable, block, comment, line_statement, line_comment)
    }
}
