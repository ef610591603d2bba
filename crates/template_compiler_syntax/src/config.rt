//! The syntax in force.
ghost use Rattle.std.specs.Prelude.{◌≡◌, ◌↔◌, [], MatchOption, IfOk, IsTrue, codes};
ghost use Rattle.template_compiler_syntax.specs.Syntax.{IsUsable, IsSet, HasDefaultStarts, default_syntax, start_text as start_of, end_text as end_of};

use crate::StartMarker;
use crate::builder::SyntaxConfigBuilder;
use crate::settings::Settings;
use std::alloc::{AllocError, Global};
use std::marker::Model;
use std::rc::Rc;

/// A syntax whose segments can be told apart: no delimiter is empty, and no two of the starts and
/// prefixes that are set are equal. The default syntax takes no memory; copies share the delimiters.
pub struct SyntaxConfig {
    pub(crate) settings: Option<Rc<Settings>>,
}

// By hand: a crate that drops one would else prove anew how each of its settings is dropped.
impl Drop for SyntaxConfig {
    fn drop(self) {
        let SyntaxConfig { settings: _ } = self;
    }
}

impl Model for SyntaxConfig {
    ghost use Rattle.template_compiler_syntax.specs.Syntax.{Syntax, IsUsable};

    ghost Value = { Syntax };

    ghost use Rattle.template_compiler_syntax.specs.Settings.{chosen_syntax};

    ghost view = { λ a. chosen_syntax a.settings };

    ghost invariant = { λ a. IsUsable (chosen_syntax a.settings) };
}

impl Default for SyntaxConfig {
    ghost is_default = { λ syntax. syntax ≡ default_syntax };

    fn default() -> SyntaxConfig {
        SyntaxConfig { settings: None }
    }
}

impl Clone for SyntaxConfig {
    ghost is_clone = { λ syntax copy. copy ≡ syntax };

    fn clone(&self) -> Result<SyntaxConfig, AllocError> {
        match &self.settings {
            Some(shared) => Ok(SyntaxConfig {
                settings: Some(shared.clone()?),
            }),
            None => Ok(SyntaxConfig { settings: None }),
        }
    }
}

impl SyntaxConfig {
    /// The default syntax: `{% %}`, `{{ }}` and `{# #}`, no prefixes, and no white space goes.
    pub fn new() -> SyntaxConfig
        ensures default { result ≡ default_syntax }
        ensures usable { IsUsable result }
    {
        SyntaxConfig { settings: None }
    }

    /// A builder that begins at the default syntax.
    pub fn builder(alloc: Global) -> SyntaxConfigBuilder
        ensures { result ≡ default_syntax }
    {
        SyntaxConfigBuilder::new(alloc)
    }

    /// A builder that begins at this syntax.
    ///
    /// # Errors
    ///
    /// Where the delimiters find no room.
    pub fn to_builder(&self, alloc: Global) -> Result<SyntaxConfigBuilder, AllocError>
        ensures { IfOk result (λ builder. builder ≡ self.now) }
    {
        match &self.settings {
            Some(shared) => Ok(SyntaxConfigBuilder {
                alloc,
                settings: shared.as_ref().clone()?,
            }),
            None => Ok(SyntaxConfigBuilder::new(alloc)),
        }
    }

    /// What blocks begin and end with.
    pub fn block_delimiters(&self) -> (&str, &str)
        ensures start { result.0.now ≡ self.now.block_start }
        ensures end { result.1.now ≡ self.now.block_end }
        ensures usable { IsUsable self.now }
    {
        match &self.settings {
            Some(shared) => (shared.blocks.start.as_str(), shared.blocks.end.as_str()),
            None => ("{%", "%}"),
        }
    }

    /// What prints begin and end with.
    pub fn variable_delimiters(&self) -> (&str, &str)
        ensures start { result.0.now ≡ self.now.variable_start }
        ensures end { result.1.now ≡ self.now.variable_end }
        ensures usable { IsUsable self.now }
    {
        match &self.settings {
            Some(shared) => (
                shared.variables.start.as_str(),
                shared.variables.end.as_str(),
            ),
            None => ("{{", "}}"),
        }
    }

    /// What comments begin and end with.
    pub fn comment_delimiters(&self) -> (&str, &str)
        ensures start { result.0.now ≡ self.now.comment_start }
        ensures end { result.1.now ≡ self.now.comment_end }
        ensures usable { IsUsable self.now }
    {
        match &self.settings {
            Some(shared) => (shared.comments.start.as_str(), shared.comments.end.as_str()),
            None => ("{#", "#}"),
        }
    }

    /// What begins a line that is a statement.
    pub fn line_statement_prefix(&self) -> Option<&str>
        ensures { MatchOption result (self.now.line_statement_prefix ≡ [])
            (λ prefix. (prefix.now ≡ self.now.line_statement_prefix) × IsSet prefix.now) }
    {
        match &self.settings {
            Some(shared) => set_text(shared.prefixes.line_statement.as_str()),
            None => None,
        }
    }

    /// What begins a comment that ends with its line.
    pub fn line_comment_prefix(&self) -> Option<&str>
        ensures { MatchOption result (self.now.line_comment_prefix ≡ [])
            (λ prefix. (prefix.now ≡ self.now.line_comment_prefix) × IsSet prefix.now) }
    {
        match &self.settings {
            Some(shared) => set_text(shared.prefixes.line_comment.as_str()),
            None => None,
        }
    }

    /// What a segment of the kind begins with; an empty prefix is none.
    pub fn start_text(&self, marker: StartMarker) -> &str
        ensures { result.now ≡ start_of self.now marker }
    {
        match marker {
            StartMarker::Variable => self.variable_delimiters().0,
            StartMarker::Block => self.block_delimiters().0,
            StartMarker::Comment => self.comment_delimiters().0,
            StartMarker::LineStatement => match &self.settings {
                Some(shared) => shared.prefixes.line_statement.as_str(),
                None => "",
            },
            StartMarker::LineComment => match &self.settings {
                Some(shared) => shared.prefixes.line_comment.as_str(),
                None => "",
            },
        }
    }

    /// What a segment of the kind ends with; empty for a line's statement and a line's comment.
    pub fn end_text(&self, marker: StartMarker) -> &str
        ensures { result.now ≡ end_of self.now marker }
    {
        match marker {
            StartMarker::Variable => self.variable_delimiters().1,
            StartMarker::Block => self.block_delimiters().1,
            StartMarker::Comment => self.comment_delimiters().1,
            StartMarker::LineStatement | StartMarker::LineComment => "",
        }
    }

    /// Whether the starts are those of the default syntax, and there are no prefixes.
    pub fn has_default_starts(&self) -> bool
        ensures { IsTrue result ↔ HasDefaultStarts self.now }
    {
        self.has_default_delimiters() && self.has_no_prefix()
    }

    fn has_default_delimiters(&self) -> bool
        ensures { IsTrue result ↔
            ((self.now.variable_start ≡ codes "{{") × (self.now.block_start ≡ codes "{%") × (self.now.comment_start ≡ codes "{#")) }
    {
        self.variable_delimiters().0 == "{{"
            && self.block_delimiters().0 == "{%"
            && self.comment_delimiters().0 == "{#"
    }

    fn has_no_prefix(&self) -> bool
        ensures { IsTrue result ↔ ((self.now.line_statement_prefix ≡ []) × (self.now.line_comment_prefix ≡ [])) }
    {
        self.line_statement_prefix().is_none() && self.line_comment_prefix().is_none()
    }

    /// Whether one newline behind a block or a comment goes.
    pub fn trim_blocks(&self) -> bool
        ensures { result ≡ self.now.trim_blocks }
    {
        match &self.settings {
            Some(shared) => shared.white_space.trim_blocks,
            None => false,
        }
    }

    /// Whether the spaces and tabs before a block or a comment go, where they begin their line.
    pub fn lstrip_blocks(&self) -> bool
        ensures { result ≡ self.now.lstrip_blocks }
    {
        match &self.settings {
            Some(shared) => shared.white_space.lstrip_blocks,
            None => false,
        }
    }

    /// Whether a newline at the end of the source stays.
    pub fn keep_trailing_newline(&self) -> bool
        ensures { result ≡ self.now.keep_trailing_newline }
    {
        match &self.settings {
            Some(shared) => shared.white_space.keep_trailing_newline,
            None => false,
        }
    }

    /// Whether the word `scoped` may stand behind the name of a block.
    pub fn scoped_blocks(&self) -> bool
        ensures { result ≡ self.now.scoped_blocks }
    {
        match &self.settings {
            Some(shared) => shared.scoped_blocks,
            None => false,
        }
    }
}

// The text, if it is not empty.
fn set_text(text: &str) -> Option<&str>
    ensures { MatchOption result (text.now ≡ []) (λ set. (set.now ≡ text.now) × IsSet set.now) }
{
    if text.is_empty() { None } else { Some(text) }
}
