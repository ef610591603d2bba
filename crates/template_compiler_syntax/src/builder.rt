//! A syntax that is being put together.
ghost use Rattle.std.specs.Prelude.{◌≡◌, ◌⊎◌, [], ◌∷◌, OnOk, OnErr, IfOk, IfErr};
ghost use Rattle.std.specs.Cow.{cow_str_bytes};
ghost use Rattle.template_compiler_syntax.specs.Settings.{syntax_of};
ghost use Rattle.template_compiler_syntax.specs.Syntax.{IsUsable, default_syntax};

use crate::config::SyntaxConfig;
use crate::settings::{Delimiters, Settings};
use std::alloc::Global;
use std::borrow::CowStr;
use std::marker::Model;
use std::rc::Rc;
use template_values_errors::{Error, ErrorKind};

/// A syntax that is being put together. Delimiters are copied; after a refused call it is as it was.
#[derive(Drop)]
pub struct SyntaxConfigBuilder {
    pub(crate) alloc: Global,
    pub(crate) settings: Settings,
}

impl Model for SyntaxConfigBuilder {
    ghost use Rattle.template_compiler_syntax.specs.Syntax.{Syntax};

    ghost Value = { Syntax };

    ghost use Rattle.template_compiler_syntax.specs.Settings.{syntax_of};

    ghost view = { λ a. syntax_of a.settings };
}

impl SyntaxConfigBuilder {
    pub(crate) fn new(alloc: Global) -> SyntaxConfigBuilder
        ensures { result ≡ default_syntax }
    {
        SyntaxConfigBuilder {
            alloc,
            settings: Settings::standard(),
        }
    }

    /// Sets what blocks begin and end with.
    ///
    /// # Errors
    ///
    /// [`ErrorKind::OutOfMemory`]
    pub fn block_delimiters(&mut self, start: &str, end: &str) -> Result<(), Error>
        ensures ok { OnOk result (self.new ≡ record self.old { block_start = start.now; block_end = end.now }) }
        ensures err { OnErr result (self.new ≡ self.old) }
        ensures refused { IfErr result (λ error. error ≡ ErrorKind.OutOfMemory ∷ []) }
    {
        self.settings.blocks = copied_delimiters(self.alloc, start, end)?;
        Ok(())
    }

    /// Sets what prints begin and end with.
    ///
    /// # Errors
    ///
    /// [`ErrorKind::OutOfMemory`]
    pub fn variable_delimiters(&mut self, start: &str, end: &str) -> Result<(), Error>
        ensures ok { OnOk result (self.new ≡ record self.old { variable_start = start.now; variable_end = end.now }) }
        ensures err { OnErr result (self.new ≡ self.old) }
        ensures refused { IfErr result (λ error. error ≡ ErrorKind.OutOfMemory ∷ []) }
    {
        self.settings.variables = copied_delimiters(self.alloc, start, end)?;
        Ok(())
    }

    /// Sets what comments begin and end with.
    ///
    /// # Errors
    ///
    /// [`ErrorKind::OutOfMemory`]
    pub fn comment_delimiters(&mut self, start: &str, end: &str) -> Result<(), Error>
        ensures ok { OnOk result (self.new ≡ record self.old { comment_start = start.now; comment_end = end.now }) }
        ensures err { OnErr result (self.new ≡ self.old) }
        ensures refused { IfErr result (λ error. error ≡ ErrorKind.OutOfMemory ∷ []) }
    {
        self.settings.comments = copied_delimiters(self.alloc, start, end)?;
        Ok(())
    }

    /// Sets what begins a line that is a statement. An empty prefix is none.
    ///
    /// # Errors
    ///
    /// [`ErrorKind::OutOfMemory`]
    pub fn line_statement_prefix(&mut self, prefix: &str) -> Result<(), Error>
        ensures ok { OnOk result (self.new ≡ record self.old { line_statement_prefix = prefix.now }) }
        ensures err { OnErr result (self.new ≡ self.old) }
        ensures refused { IfErr result (λ error. error ≡ ErrorKind.OutOfMemory ∷ []) }
    {
        self.settings.prefixes.line_statement = copied(self.alloc, prefix)?;
        Ok(())
    }

    /// Sets what begins a comment that ends with its line. An empty prefix is none.
    ///
    /// # Errors
    ///
    /// [`ErrorKind::OutOfMemory`]
    pub fn line_comment_prefix(&mut self, prefix: &str) -> Result<(), Error>
        ensures ok { OnOk result (self.new ≡ record self.old { line_comment_prefix = prefix.now }) }
        ensures err { OnErr result (self.new ≡ self.old) }
        ensures refused { IfErr result (λ error. error ≡ ErrorKind.OutOfMemory ∷ []) }
    {
        self.settings.prefixes.line_comment = copied(self.alloc, prefix)?;
        Ok(())
    }

    /// Sets whether one newline behind a block or a comment goes.
    pub fn trim_blocks(&mut self, yes: bool)
        ensures { self.new ≡ record self.old { trim_blocks = yes } }
    {
        self.settings.white_space.trim_blocks = yes;
    }

    /// Sets whether the spaces and tabs before a block or a comment go, where they begin their line.
    pub fn lstrip_blocks(&mut self, yes: bool)
        ensures { self.new ≡ record self.old { lstrip_blocks = yes } }
    {
        self.settings.white_space.lstrip_blocks = yes;
    }

    /// Sets whether a newline at the end of the source stays.
    pub fn keep_trailing_newline(&mut self, yes: bool)
        ensures { self.new ≡ record self.old { keep_trailing_newline = yes } }
    {
        self.settings.white_space.keep_trailing_newline = yes;
    }

    /// Sets whether the word `scoped` may stand behind the name of a block. It says nothing: blocks see the names of the
    /// loops around them with it and without it.
    pub fn scoped_blocks(&mut self, yes: bool)
        ensures { self.new ≡ record self.old { scoped_blocks = yes } }
    {
        self.settings.scoped_blocks = yes;
    }

    /// The syntax.
    ///
    /// # Errors
    ///
    /// - [`ErrorKind::InvalidDelimiter`], if a delimiter is empty, or two of the starts and prefixes
    ///   that are set are equal.
    /// - [`ErrorKind::OutOfMemory`]
    pub fn build(&self) -> Result<SyntaxConfig, Error>
        ensures built { IfOk result (λ syntax. syntax ≡ self.now) }
        ensures usable { OnOk result (IsUsable self.now) }
        ensures refused { IfErr result (λ error.
            ((error ≡ ErrorKind.InvalidDelimiter ∷ []) × (IsUsable self.now → ⊥)) ⊎
            ((error ≡ ErrorKind.OutOfMemory ∷ []) × IsUsable self.now)) }
    {
        if !self.settings.are_usable() {
            return Err(Error::new(ErrorKind::InvalidDelimiter));
        }
        let shared = shared(self.alloc, &self.settings)?;
        Ok(SyntaxConfig {
            settings: Some(shared),
        })
    }
}

fn shared(alloc: Global, settings: &Settings) -> Result<Rc<Settings>, Error>
    ensures ok { IfOk result (λ shared. syntax_of shared.value ≡ syntax_of settings.now) }
    ensures err { IfErr result (λ error. error ≡ ErrorKind.OutOfMemory ∷ []) }
{
    let copy = settings.clone()?;
    Ok(Rc::new(alloc, copy)?)
}

fn copied_delimiters(alloc: Global, start: &str, end: &str) -> Result<Delimiters, Error>
    ensures start { IfOk result (λ copy. cow_str_bytes copy.start ≡ start.now) }
    ensures end { IfOk result (λ copy. cow_str_bytes copy.end ≡ end.now) }
    ensures refused { IfErr result (λ error. error ≡ ErrorKind.OutOfMemory ∷ []) }
{
    let start = copied(alloc, start)?;
    let end = copied(alloc, end)?;
    Ok(Delimiters { start, end })
}

fn copied(alloc: Global, text: &str) -> Result<CowStr<'static>, Error>
    ensures ok { IfOk result (λ copy. cow_str_bytes copy ≡ text.now) }
    ensures err { IfErr result (λ error. error ≡ ErrorKind.OutOfMemory ∷ []) }
{
    let copy = String::from_str(alloc, text)?;
    Ok(CowStr::Owned(copy))
}
