//! Tokens that are read one after another.
ghost use Rattle.std.specs.Prelude.{List};
ghost use Rattle.template_compiler_tokens.specs.Token as token;
ghost use Rattle.template_compiler_tokens.specs.Left.{Shows, Takes};

use crate::token::Token;
use template_compiler_tree::Span;
use template_values_errors::Error;

/// The tokens of a text from a place on, read one after another with one token of look-ahead.
pub trait Tokens<'source> {
    // the tokens that are left; what stands behind the last of them is either nothing or no token
    ghost left: { Self → List token.Token };

    /// The next token and where it stands, without passing it; none at the end.
    ///
    /// # Errors
    ///
    /// Where no token stands, the kind that says why, at each call; `OutOfMemory`.
    fn current(&self) -> Result<Option<(&Token<'source>, Span)>, Error>
        ensures { Shows (left self.now) result };

    /// Passes the next token, and answers it and where it stands; none at the end.
    ///
    /// # Errors
    ///
    /// Where no token stands, the kind that says why, at each call; `OutOfMemory`.
    fn next(&mut self) -> Result<Option<(Token<'source>, Span)>, Error>
        ensures { Takes (left self.old) (left self.new) result };

    /// Where the next token stands; at the end, where the last one stood.
    fn current_span(&self) -> Span;

    /// Where the token stood that was passed last.
    fn last_span(&self) -> Span;

    /// The stretch from where a span starts to where the last token ended.
    fn expand_span(&self, span: Span) -> Span;
}
