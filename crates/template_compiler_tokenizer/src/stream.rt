//! A stream of tokens.
use crate::ahead::Ahead;
use crate::tokenizer::Tokenizer;
use std::marker::Model;
use std::mem;
use template_compiler_tokens::{Token, Tokens};
use template_compiler_tree::Span;
use template_values_errors::Error;

/// The tokens of a template's source, with one token of look-ahead. From a refusal on it answers that kind.
#[derive(Drop)]
pub struct TokenStream<'source> {
    tokenizer: Tokenizer<'source>,
    ahead: Ahead<'source>,
    last_span: Span,
}

impl<'source> Model for TokenStream<'source> {
    ghost use Rattle.template_compiler_tokenizer.specs.Stream.{Stream, stream_of, IsAhead};

    ghost Value = { Stream };

    ghost view = { λ s. stream_of s.tokenizer s.ahead s.last_span };

    ghost invariant = { λ s. IsAhead s.tokenizer s.ahead };
}

impl<'source> TokenStream<'source> {
    ghost use Rattle.std.specs.Prelude.{◌≡◌};

    /// The tokens of a tokenizer from where it stands.
    pub fn new(mut tokenizer: Tokenizer<'source>) -> TokenStream<'source>
        ensures tokens { result.left ≡ tokenizer.entry.left }
        ensures spans { result.spans ≡ tokenizer.entry.spans }
    {
        let ahead = Ahead::read(&mut tokenizer);
        TokenStream {
            tokenizer,
            ahead,
            last_span: Span::default(),
        }
    }
}

impl<'source> Tokens<'source> for TokenStream<'source> {
    ghost use Rattle.std.specs.Prelude.{◌≡◌, ◌∷◌, [], MatchOption, IfOk, IfSome, IsOk};
    ghost use Rattle.template_compiler_tokens.specs.Left.{Shows, Takes};
    ghost use Rattle.template_compiler_tokenizer.specs.Spans.{ShowsSpan, TakesSpan};
    ghost use Rattle.template_compiler_tokenizer.specs.Stream.{ended_by};

    ghost left = { λ s. s.left };

    fn current(&self) -> Result<Option<(&Token<'source>, Span)>, Error>
        ensures shown { Shows self.now.left result }
        ensures spanned { ShowsSpan self.now.spans result }
        ensures refused { MatchOption self.now.refused (IsOk result) (λ kind. result ≡ Err (kind ∷ [])) }
        ensures span { IfOk result (λ shown. IfSome shown (λ p. p.1 ≡ self.now.current_span)) }
    {
        match &self.ahead {
            Ahead::Next(token, span) => Ok(Some((token, *span))),
            Ahead::End => Ok(None),
            Ahead::Refused(kind) => Err(Error::new(*kind)),
        }
    }

    fn next(&mut self) -> Result<Option<(Token<'source>, Span)>, Error>
        ensures taken { Takes self.old.left self.new.left result }
        ensures spanned { TakesSpan self.old.spans self.new.spans result }
        ensures refused { MatchOption self.old.refused (IsOk result) (λ kind. (result ≡ Err (kind ∷ [])) × (self.new ≡ self.old)) }
        ensures span { IfOk result (λ taken. IfSome taken (λ p. p.1 ≡ self.old.current_span)) }
        ensures last { IfOk result (λ taken. IfSome taken (λ p. self.new.last_span ≡ p.1)) }
    {
        match &self.ahead {
            Ahead::Next(_, _) => {}
            Ahead::End => return Ok(None),
            Ahead::Refused(kind) => return Err(Error::new(*kind)),
        }
        let ahead = Ahead::read(&mut self.tokenizer);
        match mem::replace(&mut self.ahead, ahead) {
            Ahead::Next(token, span) => {
                self.last_span = span;
                Ok(Some((token, span)))
            }
            Ahead::End => Ok(None),
            Ahead::Refused(kind) => Err(Error::new(kind)),
        }
    }

    fn current_span(&self) -> Span
        ensures { result ≡ self.now.current_span }
    {
        match &self.ahead {
            Ahead::Next(_, span) => *span,
            Ahead::End | Ahead::Refused(_) => self.last_span,
        }
    }

    fn last_span(&self) -> Span
        ensures { result ≡ self.now.last_span }
    {
        self.last_span
    }

    fn expand_span(&self, span: Span) -> Span
        ensures { result ≡ ended_by span self.now.last_span }
    {
        Span {
            end_line: self.last_span.end_line,
            end_col: self.last_span.end_col,
            end_offset: self.last_span.end_offset,
            ..span
        }
    }
}
