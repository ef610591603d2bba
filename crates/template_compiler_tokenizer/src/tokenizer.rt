//! The tokenizer.

use crate::all::{Standing, read_all};
use crate::text::template_text;
use std::alloc::Global;
use std::marker::Model;
use template_compiler_placed_tokens::{Piece, Stage, next_piece};
use template_compiler_syntax::{Edge, StartFinder, SyntaxConfig};
use template_compiler_tokens::{Stretch, Token, span_in};
use template_compiler_tree::Span;
use template_values_errors::{Error, ErrorKind};

/// Whether a tokenizer reads on.
#[derive(Clone, Copy)]
pub(crate) enum State {
    /// It does, from its place on.
    Reading(Stage),
    /// Its source has ended.
    Ended,
    /// It was refused, and answers this from then on.
    Refused(ErrorKind, Stage),
}

/// The tokens of a template's source, one after another. From a refusal on it answers that kind.
#[derive(Drop)]
pub struct Tokenizer<'source> {
    alloc: Global,
    filename: &'source str,
    source: &'source str,
    syntax: SyntaxConfig,
    text: &'source str,
    finder: StartFinder,
    state: State,
    from: usize,
    stretch: Stretch,
}

impl<'source> Model for Tokenizer<'source> {
    ghost use Rattle.template_compiler_tokenizer.specs.Tokenizer.{TokenizerView, view_of, IsStanding};

    ghost Value = { TokenizerView };

    ghost view = { λ t. view_of t.filename.now t.source.now t.syntax t.text.now t.state t.from };

    ghost invariant = { λ t. IsStanding t.syntax t.text.now t.finder t.state t.from t.stretch };
}

impl<'source> Tokenizer<'source> {
    ghost use Rattle.std.specs.Prelude.{◌≡◌, ◌∷◌, [], MatchOption, IsOk};
    ghost use Rattle.template_compiler_tokens.specs.Left.{Takes};
    ghost use Rattle.template_compiler_syntax.specs.Flat.{IsTokens};
    ghost use Rattle.template_compiler_tokenizer.specs.Spans.{HasSpans, TakesSpan, words_in};
    ghost use Rattle.template_compiler_tokenizer.specs.Held.{TakesAll, spanned_of};

    /// A tokenizer at the start of a template's source under a syntax.
    pub fn new(
        alloc: Global,
        source: &'source str,
        filename: &'source str,
        syntax: SyntaxConfig,
    ) -> Tokenizer<'source>
        ensures tokens { IsTokens syntax source.now result.left }
        ensures spans { HasSpans syntax source.now result.spans }
        ensures source { result.source ≡ source.now }
        ensures filename { result.filename ≡ filename.now }
        ensures reads { result.refused ≡ None }
    {
        let text = template_text(source, &syntax);
        let finder = StartFinder::new(&syntax);
        Tokenizer {
            alloc,
            filename,
            source,
            syntax,
            text,
            finder,
            state: State::Reading(Stage::Data(Edge::Nothing)),
            from: 0,
            stretch: Stretch::start(),
        }
    }

    /// The name of the template's file.
    pub fn filename(&self) -> &'source str
        ensures { result.now ≡ self.now.filename }
    {
        self.filename
    }

    /// The template's source.
    pub fn source(&self) -> &'source str
        ensures { result.now ≡ self.now.source }
    {
        self.source
    }

    /// Reads the tokens that are left, and puts them behind those that are held, each with where it stands. Linear in
    /// what is left.
    ///
    /// # Errors
    ///
    /// Where no token stands, the kind that says why, and `OutOfMemory`: the tokens before are held then.
    pub fn read_all(self, tokens: &mut Vec<(Token<'source>, Span)>) -> Result<(), Error>
        ensures taken { TakesAll (spanned_of tokens.old.items) self.entry.spans (spanned_of tokens.new.items) result }
        ensures words { words_in self.entry.spans ≡ self.entry.left }
    {
        let Tokenizer {
            alloc,
            text,
            syntax,
            finder,
            state,
            from,
            stretch,
            ..
        } = self;
        let stage = match state {
            State::Reading(stage) => stage,
            State::Ended => return Ok(()),
            State::Refused(kind, _) => return Err(Error::new(kind)),
        };
        let first = Standing {
            stage,
            from,
            stretch,
        };
        let mut finder = finder;
        match read_all(alloc, text, &syntax, &mut finder, first, tokens) {
            Ok(()) => Ok(()),
            Err(kind) => Err(Error::new(kind)),
        }
    }

    /// The next token and where it stands; none at the end. Linear in what it passes.
    ///
    /// # Errors
    ///
    /// Where no token stands, the kind that says why; `OutOfMemory`. Each is answered again from then on.
    pub fn next_token(&mut self) -> Result<Option<(Token<'source>, Span)>, Error>
        ensures taken { Takes self.old.left self.new.left result }
        ensures spanned { TakesSpan self.old.spans self.new.spans result }
        ensures refused { MatchOption self.old.refused (IsOk result → self.new.refused ≡ None)
            (λ kind. (result ≡ Err (kind ∷ [])) × (self.new ≡ self.old)) }
        ensures kept { MatchOption self.new.refused (IsOk result) (λ kind. result ≡ Err (kind ∷ [])) }
    {
        let stage = match self.state {
            State::Reading(stage) => stage,
            State::Ended => return Ok(None),
            State::Refused(kind, _) => return Err(Error::new(kind)),
        };
        match next_piece(
            self.alloc,
            self.text,
            &self.syntax,
            &mut self.finder,
            stage,
            self.from,
        ) {
            Ok(Some(piece)) => {
                let Piece {
                    token,
                    stage,
                    begin,
                    end,
                    next,
                } = piece;
                let (span, stretch) = span_in(self.text, self.stretch, begin, end);
                self.stretch = stretch;
                self.state = State::Reading(stage);
                self.from = next;
                Ok(Some((token, span)))
            }
            Ok(None) => {
                self.state = State::Ended;
                Ok(None)
            }
            Err(kind) => {
                self.state = State::Refused(kind, stage);
                Err(Error::new(kind))
            }
        }
    }
}
