//! The tokens that are left.
ghost use Rattle.std.specs.Prelude.{◌≡◌, ◌≤◌, IfSome, [], ◌∷◌, ◌++◌, length, map, option_map, is_some, if◌then◌else◌, string_bytes};
ghost use Rattle.template_compiler_tokens.specs.Steps.{fault};
ghost use Rattle.template_compiler_tokens.specs.Token.{assign, bad_syntax, number};
ghost use Rattle.template_compiler_grammar.specs.Words.{begins_bare};
ghost use Rattle.template_compiler_grammar.specs.ReaderParts.{begins_closing, begins_bound_end};
ghost use Rattle.template_compiler_stream.specs.Refusals.{fault_of};
ghost use Rattle.template_compiler_stream.specs.Left.{Peeks, Shows, ahead, behind, ended, passed};
ghost use Rattle.template_compiler_stream.specs.Spans.{KeepsSpans, ShownAt, TakenAt};
ghost use Rattle.template_compiler_tokens.specs.Places.{last_span, next_span, no_span, token_count, until};
ghost use Rattle.template_compiler_stream.specs.Signs.{assigned_behind, begins_alone, begins_symbol, is_symbol, level_of, second_word, next_number, next_operator, next_comparison, next_symbol, next_word, number_in, word_in};
ghost use Rattle.template_compiler_tokens.specs.Signs.{symbol_of};
ghost use Rattle.template_compiler_tokens.specs.View.{token_of};
ghost use Rattle.template_compiler_stream.specs.Skips.{PutsText, SkipsDotted, SkipsKeyword, SkipsSign, SkipsText, SkipsWord};

mod tags;

use crate::refusal::Fault;
use crate::sign::{
    Level, begins_argument, closes, comparison_of, ends_bound, is_end, is_plain, operator_of,
};
use std::alloc::AllocError;
use std::marker::Model;
use std::mem;
use template_compiler_tokens::{Sign, Token, sign_of};
use template_compiler_tree::{BinOpKind, CompareOpKind, Span};

/// The next token, as it was taken.
#[derive(Drop)]
pub enum First<'source> {
    /// A token, and where it stands.
    Token(Token<'source>, Span),
    /// There is none.
    End,
    /// What stands here is no token.
    Bad(Fault),
}

/// The next token, to look at.
#[derive(Clone, Copy)]
pub enum Next<'stream, 'source> {
    /// A token, and where it stands.
    Token(&'stream Token<'source>, Span),
    /// There is none.
    End,
    /// What stands here is no token.
    Bad(Fault),
}

/// The tokens that are left. A contract sees them as a list, and beside it where all tokens stand.
#[derive(Drop)]
pub struct TokenStream<'source> {
    // All tokens in their order: those before the place were passed.
    tokens: Vec<(Token<'source>, Span)>,
    place: usize,
    // What stands behind the tokens where that is none.
    fault: Option<Fault>,
}

impl<'source> Model for TokenStream<'source> {
    ghost use Rattle.std.specs.Prelude.{◌≤◌, length};
    ghost use Rattle.template_compiler_stream.specs.Spans.{PlacedTokens, tokens_from};

    ghost Value = { PlacedTokens };

    ghost view = { λ s. tokens_from s.tokens.items s.place s.fault };

    ghost invariant = { λ s. s.place ≤ length s.tokens.items };
}

impl<'source> TokenStream<'source> {
    /// A stream of tokens in their order, and of what stands behind them where that is no token. Takes no memory, and
    /// no time.
    #[tactic(auto, unfolding(crate::specs::Left::left_in, crate::specs::Spans::spans_of))]
    pub fn new(tokens: Vec<(Token<'source>, Span)>, fault: Option<Fault>) -> TokenStream<'source>
        ensures tokens { result.left ≡ map (λ t. token_of t.0) tokens.entry.items ++ ended fault }
        ensures spans { result.spans ≡ map (λ t. t.1) tokens.entry.items }
    {
        TokenStream {
            tokens,
            place: 0,
            fault,
        }
    }

    // The next token, to look at.
    #[inline(always)]
    pub(crate) fn peek(&self) -> Next<'_, 'source>
        ensures shown { Shows self.now.left result }
        ensures span { ShownAt (next_span self.now.spans self.now.left) result }
        ensures counted { token_count self.now.left ≤ length self.now.spans }
    {
        match self.tokens.get(self.place) {
            Some((token, span)) => Next::Token(token, *span),
            None => match self.fault {
                Some(fault) => Next::Bad(fault),
                None => Next::End,
            },
        }
    }

    // The token behind the next one, to look at.
    #[inline(always)]
    fn peek_second(&self) -> Option<&Token<'source>>
        ensures { Peeks (behind self.now.left) result }
    {
        match self.tokens.get(self.place.saturating_add(1)) {
            Some((token, _)) => Some(token),
            None => None,
        }
    }

    /// The sign that stands next.
    pub fn sign(&self) -> Option<Sign>
        ensures { option_map symbol_of result ≡ next_symbol self.now.left }
    {
        match self.peek() {
            Next::Token(token, _) => sign_of(token),
            Next::End => None,
            Next::Bad(_) => None,
        }
    }

    /// The word that stands next.
    pub fn word(&self) -> Option<&'source str>
        ensures { option_map (λ w. w.now) result ≡ next_word self.now.left }
    {
        match self.peek() {
            Next::Token(token, _) => word_of(token),
            Next::End => None,
            Next::Bad(_) => None,
        }
    }

    /// The number that stands next, where it is no larger than a `u64`.
    #[inline(always)]
    pub fn number(&self) -> Option<u64>
        ensures value { result ≡ next_number self.now.left }
        ensures left { IfSome result (λ n. self.now.left ≡ number n ∷ passed self.now.left) }
    {
        match self.peek() {
            Next::Token(token, _) => number_of(token),
            Next::End => None,
            Next::Bad(_) => None,
        }
    }

    /// Where the next token stands, or where the last one stood.
    #[tactic(auto, using(crate::proofs::Spans::span_at_end, crate::proofs::Spans::span_at_fault))]
    pub fn span(&self) -> Span
        ensures { result ≡ next_span self.now.spans self.now.left }
    {
        match self.peek() {
            Next::Token(_, span) => span,
            Next::End => self.last(),
            Next::Bad(_) => self.last(),
        }
    }

    // Where the token that was passed last stands.
    fn last(&self) -> Span
        ensures { result ≡ last_span self.now.spans self.now.left }
    {
        if self.place == 0 {
            return no_span();
        }
        self.tokens[self.place - 1].1
    }

    /// From where a span starts to where the token that was passed last ends.
    pub fn expand_span(&self, start: Span) -> Span
        ensures { result ≡ until start (last_span self.now.spans self.now.left) }
    {
        until(start, self.last())
    }

    /// From where a span starts to where the next token ends.
    pub fn span_through_next(&self, start: Span) -> Span
        ensures { result ≡ until start (next_span self.now.spans self.now.left) }
    {
        until(start, self.span())
    }

    /// Passes the next token.
    pub fn advance(&mut self)
        ensures passed { self.new.left ≡ passed self.old.left }
        ensures spans { KeepsSpans self.old self.new }
    {
        if self.place < self.tokens.len() {
            self.place += 1;
        }
    }

    /// How many tokens were passed: a hint for where to look for a refusal, which no contract speaks of.
    pub fn passed(&self) -> usize {
        self.place
    }

    /// Whether a closing bracket stands next.
    pub fn closes(&self) -> bool
        ensures { result ≡ begins_closing self.now.left }
    {
        match self.peek() {
            Next::Token(token, _) => closes(token),
            Next::End => false,
            Next::Bad(_) => false,
        }
    }

    /// Whether a bound of a slice is left out here.
    pub fn ends_bound(&self) -> bool
        ensures { result ≡ begins_bound_end self.now.left }
    {
        match self.peek() {
            Next::Token(token, _) => ends_bound(token),
            Next::End => false,
            Next::Bad(_) => false,
        }
    }

    /// Whether the bare argument of a test stands next.
    pub fn begins_argument(&self) -> bool
        ensures { result ≡ begins_bare self.now.left }
    {
        match self.peek() {
            Next::Token(token, _) => begins_argument(token),
            Next::End => false,
            Next::Bad(_) => false,
        }
    }

    /// Whether an operand that is alone stands next: a name or a number, with an end behind it.
    pub fn begins_alone(&self) -> bool
        ensures { result ≡ begins_alone self.now.left }
    {
        match self.peek() {
            Next::Token(first, _) => match self.peek_second() {
                Some(second) => is_end(second) && is_plain(first),
                None => false,
            },
            Next::End => false,
            Next::Bad(_) => false,
        }
    }

    /// Passes the operator of the level, where one stands next.
    pub fn skip_operator(&mut self, level: Level) -> Option<BinOpKind>
        ensures operator { result ≡ next_operator (level_of level) self.old.left }
        ensures passed { self.new.left ≡ (if is_some result then passed self.old.left else self.old.left) }
        ensures spans { KeepsSpans self.old self.new }
    {
        let found = match self.peek() {
            Next::Token(token, _) => operator_of(level, token),
            Next::End => None,
            Next::Bad(_) => None,
        };
        if found.is_some() {
            self.advance();
        }
        found
    }

    /// Passes a comparison of one token, where one stands next.
    pub fn skip_comparison(&mut self) -> Option<CompareOpKind>
        ensures operator { result ≡ next_comparison self.old.left }
        ensures passed { self.new.left ≡ (if is_some result then passed self.old.left else self.old.left) }
        ensures spans { KeepsSpans self.old self.new }
    {
        let found = match self.peek() {
            Next::Token(token, _) => comparison_of(token),
            Next::End => None,
            Next::Bad(_) => None,
        };
        if found.is_some() {
            self.advance();
        }
        found
    }

    /// Why the next token does not fit.
    pub fn fault(&self) -> Fault
        ensures { fault_of result ≡ fault self.now.left }
    {
        match self.peek() {
            Next::Token(token, _) => fault_at(token),
            Next::End => Fault::Syntax,
            Next::Bad(fault) => fault,
        }
    }

    /// Takes the next token.
    pub fn take(&mut self) -> First<'source>
        ensures taken { self.old.left ≡ ahead result self.new.left }
        ensures span { TakenAt (next_span self.old.spans self.old.left) result }
        ensures spans { KeepsSpans self.old self.new }
    {
        if self.place < self.tokens.len() {
            let (token, span) = take_from(&mut self.tokens[self.place]);
            self.place += 1;
            return First::Token(token, span);
        }
        match self.fault {
            Some(fault) => First::Bad(fault),
            None => First::End,
        }
    }

    /// Passes the sign, where it stands next.
    pub fn skip(&mut self, sign: Sign) -> bool
        ensures passed { SkipsSign (symbol_of sign) self.old.left self.new.left result }
        ensures spans { KeepsSpans self.old self.new }
    {
        match self.sign() {
            Some(next) => {
                if next.is(sign) {
                    self.advance();
                    true
                } else {
                    false
                }
            }
            None => false,
        }
    }

    /// Passes the word, where it stands next.
    #[inline(always)]
    pub fn skip_word(&mut self, word: &str) -> bool
        ensures passed { SkipsWord word.now self.old.left self.new.left result }
        ensures spans { KeepsSpans self.old self.new }
    {
        match self.word() {
            Some(next) => {
                if next == word {
                    self.advance();
                    true
                } else {
                    false
                }
            }
            None => false,
        }
    }
}

impl<'source> TokenStream<'source> {
    // Whether the sign stands next.
    fn begins(&self, sign: Sign) -> bool
        ensures { result ≡ begins_symbol (symbol_of sign) self.now.left }
    {
        match self.sign() {
            Some(next) => sign.is(next),
            None => false,
        }
    }

    /// The word behind the next token.
    pub fn second_word(&self) -> Option<&'source str>
        ensures { option_map (λ w. w.now) result ≡ second_word self.now.left }
    {
        match self.peek() {
            Next::Token(_, _) => match self.peek_second() {
                Some(token) => word_of(token),
                None => None,
            },
            Next::End => None,
            Next::Bad(_) => None,
        }
    }

    // Whether a `=` stands behind the next token.
    fn assigns(&self) -> bool
        ensures { result ≡ assigned_behind self.now.left }
    {
        match self.peek() {
            Next::Token(_, _) => match self.peek_second() {
                Some(token) => assigns(token),
                None => false,
            },
            Next::End => false,
            Next::Bad(_) => false,
        }
    }

    /// Passes a dot and the name behind it, where these two stand next: the name.
    #[tactic(auto, using(crate::proofs::Skips::dotted_here, crate::proofs::Skips::no_dot, crate::proofs::Skips::no_dotted_word))]
    pub fn skip_dotted(&mut self) -> Option<&'source str>
        ensures passed { SkipsDotted self.old.left self.new.left result }
        ensures spans { KeepsSpans self.old self.new }
    {
        match self.second_word() {
            Some(part) => {
                if self.begins(Sign::Dot) {
                    self.advance();
                    self.advance();
                    Some(part)
                } else {
                    None
                }
            }
            None => None,
        }
    }

    /// Passes a name and the `=` behind it, where these two stand next: the name.
    #[tactic(auto, using(crate::proofs::Skips::keyword_here, crate::proofs::Skips::not_assigned, crate::proofs::Skips::no_keyword_word))]
    pub fn skip_keyword(&mut self) -> Option<&'source str>
        ensures passed { SkipsKeyword self.old.left self.new.left result }
        ensures spans { KeepsSpans self.old self.new }
    {
        match self.word() {
            Some(name) => {
                if self.assigns() {
                    self.advance();
                    self.advance();
                    Some(name)
                } else {
                    None
                }
            }
            None => None,
        }
    }

    /// Puts the text literal that stands next behind the text, and passes it: whether one stood there.
    ///
    /// # Errors
    ///
    /// Want of memory: nothing is passed.
    #[tactic(auto, using(crate::proofs::Skips::text_put, crate::proofs::Skips::no_text), unfolding(template_compiler_grammar::specs::ReaderParts::text_step))]
    pub fn skip_text(&mut self, text: &mut String) -> Result<bool, AllocError>
        ensures passed { SkipsText (string_bytes text.old) self.old.left (string_bytes text.new) self.new.left result }
        ensures spans { KeepsSpans self.old self.new }
    {
        match self.peek() {
            Next::Token(token, _) => {
                if !put_text(token, text)? {
                    return Ok(false);
                }
            }
            Next::End => return Ok(false),
            Next::Bad(_) => return Ok(false),
        }
        self.advance();
        Ok(true)
    }
}

/// From where the first span starts to where the second one ends.
pub fn until(start: Span, end: Span) -> Span
    ensures { result ≡ until start end }
{
    Span {
        end_line: end.end_line,
        end_col: end.end_col,
        end_offset: end.end_offset,
        ..start
    }
}

// Takes a token, which leaves another one where it stands.
fn take_from<'source>(held: &mut (Token<'source>, Span)) -> (Token<'source>, Span)
    ensures taken { result ≡ held.old }
    ensures span { held.new.1 ≡ held.old.1 }
{
    let span = held.1;
    let token = mem::replace(&mut held.0, Token::Plus);
    (token, span)
}

// The start of the first line.
fn no_span() -> Span
    ensures { result ≡ no_span }
{
    Span {
        start_line: 0,
        start_col: 0,
        start_offset: 0,
        end_line: 0,
        end_col: 0,
        end_offset: 0,
    }
}

// Puts the text that a token is behind the text: whether it is one.
fn put_text(token: &Token, text: &mut String) -> Result<bool, AllocError>
    ensures { PutsText (token_of token.now) (string_bytes text.old) (string_bytes text.new) result }
{
    match token {
        Token::Str(part) => {
            text.push_str(part)?;
            Ok(true)
        }
        Token::String(part) => {
            text.push_str(part.as_str())?;
            Ok(true)
        }
        _ => Ok(false),
    }
}

// Whether the token is a `=`.
fn assigns(token: &Token) -> bool
    ensures { result ≡ is_symbol assign (token_of token.now) }
{
    match token {
        Token::Assign => true,
        _ => false,
    }
}

// The word that a token is.
fn word_of<'source>(token: &Token<'source>) -> Option<&'source str>
    ensures { option_map (λ w. w.now) result ≡ word_in (token_of token.now) }
{
    match token {
        Token::Ident(name) => Some(name),
        _ => None,
    }
}

// The number that a token is, where it is no larger than a `u64`.
fn number_of(token: &Token) -> Option<u64>
    ensures value { result ≡ number_in (token_of token.now) }
    ensures token { IfSome result (λ n. token_of token.now ≡ number n) }
{
    match token {
        Token::Int(n) => Some(*n),
        Token::Int128(n) => u64::try_from(*n).ok(),
        _ => None,
    }
}

// No token is a fault.
fn fault_at(token: &Token) -> Fault
    ensures syntax { result ≡ Fault.Syntax }
    ensures none { bad_syntax ≡ fault (token_of token.now ∷ []) }
{
    match token {
        Token::Plus => Fault::Syntax,
        _ => Fault::Syntax,
    }
}
