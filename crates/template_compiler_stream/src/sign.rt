//! What a token is to the parsers: an operator of a level, a comparison, an end.
ghost use Rattle.std.specs.Prelude.{◌≡◌, bytes_eq};
ghost use Rattle.template_compiler_stream.specs.Signs.{level_of, is_end, is_plain};
ghost use Rattle.template_compiler_grammar.specs.Words.{conjunction, disjunction, factors, terms, texts, operator, comparison_operator, is_bare, is_no_argument};
ghost use Rattle.template_compiler_grammar.specs.ReaderParts.{is_closing, is_bound_end};
ghost use Rattle.template_compiler_tokens.specs.View.{token_of};

use template_compiler_tokens::Token;
use template_compiler_tree::{BinOpKind, CompareOpKind};

/// The levels of the left associative operators, from the tightest on.
#[derive(Clone, Copy)]
pub enum Level {
    /// `*`, `/`, `//` and `%`.
    Factors,
    /// `~`.
    Texts,
    /// `+` and `-`.
    Terms,
    /// `and`.
    Conjunction,
    /// `or`.
    Disjunction,
}

/// The operator of the level that a token is.
pub fn operator_of(level: Level, token: &Token) -> Option<BinOpKind>
    ensures { result ≡ operator (level_of level) (token_of token.now) }
{
    match level {
        Level::Factors => factor_of(token),
        Level::Texts => text_sign_of(token),
        Level::Terms => term_of(token),
        Level::Conjunction => conjunction_of(token),
        Level::Disjunction => disjunction_of(token),
    }
}

fn factor_of(token: &Token) -> Option<BinOpKind>
    ensures { result ≡ operator factors (token_of token.now) }
{
    match token {
        Token::Mul => Some(BinOpKind::Mul),
        Token::Div => Some(BinOpKind::Div),
        Token::FloorDiv => Some(BinOpKind::FloorDiv),
        Token::Mod => Some(BinOpKind::Rem),
        _ => None,
    }
}

fn text_sign_of(token: &Token) -> Option<BinOpKind>
    ensures { result ≡ operator texts (token_of token.now) }
{
    match token {
        Token::Tilde => Some(BinOpKind::Concat),
        _ => None,
    }
}

fn term_of(token: &Token) -> Option<BinOpKind>
    ensures { result ≡ operator terms (token_of token.now) }
{
    match token {
        Token::Plus => Some(BinOpKind::Add),
        Token::Minus => Some(BinOpKind::Sub),
        _ => None,
    }
}

fn conjunction_of(token: &Token) -> Option<BinOpKind>
    ensures { result ≡ operator conjunction (token_of token.now) }
{
    match token {
        Token::Ident(name) => {
            if is_word(*name, "and") {
                Some(BinOpKind::ScAnd)
            } else {
                None
            }
        }
        _ => None,
    }
}

fn disjunction_of(token: &Token) -> Option<BinOpKind>
    ensures { result ≡ operator disjunction (token_of token.now) }
{
    match token {
        Token::Ident(name) => {
            if is_word(*name, "or") {
                Some(BinOpKind::ScOr)
            } else {
                None
            }
        }
        _ => None,
    }
}

/// The comparison that a token is.
pub fn comparison_of(token: &Token) -> Option<CompareOpKind>
    ensures { result ≡ comparison_operator (token_of token.now) }
{
    match token {
        Token::Eq => Some(CompareOpKind::Eq),
        Token::Ne => Some(CompareOpKind::Ne),
        Token::Lt => Some(CompareOpKind::Lt),
        Token::Lte => Some(CompareOpKind::Lte),
        Token::Gt => Some(CompareOpKind::Gt),
        Token::Gte => Some(CompareOpKind::Gte),
        Token::Ident(name) => {
            if is_word(*name, "in") {
                Some(CompareOpKind::In)
            } else {
                None
            }
        }
        _ => None,
    }
}

// Whether a name is the word. It stands in line where names are compared by their references out of line.
#[inline(always)]
fn is_word(name: &str, word: &str) -> bool
    ensures { result ≡ bytes_eq word.now name.now }
{
    name == word
}

/// Whether the token closes a bracket.
pub fn closes(token: &Token) -> bool
    ensures { result ≡ is_closing (token_of token.now) }
{
    match token {
        Token::ParenClose => true,
        Token::BracketClose => true,
        Token::BraceClose => true,
        _ => false,
    }
}

/// Whether a bound of a slice is left out before the token.
pub fn ends_bound(token: &Token) -> bool
    ensures { result ≡ is_bound_end (token_of token.now) }
{
    match token {
        Token::ParenClose => true,
        Token::BracketClose => true,
        Token::BraceClose => true,
        Token::Colon => true,
        _ => false,
    }
}

// The words that begin no bare argument.
fn is_no_word(name: &str) -> bool
    ensures { result ≡ is_no_argument name.now }
{
    ["and", "or", "not", "in", "is", "else", "if"].contains(&name)
}

/// Whether the token begins the bare argument of a test.
pub fn begins_argument(token: &Token) -> bool
    ensures { result ≡ is_bare (token_of token.now) }
{
    match token {
        Token::Ident(name) => !is_no_word(name),
        Token::Str(_) => true,
        Token::String(_) => true,
        Token::Int(_) => true,
        Token::Int128(_) => true,
        Token::Minus => true,
        Token::BracketOpen => true,
        Token::BraceOpen => true,
        _ => false,
    }
}

/// Whether the token is a name or a number, which is an operand by itself.
pub fn is_plain(token: &Token) -> bool
    ensures { result ≡ is_plain (token_of token.now) }
{
    match token {
        Token::Ident(name) => !is_word(*name, "not"),
        Token::Int(_) => true,
        Token::Int128(_) => true,
        _ => false,
    }
}

/// Whether no operand goes on with the token, nor what is made of it.
pub fn is_end(token: &Token) -> bool
    ensures { result ≡ is_end (token_of token.now) }
{
    match token {
        Token::VariableEnd => true,
        Token::BlockEnd => true,
        Token::Comma => true,
        Token::Colon => true,
        Token::ParenClose => true,
        Token::BracketClose => true,
        Token::BraceClose => true,
        _ => false,
    }
}
