//! Signs and brackets.
ghost use Rattle.std.specs.Prelude.{◌≡◌, ◌==◌, option_map};
ghost use Rattle.template_compiler_tokens.specs.Signs.{number_of, symbol_in, symbol_of};
ghost use Rattle.template_compiler_tokens.specs.Token.{symbol};
ghost use Rattle.template_compiler_tokens.specs.View.{token_of};

use crate::token::Token;

/// A sign or a bracket.
#[derive(Clone, Copy)]
pub enum Sign {
    /// `+`.
    Plus,
    /// `-`.
    Minus,
    /// `*`.
    Mul,
    /// `/`.
    Div,
    /// `//`.
    FloorDiv,
    /// `**`.
    Pow,
    /// `%`.
    Mod,
    /// `.`.
    Dot,
    /// `,`.
    Comma,
    /// `:`.
    Colon,
    /// `~`.
    Tilde,
    /// `=`.
    Assign,
    /// `|`.
    Pipe,
    /// `==`.
    Eq,
    /// `!=`.
    Ne,
    /// `>`.
    Gt,
    /// `>=`.
    Gte,
    /// `<`.
    Lt,
    /// `<=`.
    Lte,
    /// `[`.
    BracketOpen,
    /// `]`.
    BracketClose,
    /// `(`.
    ParenOpen,
    /// `)`.
    ParenClose,
    /// `{`.
    BraceOpen,
    /// `}`.
    BraceClose,
}

impl Sign {
    /// The token that the sign is.
    #[inline(always)]
    pub fn token<'source>(self) -> Token<'source>
        ensures { token_of result ≡ symbol (symbol_of self) }
    {
        match self {
            Sign::Plus => Token::Plus,
            Sign::Minus => Token::Minus,
            Sign::Mul => Token::Mul,
            Sign::Div => Token::Div,
            Sign::FloorDiv => Token::FloorDiv,
            Sign::Pow => Token::Pow,
            Sign::Mod => Token::Mod,
            Sign::Dot => Token::Dot,
            Sign::Comma => Token::Comma,
            Sign::Colon => Token::Colon,
            Sign::Tilde => Token::Tilde,
            Sign::Assign => Token::Assign,
            Sign::Pipe => Token::Pipe,
            Sign::Eq => Token::Eq,
            Sign::Ne => Token::Ne,
            Sign::Gt => Token::Gt,
            Sign::Gte => Token::Gte,
            Sign::Lt => Token::Lt,
            Sign::Lte => Token::Lte,
            Sign::BracketOpen => Token::BracketOpen,
            Sign::BracketClose => Token::BracketClose,
            Sign::ParenOpen => Token::ParenOpen,
            Sign::ParenClose => Token::ParenClose,
            Sign::BraceOpen => Token::BraceOpen,
            Sign::BraceClose => Token::BraceClose,
        }
    }

    /// Whether the two are the same.
    #[inline]
    pub fn is(self, other: Sign) -> bool
        ensures { result ≡ (number_of (symbol_of self) == number_of (symbol_of other)) }
    {
        self as u8 == other as u8
    }
}

/// The sign or the bracket that a token is.
#[inline]
pub fn sign_of(token: &Token) -> Option<Sign>
    ensures { option_map symbol_of result ≡ symbol_in (token_of token.now) }
{
    match token {
        Token::TemplateData(_) => None,
        Token::VariableStart => None,
        Token::VariableEnd => None,
        Token::BlockStart => None,
        Token::BlockEnd => None,
        Token::Ident(_) => None,
        Token::Str(_) => None,
        Token::String(_) => None,
        Token::Int(_) => None,
        Token::Int128(_) => None,
        Token::Plus => Some(Sign::Plus),
        Token::Minus => Some(Sign::Minus),
        Token::Mul => Some(Sign::Mul),
        Token::Div => Some(Sign::Div),
        Token::FloorDiv => Some(Sign::FloorDiv),
        Token::Pow => Some(Sign::Pow),
        Token::Mod => Some(Sign::Mod),
        Token::Dot => Some(Sign::Dot),
        Token::Comma => Some(Sign::Comma),
        Token::Colon => Some(Sign::Colon),
        Token::Tilde => Some(Sign::Tilde),
        Token::Assign => Some(Sign::Assign),
        Token::Pipe => Some(Sign::Pipe),
        Token::Eq => Some(Sign::Eq),
        Token::Ne => Some(Sign::Ne),
        Token::Gt => Some(Sign::Gt),
        Token::Gte => Some(Sign::Gte),
        Token::Lt => Some(Sign::Lt),
        Token::Lte => Some(Sign::Lte),
        Token::BracketOpen => Some(Sign::BracketOpen),
        Token::BracketClose => Some(Sign::BracketClose),
        Token::ParenOpen => Some(Sign::ParenOpen),
        Token::ParenClose => Some(Sign::ParenClose),
        Token::BraceOpen => Some(Sign::BraceOpen),
        Token::BraceClose => Some(Sign::BraceClose),
    }
}
