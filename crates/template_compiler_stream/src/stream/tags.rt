//! What stands next beside signs and words.
ghost use Rattle.std.specs.Prelude.{◌≡◌, ◌≤◌, length, option_map};
ghost use Rattle.template_compiler_stream.specs.Tags.{begins_block_end, begins_block_start, begins_variable_end, begins_variable_start, is_block_end, is_block_start, is_done, is_variable_end, is_variable_start, next_text, text_in};
ghost use Rattle.template_compiler_tokens.specs.Places.{token_count};
ghost use Rattle.template_compiler_tokens.specs.View.{token_of};

use crate::stream::{Next, TokenStream};
use template_compiler_tokens::Token;

impl<'source> TokenStream<'source> {
    /// Whether the start of a print stands next.
    pub fn starts_print(&self) -> bool
        ensures { result ≡ begins_variable_start self.now.left }
    {
        match self.peek() {
            Next::Token(token, _) => is_variable_start(token),
            Next::End => false,
            Next::Bad(_) => false,
        }
    }

    /// Whether the end of a print stands next.
    pub fn ends_print(&self) -> bool
        ensures { result ≡ begins_variable_end self.now.left }
    {
        match self.peek() {
            Next::Token(token, _) => is_variable_end(token),
            Next::End => false,
            Next::Bad(_) => false,
        }
    }

    /// Whether the start of a tag stands next.
    pub fn starts_tag(&self) -> bool
        ensures { result ≡ begins_block_start self.now.left }
    {
        match self.peek() {
            Next::Token(token, _) => is_block_start(token),
            Next::End => false,
            Next::Bad(_) => false,
        }
    }

    /// Whether the end of a tag stands next.
    pub fn ends_tag(&self) -> bool
        ensures { result ≡ begins_block_end self.now.left }
    {
        match self.peek() {
            Next::Token(token, _) => is_block_end(token),
            Next::End => false,
            Next::Bad(_) => false,
        }
    }

    /// The text between segments that stands next. Each token that is left has its span.
    pub fn text(&self) -> Option<&'source str>
        ensures text { option_map (λ w. w.now) result ≡ next_text self.now.left }
        ensures counted { token_count self.now.left ≤ length self.now.spans }
    {
        match self.peek() {
            Next::Token(token, _) => text_of(token),
            Next::End => None,
            Next::Bad(_) => None,
        }
    }

    /// Whether no token is left.
    pub fn is_done(&self) -> bool
        ensures { result ≡ is_done self.now.left }
    {
        match self.peek() {
            Next::Token(_, _) => false,
            Next::End => true,
            Next::Bad(_) => false,
        }
    }
}

// The text between segments that a token is.
fn text_of<'source>(token: &Token<'source>) -> Option<&'source str>
    ensures { option_map (λ w. w.now) result ≡ text_in (token_of token.now) }
{
    match token {
        Token::TemplateData(text) => Some(text),
        _ => None,
    }
}

fn is_variable_start(token: &Token) -> bool
    ensures { result ≡ is_variable_start (token_of token.now) }
{
    match token {
        Token::VariableStart => true,
        _ => false,
    }
}

fn is_variable_end(token: &Token) -> bool
    ensures { result ≡ is_variable_end (token_of token.now) }
{
    match token {
        Token::VariableEnd => true,
        _ => false,
    }
}

fn is_block_start(token: &Token) -> bool
    ensures { result ≡ is_block_start (token_of token.now) }
{
    match token {
        Token::BlockStart => true,
        _ => false,
    }
}

fn is_block_end(token: &Token) -> bool
    ensures { result ≡ is_block_end (token_of token.now) }
{
    match token {
        Token::BlockEnd => true,
        _ => false,
    }
}
