//! What a stream of tokens has ahead.
use crate::tokenizer::Tokenizer;
use template_compiler_tokens::Token;
use template_compiler_tree::Span;
use template_values_errors::ErrorKind;

/// What stands ahead of a stream's place.
#[derive(Drop)]
pub enum Ahead<'source> {
    /// A token.
    Next(Token<'source>, Span),
    /// Nothing more.
    End,
    /// No token; or no memory was left for it.
    Refused(ErrorKind),
}

impl<'source> Ahead<'source> {
    ghost use Rattle.template_compiler_tokenizer.specs.Stream.{ReadsAhead};

    /// What a tokenizer gives next.
    pub fn read(tokenizer: &mut Tokenizer<'source>) -> Ahead<'source>
        ensures { ReadsAhead tokenizer.old tokenizer.new result }
    {
        match tokenizer.next_token() {
            Ok(Some((token, span))) => Ahead::Next(token, span),
            Ok(None) => Ahead::End,
            Err(error) => Ahead::Refused(error.kind()),
        }
    }
}
