//! Names that may be stored.
ghost use Rattle.std.specs.Prelude.{◌≡◌};
ghost use Rattle.template_compiler_statement_parts.specs.Parsed.{ParsedNode};
ghost use Rattle.template_compiler_grammar.specs.TemplateReader.{stored_by};
ghost use Rattle.template_compiler_grammar.specs.TemplateWords.{is_reserved};
ghost use Rattle.template_compiler_stream.specs.Spans.{KeepsSpans};

use template_compiler_stream::{Fault, Refusal, TokenStream};
use template_compiler_tree::Expr;

/// Whether the word is no name of a target, a macro, an argument or an alias.
pub fn is_reserved(name: &str) -> bool
    ensures { result ≡ is_reserved name.now }
{
    match name {
        "true" | "True" | "false" | "False" | "none" | "None" | "loop" | "self" => true,
        _ => false,
    }
}

/// Reads a name that may be stored.
///
/// # Errors
///
/// The fault of the token that stands there.
#[inline(always)]
#[tactic(auto, using(crate::proofs::Placed::stored_word, crate::proofs::Placed::stored_none))]
pub fn read_stored<'source>(tokens: &mut TokenStream<'source>) -> Result<Expr<'source>, Refusal>
    ensures parsed { ParsedNode (stored_by tokens.old.spans tokens.old.left) tokens.new.left result }
    ensures spans { KeepsSpans tokens.old tokens.new }
{
    let span = tokens.span();
    match tokens.word() {
        Some(name) => {
            tokens.advance();
            if is_reserved(name) {
                Err(Refusal::Token(Fault::Syntax))
            } else {
                Ok(Expr::variable(name, span))
            }
        }
        None => Err(Refusal::Token(tokens.fault())),
    }
}
