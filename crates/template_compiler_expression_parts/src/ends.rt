//! What must stand behind something.
ghost use Rattle.std.specs.Prelude.{true, List};
ghost use Rattle.template_compiler_expression_parts.specs.Parsed.{IsDeeper, Parsed, ParsedAs, Separated, written_in};
ghost use Rattle.template_compiler_grammar.specs.ReaderParts.{brace_end, bracket_end, colon_end, paren_end, separated};
ghost use Rattle.template_compiler_grammar.specs.Reader.{few_arguments};
ghost use Rattle.template_compiler_grammar.specs.Views.{node_of, placed_arguments_in};
ghost use Rattle.template_compiler_tree.specs.declared.span.Span.{Span};
ghost use Rattle.template_compiler_tokens.specs.Steps.{and_then};
ghost use Rattle.template_compiler_tokens.specs.Token.{Token};
ghost use Rattle.template_compiler_stream.specs.Spans.{KeepsSpans};

use crate::behind::Written;
use template_compiler_stream::{Fault, Refusal, TokenStream};
use template_compiler_tokens::Sign;
use template_compiler_tree::{CallArg, Expr};

/// The most arguments of a call, a filter or a test.
const ARGUMENT_LIMIT: usize = 2000;

/// One nesting level less.
///
/// # Errors
///
/// No level is left.
pub fn deeper(left: u32) -> Result<u32, Refusal>
    ensures { IsDeeper left result }
{
    if left == 0 {
        Err(Refusal::Token(Fault::Syntax))
    } else {
        Ok(left - 1)
    }
}

/// The value, behind which a `)` stands.
#[tactic(auto, using(crate::proofs::Nothing::no_paren), unfolding(template_compiler_grammar::specs::ReaderParts::paren_end))]
pub fn in_parens<'source>(
    tokens: &mut TokenStream<'source>,
    value: Expr<'source>,
) -> Result<Expr<'source>, Refusal>
    ensures parsed { Parsed (paren_end (node_of value.entry) tokens.old.left) tokens.new.left result }
    ensures spans { KeepsSpans tokens.old tokens.new }
{
    if tokens.skip(Sign::ParenClose) {
        Ok(value)
    } else {
        Err(Refusal::Token(tokens.fault()))
    }
}

/// The value, behind which a `]` stands.
#[tactic(auto, using(crate::proofs::Nothing::no_bracket), unfolding(template_compiler_grammar::specs::ReaderParts::bracket_end))]
pub fn in_brackets<'source>(
    tokens: &mut TokenStream<'source>,
    value: Expr<'source>,
) -> Result<Expr<'source>, Refusal>
    ensures parsed { Parsed (bracket_end (node_of value.entry) tokens.old.left) tokens.new.left result }
    ensures spans { KeepsSpans tokens.old tokens.new }
{
    if tokens.skip(Sign::BracketClose) {
        Ok(value)
    } else {
        Err(Refusal::Token(tokens.fault()))
    }
}

/// The value, behind which a `}` stands.
#[tactic(auto, using(crate::proofs::Nothing::no_brace), unfolding(template_compiler_grammar::specs::ReaderParts::brace_end))]
pub fn in_braces<'source>(
    tokens: &mut TokenStream<'source>,
    value: Expr<'source>,
) -> Result<Expr<'source>, Refusal>
    ensures parsed { Parsed (brace_end (node_of value.entry) tokens.old.left) tokens.new.left result }
    ensures spans { KeepsSpans tokens.old tokens.new }
{
    if tokens.skip(Sign::BraceClose) {
        Ok(value)
    } else {
        Err(Refusal::Token(tokens.fault()))
    }
}

/// The key, behind which a `:` stands.
#[tactic(auto, using(crate::proofs::Nothing::no_colon), unfolding(template_compiler_grammar::specs::ReaderParts::colon_end))]
pub fn before_colon<'source>(
    tokens: &mut TokenStream<'source>,
    key: Expr<'source>,
) -> Result<Expr<'source>, Refusal>
    ensures parsed { Parsed (colon_end (node_of key.entry) tokens.old.left) tokens.new.left result }
    ensures spans { KeepsSpans tokens.old tokens.new }
{
    if tokens.skip(Sign::Colon) {
        Ok(key)
    } else {
        Err(Refusal::Token(tokens.fault()))
    }
}

/// Passes the comma behind an item; a closing bracket may stand there too, and stays.
#[tactic(auto, using(crate::proofs::Nothing::no_comma), unfolding(template_compiler_grammar::specs::ReaderParts::separated))]
pub fn separated(tokens: &mut TokenStream) -> Result<(), Refusal>
    ensures parsed { Separated (separated true tokens.old.left) tokens.new.left result }
    ensures spans { KeepsSpans tokens.old tokens.new }
{
    if tokens.skip(Sign::Comma) || tokens.closes() {
        Ok(())
    } else {
        Err(Refusal::Token(tokens.fault()))
    }
}

/// The arguments, behind which a `)` stands: those by place first, and not more than [`ARGUMENT_LIMIT`].
#[tactic(auto, using(crate::proofs::Nothing::no_paren), unfolding(template_compiler_grammar::specs::ReaderParts::paren_end, template_compiler_tokens::specs::Steps::and_then))]
pub fn in_order<'source>(
    tokens: &mut TokenStream<'source>,
    written: Written<'source>,
) -> Result<Vec<CallArg<'source>>, Refusal>
    ensures parsed { ParsedAs (λ v. placed_arguments_in v.items)
        (and_then (paren_end (written_in written.entry) tokens.old.left) (few_arguments tokens.old.spans)) tokens.new.left result }
    ensures spans { KeepsSpans tokens.old tokens.new }
{
    if tokens.skip(Sign::ParenClose) {
        few(written)
    } else {
        Err(Refusal::Token(tokens.fault()))
    }
}

// Those by place, and behind them those by keyword.
#[tactic(auto, using(crate::proofs::Pushes::few_in, crate::proofs::Pushes::few_over))]
fn few<'source>(written: Written<'source>) -> Result<Vec<CallArg<'source>>, Refusal>
    ensures { (spans : List Span) (ts : List Token) → ParsedAs (λ v. placed_arguments_in v.items)
        (few_arguments spans (written_in written.entry) ts) ts result }
{
    let Written {
        by_place,
        by_keyword,
    } = written;
    let mut arguments = by_place;
    let mut named = by_keyword;
    arguments.append(&mut named)?;
    if arguments.len() > ARGUMENT_LIMIT {
        return Err(Refusal::Token(Fault::Syntax));
    }
    Ok(arguments)
}
