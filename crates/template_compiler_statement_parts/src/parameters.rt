//! The arguments that a macro or the body of a call is declared with.
ghost use Rattle.std.specs.Prelude.{◌≡◌, [], ◌∷◌};
ghost use Rattle.template_compiler_statement_parts.specs.Parsed.{ParsedAs, SteppedTo, ParsedInto};
ghost use Rattle.template_compiler_statement_parts.specs.Written.{parameters_of, placed_parameters_of};
ghost use Rattle.template_compiler_grammar.specs.TemplateReaderParts.{is_nothing, more_step};
ghost use Rattle.template_compiler_grammar.specs.Reader.{expression_at};
ghost use Rattle.template_compiler_grammar.specs.TemplateNodes.{no_placed_parameters};
ghost use Rattle.template_compiler_grammar.specs.TemplateReader.{deeper_parameters, here, optional_parameters_by, parameter_by, parameters_by};
ghost use Rattle.template_compiler_tokens.specs.Steps.{all};
ghost use Rattle.template_compiler_stream.specs.Spans.{KeepsSpans};

use crate::expressions::ReadsExpressions;
use crate::{expect_paren_end, put, read_stored};
use std::alloc::Global;
use template_compiler_stream::{Fault, Refusal, TokenStream};
use template_compiler_tokens::Sign;
use template_compiler_tree::Expr;

/// Arguments, and the defaults of the last of them.
#[derive(Drop)]
pub struct Parameters<'source> {
    pub args: Vec<Expr<'source>>,
    pub defaults: Vec<Expr<'source>>,
}

fn no_parameters<'source>(alloc: Global) -> Parameters<'source>
    ensures { placed_parameters_of result ≡ no_placed_parameters }
{
    Parameters {
        args: Vec::new(alloc),
        defaults: Vec::new(alloc),
    }
}

/// Reads arguments in parentheses, where they stand next.
///
/// ```text
/// (row, index=0)
/// ```
///
/// # Errors
///
/// The fault of the token that does not fit, or want of memory.
#[tactic(auto, using(crate::proofs::ValuesPlaced::no_parens), unfolding(crate::proofs::ValuesOpened::optional_read))]
pub fn read_optional_parameters<'source, R: ReadsExpressions>(
    alloc: Global,
    tokens: &mut TokenStream<'source>,
    left: u32,
) -> Result<Parameters<'source>, Refusal>
    ensures parsed { let table = tokens.old.spans in
        ParsedAs placed_parameters_of (optional_parameters_by table (here table left) tokens.old.left) tokens.new.left result }
    ensures spans { KeepsSpans tokens.old tokens.new }
{
    if tokens.skip(Sign::ParenOpen) {
        read_deeper_parameters::<R>(alloc, tokens, left)
    } else {
        Ok(no_parameters(alloc))
    }
}

/// Reads arguments behind `(`, and `)`. They are one nesting level deeper.
///
/// ```text
/// name, kind="text")
/// ```
///
/// # Errors
///
/// The fault of the token that does not fit, or want of memory.
#[tactic(auto, unfolding(template_compiler_grammar::specs::TemplateReader::deeper_parameters))]
pub fn read_deeper_parameters<'source, R: ReadsExpressions>(
    alloc: Global,
    tokens: &mut TokenStream<'source>,
    left: u32,
) -> Result<Parameters<'source>, Refusal>
    ensures parsed { ParsedAs placed_parameters_of (deeper_parameters tokens.old.spans left tokens.old.left) tokens.new.left result }
    ensures spans { KeepsSpans tokens.old tokens.new }
{
    if left == 0 {
        Err(Refusal::Token(Fault::Syntax))
    } else {
        read_parameters::<R>(alloc, tokens, left - 1)
    }
}

#[tactic(auto, using(crate::proofs::ValuesStanding::parameters_next), unfolding(crate::proofs::ValuesOpened::parameters_read))]
fn read_parameters<'source, R: ReadsExpressions>(
    alloc: Global,
    tokens: &mut TokenStream<'source>,
    left: u32,
) -> Result<Parameters<'source>, Refusal>
    ensures parsed { let table = tokens.old.spans in
        ParsedAs placed_parameters_of (parameters_by table (expression_at table left) tokens.old.left) tokens.new.left result }
    ensures spans { KeepsSpans tokens.old tokens.new }
{
    let mut parameters = no_parameters(alloc);
    if tokens.skip(Sign::ParenClose) {
        return Ok(parameters);
    }
    read_parameter::<R>(alloc, tokens, left, &mut parameters)?;
    all_parameters::<R>(alloc, tokens, left, &mut parameters)?;
    expect_paren_end(tokens)?;
    Ok(parameters)
}

#[tactic(auto, using(crate::proofs::ValuesStanding::parameter_next), unfolding(crate::proofs::ValuesOpened::parameter_read))]
fn read_parameter<'source, R: ReadsExpressions>(
    alloc: Global,
    tokens: &mut TokenStream<'source>,
    left: u32,
    parameters: &mut Parameters<'source>,
) -> Result<(), Refusal>
    ensures parsed { let table = tokens.old.spans in
        ParsedInto (parameter_by table (expression_at table left) (placed_parameters_of parameters.old) tokens.old.left)
        (placed_parameters_of parameters.new) tokens.new.left result }
    ensures spans { KeepsSpans tokens.old tokens.new }
{
    let name = read_stored(tokens)?;
    if tokens.skip(Sign::Assign) {
        let default = R::read_expression(alloc, tokens, left)?;
        put(&mut parameters.args, name)?;
        put(&mut parameters.defaults, default)
    } else if has_no_default(parameters) {
        put(&mut parameters.args, name)
    } else {
        Err(Refusal::Token(Fault::Syntax))
    }
}

#[tactic(auto, using(crate::proofs::ValueLists::nothing_in))]
fn has_no_default<'source>(parameters: &Parameters<'source>) -> bool
    ensures { result ≡ is_nothing (parameters_of parameters.now).1 }
{
    parameters.defaults.is_empty()
}

fn all_parameters<'source, R: ReadsExpressions>(
    alloc: Global,
    tokens: &mut TokenStream<'source>,
    left: u32,
    parameters: &mut Parameters<'source>,
) -> Result<(), Refusal>
    ensures parsed { let table = tokens.old.spans in
        ParsedInto (all (more_step (parameter_by table (expression_at table left))) (placed_parameters_of parameters.old) tokens.old.left)
        (placed_parameters_of parameters.new) tokens.new.left result }
    ensures spans { KeepsSpans tokens.old tokens.new }
{
    loop {
        match next_parameter::<R>(alloc, tokens, left, parameters) {
            Ok(true) => {}
            Ok(false) => return Ok(()),
            Err(refusal) => return Err(refusal),
        }
    }
}

#[tactic(auto, using(crate::proofs::Standing::no_more), unfolding(crate::proofs::ValuesOpened::more_read))]
fn next_parameter<'source, R: ReadsExpressions>(
    alloc: Global,
    tokens: &mut TokenStream<'source>,
    left: u32,
    parameters: &mut Parameters<'source>,
) -> Result<bool, Refusal>
    ensures parsed { let table = tokens.old.spans in
        SteppedTo (more_step (parameter_by table (expression_at table left)) (placed_parameters_of parameters.old) tokens.old.left)
        (placed_parameters_of parameters.old) tokens.old.left (placed_parameters_of parameters.new) tokens.new.left result }
    ensures spans { KeepsSpans tokens.old tokens.new }
{
    if tokens.skip(Sign::Comma) {
        read_parameter::<R>(alloc, tokens, left, parameters)?;
        Ok(true)
    } else {
        Ok(false)
    }
}
