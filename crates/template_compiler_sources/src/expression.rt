//! The tree of an expression's source.
ghost use Rattle.std.specs.Prelude.{◌≡◌, ◌≤◌, ◌^◌, [], length, IfOk, IfErr, IsErrAnd, Ok};
ghost use Rattle.template_compiler_sources.specs.Source.{IsAlone, IsExpressionSource, IsPlacedExpressionSource, RefusesExpression};
ghost use Rattle.template_compiler_sources.specs.Wholes.{ParsedExpression, expression_alone};
ghost use Rattle.template_compiler_grammar.specs.Reader.{expression_at};
ghost use Rattle.template_compiler_grammar.specs.Views.{node_of};
ghost use Rattle.template_compiler_tree.specs.View.{expression_of};
ghost use Rattle.template_values_errors.specs.declared.ErrorKind.TheVariants.{TooLarge};

use crate::prefixes::Text;
use crate::refused::refused_at;
use crate::template::MAX_DEPTH;
use crate::{error_of, read_expression_tokens};
use std::alloc::Global;
use template_compiler_expression_parser::read_expression;
use template_compiler_stream::{Refusal, TokenStream};
use template_compiler_tree::Expr;
use template_values_errors::{Error, ErrorKind};

/// The tree of an expression that is all of its source, in linear time; each node has the span of its tokens. Texts and
/// names are slices of the source.
///
/// # Errors
///
/// `TooLarge` for a source of 2^32 bytes or more. Else the fault that the reading of its tokens ends with: `BadEscape` where
/// that is a text literal with an escape that is none, `NoFloats` where it is a number with a fraction or an exponent,
/// `SyntaxError` for any other. `OutOfMemory`. Such a fault has its place as in [`parse`](crate::parse), under the name
/// `<expression>`.
pub fn parse_expr<'source>(alloc: Global, source: &'source str) -> Result<Expr<'source>, Error>
    ensures found { IfOk result (λ tree. IsExpressionSource source.now (expression_of tree)) }
    ensures places { IfOk result (λ tree. IsPlacedExpressionSource source.now (node_of tree)) }
    ensures refused { IfErr result (RefusesExpression source.now) }
    ensures too_large { 2 ^ 32 ≤ length source.now → IsErrAnd result (IsAlone TooLarge) }
{
    if source.len() > u32::MAX as usize {
        return Err(Error::new(ErrorKind::TooLarge));
    }
    match read_expression_tokens(alloc, source) {
        Ok(mut tokens) => match whole_expression(alloc, &mut tokens) {
            Ok(tree) => Ok(tree),
            Err(refusal) => Err(refused_at(
                alloc,
                &Text::Expression(source),
                tokens.passed(),
                refusal,
            )),
        },
        Err(refusal) => Err(error_of(refusal)),
    }
}

/// Reads all tokens as one expression.
pub(crate) fn whole_expression<'source>(
    alloc: Global,
    tokens: &mut TokenStream<'source>,
) -> Result<Expr<'source>, Refusal>
    ensures tree { ParsedExpression (expression_alone tokens.old.left) result }
    ensures placed { IfOk result (λ tree. expression_at tokens.old.spans 150 tokens.old.left ≡ Ok (node_of tree, [])) }
{
    let tree = read_expression(alloc, tokens, MAX_DEPTH)?;
    if tokens.is_done() {
        Ok(tree)
    } else {
        Err(Refusal::Token(tokens.fault()))
    }
}
