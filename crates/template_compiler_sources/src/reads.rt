//! The parser of expressions that statements read with.

use std::alloc::Global;
use template_compiler_expression_parser as parser;
use template_compiler_statement_parts::ReadsExpressions;
use template_compiler_stream::{Refusal, TokenStream};
use template_compiler_tree::Expr;

// The parser of expressions.
pub(crate) struct ExpressionParser;

impl ReadsExpressions for ExpressionParser {
    fn read_expression<'source>(
        alloc: Global,
        tokens: &mut TokenStream<'source>,
        left: u32,
    ) -> Result<Expr<'source>, Refusal> {
        parser::read_expression(alloc, tokens, left)
    }

    fn read_condition<'source>(
        alloc: Global,
        tokens: &mut TokenStream<'source>,
        left: u32,
    ) -> Result<Expr<'source>, Refusal> {
        parser::read_condition(alloc, tokens, left)
    }

    fn read_filter<'source>(
        alloc: Global,
        tokens: &mut TokenStream<'source>,
        left: u32,
        value: Option<Expr<'source>>,
    ) -> Result<Expr<'source>, Refusal> {
        parser::read_filter(alloc, tokens, left, value)
    }

    fn read_filter_chain<'source>(
        alloc: Global,
        tokens: &mut TokenStream<'source>,
        left: u32,
        value: Option<Expr<'source>>,
    ) -> Result<Option<Expr<'source>>, Refusal> {
        parser::read_filter_chain(alloc, tokens, left, value)
    }
}
