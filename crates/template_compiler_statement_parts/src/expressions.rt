//! What statements read of expressions.
ghost use Rattle.template_compiler_grammar.specs.Reader.{condition_at, expression_at, filter_at, filter_chain_at};
ghost use Rattle.template_compiler_grammar.specs.Views.{node_of, optional_node_in};
ghost use Rattle.template_compiler_statement_parts.specs.Parsed.{ParsedAs};
ghost use Rattle.template_compiler_stream.specs.Spans.{KeepsSpans};

use std::alloc::Global;
use template_compiler_stream::{Refusal, TokenStream};
use template_compiler_tree::Expr;

/// A parser of expressions, as far as that of statements knows it, so that each stands without the other. Each function takes
/// the nesting levels that are left, and takes the tokens of what it reads off the stream. It refuses with the fault of the
/// token that does not fit, or for want of memory; then nothing is said of the tokens that are left.
pub trait ReadsExpressions {
    /// Reads an expression.
    fn read_expression<'source>(
        alloc: Global,
        tokens: &mut TokenStream<'source>,
        left: u32,
    ) -> Result<Expr<'source>, Refusal>
        ensures parsed { ParsedAs node_of (expression_at tokens.old.spans left tokens.old.left) tokens.new.left result }
        ensures spans { KeepsSpans tokens.old tokens.new };

    /// Reads an expression that is no if-expression, as behind the `in` of a loop: an `if` behind it stays.
    fn read_condition<'source>(
        alloc: Global,
        tokens: &mut TokenStream<'source>,
        left: u32,
    ) -> Result<Expr<'source>, Refusal>
        ensures parsed { ParsedAs node_of (condition_at tokens.old.spans left tokens.old.left) tokens.new.left result }
        ensures spans { KeepsSpans tokens.old tokens.new };

    /// Reads a filter's name and its arguments: the filter of the value, or of none, as the first one of a filter block.
    fn read_filter<'source>(
        alloc: Global,
        tokens: &mut TokenStream<'source>,
        left: u32,
        value: Option<Expr<'source>>,
    ) -> Result<Expr<'source>, Refusal>
        ensures parsed { let table = tokens.old.spans in
            ParsedAs node_of (filter_at table left (optional_node_in value.entry) tokens.old.left) tokens.new.left result }
        ensures spans { KeepsSpans tokens.old tokens.new };

    /// Reads the filters behind the value, or behind none, each after a `|`: the value itself where no `|` stands next.
    fn read_filter_chain<'source>(
        alloc: Global,
        tokens: &mut TokenStream<'source>,
        left: u32,
        value: Option<Expr<'source>>,
    ) -> Result<Option<Expr<'source>>, Refusal>
        ensures parsed { let table = tokens.old.spans in
            ParsedAs optional_node_in (filter_chain_at table left (optional_node_in value.entry) tokens.old.left) tokens.new.left result }
        ensures spans { KeepsSpans tokens.old tokens.new };
}
