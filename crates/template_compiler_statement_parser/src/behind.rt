//! Statements that are put behind others, where nothing stands in them that calls itself.
ghost use Rattle.std.specs.Prelude.{◌≡◌, IfErr, OnOk};
ghost use Rattle.template_compiler_grammar.specs.TemplateNodes.{and_placed_statement, statement_node};
ghost use Rattle.template_compiler_grammar.specs.TemplateReader.{here, opened_by, print_by};
ghost use Rattle.template_compiler_grammar.specs.Views.{statement_node_of};
ghost use Rattle.template_compiler_statement_makers.specs.Listed.{statement_nodes_in};
ghost use Rattle.template_compiler_statement_makers.specs.Surroundings.{around_of};
ghost use Rattle.template_compiler_statement_parser.specs.Bodies.{PutBehind};
ghost use Rattle.template_compiler_statement_parser.specs.Kinds.{leaf_opening};
ghost use Rattle.template_compiler_stream.specs.declared.refusal.Refusal.TheVariants as refusals;
ghost use Rattle.template_compiler_stream.specs.Spans.{KeepsSpans};
ghost use Rattle.template_compiler_tree.specs.NodePlaces.{no_parts};
ghost use Rattle.template_compiler_tree.specs.Tree.{raw};
ghost use Rattle.template_compiler_tree_statements.specs.declared.statements.Stmt.TheVariants as variants;

use crate::kinds::{Leaf, read_leaf};
use std::alloc::Global;
use template_compiler_statement_heads::read_print;
use template_compiler_statement_makers::Around;
use template_compiler_statement_parts::{ReadsExpressions, put};
use template_compiler_stream::{Refusal, TokenStream};
use template_compiler_tree::{Span, Spanned};
use template_compiler_tree_statements::{EmitRaw, ForLoop, IfCond, Stmt};

/// A text.
#[inline(always)]
#[tactic(auto, using(template_compiler_statement_makers::proofs::Lists::statement_nodes_push))]
pub(crate) fn put_text<'source>(
    statements: &mut Vec<Stmt<'source>>,
    text: &'source str,
    span: Span,
) -> Result<(), Refusal>
    ensures put { OnOk result (statement_nodes_in statements.new.items ≡
        and_placed_statement (statement_nodes_in statements.old.items) (statement_node (raw text.now) span no_parts)) }
    ensures refused { IfErr result (λ refusal. refusal ≡ refusals.OutOfMemory) }
{
    put(
        statements,
        Stmt::EmitRaw(Spanned::new(EmitRaw { raw: text }, span)),
    )
}

/// A print, behind its start.
#[inline(always)]
pub(crate) fn put_print<'source, R: ReadsExpressions>(
    alloc: Global,
    tokens: &mut TokenStream<'source>,
    left: u32,
    span: Span,
    statements: &mut Vec<Stmt<'source>>,
) -> Result<(), Refusal>
    ensures parsed { let table = tokens.old.spans in
        PutBehind (print_by table (here table left) span tokens.old.left) (statement_nodes_in statements.old.items)
        (statement_nodes_in statements.new.items) tokens.new.left result }
    ensures spans { KeepsSpans tokens.old tokens.new }
{
    let print = read_print::<R>(alloc, tokens, left, span)?;
    put(statements, Stmt::EmitExpr(print))
}

/// A loop.
#[inline(always)]
#[tactic(auto, using(template_compiler_statement_makers::proofs::Lists::statement_nodes_push))]
pub(crate) fn put_loop<'source>(
    statements: &mut Vec<Stmt<'source>>,
    node: Box<Spanned<ForLoop<'source>>>,
) -> Result<(), Refusal>
    ensures put { OnOk result (statement_nodes_in statements.new.items ≡
        and_placed_statement (statement_nodes_in statements.old.items) (statement_node_of (variants.ForLoop node.entry))) }
    ensures refused { IfErr result (λ refusal. refusal ≡ refusals.OutOfMemory) }
{
    put(statements, Stmt::ForLoop(node))
}

/// A condition.
#[inline(always)]
#[tactic(auto, using(template_compiler_statement_makers::proofs::Lists::statement_nodes_push))]
pub(crate) fn put_condition<'source>(
    statements: &mut Vec<Stmt<'source>>,
    node: Box<Spanned<IfCond<'source>>>,
) -> Result<(), Refusal>
    ensures put { OnOk result (statement_nodes_in statements.new.items ≡
        and_placed_statement (statement_nodes_in statements.old.items) (statement_node_of (variants.IfCond node.entry))) }
    ensures refused { IfErr result (λ refusal. refusal ≡ refusals.OutOfMemory) }
{
    put(statements, Stmt::IfCond(node))
}

/// A statement without a body, behind the word that begins it.
#[inline(never)]
pub(crate) fn put_leaf<'source, R: ReadsExpressions>(
    alloc: Global,
    tokens: &mut TokenStream<'source>,
    left: u32,
    around: Around,
    leaf: Leaf,
    span: Span,
    statements: &mut Vec<Stmt<'source>>,
) -> Result<(), Refusal>
    ensures parsed { let table = tokens.old.spans in
        PutBehind (opened_by table (here table left) (around_of around) (leaf_opening leaf) span tokens.old.left)
        (statement_nodes_in statements.old.items) (statement_nodes_in statements.new.items) tokens.new.left result }
    ensures spans { KeepsSpans tokens.old tokens.new }
{
    let statement = read_leaf::<R>(alloc, tokens, left, around, leaf, span)?;
    put(statements, statement)
}
