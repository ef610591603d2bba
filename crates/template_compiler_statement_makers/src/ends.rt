//! Statements of their heads and their bodies. A head with its body is one node more at most.
ghost use Rattle.std.specs.Prelude.{◌≡◌, ◌∷◌, [], IfOk};
ghost use Rattle.template_compiler_grammar.specs.Nodes.{given_node};
ghost use Rattle.template_compiler_grammar.specs.TemplateNodes.{auto_escape_node, branched_node, condition_node, filter_block_node, for_node, set_block_node};
ghost use Rattle.template_compiler_grammar.specs.Views.{node_of, statement_node_of};
ghost use Rattle.template_compiler_statement_makers.specs.Begun.{loop_head, set_block_of};
ghost use Rattle.template_compiler_statement_makers.specs.Branches.{branch_in, branches_in};
ghost use Rattle.template_compiler_statement_makers.specs.Listed.{statement_nodes_in};
ghost use Rattle.template_compiler_tree_statements.specs.declared.statements.Stmt.TheVariants as statements;

use crate::makers;
use std::alloc::{AllocError, Global};
use template_compiler_stream::until;
use template_compiler_tree::{Span, Spanned};
use template_compiler_tree_statements::{AutoEscape, FilterBlock, ForLoop, IfCond, SetBlock, Stmt};

/// A loop that has its bodies, up to where it ends.
#[inline(always)]
#[tactic(auto, using(crate::proofs::Rows::nodes_row))]
pub fn for_loop<'source>(
    head: Box<Spanned<ForLoop<'source>>>,
    span: Span,
) -> Box<Spanned<ForLoop<'source>>>
    ensures { let h = loop_head head.entry in let n = head.entry.value.node in statement_node_of (statements.ForLoop result) ≡
        for_node h.0 h.1 h.2 h.3 (statement_nodes_in n.body.items) (statement_nodes_in n.else_body.items) span }
{
    let mut node = head;
    end(&mut node, span);
    node
}

/// A condition that has its bodies, up to where it ends.
#[inline(always)]
#[tactic(auto, using(crate::proofs::Rows::nodes_row))]
pub fn condition<'source>(
    head: Box<Spanned<IfCond<'source>>>,
    span: Span,
) -> Box<Spanned<IfCond<'source>>>
    ensures { statement_node_of (statements.IfCond result) ≡
        condition_node (branch_in head.entry) (statement_nodes_in head.entry.value.node.false_body.items) span }
{
    let mut node = head;
    end(&mut node, span);
    node
}

// A node ends where the span does.
fn end<T: Drop>(node: &mut Spanned<T>, span: Span)
    ensures node { node.new.node ≡ node.old.node }
    ensures span { node.new.span ≡ span }
{
    node.span = span;
}

/// An `autoescape` with its body.
#[tactic(auto, using(crate::proofs::Rows::nodes_row))]
pub fn auto_escape<'source>(
    head: Box<Spanned<AutoEscape<'source>>>,
    body: Vec<Stmt<'source>>,
    span: Span,
) -> Box<Spanned<AutoEscape<'source>>>
    ensures { statement_node_of (statements.AutoEscape result) ≡
        auto_escape_node (node_of head.entry.value.node.enabled) (statement_nodes_in body.entry.items) span }
{
    let mut node = head;
    end_auto_escape(&mut node, body, span);
    node
}

fn end_auto_escape<'source>(
    node: &mut Spanned<AutoEscape<'source>>,
    body: Vec<Stmt<'source>>,
    span: Span,
)
    ensures enabled { node.new.node.enabled ≡ node.old.node.enabled }
    ensures body { node.new.node.body ≡ body.entry }
    ensures span { node.new.span ≡ span }
{
    put(&mut node.node.body, body);
    node.span = span;
}

/// A filter block with its body.
#[tactic(auto, using(crate::proofs::Rows::nodes_row))]
pub fn filter_block<'source>(
    head: Box<Spanned<FilterBlock<'source>>>,
    body: Vec<Stmt<'source>>,
    span: Span,
) -> Box<Spanned<FilterBlock<'source>>>
    ensures { statement_node_of (statements.FilterBlock result) ≡
        filter_block_node (given_node (node_of head.entry.value.node.filter)) (statement_nodes_in body.entry.items) span }
{
    let mut node = head;
    end_filter_block(&mut node, body, span);
    node
}

fn end_filter_block<'source>(
    node: &mut Spanned<FilterBlock<'source>>,
    body: Vec<Stmt<'source>>,
    span: Span,
)
    ensures filter { node.new.node.filter ≡ node.old.node.filter }
    ensures body { node.new.node.body ≡ body.entry }
    ensures span { node.new.span ≡ span }
{
    put(&mut node.node.body, body);
    node.span = span;
}

/// A set block with its body.
#[tactic(auto, using(crate::proofs::Rows::nodes_row))]
pub fn set_block<'source>(
    head: Box<Spanned<SetBlock<'source>>>,
    body: Vec<Stmt<'source>>,
    span: Span,
) -> Box<Spanned<SetBlock<'source>>>
    ensures { let h = set_block_of head.entry in
        statement_node_of (statements.SetBlock result) ≡ set_block_node h.0 h.1 (statement_nodes_in body.entry.items) span }
{
    let mut node = head;
    end_set_block(&mut node, body, span);
    node
}

fn end_set_block<'source>(
    node: &mut Spanned<SetBlock<'source>>,
    body: Vec<Stmt<'source>>,
    span: Span,
)
    ensures target { node.new.node.target ≡ node.old.node.target }
    ensures filter { node.new.node.filter ≡ node.old.node.filter }
    ensures body { node.new.node.body ≡ body.entry }
    ensures span { node.new.span ≡ span }
{
    put(&mut node.node.body, body);
    node.span = span;
}

/// Each branch is the one statement of the body before it, up to the end of the whole.
pub fn branched<'source>(
    alloc: Global,
    branches: Vec<Box<Spanned<IfCond<'source>>>>,
    last: Vec<Stmt<'source>>,
    whole: Span,
) -> Result<Vec<Stmt<'source>>, AllocError>
    ensures { IfOk result (λ v. statement_nodes_in v.items ≡
        branched_node (branches_in branches.entry.items) (statement_nodes_in last.entry.items) whole) }
{
    let mut branches = branches;
    let mut body = last;
    while let Some(branch) = branches.pop() {
        let span = until(branch.span, whole);
        body = alone(alloc, Stmt::IfCond(makers::otherwise(branch, body, span)))?;
    }
    Ok(body)
}

// A list of one item.
fn alone<T: Drop>(alloc: Global, item: T) -> Result<Vec<T>, AllocError>
    ensures { IfOk result (λ v. v.items ≡ item ∷ []) }
{
    let mut items = Vec::new(alloc);
    items.push(item)?;
    Ok(items)
}

// A body takes the place of another one.
pub(crate) fn put<'source>(place: &mut Vec<Stmt<'source>>, body: Vec<Stmt<'source>>)
    ensures { place.new ≡ body.entry }
{
    *place = body;
}
