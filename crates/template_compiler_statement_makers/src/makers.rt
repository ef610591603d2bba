//! Makers of the nodes of statements with a body: each takes two allocations at most, and drops its parts where one is
//! refused.
ghost use Rattle.std.specs.Prelude.{◌≡◌, IfOk};
ghost use Rattle.template_compiler_grammar.specs.TemplateNodes.{block_node, call_block_node, condition_node, macro_node, with_node};
ghost use Rattle.template_compiler_grammar.specs.Views.{placed_assignments_in, statement_node_of};
ghost use Rattle.template_compiler_statement_makers.specs.Begun.{declared_in};
ghost use Rattle.template_compiler_statement_makers.specs.Branches.{branch_in};
ghost use Rattle.template_compiler_statement_makers.specs.Listed.{statement_nodes_in};
ghost use Rattle.template_compiler_tree.specs.CallView.{call_places};
ghost use Rattle.template_compiler_tree.specs.View.{arguments_in, expression_of};
ghost use Rattle.template_compiler_tree_statements.specs.declared.statements.Stmt.TheVariants as statements;

use crate::ends::put;
use std::alloc::{AllocError, Global};
use template_compiler_tree::{Call, Expr, Span, Spanned};
use template_compiler_tree_statements::{Block, CallBlock, IfCond, Macro, Stmt, WithBlock};

/// `{% if expr %}true_body{% else %}false_body{% endif %}`: a condition with its body gets what stands for the other case.
#[tactic(auto, using(crate::proofs::Rows::nodes_row))]
pub fn otherwise<'source>(
    node: Box<Spanned<IfCond<'source>>>,
    false_body: Vec<Stmt<'source>>,
    span: Span,
) -> Box<Spanned<IfCond<'source>>>
    ensures { statement_node_of (statements.IfCond result) ≡
        condition_node (branch_in node.entry) (statement_nodes_in false_body.entry.items) span }
{
    let mut node = node;
    end_condition(&mut node, false_body, span);
    node
}

fn end_condition<'source>(
    node: &mut Spanned<IfCond<'source>>,
    false_body: Vec<Stmt<'source>>,
    span: Span,
)
    ensures condition { node.new.node.expr ≡ node.old.node.expr }
    ensures body { node.new.node.true_body ≡ node.old.node.true_body }
    ensures other { node.new.node.false_body ≡ false_body.entry }
    ensures span { node.new.span ≡ span }
{
    put(&mut node.node.false_body, false_body);
    node.span = span;
}

/// `{% with assignments %}body{% endwith %}`.
#[tactic(auto, using(crate::proofs::Rows::nodes_row))]
pub fn with_block<'source>(
    alloc: Global,
    assignments: Vec<(Expr<'source>, Expr<'source>)>,
    body: Vec<Stmt<'source>>,
    span: Span,
) -> Result<Box<Spanned<WithBlock<'source>>>, AllocError>
    ensures { IfOk result (λ n. statement_node_of (statements.WithBlock n) ≡
        with_node (placed_assignments_in assignments.entry.items) (statement_nodes_in body.entry.items) span) }
{
    Spanned::boxed(alloc, WithBlock { assignments, body }, span)
}

/// `{% block name required %}body{% endblock %}`.
#[tactic(auto, using(crate::proofs::Rows::nodes_row))]
pub fn block<'source>(
    alloc: Global,
    name: &'source str,
    required: bool,
    body: Vec<Stmt<'source>>,
    span: Span,
) -> Result<Box<Spanned<Block<'source>>>, AllocError>
    ensures { IfOk result (λ n. statement_node_of (statements.Block n) ≡
        block_node name.now required (statement_nodes_in body.entry.items) span) }
{
    let node = Block {
        name,
        required,
        body,
    };
    Spanned::boxed(alloc, node, span)
}

/// `{% macro name(args) %}body{% endmacro %}`.
#[tactic(auto, using(crate::proofs::Rows::nodes_row))]
pub fn macro_declared<'source>(
    alloc: Global,
    node: Macro<'source>,
    span: Span,
) -> Result<Box<Spanned<Macro<'source>>>, AllocError>
    ensures { IfOk result (λ n. statement_node_of (statements.Macro n) ≡
        macro_node node.entry.name.now (declared_in node.entry) (statement_nodes_in node.entry.body.items) span) }
{
    Spanned::boxed(alloc, node, span)
}

/// `{% call(args) call %}body{% endcall %}`.
#[tactic(auto, using(crate::proofs::Rows::nodes_row))]
pub fn call_block<'source>(
    alloc: Global,
    call: Box<Spanned<Call<'source>>>,
    node: Macro<'source>,
    span: Span,
) -> Result<Box<Spanned<CallBlock<'source>>>, AllocError>
    ensures { IfOk result (λ n. statement_node_of (statements.CallBlock n) ≡
        call_block_node (expression_of call.entry.value.node.expr) (arguments_in call.entry.value.node.args.items)
        (call_places call.entry) (declared_in node.entry) (statement_nodes_in node.entry.body.items) span) }
{
    let macro_decl = Spanned::boxed(alloc, node, span)?;
    Spanned::boxed(alloc, CallBlock { call, macro_decl }, span)
}
