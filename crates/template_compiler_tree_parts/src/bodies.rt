//! The bodies of statements.
ghost use Rattle.std.specs.Prelude.{◌≡◌, ◌≤◌};
ghost use Rattle.template_compiler_tree_statements.specs.View.{statement_of};
ghost use Rattle.template_compiler_tree_statements.specs.declared.statements.Stmt.{size-Stmt};
ghost use Rattle.template_compiler_tree_parts.specs.Bodies.{body_deep, body_in, other_in};
ghost use Rattle.template_compiler_tree_parts.specs.Listed.{statements_in};

use template_compiler_tree_statements::Stmt;

/// The body of a statement, of a loop and of an `if` the first one; what has none has an empty one.
pub fn body_of<'tree, 'source>(statement: &'tree Stmt<'source>) -> &'tree [Stmt<'source>]
    ensures body { statements_in result.now ≡ body_in (statement_of statement.now) }
    ensures deep { body_deep result.now ≤ size-Stmt statement.now }
{
    match statement {
        Stmt::Template(n) => &n.node.children,
        Stmt::ForLoop(n) => &n.node.body,
        Stmt::IfCond(n) => &n.node.true_body,
        Stmt::WithBlock(n) => &n.node.body,
        Stmt::SetBlock(n) => &n.node.body,
        Stmt::AutoEscape(n) => &n.node.body,
        Stmt::FilterBlock(n) => &n.node.body,
        Stmt::Block(n) => &n.node.body,
        Stmt::Macro(n) => &n.node.body,
        Stmt::CallBlock(n) => &n.node.macro_decl.node.body,
        Stmt::EmitExpr(_) => &[],
        Stmt::EmitRaw(_) => &[],
        Stmt::Set(_) => &[],
        Stmt::Import(_) => &[],
        Stmt::FromImport(_) => &[],
        Stmt::Extends(_) => &[],
        Stmt::Include(_) => &[],
        Stmt::Continue(_) => &[],
        Stmt::Break(_) => &[],
        Stmt::Do(_) => &[],
    }
}

/// The else part of a loop or of an `if`; what has none has an empty one.
pub fn other_of<'tree, 'source>(statement: &'tree Stmt<'source>) -> &'tree [Stmt<'source>]
    ensures body { statements_in result.now ≡ other_in (statement_of statement.now) }
    ensures deep { body_deep result.now ≤ size-Stmt statement.now }
{
    match statement {
        Stmt::ForLoop(n) => &n.node.else_body,
        Stmt::IfCond(n) => &n.node.false_body,
        Stmt::Template(_) => &[],
        Stmt::WithBlock(_) => &[],
        Stmt::SetBlock(_) => &[],
        Stmt::AutoEscape(_) => &[],
        Stmt::FilterBlock(_) => &[],
        Stmt::Block(_) => &[],
        Stmt::Macro(_) => &[],
        Stmt::CallBlock(_) => &[],
        Stmt::EmitExpr(_) => &[],
        Stmt::EmitRaw(_) => &[],
        Stmt::Set(_) => &[],
        Stmt::Import(_) => &[],
        Stmt::FromImport(_) => &[],
        Stmt::Extends(_) => &[],
        Stmt::Include(_) => &[],
        Stmt::Continue(_) => &[],
        Stmt::Break(_) => &[],
        Stmt::Do(_) => &[],
    }
}
