//! The statements of a tree.
ghost use Rattle.std.specs.Prelude.{◌≡◌};
ghost use Rattle.template_compiler_tree_parts.specs.Listed.{statements_in};
ghost use Rattle.template_compiler_tree_statements.specs.View.{statement_of};
ghost use Rattle.template_compiler_generator.specs.Alone.{statements_of};

use std::slice;
use template_compiler_tree_statements::Stmt;

// The statements of a whole template; of another statement, itself.
pub(crate) fn statements<'ast, 'source>(tree: &'ast Stmt<'source>) -> &'ast [Stmt<'source>]
    ensures { statements_in result.now ≡ statements_of (statement_of tree.now) }
{
    match tree {
        Stmt::Template(n) => &n.node.children,
        Stmt::EmitExpr(_) => slice::from_ref(tree),
        Stmt::EmitRaw(_) => slice::from_ref(tree),
        Stmt::ForLoop(_) => slice::from_ref(tree),
        Stmt::IfCond(_) => slice::from_ref(tree),
        Stmt::WithBlock(_) => slice::from_ref(tree),
        Stmt::Set(_) => slice::from_ref(tree),
        Stmt::SetBlock(_) => slice::from_ref(tree),
        Stmt::AutoEscape(_) => slice::from_ref(tree),
        Stmt::FilterBlock(_) => slice::from_ref(tree),
        Stmt::Block(_) => slice::from_ref(tree),
        Stmt::Import(_) => slice::from_ref(tree),
        Stmt::FromImport(_) => slice::from_ref(tree),
        Stmt::Extends(_) => slice::from_ref(tree),
        Stmt::Include(_) => slice::from_ref(tree),
        Stmt::Macro(_) => slice::from_ref(tree),
        Stmt::CallBlock(_) => slice::from_ref(tree),
        Stmt::Continue(_) => slice::from_ref(tree),
        Stmt::Break(_) => slice::from_ref(tree),
        Stmt::Do(_) => slice::from_ref(tree),
    }
}
