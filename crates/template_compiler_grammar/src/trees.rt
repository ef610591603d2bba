//! Where the nodes of a tree stand: the second view of trees, beside the one that knows no places.
//!
//! Here are definitions that the grammar with places and the parser share, and laws.

ghost use Rattle.std.specs.Prelude.{◌≡◌};
ghost use Rattle.template_compiler_tree.specs.Places.{expression_span};
ghost use Rattle.template_compiler_tree_statements.specs.Places.{statement_span};
ghost use Rattle.template_compiler_tree.specs.declared.expressions.Expr.{Expr};
ghost use Rattle.template_compiler_tree_statements.specs.declared.statements.Stmt.{Stmt};
ghost use Rattle.template_compiler_tree.specs.ExpressionPlaces.{places_of};
ghost use Rattle.template_compiler_tree.specs.NodePlaces.{span_at};
ghost use Rattle.template_compiler_grammar.specs.TreeStatements.{statement_places};

/// A law, as the contract of a function that does nothing: the first of a node's places is its own span.
pub fn own_span_first()
    ensures expressions { (e : Expr) → span_at (places_of e) ≡ expression_span e }
    ensures statements { (s : Stmt) → span_at (statement_places s) ≡ statement_span s }
{}
