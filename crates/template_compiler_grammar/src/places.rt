//! The reader of expressions and of statements over their tokens, and where their nodes stand: in a tree, in what its tokens are
//! read as (one line a production), and in the reading of the tokens from left to right; and that these are one.
//!
//! The reader is in `specs/Reader.antt` and `specs/TemplateReader.antt`, where each tree has its places by the spans of all tokens.
//! What it reads without them is in `specs/TreeReader.antt`, the same over any table of spans. Here is no code but laws.

ghost use Rattle.std.specs.Prelude.{◌≡◌, ℕ, List, Ok};
ghost use Rattle.template_compiler_grammar.specs.Ends.{Ends};
ghost use Rattle.template_compiler_grammar.specs.Grammar.{IsExpression};
ghost use Rattle.template_compiler_grammar.specs.DerivedExpressions.{expression_places};
ghost use Rattle.template_compiler_grammar.specs.Nodes.{Node, bare, placed};
ghost use Rattle.template_compiler_grammar.specs.Reader.{expression_at};
ghost use Rattle.template_compiler_grammar.specs.TreeReader as tree;
ghost use Rattle.template_compiler_tokens.specs.Token.{Token};
ghost use Rattle.template_compiler_tree.specs.Tree.{Expression};
ghost use Rattle.template_compiler_tree.specs.declared.span.Span.{Span};

/// A law, as the contract of a function that does nothing: without its places, what is read is the same over any table of spans;
/// what has a tree is read with the places that the grammar has for it, and all that is read has these.
pub fn reads_with_places()
    ensures erased { (spans : List Span) (d : ℕ) (ts : List Token) → bare (expression_at spans d ts) ≡ tree.expression_at d ts }
    ensures complete { (spans : List Span) (d : ℕ) (ts us : List Token) (e : Expression) → (read : IsExpression d ts e us) → Ends us →
        expression_at spans d ts ≡ Ok (placed e (expression_places spans read), us) }
    ensures sound { (spans : List Span) (d : ℕ) (ts us : List Token) (e : Node) → expression_at spans d ts ≡ Ok (e, us) → Ends us →
        (read : IsExpression d ts e.tree us) × (e.places ≡ expression_places spans read) }
{}

/// A law, as the contract of a function that does nothing: however an expression is derived from its tokens, its nodes stand
/// in the same places.
pub fn stands_once()
    ensures { (spans : List Span) (d : ℕ) (ts us : List Token) (e : Expression) → (read other : IsExpression d ts e us) → Ends us →
        expression_places spans read ≡ expression_places spans other }
{}
