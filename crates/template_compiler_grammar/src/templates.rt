//! The reading of templates with the places of their nodes, from left to right, and its laws.
//!
//! Here is no code but laws.

ghost use Rattle.std.specs.Prelude.{◌≡◌, List, Ok};
ghost use Rattle.template_compiler_grammar.specs.DerivedStatements.{template_places};
ghost use Rattle.template_compiler_grammar.specs.Nodes.{placed};
ghost use Rattle.template_compiler_grammar.specs.TemplateNodes.{PlacedTemplate, bare_template};
ghost use Rattle.template_compiler_grammar.specs.TemplateReader.{template_of};
ghost use Rattle.template_compiler_grammar.specs.TreeReader as tree;
ghost use Rattle.template_compiler_grammar.specs.TemplateGrammar.{IsTemplate};
ghost use Rattle.template_compiler_tokens.specs.Token.{Token};
ghost use Rattle.template_compiler_tree.specs.Tree.{Statements};
ghost use Rattle.template_compiler_tree.specs.declared.span.Span.{Span};

/// A law, as the contract of a function that does nothing: without its places, what is read is the same over any table of spans;
/// what is a template is read with the places that the grammar has for it, and all that is read has these.
pub fn templates_read_with_places()
    ensures erased { (spans : List Span) (ts : List Token) → bare_template (template_of spans ts) ≡ tree.template_of ts }
    ensures complete { (spans : List Span) (ts : List Token) (ss : Statements) → (read : IsTemplate ts ss) →
        template_of spans ts ≡ Ok (placed ss (template_places spans read)) }
    ensures sound { (spans : List Span) (ts : List Token) (t : PlacedTemplate) → template_of spans ts ≡ Ok t →
        (read : IsTemplate ts t.tree) × (t.places ≡ template_places spans read) }
{}

/// A law, as the contract of a function that does nothing: however a template is derived from its tokens, its nodes stand in
/// the same places.
pub fn templates_stand_once()
    ensures { (spans : List Span) (ts : List Token) (ss : Statements) → (read other : IsTemplate ts ss) →
        template_places spans read ≡ template_places spans other }
{}
