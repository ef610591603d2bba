//! The grammar with places: where each node of an expression and of a statement stands, by what its tokens are read as.
//!
//! The definition is the places of a derivation of the grammar, one line a production. Here is no code but laws.

ghost use Rattle.std.specs.Prelude.{◌≡◌, ◌<◌, ◌∷◌, ℕ, List, length, suc};
ghost use Rattle.template_compiler_tokens.specs.Places.{last_span, next_span, stretch, token_count};
ghost use Rattle.template_compiler_grammar.specs.DerivedStatements.{statement_places};
ghost use Rattle.template_compiler_grammar.specs.TemplateGrammar.{Around, IsStatement};
ghost use Rattle.template_compiler_tokens.specs.Token.{Token};
ghost use Rattle.template_compiler_tree.specs.Tree.{Statement};
ghost use Rattle.template_compiler_tree.specs.declared.span.Span.{Span};
ghost use Rattle.template_compiler_tree.specs.NodePlaces.{span_at};

/// A law, as the contract of a function that does nothing: a statement stands from its first token to its last.
pub fn stands_whole()
    ensures { (spans : List Span) (d : ℕ) (around : Around) (ts us : List Token) (s : Statement) →
        (read : IsStatement d around ts s us) → span_at (statement_places spans read) ≡ stretch spans ts us }
{}

/// A law, as the contract of a function that does nothing: a token that is passed is the last one, and what it is alone stands
/// where it stood as the next one, if there is a span for each token that is left.
pub fn stands_alone()
    ensures last { (spans : List Span) (t : Token) (ts : List Token) → token_count (t ∷ ts) ≡ suc (token_count ts) →
        token_count ts < length spans → last_span spans ts ≡ next_span spans (t ∷ ts) }
    ensures alone { (spans : List Span) (t : Token) (ts : List Token) → token_count (t ∷ ts) ≡ suc (token_count ts) →
        token_count ts < length spans → stretch spans (t ∷ ts) ts ≡ next_span spans (t ∷ ts) }
{}
