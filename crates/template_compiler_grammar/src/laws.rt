//! Laws of the grammar: tokens are one expression, or one template, or none.

ghost use Rattle.std.specs.Prelude.{◌≡◌, ℕ, ◌⊎◌, List, [], Ok, Err};
ghost use Rattle.template_compiler_grammar.specs.Ends.{Ends};
ghost use Rattle.template_compiler_grammar.specs.Grammar.{IsExpression};
ghost use Rattle.template_compiler_grammar.specs.TreeReader.{expression_at};
ghost use Rattle.template_compiler_tokens.specs.Blame.{Blamed};
ghost use Rattle.template_compiler_tokens.specs.Token.{Token, TokenFault};
ghost use Rattle.template_compiler_tree.specs.Tree.{Expression};

/// A law, as the contract of a function that does nothing: from a place on, with so many nesting levels left,
/// there is at most one expression that no token behind it goes on with, and one place where it ends.
pub fn one_expression()
    ensures { (d : ℕ) (ts us vs : List Token) (e f : Expression) →
        IsExpression d ts e us → Ends us → IsExpression d ts f vs → Ends vs → (e ≡ f) × (us ≡ vs) }
{}

/// A law, as the contract of a function that does nothing: tokens are one expression, or they are none.
pub fn is_decided()
    ensures { (d : ℕ) (ts : List Token) →
        ((e : Expression) × IsExpression d ts e []) ⊎ ((e : Expression) → IsExpression d ts e [] → ⊥) }
{}

/// A law, as the contract of a function that does nothing: the reader reads what has a tree as that tree, all that it
/// reads has that tree, and where it reads nothing, the reason stands among the tokens or is bad syntax.
pub fn reads_the_grammar()
    ensures complete { (d : ℕ) (ts us : List Token) (e : Expression) →
        IsExpression d ts e us → Ends us → expression_at d ts ≡ Ok (e, us) }
    ensures sound { (d : ℕ) (ts us : List Token) (e : Expression) →
        expression_at d ts ≡ Ok (e, us) → IsExpression d ts e us }
    ensures blamed { (d : ℕ) (ts : List Token) (f : TokenFault) → expression_at d ts ≡ Err f → Blamed f ts }
{}
