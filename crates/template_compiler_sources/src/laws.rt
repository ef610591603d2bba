//! What the definitions of a source's tree with its places, and of its fault, give.
ghost use Rattle.std.specs.Prelude.{◌≡◌, ℕ, List};
ghost use Rattle.template_compiler_grammar.specs.Nodes.{placed, Node};
ghost use Rattle.template_compiler_grammar.specs.TemplateNodes.{PlacedStatement};
ghost use Rattle.template_compiler_sources.specs.Source.{IsExpressionSource, IsFaulty, IsFaultyExpression, IsPlacedExpressionSource, IsPlacedSource, IsSource};
ghost use Rattle.template_compiler_syntax.specs.Syntax.{Syntax, IsUsable};
ghost use Rattle.template_compiler_tokens.specs.Token.{TokenFault};
ghost use Rattle.template_compiler_tree.specs.NodePlaces.{Places};
ghost use Rattle.template_compiler_tree.specs.Tree.{Expression, Statement};

/// A law, as the contract of a function that does nothing: a template's source has one tree with its places or none; that is
/// its tree, and each tree of a source has its places.
pub fn one_placed_tree()
    ensures one { (x : Syntax) (source : List ℕ) (s t : PlacedStatement) → IsUsable x → IsPlacedSource x source s →
        IsPlacedSource x source t → s ≡ t }
    ensures bare { (x : Syntax) (source : List ℕ) (s : PlacedStatement) → IsPlacedSource x source s → IsSource x source s.tree }
    ensures some { (x : Syntax) (source : List ℕ) (s : Statement) → IsUsable x → IsSource x source s →
        (places : Places) × IsPlacedSource x source (placed s places) }
{}

/// A law, as the contract of a function that does nothing: the same of an expression's source.
pub fn one_placed_expression()
    ensures one { (source : List ℕ) (e f : Node) → IsPlacedExpressionSource source e → IsPlacedExpressionSource source f → e ≡ f }
    ensures bare { (source : List ℕ) (e : Node) → IsPlacedExpressionSource source e → IsExpressionSource source e.tree }
    ensures some { (source : List ℕ) (e : Expression) → IsExpressionSource source e →
        (places : Places) × IsPlacedExpressionSource source (placed e places) }
{}

/// A law, as the contract of a function that does nothing: a template's source has one fault or none, so its refusal has one
/// kind; and it has a fault where it has no tree.
pub fn one_fault()
    ensures one { (x : Syntax) (source : List ℕ) (f g : TokenFault) → IsUsable x → IsFaulty x source f → IsFaulty x source g → f ≡ g }
    ensures some { (x : Syntax) (source : List ℕ) → IsUsable x → ((tree : Statement) → IsSource x source tree → ⊥) →
        (fault : TokenFault) × IsFaulty x source fault }
{}

/// A law, as the contract of a function that does nothing: the same of an expression's source.
pub fn one_expression_fault()
    ensures one { (source : List ℕ) (f g : TokenFault) → IsFaultyExpression source f → IsFaultyExpression source g → f ≡ g }
    ensures some { (source : List ℕ) → ((tree : Expression) → IsExpressionSource source tree → ⊥) →
        (fault : TokenFault) × IsFaultyExpression source fault }
{}
