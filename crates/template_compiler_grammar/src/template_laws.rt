//! Laws of the grammar of templates: tokens have one tree or none.

ghost use Rattle.std.specs.Prelude.{◌≡◌, ◌⊎◌, List, Ok, Err};
ghost use Rattle.template_compiler_tokens.specs.Blame.{Blamed};
ghost use Rattle.template_compiler_grammar.specs.TemplateGrammar.{IsTemplate};
ghost use Rattle.template_compiler_grammar.specs.TreeReader.{template_of};
ghost use Rattle.template_compiler_tokens.specs.Token.{Token, TokenFault};
ghost use Rattle.template_compiler_tree.specs.Tree.{Statements};

/// A law, as the contract of a function that does nothing: the reading from left to right finds the tree of
/// all tokens that have one, and no other; where it finds none, the reason stands among the tokens.
pub fn reads_the_grammar()
    ensures complete { (ts : List Token) (ss : Statements) → IsTemplate ts ss → template_of ts ≡ Ok ss }
    ensures sound { (ts : List Token) (ss : Statements) → template_of ts ≡ Ok ss → IsTemplate ts ss }
    ensures blamed { (ts : List Token) (fault : TokenFault) → template_of ts ≡ Err fault → Blamed fault ts }
{}

/// A law, as the contract of a function that does nothing: tokens are one template at most.
pub fn one_template()
    ensures { (ts : List Token) (ss us : Statements) → IsTemplate ts ss → IsTemplate ts us → ss ≡ us }
{}

/// A law, as the contract of a function that does nothing: tokens are a template, or they are none.
pub fn is_decided()
    ensures { (ts : List Token) → ((ss : Statements) × IsTemplate ts ss) ⊎ ((ss : Statements) → IsTemplate ts ss → ⊥) }
{}
