//! The code of trees, and that it performs their walks.
#![tactic(auto)]

ghost use Rattle.template_compiler_codegen.specs.Laws.{ExpressionsPerform, MacrosPerform, NumbersAgree, RoundsPerform, TemplatesPerform};

/// The code of a template performs the template's walk: whatever is told, the same events in the same
/// order, with the same priced steps between them, as far as the walk goes under its bound.
pub fn templates_perform()
    ensures { TemplatesPerform }
{}

/// The code of an expression alone performs its walk, and leaves its value.
pub fn expressions_perform()
    ensures { ExpressionsPerform }
{}

/// The macro of a number in a tree is found by it in the code, where its body performs its walk over a
/// value for each of its parameters.
pub fn macros_perform()
    ensures { MacrosPerform }
{}

/// So are the rounds of a loop that may be called again.
pub fn rounds_perform()
    ensures { RoundsPerform }
{}

/// A number that no macro or loop of a tree has is none in its code.
pub fn numbers_agree()
    ensures { NumbersAgree }
{}
