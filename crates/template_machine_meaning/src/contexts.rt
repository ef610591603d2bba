//! The laws of isolation: what a template's render takes of its context, and an expression's evaluation.

ghost use Rattle.template_machine_meaning.specs.Isolation.{IsolatesExpressions, IsolatesNames};

/// Over two contexts that agree on the names that a template and the templates that stand need, by
/// themselves, in a block alone, in the rounds of a recursive loop alone or as an import, and on those that
/// the engine gives, a render leaves the same trace and comes to the same end, where no callable of a user's
/// own asks for a name, where each import takes names and stores them under names, and where macros'
/// parameters are names.
pub fn isolation()
    ensures { IsolatesNames }
{}

/// Over two contexts that agree on the names that stand in an expression, its evaluation leaves the same
/// trace and comes to the same end, with its value handed out, where no callable of a user's own asks for
/// a name.
pub fn expression_isolation()
    ensures { IsolatesExpressions }
{}
