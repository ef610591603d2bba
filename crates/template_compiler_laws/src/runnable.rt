//! Laws of trees: what is read has a walk.

ghost use Rattle.template_compiler_laws.specs.Laws.{ExpressionsRun, TemplatesRun};

/// A law, as the contract of a function that does nothing: an expression that the grammar reads has a walk.
pub fn expressions_run()
    ensures { ExpressionsRun }
{}

/// A law, as the contract of a function that does nothing: a template that the grammar reads has a walk.
pub fn templates_run()
    ensures { TemplatesRun }
{}
