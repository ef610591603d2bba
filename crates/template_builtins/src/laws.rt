//! What is answered in an environment where the builtins alone stand.
ghost use Rattle.template_builtins.specs.Brought.{AnswersAlike, builtins_brought};
ghost use Rattle.template_callables.specs.Callables.{escapes};
ghost use Rattle.template_callables.specs.Joins.{keeps_name};
ghost use Rattle.template_machine_environment.specs.Reading.{extras_of};
ghost use Rattle.template_machine_meaning.specs.Isolation.{AskNoNames};

use crate::extension::Builtins;
use template_machine_environment::Environment;

/// A law: where the builtins were installed into an environment without extras, filters, tests and methods answer what is defined for
/// their names, and nothing else is brought.
pub fn builtins_answer(_environment: &Environment<'_, Builtins>)
    ensures { AnswersAlike (λ formatter view v. escapes v) (λ join. keeps_name) (extras_of _environment.now) }
{}

/// A law: no builtin asks for a name of the context, so with the builtins alone the names that can matter to a template are those
/// without them.
pub fn builtins_ask_no_names()
    ensures { AskNoNames builtins_brought.callables }
{}
