//! Laws of the templates and expressions of an environment, each as the contract of a function that does nothing.
ghost use Rattle.std.specs.Prelude.{◌≡◌, ℕ, List, IsSome, Some, false, true};
ghost use Rattle.template_values_model.specs.Val.{Val};
ghost use Rattle.template_compiler_walk.specs.Runnable.{IsRunnable, IsRunnableTemplate};
ghost use Rattle.template_machine_meaning.specs.Blocks.{is_among};
ghost use Rattle.template_machine_meaning.specs.Functions.{Invoked};
ghost use Rattle.template_compiler_names.specs.Names.{IsTold};
ghost use Rattle.template_machine_meaning.specs.Isolation.{AskNoNames, IsContextName};
ghost use Rattle.template_machine_meaning.specs.World.{first_world};
ghost use Rattle.template_compiled.specs.Expressions.{HasExpression, expression_in};
ghost use Rattle.template_compiled.specs.Plain.{IsPlain, text_kept};
ghost use Rattle.template_compiled.specs.Sources.{HasTree, Source, tree_in};
ghost use Rattle.template_machine_environment.specs.Evaluations.{text_of};
ghost use Rattle.template_machine_environment.specs.Extras.{no_answers, user_answers};
ghost use Rattle.template_machine_environment.specs.Isolated.{IsIsolated, tree_of};
ghost use Rattle.template_machine_environment.specs.Plain.{text_run};
ghost use Rattle.template_machine_environment.specs.Reading.{callables_of, registry_of, setting_in};
ghost use Rattle.template_machine_environment.specs.Renderings.{Finishes};
ghost use Rattle.template_machine_environment.specs.Standing.{names_in, source_at};
ghost use Rattle.template_machine_environment.specs.States.{Returns, block_in, call_in, macro_in};
ghost use Rattle.template_machine_environment.specs.Views.{globals_of, head_in, render_of, source_of};

use crate::environment::Environment;
use crate::expression::Expression;
use crate::state::State;
use crate::template::Template;
use template_callables::Extension;
use template_compiled::plain_text;
use template_machine_meaning::isolation;

/// A law: the source of each template, also of one that stands in the environment, has the tree that it is read to, and all
/// constructs of that run.
pub fn every_template_runs<E: Extension>(template: &Template<'_, '_, E>)
    ensures tree { HasTree (source_of template.now) (tree_of template.now) }
    ensures runs { IsRunnableTemplate (tree_of template.now) }
{
    let _code = template.compiled.get().instructions();
}

/// A law: the source of each expression is the one that it is read to, and all constructs of that run.
pub fn every_expression_runs<E: Extension>(expression: &Expression<'_, '_, E>)
    ensures expression { HasExpression (text_of expression.now) (expression_in (text_of expression.now)) }
    ensures runs { IsRunnable (expression_in (text_of expression.now)) }
{
    let _code = expression.compiled.instructions();
}

/// A law: each render of a template ends, in the state of whatever number, as its meaning is finished under some bound.
pub fn every_render_ends<E: Extension>(template: &Template<'_, '_, E>)
    ensures { let says = user_answers E.Callable.answer E.Method.answer E.Formatter.answer E.Join.answer in
        (id : ℕ) (context : Val) → Finishes (λ n. render_of says template.now id n context) }
{
    let _standing = template.environment.registry.templates.values();
    let _code = template.compiled.get().instructions();
}

/// A law: each call of a block in a state ends, whatever the state holds: its meaning is finished under some bound.
pub fn every_block_ends<E: Extension>(state: &State<'_, '_, E>)
    ensures { let says = user_answers E.Callable.answer E.Method.answer E.Formatter.answer E.Join.answer in
        (block : List ℕ) → Finishes (block_in says state.now block) }
{
    let _standing = state.environment.registry.templates.values();
}

/// A law: so does each call of a filter or a test in a state, with all that it asks further, and each call of what stands under
/// a name, as a macro, for its text.
pub fn every_call_ends<E: Extension>(state: &State<'_, '_, E>)
    ensures calls { let says = user_answers E.Callable.answer E.Method.answer E.Formatter.answer E.Join.answer in
        (what : Invoked) (args : List Val) → Returns (call_in says state.now what args) }
    ensures texts { let says = user_answers E.Callable.answer E.Method.answer E.Formatter.answer E.Join.answer in
        (name : List ℕ) (args : List Val) → Returns (macro_in says state.now name args) }
{
    let _standing = state.environment.registry.templates.values();
}

/// A law: the names of all templates that stand in an environment list them.
pub fn names_list_all<E: Extension>(environment: &Environment<'_, E>)
    ensures { (name : List ℕ) → IsSome (source_at (registry_of environment.now) name)
        → is_among name (names_in (registry_of environment.now)) ≡ true }
{
    let _standing = environment.registry.templates.values();
}

/// A law: a template in whose source no marker starts renders to its text, at the price of one step, and to nothing where
/// that is empty.
pub fn plain_renders<E: Extension>(template: &Template<'_, '_, E>)
    ensures { let says = user_answers E.Callable.answer E.Method.answer E.Formatter.answer E.Join.answer in
        IsPlain (source_of template.now) → (id n : ℕ) (context : Val) → render_of says template.now id n context
        ≡ text_run (text_kept (source_of template.now))
        (first_world id (globals_of template.now) (head_in template.now) context) }
{
    plain_text();
    let _code = template.compiled.get().instructions();
}

/// A law: where what the user brought asks for no names, contexts that agree at the names that can matter to a template make no
/// difference to its renders.
pub fn isolated_renders<E: Extension>(template: &Template<'_, '_, E>)
    ensures { let says = user_answers E.Callable.answer E.Method.answer E.Formatter.answer E.Join.answer in
        (context : Val) → IsIsolated says template.now context }
{
    isolation();
}

/// A law: where nothing of a user's own can be brought, nothing that is asks for names.
pub fn none_ask_names(_environment: &Environment<'_>)
    ensures { AskNoNames (callables_of no_answers _environment.now) }
{}

/// A law: the names that [`Template::undeclared_variables`] tells of a template, without attributes, can matter to its renders in
/// an environment, and so can those that it tells of each template that stands there: all of these are among what
/// [`Environment::context_names`] tells.
pub fn undeclared_names_matter<E: Extension>(
    _environment: &Environment<'_, E>,
    _template: &Template<'_, '_, E>,
)
    ensures own { let says = user_answers E.Callable.answer E.Method.answer E.Formatter.answer E.Join.answer in
        (name : List ℕ) → IsTold false name (tree_of _template.now)
        → IsContextName (setting_in says _environment.now) (tree_of _template.now) name }
    ensures standing { let says = user_answers E.Callable.answer E.Method.answer E.Formatter.answer E.Join.answer in
        (other : List ℕ) (source : Source) → source_at (registry_of _environment.now) other ≡ Some source
        → (name : List ℕ) → IsTold false name (tree_in source)
        → IsContextName (setting_in says _environment.now) (tree_of _template.now) name }
{}
