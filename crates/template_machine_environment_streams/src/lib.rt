//! The law of streams that are handed in to states: each of their runs ends. The function does nothing: it stands for the law in its
//! contract.
#![tactic(auto)]

ghost use Rattle.std.specs.Prelude.{◌≡◌, ℕ};
ghost use Rattle.template_machine_meaning.specs.Keys.{Head};
ghost use Rattle.template_machine_meaning.specs.World.{Globals};
ghost use Rattle.template_compiler_code_shapes.specs.Checked.{kind_in};
ghost use Rattle.template_machine_codes.specs.StreamLaws.{Leaves};
ghost use Rattle.template_machine_environment.specs.Extras.{user_answers};
ghost use Rattle.template_machine_environment.specs.Renderings.{Finishes};
ghost use Rattle.template_machine_environment.specs.States.{frameless, own_in, stream_in, world_in};
ghost use Rattle.template_machine_environment_streams.specs.Held.{HoldsReached, IsRendered, KeepsReached};

use template_callables::Extension;
use template_compiler_code_shapes::Checked;
use template_compiler_generator::templates_are_accepted;
use template_machine_codes::{every_stream_ends, every_stream_leaves};
use template_machine_environment::{State, names_list_all};

/// A law: each run of a stream that is handed in to a state ends, and its own instructions leave one value, if it is an expression's,
/// or nothing, unless they end with a fault; as long as the state holds what was reached alone: no macros and no loops, or such as were
/// made by the code of templates and by accepted streams. That does a state which has run nothing, one that a render left, and one that
/// the run of a stream left for which fuel and memory lasted.
pub fn every_handed_stream_ends<E: Extension>(state: &State<'_, '_, E>, stream: &Checked<'_>)
    ensures ends { let says = user_answers E.Callable.answer E.Method.answer E.Formatter.answer E.Join.answer in
        HoldsReached state.now → Finishes (stream_in says state.now stream.now) }
    ensures own { let says = user_answers E.Callable.answer E.Method.answer E.Formatter.answer E.Join.answer in
        HoldsReached state.now → (n : ℕ) × Leaves (kind_in stream.now) (own_in says state.now stream.now n).end }
    ensures fresh { (id : ℕ) (globals : Globals) (head : Head) → world_in state.now ≡ frameless id globals head → HoldsReached state.now }
    ensures rendered { let says = user_answers E.Callable.answer E.Method.answer E.Formatter.answer E.Join.answer in
        IsRendered says state.now → HoldsReached state.now }
    ensures later { let says = user_answers E.Callable.answer E.Method.answer E.Formatter.answer E.Join.answer in
        HoldsReached state.now → KeepsReached says state.now stream.now }
{
    every_stream_ends();
    every_stream_leaves();
    templates_are_accepted();
    names_list_all(state.env());
    let _code = stream.instructions();
}
