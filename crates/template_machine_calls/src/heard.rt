//! What a user's own answers.
ghost use Rattle.std.specs.Prelude.{◌≡◌, ℕ, IfErr, List, OnOk, Option};
ghost use Rattle.template_values_errors.specs.Memory.{NoMemory};
ghost use Rattle.template_values_model.specs.Val.{Val};
ghost use Rattle.template_callables.specs.Answers.{Answers, temps_in};
ghost use Rattle.template_callables.specs.Callables.{View, Stated, Says};
ghost use Rattle.template_callables.specs.Callbacks.{AnswersUnder};
ghost use Rattle.template_machine_meaning.specs.Calls.{stated_plan, with_temps};
ghost use Rattle.template_machine_state.specs.Changes.{OnlyTemps};
ghost use Rattle.template_machine_meaning.specs.Keys.{Around};
ghost use Rattle.template_machine_calls.specs.Left.{Going, Planned, left_by, said_plan};

use crate::outcome::Outcome;
use template_callables::Answer;
use template_machine_going::Stop;
use template_machine_state::State;
use template_values_core::Value;
use template_values_errors::{Error, ErrorKind};

// What an answer comes to; a call that nothing answers is refused with the kind.
//
// # Errors
//
// The kind, where nothing answers; else those of `come_of`.
pub(crate) fn heard(
    answer: Option<Answer>,
    kind: ErrorKind,
    state: &mut State<'_>,
) -> Result<Outcome, Stop>
    ensures comes { (a : Around) (pending : ℕ) (go : Going) (says : Option Says) (view : View) (args : List Val)
        → AnswersUnder says view args answer →
        Planned (left_by a pending go) (said_plan go state.old kind view args says) result state.new }
    ensures kept { OnlyTemps state.old state.new }
{
    match answer {
        Some(given) => come_of(given, state),
        None => Err(Stop::Fault(Error::new(kind))),
    }
}

// What an answer comes to, once its temps are set.
//
// # Errors
//
// The answer's fault; and `OutOfMemory`.
fn come_of(answer: Answer, state: &mut State<'_>) -> Result<Outcome, Stop>
    ensures comes { (a : Around) (pending : ℕ) (go : Going) (stated : Stated) → Answers stated answer →
        Planned (left_by a pending go) (stated_plan go state.old stated) result state.new }
    ensures kept { OnlyTemps state.old state.new }
{
    match answer {
        Answer::Done(temps, value) => {
            set_temps(temps, state)?;
            Ok(Outcome::Value(value))
        }
        Answer::Fault(error) => Err(error.into()),
        Answer::More(temps, further) => {
            set_temps(temps, state)?;
            Ok(Outcome::Further(further))
        }
    }
}

// Sets the temps of an answer, where it has any.
fn set_temps(temps: Option<Vec<(String, Value)>>, state: &mut State<'_>) -> Result<(), Error>
    ensures set { OnOk result (state.new ≡ with_temps (temps_in temps) state.old) }
    ensures refused { IfErr result NoMemory }
    ensures rest { OnlyTemps state.old state.new }
{
    match temps {
        Some(temps) => state.set_temps(temps),
        None => Ok(()),
    }
}
