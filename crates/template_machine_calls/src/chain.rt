//! What calls come to in the end.
ghost use Rattle.std.specs.Prelude.{Ok};
ghost use Rattle.template_callables.specs.Answers.{asked_by};
ghost use Rattle.template_machine_meaning.specs.Calls.{beyond};
ghost use Rattle.template_machine_meaning.specs.Keys.{Around};
ghost use Rattle.template_machine_meaning.specs.World.{World};
ghost use Rattle.template_machine_calls.specs.Hosted.{around_under};
ghost use Rattle.template_machine_calls.specs.Left.{KeepsWorld, KeptUnlessValue, Planned, left_by, reached_by, turnings_in, with_turnings};

use crate::asking::ask;
use crate::outcome::Outcome;
use crate::reached::{Entry, Reached, Turning};
use crate::rules::Rules;
use crate::turning::note;
use std::alloc::Global;
use template_callables::{Callbacks, Further};
use template_machine_going::Stop;
use template_machine_state::State;
use template_values_errors::{Error, ErrorKind};

// What a call comes to that came to this so far, where this is made of its value, and so many levels are left for what is asked
// further at once.
//
// # Errors
//
// `InvalidOperation` where more is asked for; else those of `ask`, and `OutOfMemory`.
pub(crate) fn conclude<H: Callbacks>(
    alloc: Global,
    rules: Rules<'_>,
    host: &H,
    levels: usize,
    turnings: Vec<Turning>,
    outcome: Outcome,
    state: &mut State<'_>,
) -> Result<Reached, Stop>
    ensures comes { (a : Around) → let around = around_under rules.entry (H.callables host.now) a in
        Planned (reached_by around) (with_turnings (turnings_in turnings.items)
        (left_by around 0 (beyond around 0 levels) outcome state.old)) result state.new }
    ensures kept { (w : World) → KeepsWorld (Ok outcome) w state.old → KeptUnlessValue result w state.new }
{
    match outcome {
        Outcome::Value(value) => Ok(Reached::Value(value, turnings)),
        Outcome::Further(further) => { go_on(alloc, rules, host, levels, turnings, further, state) }
        Outcome::Enters(entering) => Ok(Reached::Enters(Entry {
            entering,
            pending: 0,
            turnings,
        })),
    }
}

// The same of what is asked further.
//
// # Errors
//
// As `conclude`.
fn go_on<H: Callbacks>(
    alloc: Global,
    rules: Rules<'_>,
    host: &H,
    levels: usize,
    turnings: Vec<Turning>,
    further: Further,
    state: &mut State<'_>,
) -> Result<Reached, Stop>
    ensures comes { (a : Around) → let around = around_under rules.entry (H.callables host.now) a in
        Planned (reached_by around) (with_turnings (turnings_in turnings.items) (beyond around 0 levels state.old (asked_by further)))
        result state.new }
    ensures kept { KeptUnlessValue result state.old state.new }
{
    let mut next = further;
    let mut turnings = turnings;
    let mut pending = 0;
    while pending < levels {
        pending += 1;
        note(&mut turnings, &next)?;
        let outcome = ask(alloc, rules, host, next, state)?;
        match outcome {
            Outcome::Value(value) => return Ok(Reached::Value(value, turnings)),
            Outcome::Further(further) => next = further,
            Outcome::Enters(entering) => {
                return Ok(Reached::Enters(Entry {
                    entering,
                    pending,
                    turnings,
                }));
            }
        }
    }
    Err(Stop::Fault(Error::new(ErrorKind::InvalidOperation)))
}
