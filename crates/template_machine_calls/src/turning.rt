//! What is made of the values of further calls.
ghost use Rattle.std.specs.Prelude.{◌≡◌, ◌++◌, IfErr, IfOk, OnOk, string_bytes};
ghost use Rattle.template_machine_meaning.specs.Captures.{captured};
ghost use Rattle.template_machine_meaning.specs.World.{keeps};
ghost use Rattle.template_values_errors.specs.Memory.{NoMemory};
ghost use Rattle.template_callables.specs.Answers.{asked_by};
ghost use Rattle.template_machine_meaning.specs.Plans.{with_turning};
ghost use Rattle.template_machine_calls.specs.Noted.{turnings_or_none};
ghost use Rattle.template_machine_calls.specs.Left.{Planned, turning_in, turnings_for, turnings_in, value_left, with_turnings};

use crate::reached::Turning;
use std::alloc::Global;
use template_callables::Further;
use template_machine_going::Stop;
use template_machine_state::State;
use template_values_core::Value;
use template_values_errors::{AutoEscape, Error};
use template_values_operations::truth_of;
use template_values_print::print_to;

// Notes what is to be made of the value of what is asked further, behind what is to be made of those before.
//
// # Errors
//
// `OutOfMemory`.
pub(crate) fn note(turnings: &mut Vec<Turning>, further: &Further) -> Result<(), Error>
    ensures noted { OnOk result (turnings_in turnings.new.items ≡ turnings_in turnings.old.items ++ turnings_for (asked_by further.now)) }
    ensures refused { IfErr result NoMemory }
{
    match turning_for(further) {
        Some(turning) => Ok(turnings.push(turning)?),
        None => Ok(()),
    }
}

// What is to be made of that value.
fn turning_for(further: &Further) -> Option<Turning>
    ensures { turnings_or_none result ≡ turnings_for (asked_by further.now) }
{
    match further {
        Further::Test(_, _) => Some(Turning::Truth),
        Further::Macro(_, _) => Some(Turning::Text),
        _ => None,
    }
}

/// Turns a value in several ways, the last one first.
///
/// # Errors
///
/// [`ErrorKind::InvalidOperation`] at a foreign record, and at what nests too deep to be printed; [`ErrorKind::OutOfMemory`].
///
/// [`ErrorKind::InvalidOperation`]: template_values_errors::ErrorKind::InvalidOperation
/// [`ErrorKind::OutOfMemory`]: template_values_errors::ErrorKind::OutOfMemory
pub fn turn_all(
    alloc: Global,
    turnings: Vec<Turning>,
    value: Value,
    state: &State<'_>,
) -> Result<Value, Stop>
    ensures { Planned value_left (with_turnings (turnings_in turnings.items) (value_left value state.now)) result state.now }
{
    let mut turnings = turnings;
    let mut value = value;
    while let Some(turning) = turnings.pop() {
        value = turn(alloc, turning, &value, state)?;
    }
    Ok(value)
}

// Turns a value.
//
// # Errors
//
// As `turn_all`.
fn turn(alloc: Global, turning: Turning, value: &Value, state: &State<'_>) -> Result<Value, Stop>
    ensures { Planned value_left (with_turning (turning_in turning) (value_left value.now state.now)) result state.now }
{
    match turning {
        Turning::Truth => Ok(Value::from_bool(truth_of(value, state)?)),
        Turning::Text => {
            let mut text = String::new(alloc);
            print_to(value, state, &mut text)?;
            Ok(worded(state.auto_escape(), text)?)
        }
    }
}

// A text as a value, which is safe under an escape.
//
// # Errors
//
// `OutOfMemory`.
fn worded(escape: AutoEscape, text: String) -> Result<Value, Error>
    ensures made { IfOk result (λ v. v ≡ captured escape (keeps (string_bytes text))) }
    ensures refused { IfErr result NoMemory }
{
    match escape {
        AutoEscape::None => Value::from_text(text),
        _ => Value::from_safe_text(text),
    }
}
