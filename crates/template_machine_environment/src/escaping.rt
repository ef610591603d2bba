//! The text of a value under the escape in force.
ghost use Rattle.template_values_forms.specs.Escaped.{escaped};
ghost use Rattle.template_machine_meaning.specs.Records.{known_of};
ghost use Rattle.template_machine_meaning.specs.Replies.{kinded};
ghost use Rattle.template_machine_operations.specs.Outcomes.{Prints, TellsFailures};
ghost use Rattle.template_machine_environment.specs.States.{world_in};

use crate::state::State;
use template_callables::Extension;
use template_machine_operations::print;
use template_machine_surroundings::Sink;
use template_values_core::Value;
use template_values_errors::{Error, UndefinedBehavior};

/// Writes the text of a value under the escape in force into a sink, as a print of it does where the environment has no
/// formatter: an undefined value has an empty one, whatever may be done with such values. Linear in the text.
///
/// # Errors
///
/// What [`escape_to`](template_values_print::escape_to) refuses the value with, and nothing is written.
/// [`ErrorKind::OutOfMemory`](template_values_errors::ErrorKind::OutOfMemory) where a growth was refused, and
/// [`ErrorKind::WriteFailure`](template_values_errors::ErrorKind::WriteFailure) where the sink failed: it has then taken a
/// beginning of the text.
pub fn escape_formatter<E: Extension, S: Sink>(
    sink: &mut S,
    state: &State<'_, '_, E>,
    value: &Value,
) -> Result<(), Error>
    ensures written { let text = escaped (world_in state.now).escape (known_of (world_in state.now)) value.now in
        Prints (kinded text) result (S.taken sink.old) (S.taken sink.new) }
    ensures failures { TellsFailures result (S.failures sink.old) (S.failures sink.new) }
{
    let mut scratch = String::new(state.environment.allocator());
    print(
        UndefinedBehavior::Lenient,
        state.auto_escape(),
        value,
        &state.machine,
        &mut scratch,
        sink,
    )
}
