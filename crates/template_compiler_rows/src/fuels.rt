//! What a fuel lets run of instructions that are listed one by one.
use crate::report::Report;
use serde_json::Value as Json;
use std::alloc::Global;
use template_machine_going::FuelTracker;
use template_rows_streams::instruction;

/// Whether each of the instructions is let run, then what remains of the fuel and what was consumed; each with a `;` behind
/// it.
pub(crate) fn tracked(alloc: Global, fuel: u64, steps: &[Json], out: &mut Report) {
    let mut tracker = FuelTracker::new(fuel);
    for step in steps {
        match &instruction(alloc, step) {
            Ok(instruction) => out.answer(&tracker.track(instruction).is_ok()),
            Err(error) => out.refuse(error.kind()),
        }
    }
    out.answer(&tracker.remaining());
    out.answer(&tracker.consumed())
}
