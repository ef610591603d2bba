//! Stacks of captures, the innermost one last.
ghost use Rattle.std.specs.Prelude.{◌≡◌, ◌<◌, suc, IfErr, IfOk, reverse, vec_len};
ghost use Rattle.std.specs.Vec.{vec_capacity};
ghost use Rattle.template_values_errors.specs.Memory.{NoMemory};
ghost use Rattle.template_machine_meaning.specs.Blocks.{captured_if};
ghost use Rattle.template_machine_meaning.specs.Captures.{around_innermost, captured, innermost, is_dropping};
ghost use Rattle.template_machine_meaning.specs.Plans.{outermost};

use crate::capture::Capture;
use std::alloc::Global;
use template_values_core::Value;
use template_values_errors::{AutoEscape, Error};

// As many captures as there were stay, the outermost ones.
#[tactic(auto, using(template_machine_frames::proofs::Outermost::outermost_left))]
pub(crate) fn cut(captures: &mut Vec<Capture>, count: usize)
    ensures { reverse captures.new.items ≡ outermost count (reverse captures.old.items) }
{
    captures.truncate(count);
}

// The innermost capture goes, where there is one.
pub(crate) fn drop_last(captures: &mut Vec<Capture>)
    ensures { reverse captures.new.items ≡ around_innermost (reverse captures.old.items) }
{
    captures.pop();
}

// What the innermost capture ends with, which goes; undefined where none is open.
pub(crate) fn end_last(captures: &mut Vec<Capture>, rule: AutoEscape) -> Result<Value, Error>
    ensures given { IfOk result (λ v. v ≡ captured rule (innermost (reverse captures.old.items))) }
    ensures ended { reverse captures.new.items ≡ around_innermost (reverse captures.old.items) }
    ensures refused { IfErr result NoMemory }
{
    match captures.pop() {
        Some(capture) => capture.end(rule),
        None => Ok(Value::undefined()),
    }
}

// A capture of a text that is kept begins, if it is to; there is room for it.
pub(crate) fn begin_if(alloc: Global, captures: &mut Vec<Capture>, named: bool)
    requires { vec_len captures.old < vec_capacity captures.old }
    ensures { reverse captures.new.items ≡ captured_if named (reverse captures.old.items) }
{
    if !named {
        return;
    }
    captures.push_reserved(Capture::new(alloc, true));
}

// Whether what is written is dropped.
pub(crate) fn is_dropping(captures: &[Capture]) -> bool
    ensures { result ≡ is_dropping (reverse captures.now) }
{
    match captures.last() {
        Some(capture) => capture.is_dropping(),
        None => false,
    }
}

// What the capture ends with that was opened where so many were open, under a rule. Those that were open stay. Where fewer are
// left than were open, it is what the innermost of these would end with.
pub(crate) fn take_written(
    alloc: Global,
    captures: &mut Vec<Capture>,
    count: usize,
    rule: AutoEscape,
) -> Result<Value, Error>
    ensures given { IfOk result (λ v. v ≡ captured rule (innermost (outermost (suc count) (reverse captures.old.items)))) }
    ensures left { outermost count (reverse captures.new.items) ≡ outermost count (reverse captures.old.items) }
    ensures refused { IfErr result NoMemory }
{
    if captures.len() <= count {
        return innermost_value(alloc, captures.as_slice(), rule);
    }
    captures.truncate(count + 1);
    match captures.pop() {
        Some(capture) => capture.end(rule),
        None => unreachable!(),
    }
}

// What the innermost capture would end with; undefined where none is open.
fn innermost_value(alloc: Global, captures: &[Capture], rule: AutoEscape) -> Result<Value, Error>
    ensures told { IfOk result (λ v. v ≡ captured rule (innermost (reverse captures.now))) }
    ensures refused { IfErr result NoMemory }
{
    match captures.last() {
        Some(capture) => capture.value(alloc, rule),
        None => Ok(Value::undefined()),
    }
}
