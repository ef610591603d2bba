//! Instructions that join texts, keep what is written, or set attributes, in a stretch with no fuel to pay them from.
ghost use Rattle.std.specs.Prelude.{◌≡◌, ◌+◌, ◌^◌, ◌<◌, ℕ, IfErr, List, Option, None, Some, slice_get};
ghost use Rattle.template_compiler_code.specs.Code.{Code, Operand, begin_capture, end_capture, operate, set_attr};
ghost use Rattle.template_compiler_code.specs.Listing.{code_in};
ghost use Rattle.template_compiler_code.specs.View.{is_kept};
ghost use Rattle.template_machine_going.specs.Told.{SparesSink};
ghost use Rattle.template_machine_meaning.specs.Surroundings.{Programs};
ghost use Rattle.template_machine_operands.specs.Operands.{operands_in};
ghost use Rattle.template_machine_steps.specs.Performs.{ruled};
ghost use Rattle.template_machine_loop.specs.Runs.{Advances};
ghost use Rattle.template_compiler_tree.specs.declared.operators.BinOpKind.TheVariants.{Concat};

use crate::told::told_by;
use crate::writing::onward;
use std::alloc::Global;
use template_compiler_code::{CaptureMode, Instructions};
use template_compiler_tree::BinOpKind;
use template_machine_going::Stop;
use template_machine_growth::grow;
use template_machine_operands::Operands;
use template_machine_perform::{begin_capture, end_capture, set_attr};
use template_machine_state::State;
use template_machine_steps::operate;
use template_values_errors::{Error, ErrorKind, UndefinedBehavior};

// Joins the two values on top by `~`, and tells the next place: that behind a whole statement, where it makes the text of an
// attribute longer.
//
// # Errors
//
// Those of `operate`.
#[inline(never)]
pub(crate) fn join(
    alloc: Global,
    mode: UndefinedBehavior,
    code: &Instructions<'_>,
    place: u32,
    operands: &mut Operands,
    state: &mut State<'_>,
    scratch: &mut String,
) -> Result<u32, Stop>
    requires { place + 1 < 2 ^ 32 }
    ensures advances { (program : Programs) (limit : ℕ) (taken : Option (List ℕ)) →
        slice_get (code_in code.now) place ≡ Some (operate Concat) →
        Advances (ruled program limit mode) (code_in code.now) place (operands_in operands.old) state.old None taken
        result (operands_in operands.new) state.new None taken }
    ensures spares { IfErr result SparesSink }
{
    let Some(next) = grow(alloc, mode, code, place, operands, state, scratch) else {
        return Err(Stop::Want(Error::new(ErrorKind::OutOfMemory)));
    };
    if next != place {
        return Ok(next);
    }
    let joined = operate(alloc, mode, BinOpKind::Concat, operands, &*state);
    onward(code, place, told_by(joined))
}

// Begins a capture, and tells the next place.
//
// # Errors
//
// Those of `begin_capture`.
#[inline(never)]
pub(crate) fn begin_keeping(
    alloc: Global,
    code: &Instructions<'_>,
    mode: CaptureMode,
    place: u32,
    state: &mut State<'_>,
) -> Result<u32, Stop>
    requires { place + 1 < 2 ^ 32 }
    ensures advances { (program : Programs) (code : List Code) (operands : List Operand) (taken : Option (List ℕ)) →
        slice_get code place ≡ Some (begin_capture (is_kept mode)) →
        Advances program code place operands state.old None taken result operands state.new None taken }
    ensures spares { IfErr result SparesSink }
{
    onward(code, place, told_by(begin_capture(alloc, mode, state)))
}

// Ends the innermost capture, whose value goes on top, and tells the next place.
//
// # Errors
//
// Those of `end_capture`.
#[inline(never)]
pub(crate) fn end_keeping(
    code: &Instructions<'_>,
    place: u32,
    operands: &mut Operands,
    state: &mut State<'_>,
) -> Result<u32, Stop>
    requires { place + 1 < 2 ^ 32 }
    ensures advances { (program : Programs) (code : List Code) (taken : Option (List ℕ)) → slice_get code place ≡ Some end_capture →
        Advances program code place (operands_in operands.old) state.old None taken result (operands_in operands.new) state.new None taken }
    ensures spares { IfErr result SparesSink }
{
    onward(code, place, told_by(end_capture(state, operands)))
}

// Sets an attribute of the holder on top to the value below it, and tells the next place.
//
// # Errors
//
// Those of `set_attr`.
#[inline(never)]
pub(crate) fn set_attribute(
    alloc: Global,
    code: &Instructions<'_>,
    name: &str,
    place: u32,
    operands: &mut Operands,
    state: &mut State<'_>,
) -> Result<u32, Stop>
    requires { place + 1 < 2 ^ 32 }
    ensures advances { (program : Programs) (code : List Code) (taken : Option (List ℕ)) →
        slice_get code place ≡ Some (set_attr name.now) →
        Advances program code place (operands_in operands.old) state.old None taken result (operands_in operands.new) state.new None taken }
    ensures spares { IfErr result SparesSink }
{
    onward(code, place, told_by(set_attr(alloc, name, state, operands)))
}
