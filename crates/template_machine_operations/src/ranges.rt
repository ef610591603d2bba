//! The function `range`.
ghost use Rattle.std.specs.Prelude.{◌≡◌, ◌≢◌, ◌<◌, ◌≤◌, ◌+ℤ◌, ◌*ℤ◌, pos, Ok};
ghost use Rattle.template_values_model.specs.Val.{list, vals_of};
ghost use Rattle.template_values_operators.specs.Slices.{distance, step_count, steps_within};
ghost use Rattle.template_machine_meaning.specs.Functions as functions;
ghost use Rattle.template_machine_meaning.specs.Functions.{bound_in, numbers_from, range_by, range_given, range_limit};
ghost use Rattle.template_machine_operations.specs.Answers.{Answers};
ghost use Rattle.template_machine_operations.specs.Ranges.{range_from};

use crate::containers::build_list;
use std::alloc::Global;
use template_values_core::Value;
use template_values_errors::{Error, ErrorKind};
use template_values_operators::refusal;

// The most numbers that a range has.
const RANGE_LIMIT: u128 = 100_000;

/// The list of the whole numbers from `lower` on that lie before `upper`, each a step from the one before, which is 1 if none is
/// given; without `upper` those from 0 on that lie before `lower`. So gives `range` in a template. Linear in their number.
///
/// # Errors
///
/// [`ErrorKind::InvalidOperation`] at a step of 0, and where there would be more than 100,000 numbers;
/// [`ErrorKind::OutOfMemory`].
pub fn range(
    alloc: Global,
    lower: i64,
    upper: Option<i64>,
    step: Option<i64>,
) -> Result<Value, Error>
    ensures { Answers result (range_from lower upper step) }
{
    let step = step.unwrap_or(1);
    match upper {
        Some(upper) => range_between(alloc, lower, upper, step),
        None => range_between(alloc, 0, lower, step),
    }
}

/// What `range` gives for the arguments of a call: a stop alone, a start and a stop, or both and a step.
///
/// # Errors
///
/// [`ErrorKind::MissingArgument`] and [`ErrorKind::TooManyArguments`]; [`ErrorKind::InvalidOperation`] at other values than
/// whole numbers of 64 bits; else those of [`range`].
pub(crate) fn range_given(alloc: Global, args: &[Value]) -> Result<Value, Error>
    ensures { Answers result (range_given args.now) }
{
    match args {
        [] => Err(Error::new(ErrorKind::MissingArgument)),
        [stop] => range_by(alloc, Some(0), bound_in(stop), Some(1)),
        [start, stop] => range_by(alloc, bound_in(start), bound_in(stop), Some(1)),
        [start, stop, step] => range_by(alloc, bound_in(start), bound_in(stop), bound_in(step)),
        _ => Err(Error::new(ErrorKind::TooManyArguments)),
    }
}

/// A whole number of 64 bits.
fn bound_in(value: &Value) -> Option<i64>
    ensures { result ≡ bound_in value.now }
{
    i64::try_from(value.as_int()?).ok()
}

fn range_by(
    alloc: Global,
    start: Option<i64>,
    stop: Option<i64>,
    step: Option<i64>,
) -> Result<Value, Error>
    ensures { Answers result (range_by start stop step) }
{
    match (start, stop, step) {
        (Some(start), Some(stop), Some(step)) => range_between(alloc, start, stop, step),
        _ => refusal(),
    }
}

/// The numbers from the start on that lie before the stop; a step of 0 is refused.
fn range_between(alloc: Global, start: i64, stop: i64, step: i64) -> Result<Value, Error>
    ensures { Answers result (range_by (Some start) (Some stop) (Some step)) }
{
    if step == 0 {
        return refusal();
    }
    counted_numbers(alloc, start, step, step_count(start, stop, step))
}

/// So many numbers, where they are not too many.
fn counted_numbers(alloc: Global, start: i64, step: i64, count: u128) -> Result<Value, Error>
    ensures { Answers result (functions.numbers_listed start step count) }
{
    if count > RANGE_LIMIT {
        return refusal();
    }
    numbers(alloc, start, step, count as usize)
}

/// How many numbers lie before the stop.
fn step_count(start: i64, stop: i64, step: i64) -> u128
    requires { step ≢ pos 0 }
    ensures { result ≡ step_count start stop step }
{
    steps_within(distance(start, stop, step), step.unsigned_abs())
}

/// How far it is from the start to the stop.
fn distance(start: i64, stop: i64, step: i64) -> i128
    ensures { result ≡ distance start stop step }
{
    if step < 0 {
        i128::from(start) - i128::from(stop)
    } else {
        i128::from(stop) - i128::from(start)
    }
}

/// How many places `stride` apart lie before a distance.
fn steps_within(distance: i128, stride: u64) -> u128
    requires { 0 < stride }
    ensures { result ≡ steps_within distance stride }
{
    match u128::try_from(distance) {
        Ok(distance) => distance.div_ceil(u128::from(stride)),
        Err(_) => 0,
    }
}

/// As many numbers, from the start on, each a step from the one before.
#[tactic(auto, using(crate::proofs::Ranging::numbers))]
fn numbers(alloc: Global, start: i64, step: i64, count: usize) -> Result<Value, Error>
    requires { count ≤ range_limit }
    ensures { Answers result (Ok (list (vals_of (numbers_from start step count)))) }
{
    let mut numbers = Vec::with_capacity(alloc, count)?;
    for round in 0..count {
        numbers.push(Value::from_int(number_at(start, step, round)))?;
    }
    build_list(alloc, numbers)
}

/// The number so many steps from the start.
fn number_at(start: i64, step: i64, round: usize) -> i128
    requires { round ≤ range_limit }
    ensures { result ≡ start +ℤ pos round *ℤ step }
{
    i128::from(start) + round as i128 * i128::from(step)
}
