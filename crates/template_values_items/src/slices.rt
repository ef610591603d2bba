//! Slices, by Python's index rule.
ghost use Rattle.std.specs.Prelude.{◌≡◌, ◌≢◌, ◌<◌, ◌≤ℤ◌, ◌<ℤ◌, ◌+ℤ◌, ◌*ℤ◌, pos, Ok, Some, length, IfOk, IfErr, encode_utf8_all};
ghost use Rattle.std.specs.Str.{chars};
ghost use Rattle.template_values_errors.specs.Memory.{NoMemory};
ghost use Rattle.template_values_model.specs.Gives.{Gives, TellsFault, alone};
ghost use Rattle.template_values_model.specs.Val.{Val, vals_of};
ghost use Rattle.template_values_core.specs.Answers.{text_in};
ghost use Rattle.template_values_core.specs.Depth.{vals_depth};
ghost use Rattle.template_values_core.specs.Reads.{items_in};
ghost use Rattle.template_values_operators.specs.Kinds.{list_made, bytes_of, is_nothing};
ghost use Rattle.template_values_items.specs.Places.{AreWithin, place_at};
ghost use Rattle.template_values_operators.specs.Slices.{slice_of, item_at, slice_with, slice_in, sliced, bound_of, from_end, lowest, highest, bound_at, start_place, stop_place, step_count, distance, steps_within};

use std::alloc::Global;
use template_values_core::Value;
use template_values_errors::Error;
use template_values_model::DEPTH_LIMIT;
use template_values_operators::kinds::{bytes_of, is_none, is_nothing, list_made};
use template_values_operators::refusal;

/// The slice `value[start:stop:step]` by Python's index rule: of a list or tuple a list, of bytes
/// bytes, of a text its characters, and of none and undefined an empty list. The bounds and the
/// step are numbers or none. Linear in the size of the value. What is refused is told by its kind alone,
/// never as want of memory.
///
/// # Errors
///
/// [`ErrorKind::InvalidOperation`] at other bounds, at a step of 0 and at other values, in this
/// order; [`ErrorKind::OutOfMemory`].
///
/// [`ErrorKind::InvalidOperation`]: template_values_errors::ErrorKind::InvalidOperation
/// [`ErrorKind::OutOfMemory`]: template_values_errors::ErrorKind::OutOfMemory
pub fn slice(
    alloc: Global,
    value: &Value,
    start: &Value,
    stop: &Value,
    step: &Value,
) -> Result<Value, Error>
    ensures gives { Gives result (slice_of value.now start.now stop.now step.now) }
    ensures refused { TellsFault result (slice_of value.now start.now stop.now step.now) }
{
    let start = bound(start)?;
    let stop = bound(stop)?;
    let step = bound(step)?;
    slice_with(alloc, value, start, stop, step.unwrap_or(1))
}

/// The slice with these bounds; a step of 0 is refused.
fn slice_with(
    alloc: Global,
    value: &Value,
    start: Option<i128>,
    stop: Option<i128>,
    step: i128,
) -> Result<Value, Error>
    ensures gives { Gives result (slice_with value.now start stop step) }
    ensures refused { TellsFault result (slice_with value.now start stop step) }
{
    if step == 0 {
        return refusal();
    }
    slice_by_kind(alloc, value, start, stop, step)
}

fn slice_by_kind(
    alloc: Global,
    value: &Value,
    start: Option<i128>,
    stop: Option<i128>,
    step: i128,
) -> Result<Value, Error>
    requires { step ≢ pos 0 }
    ensures gives { let slice = slice_in (items_in value.now) (bytes_of value.now) (text_in value.now) (is_nothing value.now) in
        Gives result (slice start stop step) }
    ensures refused { let slice = slice_in (items_in value.now) (bytes_of value.now) (text_in value.now) (is_nothing value.now) in
        TellsFault result (slice start stop step) }
{
    if let Some(items) = value.items() {
        return slice_items(alloc, items, start, stop, step);
    }
    if let Some(bytes) = bytes_of(value) {
        return slice_bytes(alloc, bytes, start, stop, step);
    }
    if let Some(text) = value.as_str() {
        return slice_text(alloc, text, start, stop, step);
    }
    if is_nothing(value) {
        return list_made(alloc, Vec::new(alloc));
    }
    refusal()
}

/// The bound that a value means.
fn bound(value: &Value) -> Result<Option<i128>, Error>
    ensures { result ≡ alone (bound_of value.now) }
{
    if is_none(value) {
        return Ok(None);
    }
    match value.as_number() {
        Some(number) => Ok(Some(number)),
        None => refusal(),
    }
}

fn slice_items(
    alloc: Global,
    items: &[Value],
    start: Option<i128>,
    stop: Option<i128>,
    step: i128,
) -> Result<Value, Error>
    requires apart { step ≢ pos 0 }
    requires shallow { vals_depth (vals_of items.now) < DEPTH_LIMIT }
    ensures gives { Gives result (list_made (sliced start stop step items.now)) }
    ensures refused { TellsFault result (list_made (sliced start stop step items.now)) }
{
    let places = picked_places(start, stop, step, items.len());
    let mut slice = Vec::with_capacity(alloc, places.count)?;
    for round in 0..places.count {
        let item = pick(items, places, round);
        slice.push(item.copy()?)?;
    }
    list_made(alloc, slice)
}

#[tactic(auto, using(crate::proofs::Steps::picked_next))]
fn slice_bytes(
    alloc: Global,
    bytes: &[u8],
    start: Option<i128>,
    stop: Option<i128>,
    step: i128,
) -> Result<Value, Error>
    requires { step ≢ pos 0 }
    ensures { Gives result (Ok (Val.bytes (sliced start stop step bytes.now))) }
{
    let places = picked_places(start, stop, step, bytes.len());
    let mut slice = Vec::with_capacity(alloc, places.count)?;
    for round in 0..places.count {
        slice.push(*pick(bytes, places, round))?;
    }
    Value::from_bytes(alloc, slice)
}

#[tactic(auto, using(crate::proofs::Steps::text_next))]
fn slice_text(
    alloc: Global,
    text: &str,
    start: Option<i128>,
    stop: Option<i128>,
    step: i128,
) -> Result<Value, Error>
    requires { step ≢ pos 0 }
    ensures { Gives result (Ok (Val.text (encode_utf8_all (sliced start stop step (chars text.now))))) }
{
    let characters = characters(alloc, text)?;
    let places = picked_places(start, stop, step, characters.len());
    let mut slice = String::new(alloc);
    for round in 0..places.count {
        let character = *pick(characters.as_slice(), places, round);
        slice.push(character)?;
    }
    Value::from_text(slice)
}

fn characters(alloc: Global, text: &str) -> Result<Vec<char>, Error>
    ensures made { IfOk result (λ v. v.items ≡ chars text.now) }
    ensures refused { IfErr result NoMemory }
{
    Ok(text.chars().collect(alloc)?)
}

/// The places that a slice picks: `count` of them, from `start` on, `step` apart.
#[derive(Clone, Copy)]
struct Places {
    start: i128,
    step: i128,
    count: usize,
}

/// The places that a slice of a list of this length picks.
fn picked_places(start: Option<i128>, stop: Option<i128>, step: i128, length: usize) -> Places
    requires { step ≢ pos 0 }
    ensures start { result.start ≡ start_place start step length }
    ensures step { result.step ≡ step }
    ensures count { result.count ≡ step_count (start_place start step length) (stop_place stop step length) step }
    ensures within { AreWithin result length }
{
    let start = start_place(start, step, length);
    let stop = stop_place(stop, step, length);
    let distance = distance(start, stop, step, length);
    Places {
        start,
        step,
        count: steps_within(distance, step.unsigned_abs(), length),
    }
}

/// The element at a place.
fn pick<T>(elements: &[T], places: Places, round: usize) -> &T
    requires round_in { round < places.count }
    requires within { AreWithin places (length elements.now) }
    ensures { item_at elements.now (place_at places round) ≡ Some result.now }
{
    &elements[place(places, round, elements.len())]
}

/// The place of an item.
fn place(places: Places, round: usize, length: usize) -> usize
    requires round_in { round < places.count }
    requires within { AreWithin places length }
    ensures is { pos result ≡ place_at places round }
    ensures inside { result < length }
{
    place_after(places.start, places.step, round, length)
}

/// The place some steps after the first one.
fn place_after(start: i128, step: i128, round: usize, length: usize) -> usize
    requires start_low { pos 0 ≤ℤ start }
    requires start_high { start <ℤ pos length }
    requires low { pos 0 ≤ℤ (start +ℤ pos round *ℤ step) }
    requires high { (start +ℤ pos round *ℤ step) <ℤ pos length }
    ensures is { pos result ≡ start +ℤ pos round *ℤ step }
    ensures inside { result < length }
{
    (start + round as i128 * step) as usize
}

fn start_place(bound: Option<i128>, step: i128, length: usize) -> i128
    ensures is { result ≡ start_place bound step length }
    ensures low { lowest step ≤ℤ result }
    ensures high { result ≤ℤ highest step length }
{
    match bound {
        Some(bound) => bound_at(bound, step, length),
        None => {
            if step < 0 {
                highest(step, length)
            } else {
                lowest(step)
            }
        }
    }
}

fn stop_place(bound: Option<i128>, step: i128, length: usize) -> i128
    ensures is { result ≡ stop_place bound step length }
    ensures low { lowest step ≤ℤ result }
    ensures high { result ≤ℤ highest step length }
{
    match bound {
        Some(bound) => bound_at(bound, step, length),
        None => {
            if step < 0 {
                lowest(step)
            } else {
                highest(step, length)
            }
        }
    }
}

fn lowest(step: i128) -> i128
    ensures { result ≡ lowest step }
{
    if step < 0 { -1 } else { 0 }
}

fn highest(step: i128, length: usize) -> i128
    ensures { result ≡ highest step length }
{
    if step < 0 {
        length as i128 - 1
    } else {
        length as i128
    }
}

fn bound_at(bound: i128, step: i128, length: usize) -> i128
    ensures is { result ≡ bound_at bound step length }
    ensures low { lowest step ≤ℤ result }
    ensures high { result ≤ℤ highest step length }
{
    from_end(bound, length).clamp(lowest(step), highest(step, length))
}

fn from_end(bound: i128, length: usize) -> i128
    ensures { result ≡ from_end bound length }
{
    if bound < 0 {
        bound + length as i128
    } else {
        bound
    }
}

/// How far it is from the start to the stop.
fn distance(start: i128, stop: i128, step: i128, length: usize) -> i128
    requires start_low { lowest step ≤ℤ start }
    requires start_high { start ≤ℤ highest step length }
    requires stop_low { lowest step ≤ℤ stop }
    requires stop_high { stop ≤ℤ highest step length }
    ensures is { result ≡ distance start stop step }
    ensures within { result ≤ℤ pos length }
{
    if step < 0 { start - stop } else { stop - start }
}

/// How many places `stride` apart lie before a distance.
fn steps_within(distance: i128, stride: u128, length: usize) -> usize
    requires apart { 0 < stride }
    requires within { distance ≤ℤ pos length }
    ensures { result ≡ steps_within distance stride }
{
    match u128::try_from(distance) {
        Ok(distance) => distance.div_ceil(stride) as usize,
        Err(_) => 0,
    }
}
