//! What is told of a request that fails: one JSON object.
ghost use Rattle.std.specs.Prelude.{◌≡◌, ◌++◌, List, IfOk, OnOk, map, string_bytes};
ghost use Rattle.serde_json.specs.View.{view};
ghost use Rattle.serde_json.specs.Written.{compact_text};
ghost use Rattle.template_values_errors.specs.declared.places.Place.{Place as SeenPlace};
ghost use Rattle.template_requests.specs.Failures.{AddsPlaces, TellsFailure, failure_data, failure_with, kind_data, malformed_data, place_data};

use crate::member::Member;
use serde_json::{Value as Json, json};
use std::alloc::{AllocError, Global};
use template_values_errors::{Error, Place};

/// What is told of an error, with the text that was written before it.
pub fn failure_text(alloc: Global, error: &Error, text: String) -> Result<String, AllocError>
    ensures { IfOk result (λ told. TellsFailure error.now (string_bytes text) (string_bytes told)) }
{
    failure_json(alloc, error, text)?.to_string(alloc)
}

/// What is told of a member that is malformed.
pub fn malformed_text(alloc: Global, member: Member) -> Result<String, AllocError>
    ensures { IfOk result (λ told. string_bytes told ≡ compact_text (malformed_data member)) }
{
    malformed_json(alloc, member)?.to_string(alloc)
}

fn malformed_json(alloc: Global, member: Member) -> Result<Json, AllocError>
    ensures { IfOk result (λ told. view told ≡ malformed_data member) }
{
    json!(in alloc; {"kinds": [], "member": member.name(), "places": [], "text": ""})
}

fn failure_json(alloc: Global, error: &Error, text: String) -> Result<Json, AllocError>
    ensures { IfOk result (λ told. (places : List SeenPlace) × (view told ≡ failure_data error.now places (string_bytes text))) }
{
    let mut kinds = Vec::new(alloc);
    add_kinds(alloc, error, &mut kinds)?;
    let mut places = Vec::new(alloc);
    add_places(alloc, error, &mut places)?;
    failure_of(
        alloc,
        Json::Array(kinds),
        Json::Array(places),
        Json::String(text),
    )
}

// The object of its three members.
fn failure_of(alloc: Global, kinds: Json, places: Json, text: Json) -> Result<Json, AllocError>
    ensures { IfOk result (λ told. view told ≡ failure_with (view kinds) (view places) (view text)) }
{
    json!(in alloc; {"kinds": kinds, "places": places, "text": text})
}

// Adds the names of the kinds, outermost first.
fn add_kinds(alloc: Global, error: &Error, kinds: &mut Vec<Json>) -> Result<(), AllocError>
    ensures { OnOk result (map view kinds.new.items ≡ map view kinds.old.items ++ map kind_data error.now) }
{
    kinds.push(Json::String(String::from_str(alloc, error.kind().name())?))?;
    match error.cause() {
        Some(cause) => add_kinds(alloc, cause, kinds),
        None => Ok(()),
    }
}

// Adds the places of an error and of its causes, outermost first.
fn add_places(alloc: Global, error: &Error, places: &mut Vec<Json>) -> Result<(), AllocError>
    ensures { OnOk result (AddsPlaces (map view places.old.items) (map view places.new.items)) }
{
    add_each(alloc, error.places(), places)?;
    match error.cause() {
        Some(cause) => add_places(alloc, cause, places),
        None => Ok(()),
    }
}

// Adds places.
fn add_each(alloc: Global, each: &[Place], places: &mut Vec<Json>) -> Result<(), AllocError>
    ensures { OnOk result (map view places.new.items ≡ map view places.old.items ++ map place_data each.now) }
{
    for place in each {
        places.push(place_json(alloc, place)?)?;
    }
    Ok(())
}

// A place, with lines and columns from 1 on, and bytes from 0 on.
fn place_json(alloc: Global, place: &Place) -> Result<Json, AllocError>
    ensures { IfOk result (λ told. view told ≡ place_data place.now) }
{
    let column = place.column as u32 + 1;
    json!(in alloc; {
        "name": place.name.as_str(),
        "line": place.line,
        "column": column,
        "start": place.start,
        "end": place.end
    })
}
