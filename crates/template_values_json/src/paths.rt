//! Paths of the parts of a document.

use serde_json::{Map, Value as Json};
use std::alloc::{AllocError, Global};

// From a value to one in it.
#[derive(Clone, Copy, Drop)]
enum Step<'a> {
    Name(&'a str),
    Index(usize),
}

/// The path of the first float of a document, by the order of names, where `serde_json` reads it. Linear in the document.
pub(crate) fn float_path(alloc: Global, bytes: &[u8]) -> Option<String> {
    let document = Json::from_slice(alloc, bytes).ok()?;
    let mut steps = Vec::new(alloc);
    if leads_to_float(&document, &mut steps).ok()? {
        path_of(alloc, &steps).ok()
    } else {
        None
    }
}

// Whether a float stands in it; the steps to the first one are then behind the others.
#[cycle(leads)]
fn leads_to_float<'a>(json: &'a Json, steps: &mut Vec<Step<'a>>) -> Result<bool, AllocError> {
    match json {
        Json::Number(number) => Ok(number.as_i128().is_none()),
        Json::Array(items) => item_leads_to_float(items, steps),
        Json::Object(members) => member_leads_to_float(members, steps),
        _ => Ok(false),
    }
}

#[cycle(leads)]
fn item_leads_to_float<'a>(
    items: &'a [Json],
    steps: &mut Vec<Step<'a>>,
) -> Result<bool, AllocError> {
    for (index, item) in items.iter().enumerate() {
        steps.push(Step::Index(index))?;
        if leads_to_float(item, steps)? {
            return Ok(true);
        }
        steps.pop();
    }
    Ok(false)
}

#[cycle(leads)]
fn member_leads_to_float<'a>(
    members: &'a Map<String, Json>,
    steps: &mut Vec<Step<'a>>,
) -> Result<bool, AllocError> {
    for (name, member) in members.iter() {
        steps.push(Step::Name(name.as_str()))?;
        if leads_to_float(member, steps)? {
            return Ok(true);
        }
        steps.pop();
    }
    Ok(false)
}

// The steps as they are written: `rows[3].price`.
fn path_of(alloc: Global, steps: &[Step<'_>]) -> Result<String, AllocError> {
    let mut path = String::new(alloc);
    for step in steps {
        push_step(&mut path, *step)?;
    }
    Ok(path)
}

fn push_step(path: &mut String, step: Step<'_>) -> Result<(), AllocError> {
    match step {
        Step::Name(name) => {
            if !path.is_empty() {
                path.push('.')?;
            }
            path.push_str(name)
        }
        Step::Index(index) => write!(path, "[{index}]"),
    }
}
