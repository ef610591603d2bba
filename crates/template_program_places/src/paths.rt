//! Paths of what a document of TOML may not have.

use std::alloc::{AllocError, Global};
use toml::{Table, Value as Toml};

// From a value to one in it.
#[derive(Clone, Copy, Drop)]
enum Step<'a> {
    Name(&'a str),
    Index(usize),
}

/// The path of the first float, date or time, by the order of names: `rows[3].price`. Empty where there is none. Linear in the
/// table.
pub(crate) fn fault_path(alloc: Global, table: &Table) -> Option<String> {
    let mut steps = Vec::new(alloc);
    member_leads(table, &mut steps).ok()?;
    path_of(alloc, steps.as_slice()).ok()
}

// Whether one stands in the value; the steps to the first one are then behind the others.
#[cycle(leads)]
fn leads<'a>(toml: &'a Toml, steps: &mut Vec<Step<'a>>) -> Result<bool, AllocError> {
    match toml {
        Toml::Float(_) | Toml::Datetime(_) => Ok(true),
        Toml::Array(items) => item_leads(items.as_slice(), steps),
        Toml::Table(members) => member_leads(members, steps),
        _ => Ok(false),
    }
}

#[cycle(leads)]
fn item_leads<'a>(items: &'a [Toml], steps: &mut Vec<Step<'a>>) -> Result<bool, AllocError> {
    for (index, item) in items.iter().enumerate() {
        steps.push(Step::Index(index))?;
        if leads(item, steps)? {
            return Ok(true);
        }
        steps.pop();
    }
    Ok(false)
}

#[cycle(leads)]
fn member_leads<'a>(members: &'a Table, steps: &mut Vec<Step<'a>>) -> Result<bool, AllocError> {
    for (name, member) in members.iter() {
        steps.push(Step::Name(name.as_str()))?;
        if leads(member, steps)? {
            return Ok(true);
        }
        steps.pop();
    }
    Ok(false)
}

// The steps as they are written.
fn path_of(alloc: Global, steps: &[Step<'_>]) -> Result<String, AllocError> {
    let mut path = String::new(alloc);
    for step in steps {
        push_step(&mut path, *step)?;
    }
    Ok(path)
}

fn push_step(path: &mut String, step: Step<'_>) -> Result<(), AllocError> {
    match step {
        Step::Name(name) => {
            if !path.is_empty() {
                path.push('.')?;
            }
            path.push_str(name)
        }
        Step::Index(index) => write!(path, "[{index}]"),
    }
}
