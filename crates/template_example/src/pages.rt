//! Rendered pages that are kept: a page is rendered anew only where the context differs at a name that can matter to it.

use std::alloc::Global;
use std::collections::{BTreeMap, BTreeSet};
use template_machine::{Environment, Error, StateIds, Template, Value, context_from_json};
use template_values::{NoRecords, print_to};

const PAGE: &str = "<h1>{{ title }}</h1>{% include 'price.html' %}";

const PRICE: &str = "<b>{{ price }}</b>";

const REQUESTS: [&[u8]; 4] = [
    b"{\"title\": \"Lamp\", \"price\": 20, \"visitor\": 1}",
    b"{\"title\": \"Lamp\", \"price\": 20, \"visitor\": 2}",
    b"{\"title\": \"Lamp\", \"price\": 25, \"visitor\": 3}",
    b"{\"title\": \"Lamp\", \"price\": 20, \"visitor\": 4}",
];

/// Prints the page for each request, and whether it was kept.
pub fn run(rt: &HostRuntime) -> anyhow::Result<()> {
    let mut ids = StateIds::new(0);
    let mut environment = Environment::new(rt.alloc(), &mut ids)?;
    environment.add_template("price.html", PRICE)?;
    environment.add_template("page.html", PAGE)?;
    answer_all(rt, &environment, &mut ids)
}

fn answer_all(
    rt: &HostRuntime,
    environment: &Environment<'_>,
    ids: &mut StateIds,
) -> anyhow::Result<()> {
    let template = environment.get_template("page.html")?;
    let names = environment.context_names(&template)?;
    let mut pages = BTreeMap::new(rt.alloc());
    for request in REQUESTS {
        answer(rt, &template, ids, &names, &mut pages, request)?;
    }
    Ok(())
}

// Prints the page for a request: the one that is kept for such a context, else a new one.
fn answer(
    rt: &HostRuntime,
    template: &Template<'_, '_>,
    ids: &mut StateIds,
    names: &BTreeSet<String>,
    pages: &mut BTreeMap<String, String>,
    request: &[u8],
) -> anyhow::Result<()> {
    let context = context_from_json(rt.alloc(), request)?;
    let key = key_of(rt.alloc(), names, &context)?;
    match pages.get(key.as_str()) {
        Some(page) => println!(rt; "kept:     {page}")?,
        None => {
            let page = template.render(ids, context)?;
            println!(rt; "rendered: {page}")?;
            pages.insert(key, page)?;
        }
    }
    Ok(())
}

// What tells contexts from JSON apart for a template: the values of the names that can matter to it, printed as a list.
fn key_of(alloc: Global, names: &BTreeSet<String>, context: &Value) -> Result<String, Error> {
    let mut values = Vec::new(alloc);
    for name in names {
        values.push(match context.value_at(name.as_str()) {
            Some(value) => value.copy()?,
            None => Value::undefined(),
        })?;
    }
    let mut key = String::new(alloc);
    print_to(&Value::from_list(alloc, values)?, &NoRecords, &mut key)?;
    Ok(key)
}
