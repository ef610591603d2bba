//! A user's own filter, function and test, and methods of values, beside the builtins: they are called from a template, and
//! the filter from a state too. What the filter makes of a text is proved.
ghost use Rattle.std.specs.Prelude.{◌≡◌, ◌++◌, IfOk, codes};
ghost use Rattle.template_values.specs.Val as values;
ghost use Rattle.template_machine.specs.Reading.{extras_of};
ghost use Rattle.template_example.specs.Labels.{Labels};

use crate::callables::{Cheap, Label, Link, Own, Shop};
use std::alloc::Global;
use template_builtins::install;
use template_machine::{Environment, Error, StateIds, Value, context_from_json};

const PAGE: &str = "{{ items|map(attribute='name')|sort|join(', ') }}\n\
    {% for item in items %}\
    {{ link(item.name, to=item.page) }} {{ item.price }}{% if item.price is cheap %} {{ 'today'|label }}{% endif %}\n\
    {% endfor %}{{ farewell.label() }} {{ farewell.upper() }}";

const CONTEXT: &[u8] =
    b"{\"farewell\": \"Bye\", \"items\": [{\"name\": \"Lamp\", \"page\": \"/lamp\", \"price\": 20}, {\"name\": \"Desk\", \"page\": \"/desk\", \"price\": 120}]}";

/// Prints a page and a label of the shop, and what the page comes to once its filter is gone.
pub fn run(rt: &HostRuntime) -> anyhow::Result<()> {
    let mut ids = StateIds::new(0);
    let mut environment = open_shop(rt.alloc(), &mut ids)?;
    print_page(rt, &environment, &mut ids)?;
    print_label(rt, &environment, &mut ids)?;
    close_shop(&mut environment);
    print_page(rt, &environment, &mut ids)
}

// An environment with a page, the builtins and the shop's own.
fn open_shop<'source>(
    alloc: Global,
    ids: &mut StateIds,
) -> Result<Environment<'source, Shop>, Error>
    ensures { IfOk result (λ environment. Labels (codes "sale: ") (extras_of environment)) }
{
    let mut environment: Environment<'source, Shop> = Environment::extended(alloc, ids)?;
    environment.add_template("page.txt", PAGE)?;
    install(alloc, &mut environment)?;
    let prefix = String::from_str(alloc, "sale: ")?;
    environment.add_filter("label", Own::Label(Label { alloc, prefix }))?;
    environment.add_function("link", Own::Link(Link { alloc }))?;
    environment.add_test("cheap", Own::Cheap(Cheap { limit: 50 }))?;
    Ok(environment)
}

// The shop's filter is gone.
fn close_shop(environment: &mut Environment<'_, Shop>) {
    environment.remove_filter("label");
}

fn print_page(
    rt: &HostRuntime,
    environment: &Environment<'_, Shop>,
    ids: &mut StateIds,
) -> anyhow::Result<()> {
    let context = context_from_json(rt.alloc(), CONTEXT)?;
    match environment.get_template("page.txt")?.render(ids, context) {
        Ok(page) => println!(rt; "{page}")?,
        Err(error) => println!(rt; "refused: {error}")?,
    }
    Ok(())
}

fn print_label(
    rt: &HostRuntime,
    environment: &Environment<'_, Shop>,
    ids: &mut StateIds,
) -> anyhow::Result<()>
    requires { Labels (codes "sale: ") (extras_of environment.now) }
{
    let label = labelled(rt.alloc(), environment, ids, "chair")?;
    match label.as_str() {
        Some(label) => println!(rt; "{label}")?,
        None => println!(rt; "no text")?,
    }
    Ok(())
}

// What the filter makes of a text, without a render.
fn labelled(
    alloc: Global,
    environment: &Environment<'_, Shop>,
    ids: &mut StateIds,
    text: &str,
) -> Result<Value, Error>
    requires { Labels (codes "sale: ") (extras_of environment.now) }
    ensures { IfOk result (λ value. value ≡ values.text (codes "sale: " ++ text.now)) }
{
    let mut state = environment.empty_state(ids)?;
    let text = Value::from_str(alloc, text)?;
    state.apply_filter("label", &[text])
}
