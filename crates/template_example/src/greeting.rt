//! The first use of the library: an environment with templates, a context from Rust values and one from JSON,
//! renders to a `String`, a page with a loop and an include among them, a refusal, a source that does not stand,
//! and what its render leaves.

use std::alloc::Global;
use template_machine::{
    Captured, Environment, Error, StateIds, Template, Value, context_from_json,
};

const PAGE: &str =
    "{% include 'head.html' %}{% for item in items %}<p>{{ item }}</p>{% else %}<p>-</p>{% endfor %}";

const PAGE_CONTEXT: &[u8] = b"{\"title\": \"Q & A\", \"items\": [1, \"<b>\", null]}";

/// Prints what the templates come to, which of them stand, and what a render leaves.
pub fn run(rt: &HostRuntime) -> anyhow::Result<()> {
    let mut ids = StateIds::new(0);
    let mut environment = Environment::new(rt.alloc(), &mut ids)?;
    show(rt, &mut environment, &mut ids)
}

// Adds templates, renders them, and tells what stands.
fn show(
    rt: &HostRuntime,
    environment: &mut Environment<'_>,
    ids: &mut StateIds,
) -> anyhow::Result<()> {
    environment.add_template("hello.txt", "Hello {{ name }}!")?;
    environment.add_template("head.html", "<h1>{{ title }}</h1>")?;
    environment.add_template("page.html", PAGE)?;

    print_render(
        rt,
        environment,
        ids,
        "hello.txt",
        hello_context(rt.alloc())?,
    )?;
    print_render(
        rt,
        environment,
        ids,
        "page.html",
        context_from_json(rt.alloc(), PAGE_CONTEXT)?,
    )?;
    add_broken(rt, environment)?;
    print_names(rt, environment)?;
    print_exports(rt, environment, ids)
}

// A context from Rust values, of one name.
fn hello_context(alloc: Global) -> Result<Value, Error> {
    let name = Value::from_str(alloc, "World")?;
    Value::from_pairs(alloc, vec![in alloc; ("name", name)]?)
}

fn print_render(
    rt: &HostRuntime,
    environment: &Environment<'_>,
    ids: &mut StateIds,
    name: &str,
    context: Value,
) -> anyhow::Result<()> {
    let text = environment.get_template(name)?.render(ids, context)?;
    println!(rt; "{text}")?;
    Ok(())
}

// A source that is refused, and changes nothing.
fn add_broken(rt: &HostRuntime, environment: &mut Environment<'_>) -> anyhow::Result<()> {
    match environment.add_template("broken.txt", "Hello {{ name") {
        Ok(()) => println!(rt; "accepted")?,
        Err(error) => println!(rt; "refused: {error}")?,
    }
    Ok(())
}

fn print_names(rt: &HostRuntime, environment: &Environment<'_>) -> anyhow::Result<()> {
    print_each(rt, environment.templates()?.as_slice())
}

fn print_each(rt: &HostRuntime, templates: &[Template<'_, '_>]) -> anyhow::Result<()> {
    for template in templates {
        println!(rt; "stands: {}", template.name())?;
    }
    Ok(())
}

// A source that does not stand, and what its render leaves.
fn print_exports(
    rt: &HostRuntime,
    environment: &Environment<'_>,
    ids: &mut StateIds,
) -> anyhow::Result<()> {
    let template = environment.template_from_str("{% set answer = 42 %}Hello again!")?;
    print_left(rt, &template.render_captured(ids, Value::undefined())?)
}

fn print_left(rt: &HostRuntime, captured: &Captured<'_, '_>) -> anyhow::Result<()> {
    println!(rt; "{}", captured.output())?;
    for name in &captured.state().exports()? {
        println!(rt; "exports: {name}")?;
    }
    Ok(())
}
