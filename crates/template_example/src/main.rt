//! The engine as a library, in four examples, one after the other: a first use, a fuel for each tenant, pages that are kept, and a
//! filter, a function, a test and methods of a user's own.
#![tactic(auto)]

mod callables;
mod greeting;
mod pages;
mod shop;
mod tenants;

fn main(rt: HostRuntime) -> anyhow::Result<()> {
    print_title(&rt, "greeting")?;
    greeting::run(&rt)?;
    print_title(&rt, "tenants")?;
    tenants::run(&rt)?;
    print_title(&rt, "pages")?;
    pages::run(&rt)?;
    print_title(&rt, "shop")?;
    shop::run(&rt)
}

fn print_title(rt: &HostRuntime, title: &str) -> anyhow::Result<()> {
    println!(rt; "== {title}")?;
    Ok(())
}
