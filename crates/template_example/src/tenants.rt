//! One environment and two tenants, each with a fuel of its own: each report is written into a writer as it comes, and stops where
//! its tenant's fuel ends.

use template_machine::{Environment, Error, ErrorKind, StateIds, WriteWrapper, context_from_json};

const REPORT: &str =
    "{{ title }}:{% for order in orders %} {{ order.count }} {{ order.what }}{% else %} none{% endfor %}";

// Who asks for a report, and how many steps it may take.
struct Tenant {
    fuel: u64,
    context: &'static [u8],
}

const SMALL: Tenant = Tenant {
    fuel: 20,
    context: b"{\"title\": \"North\", \"orders\": [{\"count\": 2, \"what\": \"lamps\"}, {\"count\": 1, \"what\": \"desk\"}]}",
};

const LARGE: Tenant = Tenant {
    fuel: 1000,
    context: b"{\"title\": \"South\", \"orders\": [{\"count\": 4, \"what\": \"chairs\"}, {\"count\": 1, \"what\": \"table\"}]}",
};

/// Prints the report of each tenant, and what it took.
pub fn run(rt: &HostRuntime) -> anyhow::Result<()> {
    let mut ids = StateIds::new(0);
    let mut environment = Environment::new(rt.alloc(), &mut ids)?;
    environment.add_template("report.txt", REPORT)?;
    report(rt, &mut environment, &mut ids, &SMALL)?;
    report(rt, &mut environment, &mut ids, &LARGE)
}

// Writes the report of a tenant to standard output, and tells what it took.
fn report(
    rt: &HostRuntime,
    environment: &mut Environment<'_>,
    ids: &mut StateIds,
    tenant: &Tenant,
) -> anyhow::Result<()> {
    environment.set_fuel(Some(tenant.fuel));
    let taken = write_report(rt, environment, ids, tenant)?;
    match taken {
        Some(steps) => println!(rt; "\n  took {steps} steps")?,
        None => println!(rt; "\n  stopped at step {}", tenant.fuel)?,
    }
    Ok(())
}

// The steps that the report took, and none where its fuel ended before it did.
fn write_report(
    rt: &HostRuntime,
    environment: &Environment<'_>,
    ids: &mut StateIds,
    tenant: &Tenant,
) -> Result<Option<u64>, Error> {
    let context = context_from_json(rt.alloc(), tenant.context)?;
    let template = environment.get_template("report.txt")?;
    let mut out = WriteWrapper::new(rt.stdout());
    match template.render_captured_to(ids, context, &mut out) {
        Ok(captured) => Ok(captured.fuel_levels().map(|levels| levels.0)),
        Err(error) if error.kind() == ErrorKind::OutOfFuel => Ok(None),
        Err(error) => Err(error),
    }
}
