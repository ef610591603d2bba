//! Where states begin, and what runs in them.
ghost use Rattle.std.specs.Prelude.{◌≡◌, IfOk, IfErr, option_copied, option_map};
ghost use Rattle.template_values_errors.specs.Memory.{NoMemory};
ghost use Rattle.template_machine_meaning.specs.Meaning.{head_of, no_head};
ghost use Rattle.template_machine_meaning.specs.World.{first_world};
ghost use Rattle.template_machine_renders.specs.Programs.{alone, roots_of, standing_of};
ghost use Rattle.template_compiled.specs.Compiled.{standing_of as meant_of};
ghost use Rattle.template_machine_environment.specs.Reading.{registry_of};
ghost use Rattle.template_machine_environment.specs.Standing.{unit_of};
ghost use Rattle.template_machine_environment.specs.States.{head_of_template, own_name};

use crate::environment::Environment;
use template_callables::Extension;
use template_compiled::CompiledTemplate;
use template_machine_renders::{Compiled, Program};
use template_machine_state::State as MachineState;
use template_values_core::Value;
use template_values_errors::{AutoEscape, Error};

// The name of a state without a template.
const UNKNOWN: &str = "<unknown>";

// A template, as the machine takes it.
pub(crate) fn unit<'env>(template: &'env CompiledTemplate<'_>) -> Compiled<'env>
    ensures unit { standing_of result ≡ unit_of template.now }
    ensures named { result.name.now ≡ template.now.name }
{
    Compiled {
        name: template.name(),
        code: template.instructions(),
        escape: template.initial_auto_escape(),
        blocks: template.blocks(),
    }
}

// The name of a template, or that of none.
pub(crate) fn own_name<'env>(template: Option<&'env CompiledTemplate<'_>>) -> &'env str
    ensures { result.now ≡ own_name (option_copied template.entry) }
{
    match template {
        Some(template) => template.name(),
        None => UNKNOWN,
    }
}

// A template, as the machine takes it.
fn root<'env>(template: Option<&'env CompiledTemplate<'_>>) -> Option<Compiled<'env>>
    ensures { option_map standing_of result ≡ option_map unit_of (option_copied template.entry) }
{
    match template {
        Some(template) => Some(unit(template)),
        None => None,
    }
}

// What runs in a state of a template.
pub(crate) fn program<'env, 'source, E: Extension>(
    environment: &'env Environment<'source, E>,
    template: Option<&'env CompiledTemplate<'source>>,
) -> Program<'env, 'env, Environment<'source, E>>
    ensures templates { result.templates.now ≡ environment.now }
    ensures roots { roots_of result ≡ alone (option_map unit_of (option_copied template.entry)) }
    ensures name { result.rules.name.now ≡ own_name (option_copied template.entry) }
    ensures limit { result.rules.limit ≡ (registry_of environment.now).recursion_limit }
    ensures undefined { result.rules.undefined ≡ (registry_of environment.now).undefined_behavior }
{
    Program {
        templates: environment,
        root: root(template),
        kept: None,
        rules: environment.registry.rules(own_name(template)),
    }
}

// The state of a number at the start of a render of a template over a context.
pub(crate) fn begun_with<'env, 'source, E: Extension>(
    id: u64,
    environment: &'env Environment<'source, E>,
    template: &'env CompiledTemplate<'source>,
    context: Value,
) -> Result<MachineState<'env>, Error>
    ensures made { IfOk result (λ w. w ≡ first_world id (registry_of environment.now).globals (head_of (meant_of template.now)) context) }
    ensures refused { IfErr result NoMemory }
{
    MachineState::new(
        environment.allocator(),
        id,
        &environment.registry.globals,
        template.initial_auto_escape(),
        template.blocks(),
        context,
    )
}

// The same without a template: under no escape, and without blocks.
pub(crate) fn begun_alone<'env, 'source, E: Extension>(
    id: u64,
    environment: &'env Environment<'source, E>,
    context: Value,
) -> Result<MachineState<'env>, Error>
    ensures made { IfOk result (λ w. w ≡ first_world id (registry_of environment.now).globals no_head context) }
    ensures refused { IfErr result NoMemory }
{
    MachineState::new(
        environment.allocator(),
        id,
        &environment.registry.globals,
        AutoEscape::None,
        &[],
        context,
    )
}

// The same where a template may be given.
pub(crate) fn begun<'env, 'source, E: Extension>(
    id: u64,
    environment: &'env Environment<'source, E>,
    template: Option<&'env CompiledTemplate<'source>>,
    context: Value,
) -> Result<MachineState<'env>, Error>
    ensures made { IfOk result (λ w.
        w ≡ first_world id (registry_of environment.now).globals (head_of_template (option_copied template.entry)) context) }
    ensures refused { IfErr result NoMemory }
{
    match template {
        Some(template) => begun_with(id, environment, template, context),
        None => begun_alone(id, environment, context),
    }
}
