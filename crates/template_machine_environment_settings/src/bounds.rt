//! What the renders of an environment keep to.
ghost use Rattle.std.specs.Prelude.{◌≡◌, ℕ, List, min};
ghost use Rattle.template_machine_environment.specs.Reading.{extras_of, registry_of};
ghost use Rattle.template_machine_environment.specs.Standing.{greatest_limit, settings_of, source_at};

use template_callables::Extension;
use template_machine_environment::Environment;
use template_values_errors::UndefinedBehavior;

/// Sets what the renders of an environment keep to: their fuel, if any, how deep they may be, and what may be done with
/// undefined values. All else stays.
pub fn set_bounds<E: Extension>(
    environment: &mut Environment<'_, E>,
    fuel: Option<u64>,
    limit: usize,
    undefined: UndefinedBehavior,
)
    ensures sources { (name : List ℕ) → source_at (registry_of environment.new) name ≡ source_at (registry_of environment.old) name }
    ensures settings { settings_of (registry_of environment.new) ≡ record (settings_of (registry_of environment.old))
        { fuel = fuel; limit = min limit greatest_limit; undefined = undefined } }
    ensures extras { extras_of environment.new ≡ extras_of environment.old }
{
    environment.set_fuel(fuel);
    environment.set_recursion_limit(limit);
    environment.set_undefined_behavior(undefined);
}
