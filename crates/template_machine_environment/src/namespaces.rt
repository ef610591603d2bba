//! Namespaces from Rust.
ghost use Rattle.std.specs.Prelude.{◌≡◌, ◌⊎◌, length, IfOk, IfErr, OnOk, OnErr, Err};
ghost use Rattle.template_values_errors.specs.Memory.{NoMemory};
ghost use Rattle.template_values_model.specs.Val as values;
ghost use Rattle.template_machine_meaning.specs.Functions.{namespace_given};
ghost use Rattle.template_machine_operations.specs.Answers.{answered};
ghost use Rattle.template_machine_environment.specs.Namespaces.{HoldsMore};
ghost use Rattle.template_machine_environment.specs.States.{KeepsRest, world_in};

use crate::state::State;
use template_callables::Extension;
use template_machine_operations::namespace as entries_for;
use template_values_core::Value;
use template_values_errors::Error;

/// What the function `namespace` gives in a template for these arguments, whatever functions the environment has: a new
/// namespace of the state. It holds nothing, or the entries of a map or of keyword arguments whose keys are texts, each under
/// its plain text. Linear in their number; the values are shared. This state alone looks into it, by [`Records`], and a
/// template, a macro or a block that runs in it stores in it.
///
/// # Errors
///
/// [`ErrorKind::TooManyArguments`] at more than one argument; [`ErrorKind::InvalidOperation`] at another value;
/// [`ErrorKind::OutOfMemory`]. The state is then as it was.
///
/// [`Records`]: template_values_forms::Records
/// [`ErrorKind::TooManyArguments`]: template_values_errors::ErrorKind::TooManyArguments
/// [`ErrorKind::InvalidOperation`]: template_values_errors::ErrorKind::InvalidOperation
/// [`ErrorKind::OutOfMemory`]: template_values_errors::ErrorKind::OutOfMemory
pub fn namespace<E: Extension>(state: &mut State<'_, '_, E>, args: &[Value]) -> Result<Value, Error>
    ensures given { IfOk result (λ v. v ≡ values.namespace (world_in state.old).id (length (world_in state.old).namespaces)) }
    ensures made { OnOk result (HoldsMore (namespace_given args.now) (world_in state.old) (world_in state.new)) }
    ensures refused { IfErr result (λ kinds. NoMemory kinds ⊎ (answered (namespace_given args.now) ≡ Err kinds)) }
    ensures unchanged { OnErr result (world_in state.new ≡ world_in state.old) }
    ensures rest { KeepsRest state.old state.new }
{
    let alloc = state.environment.allocator();
    let entries = entries_for(alloc, args)?;
    state.machine.make_namespace(entries)
}
