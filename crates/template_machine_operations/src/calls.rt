//! Calls of values, and of what names stand for.
ghost use Rattle.template_machine_meaning.specs.Functions.{found_called, name_called, value_called};
ghost use Rattle.template_machine_operations.specs.Called.{Comes};

use crate::called::Called;
use crate::functions::call_function;
use std::alloc::Global;
use template_machine_tables::Globals;
use template_values_core::{Content, Value};
use template_values_errors::{Error, ErrorKind};
use template_values_operators::refusal;

/// Calls what a name stands for, by the name, in the environment that gives these globals: the rounds of a loop are told; else as
/// [`call_found`].
///
/// # Errors
///
/// As [`call_found`].
pub fn call_named(
    alloc: Global,
    globals: &Globals,
    named: Option<Value>,
    args: &[Value],
) -> Result<Called, Error>
    ensures { Comes result args.now (name_called globals.now named args.now) }
{
    if let Some(callee) = &named
        && let Content::Loop(id, number) = callee.content()
    {
        return Ok(Called::Rounds(id, number));
    }
    call_found(alloc, globals, named, args)
}

/// Calls what was found under a name, in the environment that gives these globals. As dear as [`call_value`].
///
/// # Errors
///
/// [`ErrorKind::UnknownFunction`] where nothing was found; else as [`call_value`].
pub fn call_found(
    alloc: Global,
    globals: &Globals,
    found: Option<Value>,
    args: &[Value],
) -> Result<Called, Error>
    ensures { Comes result args.now (found_called globals.now found args.now) }
{
    match found {
        Some(callee) => call_value(alloc, globals, &callee, args),
        None => Err(Error::new(ErrorKind::UnknownFunction)),
    }
}

/// Calls a value, in the environment that gives these globals. As dear as the function, where that is the environment's own; one
/// that a user gave to it, and a macro, are only told.
///
/// # Errors
///
/// [`ErrorKind::InvalidOperation`] at what is no macro and no function of this environment; else what the function refuses.
pub fn call_value(
    alloc: Global,
    globals: &Globals,
    callee: &Value,
    args: &[Value],
) -> Result<Called, Error>
    ensures { Comes result args.now (value_called globals.now callee.now args.now) }
{
    let own = globals.environment();
    match callee.content() {
        Content::Function(id, number) if id == own => {
            call_function(alloc, globals.has_own(), number, args)
        }
        Content::Macro(id, number) => Ok(Called::Macro(id, number)),
        _ => refusal(),
    }
}
