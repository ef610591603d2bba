//! The functions of an environment.
ghost use Rattle.template_machine_meaning.specs.Functions.{function_called, own_called};
ghost use Rattle.template_machine_operations.specs.Called.{Comes};
ghost use Rattle.template_machine_tables.specs.Numbers.{number_of};

use crate::called::Called;
use crate::dicts::dict;
use crate::namespaces::namespace;
use crate::ranges::range_given;
use std::alloc::Global;
use template_machine_tables::OwnFunction;
use template_values_core::Value;
use template_values_errors::Error;
use template_values_operators::refusal;

/// Calls the function of a number in an environment, which may have functions by itself.
///
/// # Errors
///
/// Those of [`range`], [`dict`] and [`namespace`]; [`ErrorKind::InvalidOperation`] at the number of one of these, where the
/// environment has none by itself.
///
/// [`ErrorKind::InvalidOperation`]: template_values_errors::ErrorKind::InvalidOperation
pub(crate) fn call_function(
    alloc: Global,
    has_own: bool,
    number: usize,
    args: &[Value],
) -> Result<Called, Error>
    ensures { Comes result args.now (function_called has_own number args.now) }
{
    match OwnFunction::numbered(number) {
        Some(function) if has_own => call_own(alloc, function, args),
        Some(_) => refusal(),
        None => Ok(Called::Function(number)),
    }
}

/// Calls a function that an environment has by itself.
///
/// # Errors
///
/// Those of [`range`], [`dict`] and [`namespace`].
fn call_own(alloc: Global, function: OwnFunction, args: &[Value]) -> Result<Called, Error>
    ensures { Comes result args.now (own_called (number_of function) args.now) }
{
    match function {
        OwnFunction::Range => Ok(Called::Value(range_given(alloc, args)?)),
        OwnFunction::Dict => Ok(Called::Value(dict(alloc, args)?)),
        OwnFunction::Namespace => Ok(Called::Namespace(namespace(alloc, args)?)),
    }
}
