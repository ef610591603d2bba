//! The builtins, added to an environment.
ghost use Rattle.std.specs.Prelude.{◌≡◌, ℕ, List, IfErr, OnErr, OnOk};
ghost use Rattle.template_values_errors.specs.Memory.{NoMemory};
ghost use Rattle.template_machine_environment.specs.Reading.{extras_of, registry_of};
ghost use Rattle.template_machine_environment.specs.Standing.{settings_of, source_at};
ghost use Rattle.template_builtins.specs.Installed.{Adds, Installs, InstallsSome, KeepsOthers, MadeOf, filters_in, tests_in};
ghost use Rattle.template_builtins_callables.specs.Names.{rows_of};

use std::alloc::Global;
use template_builtins_callables::{Builtin, FILTERS, Filter, Kind, TESTS, Test};
use template_builtins_methods::PythonMethods;
use template_callables::Extension;
use template_machine_environment::Environment;
use template_values_errors::Error;

/// Adds each builtin filter and test under its name, in the place of one that is registered there, and sets Python's methods as what
/// answers for unknown ones; what stands under other names stays. Takes a look-up for each name.
///
/// # Errors
///
/// [`ErrorKind::OutOfMemory`](template_values_errors::ErrorKind::OutOfMemory); some of them are then registered, and all else is as before.
pub fn install<E: Extension>(
    alloc: Global,
    environment: &mut Environment<'_, E>,
) -> Result<(), Error>
where
    E::Callable: From<Builtin>,
    E::Method: From<PythonMethods>,
    ensures installed { OnOk result
        (Installs E.Callable.from_gives E.Method.from_gives (extras_of environment.old) (extras_of environment.new)) }
    ensures partial { OnErr result (InstallsSome (extras_of environment.old) (extras_of environment.new)) }
    ensures sources { (name : List ℕ) → source_at (registry_of environment.new) name ≡ source_at (registry_of environment.old) name }
    ensures settings { settings_of (registry_of environment.new) ≡ settings_of (registry_of environment.old) }
    ensures refused { IfErr result NoMemory }
{
    add_filters(alloc, environment, &FILTERS)?;
    add_tests(alloc, environment, &TESTS)?;
    environment.set_unknown_method_callback(E::Method::from(PythonMethods { alloc }));
    Ok(())
}

// Adds the filters of a table, the last one first, so that of one name the first stands.
fn add_filters<E: Extension>(
    alloc: Global,
    environment: &mut Environment<'_, E>,
    table: &[(&str, Filter)],
) -> Result<(), Error>
where
    E::Callable: From<Builtin>,
    ensures added { OnOk result (Adds E.Callable.from_gives (filters_in (rows_of table.now))
        (extras_of environment.old).filters (extras_of environment.new).filters) }
    ensures partial { OnErr result (KeepsOthers (filters_in (rows_of table.now))
        (extras_of environment.old).filters (extras_of environment.new).filters) }
    ensures others { extras_of environment.new ≡ record (extras_of environment.old) { filters = (extras_of environment.new).filters } }
    ensures sources { (name : List ℕ) → source_at (registry_of environment.new) name ≡ source_at (registry_of environment.old) name }
    ensures settings { settings_of (registry_of environment.new) ≡ settings_of (registry_of environment.old) }
    ensures refused { IfErr result NoMemory }
{
    let Some((row, rows)) = table.split_first() else {
        return Ok(());
    };
    add_filters(alloc, environment, rows)?;
    environment.add_filter(row.0, made::<E>(alloc, Kind::Filter(row.1)))
}

// Adds the tests of a table, the last one first.
fn add_tests<E: Extension>(
    alloc: Global,
    environment: &mut Environment<'_, E>,
    table: &[(&str, Test)],
) -> Result<(), Error>
where
    E::Callable: From<Builtin>,
    ensures added { OnOk result (Adds E.Callable.from_gives (tests_in (rows_of table.now))
        (extras_of environment.old).tests (extras_of environment.new).tests) }
    ensures partial { OnErr result (KeepsOthers (tests_in (rows_of table.now))
        (extras_of environment.old).tests (extras_of environment.new).tests) }
    ensures others { extras_of environment.new ≡ record (extras_of environment.old) { tests = (extras_of environment.new).tests } }
    ensures sources { (name : List ℕ) → source_at (registry_of environment.new) name ≡ source_at (registry_of environment.old) name }
    ensures settings { settings_of (registry_of environment.new) ≡ settings_of (registry_of environment.old) }
    ensures refused { IfErr result NoMemory }
{
    let Some((row, rows)) = table.split_first() else {
        return Ok(());
    };
    add_tests(alloc, environment, rows)?;
    environment.add_test(row.0, made::<E>(alloc, Kind::Test(row.1)))
}

// A callable of the environment's own type that is the builtin of a kind.
fn made<E: Extension>(alloc: Global, kind: Kind) -> E::Callable
where
    E::Callable: From<Builtin>,
    ensures { MadeOf E.Callable.from_gives kind result }
{
    E::Callable::from(Builtin { alloc, kind })
}
