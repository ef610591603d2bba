//! What a user brought to an environment.
ghost use Rattle.std.specs.Prelude.{◌≡◌, Some, IfErr, OnErr, OnOk, option_copied, slice_get};
ghost use Rattle.std.specs.BTreeMap.{get_by_text};
ghost use Rattle.template_values_errors.specs.Memory.{NoMemory};
ghost use Rattle.template_machine_meaning.specs.World.{own_functions};
ghost use Rattle.template_machine_environment.specs.Extras.{Puts, Stays, no_extras, numbered_from};

use std::alloc::Global;
use std::collections::BTreeMap;
use template_callables::Extension;
use template_machine_environment_histories::put_under;
use template_machine_tables::OWN_FUNCTIONS;
use template_values_errors::Error;

// What a user brought to an environment.
pub(crate) struct Extensions<E: Extension> {
    pub(crate) filters: BTreeMap<String, E::Callable>,
    pub(crate) tests: BTreeMap<String, E::Callable>,
    // In the order of their numbers, from that of the first one on.
    pub(crate) functions: Vec<E::Callable>,
    pub(crate) method: Option<E::Method>,
    pub(crate) formatter: Option<E::Formatter>,
    pub(crate) join: Option<E::Join>,
    pub(crate) rule: Option<E::Rule>,
}

// By hand, as with what holds it.
impl<E: Extension> Drop for Extensions<E> {
    fn drop(self) {
        let Extensions {
            filters: _,
            tests: _,
            functions: _,
            method: _,
            formatter: _,
            join: _,
            rule: _,
        } = self;
    }
}

impl<E: Extension> Extensions<E> {
    ghost use Rattle.template_machine_environment.specs.Reading.{extras_in};

    // Nothing.
    pub(crate) fn new(alloc: Global) -> Extensions<E>
        ensures { extras_in result ≡ no_extras }
    {
        Extensions {
            filters: BTreeMap::new(alloc),
            tests: BTreeMap::new(alloc),
            functions: Vec::new(alloc),
            method: None,
            formatter: None,
            join: None,
            rule: None,
        }
    }

    // The function of a number.
    pub(crate) fn function(&self, number: usize) -> Option<&E::Callable>
        ensures { option_copied result ≡ numbered_from own_functions self.now.functions.items number }
    {
        at(
            self.functions.as_slice(),
            number.checked_sub(OWN_FUNCTIONS)?,
        )
    }
}

// What stands at a place.
fn at<T>(items: &[T], place: usize) -> Option<&T>
    ensures { option_copied result ≡ slice_get items.now place }
{
    items.get(place)
}

// What is given under a name goes in the place of what stands there. Takes a look-up among the names.
//
// # Errors
//
// `OutOfMemory`; what stands is then as it was.
pub(crate) fn put<T: Drop>(
    alloc: Global,
    standing: &mut BTreeMap<String, T>,
    name: &str,
    given: T,
) -> Result<(), Error>
    ensures stands { OnOk result (Puts name.now (Some given) (get_by_text standing.old) (get_by_text standing.new)) }
    ensures refused { IfErr result NoMemory }
    ensures stays { OnErr result (Stays (get_by_text standing.old) (get_by_text standing.new)) }
{
    let owned = String::from_str(alloc, name)?;
    put_under(standing, owned, given)?;
    Ok(())
}
