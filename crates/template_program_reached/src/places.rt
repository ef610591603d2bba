//! Where the templates of names stand.
ghost use Rattle.std.specs.Prelude.{◌≡◌, length, IfOk, IfErr};
ghost use Rattle.template_values_errors.specs.Memory.{NoMemory};
ghost use Rattle.template_program_reached.specs.Places.{TellPlaces, kept_of};
ghost use Rattle.template_program_reached.specs.Views.{texts_in};

use std::alloc::Global;
use std::collections::BTreeMap;
use template_values_errors::Error;

// The place of the last template of each name.
pub(crate) fn places_of<'a>(
    alloc: Global,
    templates: &'a [(String, String)],
) -> Result<BTreeMap<&'a str, usize>, Error>
    ensures told { IfOk result (λ places. TellPlaces places (texts_in templates.now) (length templates.now)) }
    ensures refused { IfErr result NoMemory }
{
    let mut places = BTreeMap::new(alloc);
    for (place, template) in templates.iter().enumerate() {
        places.insert(template.0.as_str(), place)?;
    }
    Ok(places)
}

// The place of the last template of a name.
pub(crate) fn place_of(places: &BTreeMap<&str, usize>, name: &str) -> Option<usize>
    ensures { result ≡ kept_of name.now places.now }
{
    places.get(name).copied()
}
