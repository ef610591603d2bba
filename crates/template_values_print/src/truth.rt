//! Whether a value counts as true.
ghost use Rattle.std.specs.Prelude.{◌≡◌};
ghost use Rattle.template_values_model.specs.Gives.{alone};
ghost use Rattle.template_values_core.specs.Maps.{pairs_of};
ghost use Rattle.template_values_core.specs.Reads.{has_pairs};
ghost use Rattle.template_values_core.specs.Shape.{pairs_in};
ghost use Rattle.template_values_forms.specs.Truth.{truth_of};

use template_values_core::{Content, Entry, Value};
use template_values_errors::{Error, ErrorKind};
use template_values_forms::Records;

/// Whether the value counts as true. Undefined values, `none`, `false`, 0 and empty texts, bytes,
/// lists, tuples, maps and modules do not, nor does an empty namespace. All else does: an empty keyword
/// map, functions, and every loop and macro, also a foreign one.
///
/// # Errors
///
/// [`ErrorKind::InvalidOperation`], if the value is a foreign namespace.
pub fn is_true<R: Records>(value: &Value, records: &R) -> Result<bool, Error>
    ensures { result ≡ alone (truth_of (R.known records.now) value.now) }
{
    match value.content() {
        Content::Namespace(id, number) => match records.namespace(id, number) {
            Some(entries) => Ok(holds_any(entries)),
            None => Err(Error::new(ErrorKind::InvalidOperation)),
        },
        _ => Ok(value.is_true()),
    }
}

#[tactic(auto, using(template_values_core::proofs::ReadLemmas::reading))]
fn holds_any(entries: &[Entry]) -> bool
    ensures { result ≡ has_pairs (pairs_of (pairs_in entries.now)) }
{
    !entries.is_empty()
}
