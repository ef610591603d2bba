//! The names of members, shared with a value that was read before. Which value that is makes no difference to what is read.
ghost use Rattle.std.specs.Prelude.{◌≡◌, IfErr, IfOk};
ghost use Rattle.template_values_errors.specs.Memory.{NoMemory};
ghost use Rattle.template_values_model.specs.Val.{text};

use std::alloc::Global;
use std::cmp::Ordering;
use template_values_core::{Content, Entry, Value, is_same};
use template_values_errors::Error;

/// The plain text of a member's name. Where `like` has it as its key, the text is that one, shared.
pub(crate) fn key_of(alloc: Global, name: &str, like: Option<&Entry>) -> Result<Value, Error>
    ensures made { IfOk result (λ v. v ≡ text name.now) }
    ensures refused { IfErr result NoMemory }
{
    if let Some(entry) = like {
        if let Content::Text(key) = entry.key.content() {
            if is_same(key, name) {
                return entry.key.copy();
            }
        }
    }
    Value::from_str(alloc, name)
}

/// The entry of a name in a map. Takes log n comparisons for n entries.
pub(crate) fn entry_named<'a>(like: Option<&'a Value>, name: &str) -> Option<&'a Entry> {
    let entries = like?.entries()?;
    let place = entries.binary_search_by(|entry| compare(entry, name)).ok()?;
    entries.get(place)
}

// How the key of an entry compares with a name.
fn compare(entry: &Entry, name: &str) -> Ordering {
    match entry.key.as_str() {
        Some(key) => key.cmp(name),
        None => Ordering::Less,
    }
}

/// The first item of a list.
pub(crate) fn first_of(like: Option<&Value>) -> Option<&Value> {
    like?.items()?.first()
}

/// The value of an entry.
pub(crate) fn value_in(like: Option<&Entry>) -> Option<&Value> {
    match like {
        Some(entry) => Some(&entry.value),
        None => None,
    }
}
