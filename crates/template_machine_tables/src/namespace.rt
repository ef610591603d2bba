//! A namespace.
ghost use Rattle.std.specs.Prelude.{◌≡◌, ◌<◌, ◌≤◌, length, IfOk, IfErr, OnErr, OnOk};
ghost use Rattle.std.specs.BTreeMap.{insert_entry};
ghost use Rattle.template_values_errors.specs.Memory.{NoMemory};
ghost use Rattle.template_values_model.specs.Val.{text};
ghost use Rattle.template_values_core.specs.Order.{val_cmp};
ghost use Rattle.template_values_core.specs.Shape.{pairs_in};
ghost use Rattle.template_machine_tables.specs.Places.{place_among};

use std::alloc::Global;
use std::cmp::Ordering;
use std::marker::Model;
use template_values_core::{Content, Entry, Value};
use template_values_errors::Error;

/// What a namespace holds.
#[derive(Drop)]
pub(crate) struct Namespace {
    entries: Vec<Entry>,
}

impl Model for Namespace {
    ghost use Rattle.std.specs.Prelude.{List};
    ghost use Rattle.template_values_model.specs.Val.{Val};
    ghost use Rattle.template_machine_tables.specs.RecordCodes.{entries_code};

    ghost Value = { List (Val × Val) };

    ghost coded = { entries_code };

    ghost use Rattle.template_values_core.specs.Shape.{pairs_in};

    ghost view = { λ n. pairs_in n.entries.items };
}

impl Namespace {
    /// A namespace of the entries.
    pub(crate) fn new(entries: Vec<Entry>) -> Namespace
        ensures { result ≡ pairs_in entries.items }
    {
        Namespace { entries }
    }

    /// What it holds.
    pub(crate) fn entries(&self) -> &[Entry]
        ensures { pairs_in result.now ≡ self.now }
    {
        self.entries.as_slice()
    }

    /// From now on the name has the value: a key that is there stays, a new one goes to its place in the order of keys.
    /// Linear in the number of entries.
    ///
    /// # Errors
    ///
    /// [`ErrorKind::OutOfMemory`]; the namespace is then as it was.
    ///
    /// [`ErrorKind::OutOfMemory`]: template_values_errors::ErrorKind::OutOfMemory
    pub(crate) fn put(&mut self, alloc: Global, name: &str, value: Value) -> Result<(), Error>
        ensures put { OnOk result (self.new ≡ insert_entry val_cmp self.old (text name.now) value) }
        ensures refused { IfErr result NoMemory }
        ensures unchanged { OnErr result (self.new ≡ self.old) }
    {
        match place_among(self.entries.as_slice(), name) {
            Ok(place) => {
                set_value(&mut self.entries[place], value);
                Ok(())
            }
            Err(place) => {
                let key = Value::from_str(alloc, name)?;
                self.entries.insert(place, Entry { key, value })?;
                Ok(())
            }
        }
    }
}

// From now on the entry has the value.
fn set_value(entry: &mut Entry, value: Value)
    ensures key { entry.new.key ≡ entry.old.key }
    ensures value { entry.new.value ≡ value }
{
    entry.value = value;
}

// Where the key stands that is the name, or else where it would go.
fn place_among(entries: &[Entry], name: &str) -> Result<usize, usize>
    ensures is { result ≡ place_among (text name.now) (pairs_in entries.now) }
    ensures there { IfOk result (λ place. place < length entries.now) }
    ensures within { IfErr result (λ place. place ≤ length entries.now) }
{
    for (place, entry) in entries.iter().enumerate() {
        match compare_to_key(name, &entry.key) {
            Ordering::Less => return Err(place),
            Ordering::Equal => return Ok(place),
            Ordering::Greater => {}
        }
    }
    Err(entries.len())
}

// How a name stands to a key. No memory is needed for it.
fn compare_to_key(name: &str, key: &Value) -> Ordering
    ensures { result ≡ val_cmp (text name.now) key.now }
{
    match key.content() {
        Content::Text(text) => name.as_bytes().cmp(text.as_bytes()),
        Content::SafeText(text) => name.as_bytes().cmp(text.as_bytes()),
        Content::Undefined | Content::SilentUndefined | Content::None => Ordering::Greater,
        Content::Truth(_) | Content::Int(_) => Ordering::Greater,
        _ => Ordering::Less,
    }
}
