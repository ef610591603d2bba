//! The entries of TOML documents.
ghost use Rattle.std.specs.Prelude.{◌≡◌, ◌<◌, ◌⊎◌, [], ◌∷◌, None, Some, IfErr, IfOk};
ghost use Rattle.toml.specs.Errors.{IsMemory};
ghost use Rattle.toml.specs.View.{view, items_view, members_view, table_view};
ghost use Rattle.template_values_errors.specs.Memory.{NoMemory};
ghost use Rattle.template_values_model.specs.Val.{vals_of};
ghost use Rattle.template_values_model.specs.declared.TheConstants.{DEPTH_LIMIT};
ghost use Rattle.template_values_core.specs.Depth.{depth, vals_depth};
ghost use Rattle.template_values_core.specs.Shape.{pairs_in};
ghost use Rattle.template_values_json.specs.Entries.{ArePlain};
ghost use Rattle.template_values_json.specs.Json.{IsRefusal};
ghost use Rattle.template_program_contexts.specs.Entries.{Say};
ghost use Rattle.template_program_contexts.specs.Toml.{fault_of_part, fault_of_toml, items_fault, members_fault, toml_fault};
ghost use Rattle.template_program_contexts.specs.Toml.{toml_in, toml_member, toml_pairs, toml_value, toml_values};

use std::alloc::Global;
use template_values_core::{Entry, Value};
use template_values_errors::{Error, ErrorKind};
use template_values_model::DEPTH_LIMIT;
use toml::{Table, Value as Toml};

/// One entry for each name of the TOML that the bytes are. Takes time in proportion to the bytes, and n log n comparisons for n names.
pub(crate) fn toml_entries(alloc: Global, bytes: &[u8]) -> Result<Vec<Entry>, Error>
    ensures faultless { IfOk result (λ _. fault_of_toml bytes.now ≡ None) }
    ensures says { IfOk result (λ es. Say (toml_member bytes.now) es.items) }
    ensures plain { IfOk result (λ es. ArePlain es.items) }
    ensures refused { IfErr result (IsRefusal (fault_of_toml bytes.now)) }
{
    entries_from(alloc, read_table(alloc, bytes)?)
}

fn read_table(alloc: Global, bytes: &[u8]) -> Result<Table, Error>
    ensures is { IfOk result (λ t. toml_in bytes.now ≡ Some (table_view t)) }
    ensures refused { IfErr result (λ e. NoMemory e
        ⊎ ((toml_in bytes.now ≡ None) × (e ≡ ErrorKind.SyntaxError ∷ []))) }
{
    match toml::table_from_slice(alloc, bytes) {
        Ok(table) => Ok(table),
        Err(error) => Err(refusal_of(error)),
    }
}

// The refusal that a fault of the reader is.
fn refusal_of(error: toml::de::Error) -> Error
    ensures { (IsMemory error × NoMemory result)
        ⊎ ((¬ IsMemory error) × (result ≡ ErrorKind.SyntaxError ∷ [])) }
{
    if error.is_memory() {
        Error::new(ErrorKind::OutOfMemory)
    } else {
        Error::new(ErrorKind::SyntaxError)
    }
}

// The value that the TOML stands for, moving its texts.
#[cycle(values)]
fn value_from(alloc: Global, toml: Toml) -> Result<Value, Error>
    ensures faultless { IfOk result (λ _. toml_fault (view toml) ≡ None) }
    ensures is { IfOk result (λ v. v ≡ toml_value (view toml)) }
    ensures refused { IfErr result (IsRefusal (toml_fault (view toml))) }
{
    match toml {
        Toml::String(text) => Value::from_text(text),
        Toml::Integer(number) => Ok(Value::from_int(number as i128)),
        Toml::Float(_) => Err(Error::new(ErrorKind::NoFloats)),
        Toml::Boolean(value) => Ok(Value::from_bool(value)),
        Toml::Datetime(_) => Err(Error::new(ErrorKind::BadSerialization)),
        Toml::Array(items) => Value::from_list(alloc, values_from(alloc, items)?),
        Toml::Table(members) => Value::from_map(alloc, entries_from(alloc, members)?),
    }
}

// The values of the items.
#[cycle(values)]
#[inline(never)]
fn values_from(alloc: Global, items: Vec<Toml>) -> Result<Vec<Value>, Error>
    ensures faultless { IfOk result (λ _. items_fault (items_view items.items) ≡ None) }
    ensures are { IfOk result (λ vs. vals_of vs.items ≡ toml_values (items_view items.items)) }
    ensures shallow { IfOk result (λ vs. vals_depth (vals_of vs.items) < DEPTH_LIMIT) }
    ensures refused { IfErr result (IsRefusal (items_fault (items_view items.items))) }
{
    let mut values = Vec::with_capacity(alloc, items.len())?;
    for item in items {
        values.push(part_from(alloc, item)?)?;
    }
    Ok(values)
}

// One entry for each member, in the order of their names.
#[cycle(values)]
#[inline(never)]
fn entries_from(alloc: Global, members: Table) -> Result<Vec<Entry>, Error>
    ensures faultless { IfOk result (λ _. members_fault (members_view members.entries) ≡ None) }
    ensures are { IfOk result (λ es. pairs_in es.items ≡ toml_pairs (members_view members.entries)) }
    ensures plain { IfOk result (λ es. ArePlain es.items) }
    ensures refused { IfErr result (IsRefusal (members_fault (members_view members.entries))) }
{
    let mut entries = Vec::with_capacity(alloc, members.len())?;
    for (name, member) in members {
        let value = part_from(alloc, member)?;
        let key = Value::from_text(name)?;
        entries.push(Entry { key, value })?;
    }
    Ok(entries)
}

// The value of what stands in an array or a table, which leaves a level for it.
#[cycle(values)]
fn part_from(alloc: Global, toml: Toml) -> Result<Value, Error>
    ensures faultless { IfOk result (λ _. fault_of_part (view toml) ≡ None) }
    ensures is { IfOk result (λ v. v ≡ toml_value (view toml)) }
    ensures shallow { IfOk result (λ v. depth v < DEPTH_LIMIT) }
    ensures refused { IfErr result (IsRefusal (fault_of_part (view toml))) }
{
    let value = value_from(alloc, toml)?;
    if value.levels() < DEPTH_LIMIT {
        Ok(value)
    } else {
        Err(Error::new(ErrorKind::InvalidOperation))
    }
}
