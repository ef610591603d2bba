//! Maps made from entries.
ghost use Rattle.std.specs.Prelude.{◌≡◌, ◌≤◌, ℕ, List, [], max, IfErr, IfOk, string_bytes};
ghost use Rattle.template_values_model.specs.Val.{Val, keyword_map, map};
ghost use Rattle.template_values_model.specs.Lookup.{value_at};
ghost use Rattle.template_values_core.specs.Answers.{TooDeep};
ghost use Rattle.template_values_core.specs.Depth.{depth, pairs_depth};
ghost use Rattle.template_values_core.specs.Kept.{IsRising};
ghost use Rattle.template_values_core.specs.Held.{HoldsPairs};
ghost use Rattle.template_values_core.specs.Maps.{collected, last_at, last_under, merged, named_pairs, pairs_of, put_all};
ghost use Rattle.template_values_core.specs.Order.{val_cmp};
ghost use Rattle.template_values_core.specs.Reads.{value_under};
ghost use Rattle.template_values_core.specs.Shape.{pairs_in};

use crate::value::{Entry, Repr, Value, larger};
use std::alloc::{AllocError, Global};
use std::rc::{Rc, RcStr};
use template_values_errors::{Error, ErrorKind};
use template_values_model::{DEPTH_LIMIT, is_too_deep, replace_value};

/// Entries that are shared, in the order of their keys, and the depth of a container of them.
struct SharedEntries {
    levels: u32,
    entries: Rc<Vec<Entry>>,
}

impl Value {
    /// A map of the entries, in the order of their keys. Of equal keys the first stays, with the
    /// last one's value. Takes n log n comparisons for n entries, and n where they are in order.
    ///
    /// # Errors
    ///
    /// - [`ErrorKind::InvalidOperation`], if the map would nest deeper than [`DEPTH_LIMIT`] levels.
    /// - [`ErrorKind::OutOfMemory`]
    #[tactic(auto, using(crate::proofs::LastGiven::from_pairs))]
    pub fn from_map(alloc: Global, entries: Vec<Entry>) -> Result<Value, Error>
        ensures made { IfOk result (λ v. v ≡ map (collected (pairs_in entries.items))) }
        ensures bound { IfOk result (λ v. depth v ≤ DEPTH_LIMIT) }
        ensures last { IfOk result (λ v. (name : List ℕ) → value_at name v ≡ last_at name (pairs_in entries.items)) }
        ensures each { IfOk result (λ v. (k : Val) → value_under k v ≡ last_under k (pairs_in entries.items)) }
        ensures refused { IfErr result (TooDeep (map (collected (pairs_in entries.items)))) }
    {
        let shared = shared_entries(alloc, entries)?;
        let SharedEntries { levels, entries } = shared;
        Ok(Value {
            levels,
            repr: Repr::Map(entries),
        })
    }

    /// A map of the entries, whose keys stand in their order already, each once. Linear in their number: it asks each for
    /// its depth.
    ///
    /// # Errors
    ///
    /// - [`ErrorKind::InvalidOperation`], if the map would nest deeper than [`DEPTH_LIMIT`] levels.
    /// - [`ErrorKind::OutOfMemory`]
    #[tactic(auto, using(crate::proofs::Sorting::as_given))]
    pub fn from_rising_entries(alloc: Global, entries: Vec<Entry>) -> Result<Value, Error>
        requires rising { IsRising entries.items }
        ensures made { IfOk result (λ v. v ≡ map (pairs_of (pairs_in entries.items))) }
        ensures collected { IfOk result (λ v. v ≡ map (collected (pairs_in entries.items))) }
        ensures bound { IfOk result (λ v. depth v ≤ DEPTH_LIMIT) }
        ensures refused { IfErr result (TooDeep (map (pairs_of (pairs_in entries.items)))) }
    {
        let shared = share(alloc, entries)?;
        let SharedEntries { levels, entries } = shared;
        Ok(Value {
            levels,
            repr: Repr::Map(entries),
        })
    }

    /// A map from names to values, as a context is; of equal names the last one's value stays.
    /// The names are copied. Takes n log n comparisons for n pairs, and n where they are in order.
    ///
    /// # Errors
    ///
    /// - [`ErrorKind::InvalidOperation`], if the map would nest deeper than [`DEPTH_LIMIT`] levels.
    /// - [`ErrorKind::OutOfMemory`]
    pub fn from_pairs(alloc: Global, pairs: Vec<(&str, Value)>) -> Result<Value, Error>
        ensures made { IfOk result (λ v. v ≡ map (collected (named_pairs pairs.entry.items))) }
        ensures bound { IfOk result (λ v. depth v ≤ DEPTH_LIMIT) }
        ensures last { IfOk result (λ v. (name : List ℕ) → value_at name v ≡ last_at name (named_pairs pairs.entry.items)) }
        ensures refused { IfErr result (TooDeep (map (collected (named_pairs pairs.entry.items)))) }
    {
        let mut entries = Vec::with_capacity(alloc, pairs.len())?;
        for (name, value) in pairs {
            let key = Value::from_str(alloc, name)?;
            entries.push(Entry { key, value })?;
        }
        Value::from_map(alloc, entries)
    }

    /// A keyword map of the entries, kept as [`Value::from_map`] does.
    ///
    /// # Errors
    ///
    /// - [`ErrorKind::InvalidOperation`], if it would nest deeper than [`DEPTH_LIMIT`] levels.
    /// - [`ErrorKind::OutOfMemory`]
    pub fn from_kwargs(alloc: Global, entries: Vec<Entry>) -> Result<Value, Error>
        ensures made { IfOk result (λ v. v ≡ keyword_map (collected (pairs_in entries.items))) }
        ensures bound { IfOk result (λ v. depth v ≤ DEPTH_LIMIT) }
        ensures refused { IfErr result (TooDeep (keyword_map (collected (pairs_in entries.items)))) }
    {
        let shared = shared_entries(alloc, entries)?;
        let SharedEntries { levels, entries } = shared;
        Ok(Value {
            levels,
            repr: Repr::KeywordMap(entries),
        })
    }

    /// A module of the entries, kept as [`Value::from_map`] does, and of the text that it prints.
    ///
    /// # Errors
    ///
    /// - [`ErrorKind::InvalidOperation`], if it would nest deeper than [`DEPTH_LIMIT`] levels.
    /// - [`ErrorKind::OutOfMemory`]
    pub fn from_module(alloc: Global, entries: Vec<Entry>, text: String) -> Result<Value, Error>
        ensures made { IfOk result (λ v. v ≡ Val.«module» (collected (pairs_in entries.items)) (string_bytes text)) }
        ensures bound { IfOk result (λ v. depth v ≤ DEPTH_LIMIT) }
        ensures refused { IfErr result (TooDeep (Val.«module» (collected (pairs_in entries.items)) (string_bytes text))) }
    {
        let shared = shared_entries(alloc, entries)?;
        let SharedEntries { levels, entries } = shared;
        Ok(Value {
            levels,
            repr: Repr::Module(entries, RcStr::from_string(text)?),
        })
    }
}

fn shared_entries(alloc: Global, entries: Vec<Entry>) -> Result<SharedEntries, Error>
    ensures made { IfOk result (λ s. HoldsPairs s (put_all [] (pairs_in entries.items))) }
    ensures refused { IfErr result (TooDeep (map (collected (pairs_in entries.items)))) }
{
    share(alloc, sorted(entries)?)
}

// Entries whose keys rise, as they stand.
fn share(alloc: Global, entries: Vec<Entry>) -> Result<SharedEntries, Error>
    requires rising { IsRising entries.items }
    ensures made { IfOk result (λ s. HoldsPairs s (pairs_in entries.items)) }
    ensures refused { IfErr result (TooDeep (map (pairs_of (pairs_in entries.items)))) }
{
    let levels = deepest_of(entries.as_slice()) + 1;
    if is_too_deep(levels) {
        return Err(Error::new(ErrorKind::InvalidOperation));
    }
    Ok(SharedEntries {
        levels,
        entries: Rc::new(alloc, entries)?,
    })
}

// In the order of keys. Of equal keys the first stays, with the last one's value.
fn sorted(mut entries: Vec<Entry>) -> Result<Vec<Entry>, AllocError>
    ensures made { IfOk result (λ v. pairs_in v.items ≡ put_all [] (pairs_in entries.items)) }
    ensures rising { IfOk result (λ v. IsRising v.items) }
{
    entries.sort_by(|left, right| left.key.cmp(&right.key))?;
    merge_equal_keys(&mut entries);
    Ok(entries)
}

// Of neighbours with equal keys the first stays, with the last one's value.
fn merge_equal_keys(entries: &mut Vec<Entry>)
    ensures { pairs_in entries.new.items ≡ merged (pairs_in entries.old.items) }
{
    entries.dedup_by(|later, kept| {
        let is_equal = later.key == kept.key;
        if is_equal {
            replace_value(&mut kept.value, &mut later.value);
        }
        is_equal
    });
}

fn deepest_of(entries: &[Entry]) -> u32
    ensures is { result ≡ pairs_depth (pairs_of (pairs_in entries.now)) }
    ensures bound { result ≤ DEPTH_LIMIT }
{
    let mut deepest = 0;
    for entry in entries {
        deepest = larger(deepest, larger(entry.key.levels(), entry.value.levels()));
    }
    deepest
}
