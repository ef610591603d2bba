//! Keyword arguments, and how they are read.
ghost use Rattle.std.specs.Prelude.{◌≡◌, ℕ, List, ◌||◌, Ok, IfErr, IfOk, OnOk, bytes_eq};
ghost use Rattle.std.specs.BTreeSet.{contains_text};
ghost use Rattle.template_values_errors.specs.Memory.{NoMemory};
ghost use Rattle.template_values_model.specs.Gives.{Gives, TellsFault};
ghost use Rattle.template_values_model.specs.Lookup.{is_text};
ghost use Rattle.template_values_core.specs.Maps.{pairs_of};
ghost use Rattle.template_values_core.specs.Shape.{pairs_in};
ghost use Rattle.template_values_named.specs.Keywords.{HasJustNames, argument, keywords};

use std::alloc::Global;
use std::collections::BTreeSet;
use std::marker::Model;
use template_values_core::{Content, Entry, Value};
use template_values_errors::{Error, ErrorKind};

/// The keyword arguments of a call. A contract sees their pairs.
#[derive(Drop)]
pub struct Kwargs {
    map: Value,
}

impl Model for Kwargs {
    ghost use Rattle.template_values_model.specs.Val.{Pairs};
    ghost use Rattle.template_values_named.specs.Code.{pairs_code};
    ghost use Rattle.template_values_named.specs.Keywords.{IsKeywordMap, keyword_pairs};

    ghost Value = { Pairs };

    ghost coded = { pairs_code };

    ghost view = { λ k. keyword_pairs k.map };

    ghost invariant = { λ k. IsKeywordMap k.map };
}

impl Kwargs {
    /// The keyword arguments that the value is, whose contents are shared; none where it is no
    /// keyword map.
    ///
    /// # Errors
    ///
    /// [`ErrorKind::OutOfMemory`]
    pub fn extract(value: &Value) -> Result<Option<Kwargs>, Error>
        ensures { Gives result (Ok (keywords value.now)) }
    {
        match value.content() {
            Content::KeywordMap(_entries) => Ok(Some(Kwargs { map: value.copy()? })),
            _ => Ok(None),
        }
    }

    /// The value of the argument of this name, whose contents are shared. Takes log n comparisons
    /// for n arguments.
    ///
    /// # Errors
    ///
    /// - [`ErrorKind::MissingArgument`], if no key is this text.
    /// - [`ErrorKind::OutOfMemory`]
    pub fn get(&self, name: &str) -> Result<Value, Error>
        ensures gives { Gives result (argument name.now self.now) }
        ensures missing { TellsFault result (argument name.now self.now) }
    {
        match self.map.value_at(name) {
            Some(value) => value.copy(),
            None => Err(Error::new(ErrorKind::MissingArgument)),
        }
    }

    /// The names of the arguments; keys that are no texts are passed over. Takes n log n
    /// comparisons for n arguments.
    ///
    /// # Errors
    ///
    /// [`ErrorKind::OutOfMemory`]
    pub fn names(&self, alloc: Global) -> Result<BTreeSet<String>, Error>
        ensures names { IfOk result (HasJustNames self.now) }
        ensures refused { IfErr result NoMemory }
    {
        match self.map.entries() {
            Some(entries) => names_of(alloc, entries),
            None => Ok(BTreeSet::new(alloc)),
        }
    }
}

/// The keys of the entries that are texts.
fn names_of(alloc: Global, entries: &[Entry]) -> Result<BTreeSet<String>, Error>
    ensures names { IfOk result (HasJustNames (pairs_of (pairs_in entries.now))) }
    ensures refused { IfErr result NoMemory }
{
    let mut names = BTreeSet::new(alloc);
    for entry in entries {
        add_key(alloc, &mut names, &entry.key)?;
    }
    Ok(names)
}

/// Adds the key to the names, if it is a text.
fn add_key(alloc: Global, names: &mut BTreeSet<String>, key: &Value) -> Result<(), Error>
    ensures added { OnOk result ((q : List ℕ) → contains_text names.new q ≡ (contains_text names.old q || is_text q key.now)) }
    ensures refused { IfErr result NoMemory }
{
    match key.as_str() {
        Some(name) => add_name(alloc, names, name),
        None => Ok(()),
    }
}

fn add_name(alloc: Global, names: &mut BTreeSet<String>, name: &str) -> Result<(), Error>
    ensures added { OnOk result ((q : List ℕ) → contains_text names.new q ≡ (contains_text names.old q || bytes_eq name.now q)) }
    ensures refused { IfErr result NoMemory }
{
    names.insert(String::from_str(alloc, name)?)?;
    Ok(())
}
