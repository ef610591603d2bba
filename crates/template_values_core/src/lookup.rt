//! What a value has under a key.
ghost use Rattle.std.specs.Prelude.{◌≡◌, option_copied};
ghost use Rattle.template_values_model.specs.Lookup.{entry_at, is_text, value_at};
ghost use Rattle.template_values_core.specs.Kept.{IsRising};
ghost use Rattle.template_values_core.specs.Maps.{pairs_of, entry_under};
ghost use Rattle.template_values_core.specs.Reads.{value_under};
ghost use Rattle.template_values_core.specs.Shape.{pairs_in};

use crate::names::is_same;
use crate::order::compare_to_text;
use crate::value::{Entry, Repr, Value};

impl Value {
    /// The value under the text `name` in a map, a keyword map or a module. Takes log n
    /// comparisons for n entries.
    #[inline(always)]
    pub fn value_at(&self, name: &str) -> Option<&Value>
        ensures { option_copied result ≡ value_at name.now self.now }
    {
        match &self.repr {
            Repr::Map(entries) => entry_at(entries.as_ref().as_slice(), name),
            _ => self.value_at_of_any(name),
        }
    }

    // The same. Most values that are asked so are maps, which need no call.
    #[inline(never)]
    fn value_at_of_any(&self, name: &str) -> Option<&Value>
        ensures { option_copied result ≡ value_at name.now self.now }
    {
        match &self.repr {
            Repr::Map(entries) => entry_at(entries.as_ref().as_slice(), name),
            Repr::KeywordMap(entries) => entry_at(entries.as_ref().as_slice(), name),
            Repr::Module(entries, _text) => entry_at(entries.as_ref().as_slice(), name),
            _ => None,
        }
    }

    /// The value under a key equal to `key` in a map, a keyword map or a module. Takes log n
    /// comparisons for n entries.
    pub fn value_under(&self, key: &Value) -> Option<&Value>
        ensures { option_copied result ≡ value_under key.now self.now }
    {
        match &self.repr {
            Repr::Map(entries) => entry_under(entries.as_ref().as_slice(), key),
            Repr::KeywordMap(entries) => entry_under(entries.as_ref().as_slice(), key),
            Repr::Module(entries, _text) => entry_under(entries.as_ref().as_slice(), key),
            _ => None,
        }
    }
}

// Among so many entries one pass finds a name sooner than halving does.
const FEW: usize = 8;

#[inline(never)]
fn entry_at<'a>(entries: &'a [Entry], name: &str) -> Option<&'a Value>
    requires { IsRising entries.now }
    ensures { option_copied result ≡ entry_at name.now (pairs_of (pairs_in entries.now)) }
{
    if entries.len() <= FEW {
        return first_at(entries, name);
    }
    entry_found(entries, name)
}

// The same, by one pass.
#[inline(always)]
fn first_at<'a>(entries: &'a [Entry], name: &str) -> Option<&'a Value>
    ensures { option_copied result ≡ entry_at name.now (pairs_of (pairs_in entries.now)) }
{
    for entry in entries {
        if is_text(&entry.key, name) {
            return Some(&entry.value);
        }
    }
    None
}

// Whether a key is this text, safe or not.
#[inline(always)]
fn is_text(key: &Value, name: &str) -> bool
    ensures { result ≡ is_text name.now key.now }
{
    match key.as_str() {
        Some(text) => is_same(text, name),
        None => false,
    }
}

// The same, by halving.
#[inline(never)]
fn entry_found<'a>(entries: &'a [Entry], name: &str) -> Option<&'a Value>
    requires { IsRising entries.now }
    ensures { option_copied result ≡ entry_at name.now (pairs_of (pairs_in entries.now)) }
{
    match entries.binary_search_by(|entry| compare_to_text(&entry.key, name)) {
        Ok(place) => Some(&entries[place].value),
        Err(_) => None,
    }
}

fn entry_under<'a>(entries: &'a [Entry], key: &Value) -> Option<&'a Value>
    requires { IsRising entries.now }
    ensures { option_copied result ≡ entry_under key.now (pairs_of (pairs_in entries.now)) }
{
    match entries.binary_search_by(|entry| entry.key.cmp(key)) {
        Ok(at) => Some(&entries[at].value),
        Err(_) => None,
    }
}
