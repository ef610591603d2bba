//! What the entries of a row say.
ghost use Rattle.std.specs.Prelude.{◌≡◌, ◌∷◌, ◌++◌, [], Err, IfOk, IfErr, OnOk, map, option_map, string_bytes};
ghost use Rattle.std.specs.Str.Lossy.{utf8_lossy};
ghost use Rattle.serde_json.specs.Data.{string};
ghost use Rattle.serde_json.specs.Find.{as_str};
ghost use Rattle.serde_json.specs.View.{view, items_view, members_view};
ghost use Rattle.serde_json.specs.Written.{compact_text};
ghost use Rattle.template_rows.specs.Entries.{Gives, Reads, Refuses, RefusesOrWants, all_in, are_among, byte_in, bytes_in, entry, failure_in, is_among, mode_in, number_in, pair_in, pairs_in, part_in, parts_in, said, texts_in, texts_of_pair};

use serde_json::{Map, Value as Json};
use std::alloc::{AllocError, Global};
use std::io;
use template_values_errors::{Error, ErrorKind, UndefinedBehavior};

/// The refusal of an entry that is unknown or of another kind.
pub fn unreadable<T: Drop>() -> Result<T, Error>
    ensures { result ≡ Err (ErrorKind.SyntaxError ∷ []) }
{
    Err(Error::new(ErrorKind::SyntaxError))
}

/// Refuses entries of other names than these.
pub fn expect_names(entries: &Map<String, Json>, known: &[&str]) -> Result<(), Error>
    ensures { Gives (are_among (map (λ name. name.now) known.now) (members_view entries.now.entries)) result }
{
    for (name, _) in entries {
        if !is_among(name.as_str(), known) {
            return unreadable();
        }
    }
    Ok(())
}

fn is_among(name: &str, known: &[&str]) -> bool
    ensures { result ≡ is_among (map (λ name. name.now) known.now) name.now }
{
    for word in known {
        if *word == name {
            return true;
        }
    }
    false
}

/// The text of an entry, if it stands.
pub fn text_of(text: Option<&Json>) -> Result<Option<&str>, Error>
    ensures is { IfOk result (λ t. said as_str (entry text.entry) ≡ Some (option_map (λ t. t.now) t)) }
    ensures refused { IfErr result (Refuses (said as_str (entry text.entry))) }
{
    match text {
        None => Ok(None),
        Some(Json::String(text)) => Ok(Some(text.as_str())),
        Some(_) => unreadable(),
    }
}

/// The number of an entry, if it stands.
pub fn number_of(number: Option<&Json>) -> Result<Option<u64>, Error>
    ensures { Reads (said number_in (entry number.entry)) result }
{
    match number {
        None => Ok(None),
        Some(number) => match number.as_u64() {
            None => unreadable(),
            given => Ok(given),
        },
    }
}

/// The count of an entry, if it stands.
pub fn count_of(count: Option<&Json>) -> Result<Option<usize>, Error>
    ensures { Reads (said number_in (entry count.entry)) result }
{
    match number_of(count)? {
        None => Ok(None),
        Some(count) => match usize::try_from(count) {
            Ok(count) => Ok(Some(count)),
            Err(_) => unreadable(),
        },
    }
}

/// The behavior of undefined values of that name; lenient, if none is named.
pub fn behavior_of(behavior: Option<&Json>) -> Result<UndefinedBehavior, Error>
    ensures { Reads (mode_in (entry behavior.entry)) result }
{
    match text_of(behavior)? {
        None | Some("lenient") => Ok(UndefinedBehavior::Lenient),
        Some("chainable") => Ok(UndefinedBehavior::Chainable),
        Some("semi_strict") => Ok(UndefinedBehavior::SemiStrict),
        Some("strict") => Ok(UndefinedBehavior::Strict),
        Some(_) => unreadable(),
    }
}

/// How a stream fails, if it does.
pub fn kind_of(kind: Option<&Json>) -> Result<Option<io::ErrorKind>, Error>
    ensures { Reads (said failure_in (entry kind.entry)) result }
{
    match text_of(kind)? {
        None => Ok(None),
        Some("Other") => Ok(Some(io::ErrorKind::Other)),
        Some("Interrupted") => Ok(Some(io::ErrorKind::Interrupted)),
        Some("OutOfMemory") => Ok(Some(io::ErrorKind::OutOfMemory)),
        Some(_) => unreadable(),
    }
}

/// The texts that an array lists.
pub fn texts_of(alloc: Global, texts: &Json) -> Result<Vec<&str>, Error>
    ensures are { IfOk result (λ ts. texts_in (view texts.now) ≡ Some (map (λ t. t.now) ts.items)) }
    ensures refused { IfErr result (RefusesOrWants (texts_in (view texts.now))) }
{
    match texts {
        Json::Array(texts) => listed_texts(alloc, texts.as_slice()),
        _ => unreadable(),
    }
}

fn listed_texts(alloc: Global, texts: &[Json]) -> Result<Vec<&str>, Error>
    ensures are { IfOk result (λ ts. all_in as_str (items_view texts.now) ≡ Some (map (λ t. t.now) ts.items)) }
    ensures refused { IfErr result (RefusesOrWants (all_in as_str (items_view texts.now))) }
{
    let mut listed = Vec::with_capacity(alloc, texts.len())?;
    for text in texts {
        match text {
            Json::String(text) => listed.push(text.as_str())?,
            _ => return unreadable(),
        }
    }
    Ok(listed)
}

/// The pairs of texts that an array lists, if it stands.
pub fn pairs_of(alloc: Global, pairs: Option<&Json>) -> Result<Vec<(String, String)>, Error>
    ensures are { IfOk result (λ ps. pairs_in (entry pairs.entry) ≡ Some (map texts_of_pair ps.items)) }
    ensures refused { IfErr result (RefusesOrWants (pairs_in (entry pairs.entry))) }
{
    match pairs {
        None => Ok(Vec::new(alloc)),
        Some(Json::Array(pairs)) => listed_pairs(alloc, pairs.as_slice()),
        Some(_) => unreadable(),
    }
}

fn listed_pairs(alloc: Global, pairs: &[Json]) -> Result<Vec<(String, String)>, Error>
    ensures are { IfOk result (λ ps. all_in pair_in (items_view pairs.now) ≡ Some (map texts_of_pair ps.items)) }
    ensures refused { IfErr result (RefusesOrWants (all_in pair_in (items_view pairs.now))) }
{
    let mut listed = Vec::with_capacity(alloc, pairs.len())?;
    for pair in pairs {
        listed.push(pair_of(alloc, pair)?)?;
    }
    Ok(listed)
}

fn pair_of(alloc: Global, pair: &Json) -> Result<(String, String), Error>
    ensures is { IfOk result (λ p. pair_in (view pair.now) ≡ Some (texts_of_pair p)) }
    ensures refused { IfErr result (RefusesOrWants (pair_in (view pair.now))) }
{
    let texts = texts_of(alloc, pair)?;
    match texts.as_slice() {
        [first, second] => {
            let first = String::from_str(alloc, first)?;
            Ok((first, String::from_str(alloc, second)?))
        }
        _ => unreadable(),
    }
}

/// The bytes of a text, the byte of a number, or those of an array of both.
pub fn bytes_of(alloc: Global, bytes: &Json) -> Result<Vec<u8>, Error>
    ensures are { IfOk result (λ bs. bytes_in (view bytes.now) ≡ Some bs.items) }
    ensures refused { IfErr result (RefusesOrWants (bytes_in (view bytes.now))) }
{
    match bytes {
        Json::Array(parts) => listed_bytes(alloc, parts.as_slice()),
        part => bytes_of_part(alloc, part),
    }
}

fn listed_bytes(alloc: Global, parts: &[Json]) -> Result<Vec<u8>, Error>
    ensures are { IfOk result (λ bs. parts_in (items_view parts.now) ≡ Some bs.items) }
    ensures refused { IfErr result (RefusesOrWants (parts_in (items_view parts.now))) }
{
    let mut all = Vec::new(alloc);
    for part in parts {
        push_bytes(&mut all, part)?;
    }
    Ok(all)
}

fn bytes_of_part(alloc: Global, part: &Json) -> Result<Vec<u8>, Error>
    ensures are { IfOk result (λ bs. part_in (view part.now) ≡ Some bs.items) }
    ensures refused { IfErr result (RefusesOrWants (part_in (view part.now))) }
{
    let mut bytes = Vec::new(alloc);
    push_bytes(&mut bytes, part)?;
    Ok(bytes)
}

fn push_bytes(bytes: &mut Vec<u8>, part: &Json) -> Result<(), Error>
    ensures more { OnOk result (option_map (λ more. bytes.old.items ++ more) (part_in (view part.now)) ≡ Some bytes.new.items) }
    ensures refused { IfErr result (RefusesOrWants (part_in (view part.now))) }
{
    match part {
        Json::String(text) => Ok(bytes.extend_from_slice(text.as_bytes())?),
        number => Ok(bytes.push(byte_of(number)?)?),
    }
}

fn byte_of(number: &Json) -> Result<u8, Error>
    ensures { Reads (byte_in (view number.now)) result }
{
    let Some(number) = number.as_u64() else {
        return unreadable();
    };
    match u8::try_from(number) {
        Ok(byte) => Ok(byte),
        Err(_) => unreadable(),
    }
}

/// Bytes as a text of JSON.
pub fn quoted(alloc: Global, bytes: &[u8]) -> Result<String, AllocError>
    ensures { IfOk result (λ text. string_bytes text ≡ compact_text (string (utf8_lossy bytes.now))) }
{
    Json::String(String::from_utf8_lossy(alloc, bytes)?).to_string(alloc)
}
