//! The arguments of macros.
ghost use Rattle.std.specs.Prelude.{◌≡◌, ◌⊎◌, ◌≤◌, [], ◌∷◌, Err, None, Some, IfOk, IfErr, codes, length, nat_lt, not, option_copied, reverse, true, unwrap_or};
ghost use Rattle.std.specs.Option.{option_map_or};
ghost use Rattle.template_values_errors.specs.declared.ErrorKind.TheVariants.{TooManyArguments};
ghost use Rattle.template_values_errors.specs.Memory.{NoMemory};
ghost use Rattle.template_values_model.specs.Lookup.{is_text};
ghost use Rattle.template_values_model.specs.Val.{undefined};
ghost use Rattle.template_values_core.specs.Answers.{text_in};
ghost use Rattle.template_values_core.specs.Maps.{pairs_of};
ghost use Rattle.template_values_core.specs.Shape.{pairs_in};
ghost use Rattle.template_machine_meaning.specs.Macros.{arguments_given, bound, caller_locals, handed_over, is_one_of};
ghost use Rattle.template_machine_meaning.specs.World.{Macro};
ghost use Rattle.template_machine_calls.specs.Binding.{AreKeywords, Binds, Gives, first_is_keywords, is_keywords, is_known, keyword_in, keywords_in, locals_with, parted, takes_each};

use std::alloc::Global;
use template_values_core::{Content, Entry, Value};
use template_values_errors::{Error, ErrorKind};

/// What the body of a macro runs over.
#[derive(Drop)]
pub struct Bound {
    /// An argument for each of its names, in their order.
    pub arguments: Vec<Value>,
    /// What it has under `caller`, if it takes one.
    pub caller: Option<Value>,
}

/// Binds what a call hands over to the names of a macro: values in turn, and keywords, which are a keyword map behind them; what
/// is not given is undefined. Linear in the arguments and the keywords, times the number of names.
///
/// # Errors
///
/// [`ErrorKind::TooManyArguments`] where there are more values than names, where one is given twice, and at a keyword that is no
/// name; [`ErrorKind::OutOfMemory`].
pub fn bind(
    alloc: Global,
    names: &[Value],
    takes_caller: bool,
    args: Vec<Value>,
) -> Result<Bound, Error>
    ensures { (m : Macro) → m.arguments ≡ names.now → m.caller ≡ takes_caller → Binds (bound m (handed_over args.items)) result }
{
    let (places, keywords) = part(args);
    if !fit(places.as_slice(), names) {
        return too_many();
    }
    if !are_taken(names, takes_caller, &keywords) {
        return too_many();
    }
    let arguments = find_arguments(alloc, names, places.as_slice(), &keywords)?;
    let caller = find_caller(takes_caller, &keywords)?;
    Ok(Bound { arguments, caller })
}

// A call that hands over too much is refused.
//
// # Errors
//
// `TooManyArguments`.
fn too_many<T: Drop>() -> Result<T, Error>
    ensures { result ≡ Err (TooManyArguments ∷ []) }
{
    Err(Error::new(ErrorKind::TooManyArguments))
}

// Whether there is a name for each place.
fn fit(places: &[Value], names: &[Value]) -> bool
    ensures { result ≡ not (nat_lt (length names.now) (length places.now)) }
{
    places.len() <= names.len()
}

// An argument for each name, in their order.
//
// # Errors
//
// `TooManyArguments` where one is given twice, and `OutOfMemory`.
fn find_arguments(
    alloc: Global,
    names: &[Value],
    places: &[Value],
    keywords: &Option<Value>,
) -> Result<Vec<Value>, Error>
    requires within { length places.now ≤ length names.now }
    requires keywords { AreKeywords keywords.now }
    ensures given { IfOk result (λ found. arguments_given names.now places.now (keywords_in keywords.now) [] ≡ Some (reverse found.items)) }
    ensures refused { IfErr result (λ kinds. NoMemory kinds
        ⊎ ((arguments_given names.now places.now (keywords_in keywords.now) [] ≡ None) × (kinds ≡ TooManyArguments ∷ []))) }
{
    let mut found = Vec::new(alloc);
    for i in 0..names.len() {
        let argument = one_given(places.get(i), keyword_for(keywords, &names[i]))?;
        found.push(argument)?;
    }
    Ok(found)
}

// What the macro has under `caller`, if it takes one.
//
// # Errors
//
// `OutOfMemory`.
fn find_caller(takes_caller: bool, keywords: &Option<Value>) -> Result<Option<Value>, Error>
    requires { AreKeywords keywords.now }
    ensures found { IfOk result (λ found. locals_with found ≡ caller_locals takes_caller (keywords_in keywords.now)) }
    ensures refused { IfErr result NoMemory }
{
    if !takes_caller {
        return Ok(None);
    }
    let caller = given_or_undefined(keyword(keywords, "caller"))?;
    Ok(Some(caller))
}

// What a call hands over: the values in turn, and the keyword map behind them, if there is one.
fn part(args: Vec<Value>) -> (Vec<Value>, Option<Value>)
    ensures parts { parted args.items ≡ (result.0.items, result.1) }
    ensures keywords { AreKeywords result.1 }
{
    let mut places = args;
    if !ends_in_keywords(places.as_slice()) {
        return (places, None);
    }
    match places.pop() {
        Some(keywords) => (places, Some(keywords)),
        None => (places, None),
    }
}

// Whether the last of values is a keyword map.
fn ends_in_keywords(values: &[Value]) -> bool
    ensures { result ≡ first_is_keywords (reverse values.now) }
{
    match values.last() {
        Some(last) => is_keywords(last),
        None => false,
    }
}

// Whether a value is a keyword map.
fn is_keywords(value: &Value) -> bool
    ensures { result ≡ is_keywords value.now }
{
    matches!(value.content(), Content::KeywordMap(_))
}

// What stands under a name among keywords.
fn keyword<'a>(keywords: &'a Option<Value>, name: &str) -> Option<&'a Value>
    ensures { option_copied result ≡ keyword_in name.now keywords.now }
{
    match keywords {
        Some(map) => map.value_at(name),
        None => None,
    }
}

// What stands under the name that a value is, if it is a text.
fn keyword_for<'a>(keywords: &'a Option<Value>, name: &Value) -> Option<&'a Value>
    ensures { option_copied result ≡ option_map_or (λ text. keyword_in text keywords.now) (text_in name.now) None }
{
    match name.as_str() {
        Some(text) => keyword(keywords, text),
        None => None,
    }
}

// An argument that is given in its place, or by its name, but not twice; undefined where it is not given.
//
// # Errors
//
// `TooManyArguments` where it is given twice, and `OutOfMemory`.
fn one_given(place: Option<&Value>, keyword: Option<&Value>) -> Result<Value, Error>
    ensures { Gives (option_copied place.entry) (option_copied keyword.entry) result }
{
    match (place, keyword) {
        (Some(_), Some(_)) => Err(Error::new(ErrorKind::TooManyArguments)),
        (Some(value), None) => value.copy(),
        (None, given) => given_or_undefined(given),
    }
}

// A copy of a value, or undefined.
//
// # Errors
//
// `OutOfMemory`.
fn given_or_undefined(given: Option<&Value>) -> Result<Value, Error>
    ensures given { IfOk result (λ v. v ≡ unwrap_or (option_copied given.entry) undefined) }
    ensures refused { IfErr result NoMemory }
{
    match given {
        Some(value) => value.copy(),
        None => Ok(Value::undefined()),
    }
}

// Whether each keyword that is a text is one of the names, or `caller` where that is taken.
fn are_taken(names: &[Value], takes_caller: bool, keywords: &Option<Value>) -> bool
    ensures { result ≡ takes_each names.now takes_caller (keywords_in keywords.now) }
{
    match keywords {
        Some(map) => is_map_taken(names, takes_caller, map),
        None => true,
    }
}

// The same of the keywords of a keyword map; a value that is none has none.
fn is_map_taken(names: &[Value], takes_caller: bool, map: &Value) -> bool
    ensures { result ≡ takes_each names.now takes_caller (keywords_in (Some map.now)) }
{
    match map.content() {
        Content::KeywordMap(entries) => are_all_taken(names, takes_caller, entries),
        _ => true,
    }
}

fn are_all_taken(names: &[Value], takes_caller: bool, entries: &[Entry]) -> bool
    ensures { result ≡ takes_each names.now takes_caller (pairs_of (pairs_in entries.now)) }
{
    for entry in entries {
        if !is_taken(names, takes_caller, &entry.key) {
            return false;
        }
    }
    true
}

// Whether a keyword is taken.
fn is_taken(names: &[Value], takes_caller: bool, key: &Value) -> bool
    ensures { result ≡ option_map_or (is_known names.now takes_caller) (text_in key.now) true }
{
    match key.as_str() {
        Some(text) => is_among(text, names) || takes_caller && text == "caller",
        None => true,
    }
}

// Whether a text is one of the names.
fn is_among(text: &str, names: &[Value]) -> bool
    ensures { result ≡ is_one_of text.now names.now }
{
    for name in names {
        if is_text(name, text) {
            return true;
        }
    }
    false
}

fn is_text(value: &Value, text: &str) -> bool
    ensures { result ≡ is_text text.now value.now }
{
    match value.as_str() {
        Some(held) => held == text,
        None => false,
    }
}
