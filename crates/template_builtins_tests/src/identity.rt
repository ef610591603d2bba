//! When two values are identical.
ghost use Rattle.std.specs.Prelude.{◌≡◌, ◌&&◌};
ghost use Rattle.template_values_core.specs.Maps.{pairs_of};
ghost use Rattle.template_values_core.specs.Shape.{pairs_in};
ghost use Rattle.template_values_model.specs.Val as values;
ghost use Rattle.template_builtins_tests.specs.Identity.{identical, identical_items, identical_pairs};

use crate::leaves::{
    is_bytes, is_function, is_int, is_loop, is_macro, is_namespace, is_none, is_safe_text,
    is_silent, is_text, is_truth, is_undefined,
};
use template_values_core::{Content, Entry, Value};

// Whether two values are identical: a safe text is not a plain one, nor a truth value a number. Linear in the smaller one.
#[cycle(identical)]
pub(crate) fn is_identical(value: &Value, other: &Value) -> bool
    ensures { result ≡ identical value.now other.now }
{
    match value.content() {
        Content::Undefined => is_undefined(other),
        Content::SilentUndefined => is_silent(other),
        Content::None => is_none(other),
        Content::Truth(holds) => is_truth(holds, other),
        Content::Int(number) => is_int(number, other),
        Content::Text(text) => is_text(text, other),
        Content::SafeText(text) => is_safe_text(text, other),
        Content::Bytes(bytes) => is_bytes(bytes, other),
        Content::List(items) => is_list(items, other),
        Content::Tuple(items) => is_tuple(items, other),
        Content::Map(entries) => is_map(entries, other),
        Content::KeywordMap(entries) => is_keyword_map(entries, other),
        Content::Module(entries, text) => is_module(entries, text, other),
        Content::Function(id, number) => is_function(id, number, other),
        Content::Namespace(id, number) => is_namespace(id, number, other),
        Content::Loop(id, number) => is_loop(id, number, other),
        Content::Macro(id, number) => is_macro(id, number, other),
    }
}

#[cycle(identical)]
fn is_list(items: &[Value], value: &Value) -> bool
    ensures { result ≡ identical (values.list (values.vals_of items.now)) value.now }
{
    match value.content() {
        Content::List(others) => are_items_identical(items, others),
        _ => false,
    }
}

#[cycle(identical)]
fn is_tuple(items: &[Value], value: &Value) -> bool
    ensures { result ≡ identical (values.tuple (values.vals_of items.now)) value.now }
{
    match value.content() {
        Content::Tuple(others) => are_items_identical(items, others),
        _ => false,
    }
}

#[cycle(identical)]
fn is_map(entries: &[Entry], value: &Value) -> bool
    ensures { result ≡ identical (values.map (pairs_of (pairs_in entries.now))) value.now }
{
    match value.content() {
        Content::Map(others) => are_entries_identical(entries, others),
        _ => false,
    }
}

#[cycle(identical)]
fn is_keyword_map(entries: &[Entry], value: &Value) -> bool
    ensures { result ≡ identical (values.keyword_map (pairs_of (pairs_in entries.now))) value.now }
{
    match value.content() {
        Content::KeywordMap(others) => are_entries_identical(entries, others),
        _ => false,
    }
}

#[cycle(identical)]
fn is_module(entries: &[Entry], text: &str, value: &Value) -> bool
    ensures { result ≡ identical (values.«module» (pairs_of (pairs_in entries.now)) text.now) value.now }
{
    match value.content() {
        Content::Module(others, other) => are_entries_identical(entries, others) && text == other,
        _ => false,
    }
}

#[cycle(identical)]
fn are_items_identical(items: &[Value], others: &[Value]) -> bool
    ensures { result ≡ identical_items (values.vals_of items.now) (values.vals_of others.now) }
{
    if items.len() != others.len() {
        return false;
    }
    for (i, item) in items.iter().enumerate() {
        if !is_identical(item, &others[i]) {
            return false;
        }
    }
    true
}

#[cycle(identical)]
fn are_entries_identical(entries: &[Entry], others: &[Entry]) -> bool
    ensures { result ≡ identical_pairs (pairs_of (pairs_in entries.now)) (pairs_of (pairs_in others.now)) }
{
    if entries.len() != others.len() {
        return false;
    }
    for (i, entry) in entries.iter().enumerate() {
        if !is_entry(entry, &others[i]) {
            return false;
        }
    }
    true
}

#[cycle(identical)]
fn is_entry(entry: &Entry, other: &Entry) -> bool
    ensures { result ≡ (identical entry.now.key other.now.key && identical entry.now.value other.now.value) }
{
    is_identical(&entry.key, &other.key) && is_identical(&entry.value, &other.value)
}
