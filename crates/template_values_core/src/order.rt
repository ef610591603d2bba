//! The one total order of values.
ghost use Rattle.std.specs.Prelude.{◌≡◌, ◌+◌, [], pos};
ghost use Rattle.std.specs.Cmp.{eq_by_cmp_equiv, partial_equiv_from_equiv, partial_order_from_total};
ghost use Rattle.std.specs.Ordering.{as_partial_cmp, eq_by_cmp};
ghost use Rattle.std.proofs.Common.{refl};
ghost use Rattle.template_values_model.specs.Val.{Val, list, map, vals_of};
ghost use Rattle.template_values_core.specs.Depth.{depth, pairs_depth, vals_depth};
ghost use Rattle.template_values_core.specs.Maps.{pairs_of};
ghost use Rattle.template_values_core.specs.Order.{end, key, key_cmp, pairs_key, ranked, val_cmp, val_total, vals_key};
ghost use Rattle.template_values_core.specs.Parts.{IsKeyOf, key_of};
ghost use Rattle.template_values_core.specs.Shape.{pairs_in};

use crate::value::{Entry, Repr, Value};
use std::cmp::Ordering;
use std::rc::Rc;

/// The kinds of values in their order. Truth values are numbers.
#[derive(Clone, Copy)]
enum Rank {
    Undefined,
    None,
    Number,
    Text,
    Bytes,
    Sequence,
    Map,
    Function,
    Namespace,
    Loop,
    Macro,
}

/// What a value is compared by. What its kind does not have is 0 or empty.
#[derive(Clone, Copy)]
struct Parts<'a> {
    rank: u8,
    number: i128,
    second: usize,
    text: &'a [u8],
    items: &'a [Value],
    entries: &'a [Entry],
}

fn number(rank: u8, number: i128, second: usize) -> Parts<'static>
    ensures { IsKeyOf result (ranked (pos rank) number (pos second) [] end end) 0 }
{
    Parts {
        rank,
        number,
        second,
        text: &[],
        items: &[],
        entries: &[],
    }
}

fn text<'a>(rank: u8, text: &'a [u8]) -> Parts<'a>
    ensures { IsKeyOf result (ranked (pos rank) (pos 0) (pos 0) text.now end end) 0 }
{
    Parts {
        rank,
        number: 0,
        second: 0,
        text,
        items: &[],
        entries: &[],
    }
}

fn items<'a>(items: &'a Rc<Vec<Value>>) -> Parts<'a>
    ensures { IsKeyOf result (key (list (vals_of items.now.value.items))) (vals_depth (vals_of items.now.value.items) + 1) }
{
    Parts {
        rank: Rank::Sequence as u8,
        number: 0,
        second: 0,
        text: &[],
        items: items.as_ref().as_slice(),
        entries: &[],
    }
}

fn entries<'a>(entries: &'a Rc<Vec<Entry>>) -> Parts<'a>
    ensures { let pairs = pairs_of (pairs_in entries.now.value.items) in
        IsKeyOf result (key (map pairs)) (pairs_depth pairs + 1) }
{
    Parts {
        rank: Rank::Map as u8,
        number: 0,
        second: 0,
        text: &[],
        items: &[],
        entries: entries.as_ref().as_slice(),
    }
}

fn parts_of(value: &Value) -> Parts<'_>
    ensures { IsKeyOf result (key value.now) (depth value.now) }
{
    match &value.repr {
        Repr::Undefined | Repr::SilentUndefined => number(Rank::Undefined as u8, 0, 0),
        Repr::None => number(Rank::None as u8, 0, 0),
        Repr::Truth(false) => number(Rank::Number as u8, 0, 0),
        Repr::Truth(true) => number(Rank::Number as u8, 1, 0),
        Repr::Int(value) => number(Rank::Number as u8, *value, 0),
        Repr::Text(value) => text(Rank::Text as u8, value.as_ref().as_bytes()),
        Repr::SafeText(value) => text(Rank::Text as u8, value.as_ref().as_bytes()),
        Repr::Bytes(value) => text(Rank::Bytes as u8, value.as_ref().as_slice()),
        Repr::List(value) => items(value),
        Repr::Tuple(value) => items(value),
        Repr::Map(value) => entries(value),
        Repr::KeywordMap(value) => entries(value),
        Repr::Module(value, _text) => entries(value),
        Repr::Function(id, place) => number(Rank::Function as u8, *id as i128, *place),
        Repr::Namespace(id, place) => number(Rank::Namespace as u8, *id as i128, *place),
        Repr::Loop(id, place) => number(Rank::Loop as u8, *id as i128, *place),
        Repr::Macro(id, place) => number(Rank::Macro as u8, *id as i128, *place),
    }
}

#[cycle(compare)]
#[tactic(auto, using(crate::proofs::OrderLemmas::texts_by_bytes))]
fn compare(a: &Value, b: &Value) -> Ordering
    ensures { result ≡ val_cmp a.now b.now }
{
    match (&a.repr, &b.repr) {
        (Repr::Int(a), Repr::Int(b)) => a.cmp(b),
        (Repr::Text(a), Repr::Text(b)) => a.as_ref().as_bytes().cmp(b.as_ref().as_bytes()),
        _ => compare_parts(parts_of(a), parts_of(b)),
    }
}

/// How a value stands to a text.
#[tactic(auto, using(crate::proofs::OrderLemmas::texts_by_bytes))]
pub(crate) fn compare_to_text(value: &Value, name: &str) -> Ordering
    ensures { result ≡ val_cmp value.now (Val.text name.now) }
{
    match &value.repr {
        Repr::Text(value) => value.as_ref().as_bytes().cmp(name.as_bytes()),
        _ => compare_parts(parts_of(value), text(Rank::Text as u8, name.as_bytes())),
    }
}

#[cycle(compare)]
fn compare_parts(a: Parts<'_>, b: Parts<'_>) -> Ordering
    ensures { result ≡ key_cmp (key_of a.entry) (key_of b.entry) }
{
    a.rank
        .cmp(&b.rank)
        .then(a.number.cmp(&b.number))
        .then(a.text.cmp(b.text))
        .then(a.second.cmp(&b.second))
        .then(compare_items(a.items, b.items))
        .then(compare_entries(a.entries, b.entries))
}

#[cycle(compare)]
fn compare_items(a: &[Value], b: &[Value]) -> Ordering
    ensures { result ≡ key_cmp (vals_key (vals_of a.now)) (vals_key (vals_of b.now)) }
{
    for (i, x) in a.iter().enumerate() {
        if b.len() <= i {
            return Ordering::Greater;
        }
        let order = compare(x, &b[i]);
        if !order.is_eq() {
            return order;
        }
    }
    if a.len() < b.len() {
        Ordering::Less
    } else {
        Ordering::Equal
    }
}

#[cycle(compare)]
fn compare_entries(a: &[Entry], b: &[Entry]) -> Ordering
    ensures { result ≡ key_cmp (pairs_key (pairs_of (pairs_in a.now))) (pairs_key (pairs_of (pairs_in b.now))) }
{
    for (i, x) in a.iter().enumerate() {
        if b.len() <= i {
            return Ordering::Greater;
        }
        let y = &b[i];
        let keys = compare(&x.key, &y.key);
        if !keys.is_eq() {
            return keys;
        }
        let values = compare(&x.value, &y.value);
        if !values.is_eq() {
            return values;
        }
    }
    if a.len() < b.len() {
        Ordering::Less
    } else {
        Ordering::Equal
    }
}

impl PartialEq for Value {
    ghost eq = { eq_by_cmp val_cmp };

    ghost laws = { partial_equiv_from_equiv (eq_by_cmp_equiv val_total) };

    fn eq(&self, other: &Value) -> bool {
        compare(self, other).is_eq()
    }
}

impl Eq for Value {
    ghost laws = { eq_by_cmp_equiv val_total };
}

impl PartialOrd for Value {
    ghost partial_cmp = { as_partial_cmp val_cmp };

    ghost laws = { partial_order_from_total val_total };

    fn partial_cmp(&self, other: &Value) -> Option<Ordering> {
        Some(compare(self, other))
    }
}

impl Ord for Value {
    ghost cmp = { val_cmp };

    ghost total = { val_total };

    ghost matches_partial_cmp = { λ x y. refl };

    ghost matches_eq = { λ x y. refl };

    fn cmp(&self, other: &Value) -> Ordering {
        compare(self, other)
    }
}
