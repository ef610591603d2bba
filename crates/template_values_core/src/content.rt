//! What a value holds, for those that go by its kind.
ghost use Rattle.std.specs.Prelude.{◌≡◌, ◌<◌, IfSome, option_copied, option_map};
ghost use Rattle.template_values_model.specs.Val.{vals_of};
ghost use Rattle.template_values_core.specs.Content.{value_of};
ghost use Rattle.template_values_core.specs.Depth.{vals_depth};
ghost use Rattle.template_values_core.specs.Kept.{IsRising};
ghost use Rattle.template_values_core.specs.Maps.{pairs_of};
ghost use Rattle.template_values_core.specs.Reads.{is_true, items_in, number_of, pairs_held, whole_number};
ghost use Rattle.template_values_core.specs.Shape.{pairs_in};

use crate::value::{Entry, Repr, Value};
use template_values_model::DEPTH_LIMIT;

/// The kind of a value with its content. The entries of maps, keyword maps and modules stand in
/// the order of their keys. Functions have the id of their environment and a number in it;
/// namespaces, loops and macros have the id of their state and a number in it.
#[derive(Clone, Copy)]
pub enum Content<'a> {
    /// What stands for a missing value.
    Undefined,
    /// The same, where an `else` is missing.
    SilentUndefined,
    /// No value.
    None,
    /// A truth value.
    Truth(bool),
    /// A whole number.
    Int(i128),
    /// A plain text.
    Text(&'a str),
    /// A text that is written without escapes.
    SafeText(&'a str),
    /// Bytes, which need be no text.
    Bytes(&'a [u8]),
    /// The items of a list.
    List(&'a [Value]),
    /// The items of a tuple.
    Tuple(&'a [Value]),
    /// The entries of a map.
    Map(&'a [Entry]),
    /// The keyword arguments of a call.
    KeywordMap(&'a [Entry]),
    /// What a module exports, and the text that it prints.
    Module(&'a [Entry], &'a str),
    /// A function, by its environment's id and its number.
    Function(u64, usize),
    /// A namespace, by its state's id and its number.
    Namespace(u64, usize),
    /// A loop, by its state's id and its number.
    Loop(u64, usize),
    /// A macro, by its state's id and its number.
    Macro(u64, usize),
}

impl Value {
    /// The kind and the content of this value, borrowed from it.
    #[inline(always)]
    pub fn content(&self) -> Content<'_>
        ensures { self.now ≡ value_of result }
    {
        match &self.repr {
            Repr::Undefined => Content::Undefined,
            Repr::SilentUndefined => Content::SilentUndefined,
            Repr::None => Content::None,
            Repr::Truth(value) => Content::Truth(*value),
            Repr::Int(number) => Content::Int(*number),
            Repr::Text(text) => Content::Text(text.as_ref().as_str()),
            Repr::SafeText(text) => Content::SafeText(text.as_ref().as_str()),
            Repr::Bytes(bytes) => Content::Bytes(bytes.as_ref().as_slice()),
            Repr::List(items) => Content::List(items.as_ref().as_slice()),
            Repr::Tuple(items) => Content::Tuple(items.as_ref().as_slice()),
            Repr::Map(entries) => Content::Map(entries.as_ref().as_slice()),
            Repr::KeywordMap(entries) => Content::KeywordMap(entries.as_ref().as_slice()),
            Repr::Module(entries, text) => {
                Content::Module(entries.as_ref().as_slice(), text.as_str())
            }
            Repr::Function(id, number) => Content::Function(*id, *number),
            Repr::Namespace(id, number) => Content::Namespace(*id, *number),
            Repr::Loop(id, number) => Content::Loop(*id, *number),
            Repr::Macro(id, number) => Content::Macro(*id, *number),
        }
    }

    /// Whether the value counts as true: all but undefined, none, false, 0 and empty texts, bytes,
    /// lists, tuples, maps and modules. An empty keyword map counts as true, and so does every record
    /// here, also an empty namespace: only its state knows what it holds.
    #[inline(always)]
    #[tactic(auto, using(crate::proofs::ReadLemmas::reading))]
    pub fn is_true(&self) -> bool
        ensures { result ≡ is_true self.now }
    {
        match self.content() {
            Content::Undefined | Content::SilentUndefined | Content::None => false,
            Content::Truth(value) => value,
            Content::Int(number) => number != 0,
            Content::Text(text) | Content::SafeText(text) => !text.is_empty(),
            Content::Bytes(bytes) => !bytes.is_empty(),
            Content::List(items) => !items.is_empty(),
            Content::Tuple(items) => !items.is_empty(),
            Content::Map(entries) => !entries.is_empty(),
            Content::Module(entries, _) => !entries.is_empty(),
            _ => true,
        }
    }

    /// The number, if this is a whole number and no truth value.
    #[inline(always)]
    pub fn as_int(&self) -> Option<i128>
        ensures { result ≡ whole_number self.now }
    {
        match self.content() {
            Content::Int(whole) => Some(whole),
            _ => None,
        }
    }

    /// The number that this counts as in operators: a whole number, or 0 or 1 for a truth value.
    #[inline(always)]
    pub fn as_number(&self) -> Option<i128>
        ensures { result ≡ number_of self.now }
    {
        match self.content() {
            Content::Truth(value) => Some(if value { 1 } else { 0 }),
            Content::Int(number) => Some(number),
            _ => None,
        }
    }

    /// The items of a list or a tuple. They nest less deep than the value may.
    #[tactic(auto, using(crate::proofs::ReadLemmas::reading))]
    pub fn items(&self) -> Option<&[Value]>
        ensures items { option_copied result ≡ items_in self.now }
        ensures shallow { IfSome result (λ items. vals_depth (vals_of items.now) < DEPTH_LIMIT) }
    {
        match &self.repr {
            Repr::List(items) => Some(items.as_ref().as_slice()),
            Repr::Tuple(items) => Some(items.as_ref().as_slice()),
            _ => None,
        }
    }

    /// The entries of a map, a keyword map or a module, in the order of their keys.
    pub fn entries(&self) -> Option<&[Entry]>
        ensures held { option_map (λ es. pairs_of (pairs_in es)) (option_copied result) ≡ pairs_held self.now }
        ensures rising { IfSome result (λ es. IsRising es.now) }
    {
        match &self.repr {
            Repr::Map(entries) => Some(entries.as_ref().as_slice()),
            Repr::KeywordMap(entries) => Some(entries.as_ref().as_slice()),
            Repr::Module(entries, _text) => Some(entries.as_ref().as_slice()),
            _ => None,
        }
    }
}
