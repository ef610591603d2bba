//! The items of several values.
ghost use Rattle.std.specs.Prelude.{◌≡◌, [], option_copied};
ghost use Rattle.template_builtins_arguments.specs.Answers.{TellsAs};
ghost use Rattle.template_builtins_arguments.specs.Arguments.{are_known, by_place, has_known, keywords_in};
ghost use Rattle.template_builtins_arguments.specs.Parts.{items_of};
ghost use Rattle.template_builtins_lists.specs.Chains as chains;
ghost use Rattle.template_callables.specs.Views.{seen_in};
ghost use Rattle.template_values_core.specs.Maps.{pairs_of};
ghost use Rattle.template_values_core.specs.Shape.{pairs_in};

use std::alloc::Global;
use template_builtins_arguments::items_of;
use template_callables::CallView;
use template_values_core::{Content, Entry, Value};
use template_values_errors::{Error, ErrorKind};

/// The arguments, which all stand by place.
///
/// # Errors
///
/// [`ErrorKind::TooManyArguments`], if one is given by keyword.
#[tactic(auto, unfolding(crate::specs::Chains::all_by_place))]
pub(crate) fn all_by_place(values: &[Value]) -> Result<&[Value], Error>
    ensures { TellsAs (λ all. all.now) result (chains.all_by_place values.now) }
{
    if has_no_keyword(values) {
        Ok(by_place(values))
    } else {
        Err(Error::new(ErrorKind::TooManyArguments))
    }
}

// Whether no argument stands by keyword.
fn has_no_keyword(values: &[Value]) -> bool
    ensures { result ≡ has_known [] (keywords_in values.now) }
{
    match keywords_in(values) {
        Some(keywords) => match keywords.content() {
            Content::KeywordMap(entries) => is_empty(entries),
            _ => true,
        },
        None => true,
    }
}

#[tactic(auto, using(crate::proofs::Chaining::known_of_none))]
fn is_empty(entries: &[Entry]) -> bool
    ensures { result ≡ are_known [] (pairs_of (pairs_in entries.now)) }
{
    entries.is_empty()
}

// The arguments before the keyword map.
fn by_place(values: &[Value]) -> &[Value]
    ensures { result.now ≡ by_place values.now }
{
    match keywords_in(values) {
        Some(_) => &values[..values.len().saturating_sub(1)],
        None => values,
    }
}

// The keyword map that stands last.
fn keywords_in(values: &[Value]) -> Option<&Value>
    ensures { option_copied result ≡ keywords_in values.now }
{
    let last = values.get(values.len().saturating_sub(1))?;
    match last.content() {
        Content::KeywordMap(_) => Some(last),
        _ => None,
    }
}

/// These items, and behind them those of each of the values. Linear in the number of all.
///
/// # Errors
///
/// Those of [`items_of`](template_builtins_arguments::items_of).
pub(crate) fn with_items_of_all(
    alloc: Global,
    view: &CallView<'_>,
    values: &[Value],
    front: Vec<Value>,
) -> Result<Vec<Value>, Error>
    ensures { TellsAs (λ whole. whole.items) result (chains.put_onto front.items (chains.items_of_all (seen_in view.now) values.now)) }
{
    let mut whole = front;
    for value in values {
        whole = with_items(alloc, view, value, whole)?;
    }
    Ok(whole)
}

fn with_items(
    alloc: Global,
    view: &CallView<'_>,
    value: &Value,
    front: Vec<Value>,
) -> Result<Vec<Value>, Error>
    ensures { TellsAs (λ whole. whole.items) result (chains.put_onto front.items (items_of (seen_in view.now) value.now)) }
{
    let mut whole = front;
    let mut items = items_of(alloc, view, value)?;
    whole.append(&mut items)?;
    Ok(whole)
}
