//! The keys that items are compared by.
ghost use Rattle.std.specs.Prelude.{◌≡◌, [], ◌∷◌, Ok, option_copied};
ghost use Rattle.template_builtins_arguments.specs.Answers.{Tells, TellsAs, told};
ghost use Rattle.template_builtins_sorting.specs.Keys as keys;
ghost use Rattle.template_callables.specs.Views.{seen_in};

use crate::alike::one;
use crate::keyed::Keyed;
use std::alloc::Global;
use template_builtins_paths::part_of;
use template_callables::CallView;
use template_values_core::{Content, Value};
use template_values_errors::Error;

/// The items with their keys: each item itself, its part at a path, or the tuple of its parts at several paths. A default that is not
/// `none` stands for a part that is missing. Where case does not count, texts are keys by their lower case. Linear in the number of
/// items, and in what [`part_of`] takes.
///
/// # Errors
///
/// Those of [`part_of`], and [`ErrorKind::InvalidOperation`](template_values_errors::ErrorKind::InvalidOperation), if the tuple of the
/// parts would nest too deep.
#[tactic(auto, using(crate::proofs::Steps::in_turn), unfolding(crate::specs::Keys::keyed))]
pub fn keyed(
    alloc: Global,
    view: &CallView<'_>,
    paths: &[Value],
    default: Option<&Value>,
    is_cased: bool,
    items: &[Value],
) -> Result<Vec<Keyed>, Error>
    ensures { TellsAs (λ v. v.items) result (keys.keyed (seen_in view.now) paths.now (option_copied default.entry) is_cased items.now) }
{
    let mut keyed = Vec::new(alloc);
    for value in items {
        let key = key_of(alloc, view, paths, default, is_cased, value)?;
        let item = value.copy()?;
        keyed.push(Keyed { key, item })?;
    }
    Ok(keyed)
}

#[tactic(auto, unfolding(crate::specs::Keys::key_of))]
fn key_of(
    alloc: Global,
    view: &CallView<'_>,
    paths: &[Value],
    default: Option<&Value>,
    is_cased: bool,
    value: &Value,
) -> Result<Value, Error>
    ensures { Tells result (keys.key_of (seen_in view.now) paths.now (option_copied default.entry) is_cased value.now) }
{
    match paths {
        [] => folded(alloc, is_cased, value),
        [path] => folded_part(alloc, view, default, is_cased, value, path),
        _ => tuple_made(
            alloc,
            folded_parts(alloc, view, default, is_cased, value, paths)?,
        ),
    }
}

// The parts of a value at paths, folded.
#[tactic(auto, using(crate::proofs::Steps::in_turn))]
fn folded_parts(
    alloc: Global,
    view: &CallView<'_>,
    default: Option<&Value>,
    is_cased: bool,
    value: &Value,
    paths: &[Value],
) -> Result<Vec<Value>, Error>
    ensures { TellsAs (λ v. v.items) result
        (keys.each (keys.folded_part (seen_in view.now) (option_copied default.entry) is_cased value.now) paths.now) }
{
    let mut parts = Vec::new(alloc);
    for path in paths {
        parts.push(folded_part(alloc, view, default, is_cased, value, path)?)?;
    }
    Ok(parts)
}

#[tactic(auto, unfolding(crate::specs::Keys::folded_part))]
fn folded_part(
    alloc: Global,
    view: &CallView<'_>,
    default: Option<&Value>,
    is_cased: bool,
    value: &Value,
    path: &Value,
) -> Result<Value, Error>
    ensures { Tells result (keys.folded_part (seen_in view.now) (option_copied default.entry) is_cased value.now path.now) }
{
    let part = part_of(alloc, view, value, path, default)?;
    folded(alloc, is_cased, &part)
}

/// A text by its lower case, where its case does not count; else the value itself, which is shared.
///
/// # Errors
///
/// [`ErrorKind::OutOfMemory`](template_values_errors::ErrorKind::OutOfMemory)
pub fn folded(alloc: Global, is_cased: bool, value: &Value) -> Result<Value, Error>
    ensures { Tells result (Ok (keys.folded is_cased value.now)) }
{
    if is_cased {
        return value.copy();
    }
    match value.content() {
        Content::Text(text) | Content::SafeText(text) => Value::from_text(text.to_lowercase(
            alloc,
        )?),
        _ => value.copy(),
    }
}

/// The tuple of these items.
///
/// # Errors
///
/// - [`ErrorKind::InvalidOperation`](template_values_errors::ErrorKind::InvalidOperation), if it would nest too deep.
/// - [`ErrorKind::OutOfMemory`](template_values_errors::ErrorKind::OutOfMemory)
pub fn tuple_made(alloc: Global, items: Vec<Value>) -> Result<Value, Error>
    ensures { Tells result (told (keys.tuple_made items.items)) }
{
    Value::from_tuple(alloc, items)
}

/// The tuple of two items, which are shared.
///
/// # Errors
///
/// - [`ErrorKind::InvalidOperation`](template_values_errors::ErrorKind::InvalidOperation), if it would nest too deep.
/// - [`ErrorKind::OutOfMemory`](template_values_errors::ErrorKind::OutOfMemory)
pub fn pair(alloc: Global, first: &Value, second: &Value) -> Result<Value, Error>
    ensures { Tells result (told (keys.tuple_made (first.now ∷ second.now ∷ []))) }
{
    let mut items = one(alloc, first)?;
    items.push(second.copy()?)?;
    tuple_made(alloc, items)
}
