//! The paths that an argument `attribute` names.
ghost use Rattle.std.specs.Prelude.{◌≡◌, ◌==◌, map, option_copied, IfErr, IfOk};
ghost use Rattle.std.specs.List.{slice_split};
ghost use Rattle.template_values_errors.specs.Memory.{NoMemory};
ghost use Rattle.template_values_model.specs.Val.{text};
ghost use Rattle.template_values_core.specs.Answers.{text_in};
ghost use Rattle.template_builtins_arguments.specs.Answers.{TellsAs};
ghost use Rattle.template_builtins_sorting.specs.Attributes as attributes;

use crate::alike::one;
use std::alloc::{AllocError, Global};
use template_builtins_arguments::refusal;
use template_builtins_paths::is_path;
use template_values_core::Value;
use template_values_errors::Error;
use template_values_operators::kinds::is_none;

/// The path of an attribute; none of it where no attribute is given, or `none`.
///
/// # Errors
///
/// - [`ErrorKind::InvalidOperation`](template_values_errors::ErrorKind::InvalidOperation) at what is no path.
/// - [`ErrorKind::OutOfMemory`](template_values_errors::ErrorKind::OutOfMemory)
pub fn one_path(alloc: Global, attribute: Option<&Value>) -> Result<Vec<Value>, Error>
    ensures { TellsAs (λ v. v.items) result (attributes.one_path (option_copied attribute.entry)) }
{
    let Some(attribute) = attribute else {
        return Ok(Vec::new(alloc));
    };
    if is_none(attribute) {
        return Ok(Vec::new(alloc));
    }
    if !is_path(attribute) {
        return refusal();
    }
    one(alloc, attribute)
}

/// The paths of an attribute, which stand between commas; none of them where no attribute is given, or `none`. Linear in its length.
///
/// # Errors
///
/// - [`ErrorKind::InvalidOperation`](template_values_errors::ErrorKind::InvalidOperation) at what is no path.
/// - [`ErrorKind::OutOfMemory`](template_values_errors::ErrorKind::OutOfMemory)
pub fn several_paths(alloc: Global, attribute: Option<&Value>) -> Result<Vec<Value>, Error>
    ensures { TellsAs (λ v. v.items) result (attributes.several_paths (option_copied attribute.entry)) }
{
    let Some(attribute) = attribute else {
        return Ok(Vec::new(alloc));
    };
    if is_none(attribute) {
        return Ok(Vec::new(alloc));
    }
    if !is_path(attribute) {
        return refusal();
    }
    pieces_of(alloc, attribute)
}

fn pieces_of(alloc: Global, path: &Value) -> Result<Vec<Value>, Error>
    ensures pieces { IfOk result (λ v. v.items ≡ attributes.pieces_of path.now (text_in path.now)) }
    ensures refused { IfErr result NoMemory }
{
    match path.as_str() {
        Some(text) => texts_between_commas(alloc, text),
        None => one(alloc, path),
    }
}

fn texts_between_commas(alloc: Global, paths: &str) -> Result<Vec<Value>, Error>
    ensures pieces { IfOk result (λ v. v.items ≡ map text (slice_split (λ b. b == 44) paths.now)) }
    ensures refused { IfErr result NoMemory }
{
    let pieces = split_at_commas(alloc, paths)?;
    texts_of(alloc, pieces.as_slice())
}

fn split_at_commas<'a>(alloc: Global, paths: &'a str) -> Result<Vec<&'a str>, AllocError>
    ensures { IfOk result (λ v. map (λ piece. piece.now) v.items ≡ slice_split (λ b. b == 44) paths.entry.now) }
{
    paths.split(',').collect(alloc)
}

fn texts_of(alloc: Global, pieces: &[&str]) -> Result<Vec<Value>, Error>
    ensures texts { IfOk result (λ v. v.items ≡ map text (map (λ piece. piece.now) pieces.now)) }
    ensures refused { IfErr result NoMemory }
{
    let mut texts = Vec::with_capacity(alloc, pieces.len())?;
    for piece in pieces {
        texts.push(Value::from_str(alloc, piece)?)?;
    }
    Ok(texts)
}
