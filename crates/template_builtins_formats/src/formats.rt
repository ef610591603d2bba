//! Formats: texts with directives, in whose places arguments stand.
ghost use Rattle.std.specs.Prelude.{◌≡◌, ◌<◌, ◌≤◌, IfOk, IfSome, None, length, string_bytes};
ghost use Rattle.std.specs.Str.{IsUtf8};
ghost use Rattle.template_builtins_arguments.specs.Answers.{TellsAs};
ghost use Rattle.template_builtins_formats.specs.Formats as formats;
ghost use Rattle.template_builtins_formats.specs.Pieces.{seen_piece};
ghost use Rattle.template_builtins_formats.specs.Taken.{seen_taken};
ghost use Rattle.template_callables.specs.Views.{seen_in};

use crate::directives::{Directive, split_directive};
use crate::filling::joined;
use crate::shown::shown;
use std::alloc::Global;
use template_builtins_arguments::refusal;
use template_callables::CallView;
use template_values_core::Value;
use template_values_errors::Error;

/// What is made of the start of a format, and the rest of it with the arguments that are left; none behind its end.
#[derive(Drop)]
pub(crate) struct Piece<'a> {
    text: String,
    left: Option<(&'a str, &'a [Value])>,
}

/// A format with its arguments in the places of its directives. Linear in the lengths of the format, of what is shown and of what
/// stands in an argument's text behind a precision.
///
/// # Errors
///
/// - [`ErrorKind::UndefinedError`](template_values_errors::ErrorKind::UndefinedError) at an undefined value, where these may not be
///   printed.
/// - [`ErrorKind::NoFloats`](template_values_errors::ErrorKind::NoFloats) at a directive for floats.
/// - [`ErrorKind::InvalidOperation`](template_values_errors::ErrorKind::InvalidOperation) at another directive that is none, an
///   argument of a wrong kind, too few or too many arguments.
/// - [`ErrorKind::OutOfMemory`](template_values_errors::ErrorKind::OutOfMemory)
pub(crate) fn formatted(
    alloc: Global,
    view: &CallView<'_>,
    text: &str,
    arguments: &[Value],
) -> Result<String, Error>
    ensures { TellsAs string_bytes result (formats.formatted (seen_in view.now) text.now arguments.now) }
{
    let mut out = String::new(alloc);
    let mut rest = text;
    let mut given = arguments;
    'pieces: loop {
        let piece = next_piece(alloc, view, rest, given)?;
        out.push_str(piece.text.as_str())?;
        match piece.left {
            Some((text, arguments)) => {
                rest = text;
                given = arguments;
            }
            None => return Ok(out),
        }
    }
}

// Up to the first `%` and what it begins, or all where there is none.
fn next_piece<'a>(
    alloc: Global,
    view: &CallView<'_>,
    text: &'a str,
    arguments: &'a [Value],
) -> Result<Piece<'a>, Error>
    ensures piece { TellsAs seen_piece result (formats.next_piece (seen_in view.now) text.entry.now arguments.entry.now) }
    ensures less { IfOk result (λ p. IfSome p.left (λ left. length left.0.now < length text.entry.now)) }
    ensures rest { IfOk result (λ p. IfSome p.left (λ left. IsUtf8 left.0.now)) }
{
    match text.split_once('%') {
        Some((before, behind)) => behind_percent(alloc, view, before, behind, arguments),
        None => last_piece(alloc, text, arguments),
    }
}

// The text behind the last directive, where no argument is left.
fn last_piece<'a>(alloc: Global, text: &'a str, arguments: &'a [Value]) -> Result<Piece<'a>, Error>
    ensures piece { TellsAs seen_piece result (formats.last_piece text.entry.now arguments.entry.now) }
    ensures last { IfOk result (λ p. p.left ≡ None) }
{
    if !arguments.is_empty() {
        return refusal();
    }
    let text = String::from_str(alloc, text)?;
    Ok(Piece { text, left: None })
}

// A second `%` is one itself.
fn behind_percent<'a>(
    alloc: Global,
    view: &CallView<'_>,
    before: &str,
    behind: &'a str,
    arguments: &'a [Value],
) -> Result<Piece<'a>, Error>
    ensures piece { TellsAs seen_piece result (formats.behind_percent (seen_in view.now) before.now behind.entry.now arguments.entry.now) }
    ensures less { IfOk result (λ p. IfSome p.left (λ left. length left.0.now ≤ length behind.entry.now)) }
    ensures rest { IfOk result (λ p. IfSome p.left (λ left. IsUtf8 left.0.now)) }
{
    match behind.strip_prefix('%') {
        Some(rest) => {
            let text = joined(alloc, before, "%")?;
            Ok(Piece {
                text,
                left: Some((rest, arguments)),
            })
        }
        None => directed(alloc, view, before, behind, arguments),
    }
}

// A text before a directive, and what stands in its place.
#[tactic(auto, unfolding(crate::specs::Formats::directed))]
fn directed<'a>(
    alloc: Global,
    view: &CallView<'_>,
    before: &str,
    behind: &'a str,
    arguments: &'a [Value],
) -> Result<Piece<'a>, Error>
    ensures piece { TellsAs seen_piece result (formats.directed (seen_in view.now) before.now behind.entry.now arguments.entry.now) }
    ensures less { IfOk result (λ p. IfSome p.left (λ left. length left.0.now ≤ length behind.entry.now)) }
    ensures rest { IfOk result (λ p. IfSome p.left (λ left. IsUtf8 left.0.now)) }
{
    let (directive, rest) = split_directive(behind)?;
    let (shown, left) = taken(alloc, view, directive, arguments)?;
    let text = joined(alloc, before, shown.as_str())?;
    Ok(Piece {
        text,
        left: Some((rest, left)),
    })
}

// What a directive shows of the next argument, and the arguments behind that.
fn taken<'a>(
    alloc: Global,
    view: &CallView<'_>,
    directive: Directive,
    arguments: &'a [Value],
) -> Result<(String, &'a [Value]), Error>
    ensures { TellsAs seen_taken result (formats.taken (seen_in view.now) directive arguments.entry.now) }
{
    match arguments {
        [first, rest @ ..] => {
            let text = shown(alloc, view, directive, first)?;
            Ok((text, rest))
        }
        [] => refusal(),
    }
}
