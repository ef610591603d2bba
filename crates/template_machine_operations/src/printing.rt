//! Texts and values on their way into a sink.
ghost use Rattle.std.specs.Prelude.{◌≡◌, ◌≤◌, [], Ok, IfSome, length, option_copied, string_bytes};
ghost use Rattle.std.specs.Fmt.{signed_decimal};
ghost use Rattle.template_values_forms.specs.Answers.{AppendsOrRefuses};
ghost use Rattle.template_values_forms.specs.Escaped.{escaped};
ghost use Rattle.template_values_forms.specs.Escapes.{html};
ghost use Rattle.template_values_forms.specs.Known.{Known};
ghost use Rattle.template_values_errors.specs.declared.modes.AutoEscape.TheVariants.{Html};
ghost use Rattle.template_machine_meaning.specs.Undefined.{forbids_printing};
ghost use Rattle.template_machine_meaning.specs.Replies.{guarded, kinded};
ghost use Rattle.template_machine_operations.specs.Outcomes.{TellsFailures, Writes, Prints};
ghost use Rattle.template_machine_operations.specs.Texts.{safe_text_in};

use crate::{forbids_printing, refusal};
use itoa::Buffer;
use std::str;
use template_machine_surroundings::{Sink, write_text};
use template_values_core::{Content, Value};
use template_values_errors::{AutoEscape, Error, UndefinedBehavior};
use template_values_forms::Records;
use template_values_print::{HTML_BLOCK, SHORT_TEXT, escape_to, is_unmarked, put_html};

/// Puts a text into a sink. No byte of it is copied.
///
/// # Errors
///
/// [`ErrorKind::OutOfMemory`] where the sink wants memory, [`ErrorKind::WriteFailure`] where it failed;
/// it has then taken a beginning of the text.
///
/// [`ErrorKind::OutOfMemory`]: template_values_errors::ErrorKind::OutOfMemory
/// [`ErrorKind::WriteFailure`]: template_values_errors::ErrorKind::WriteFailure
#[inline(always)]
pub fn write<S: Sink>(text: &str, sink: &mut S) -> Result<(), Error>
    ensures written { Writes text.now result (S.taken sink.old) (S.taken sink.new) }
    ensures failures { TellsFailures result (S.failures sink.old) (S.failures sink.new) }
{
    Ok(write_text(sink, text)?)
}

/// Puts the text of a value under an escape into a sink. A text that stands as it is is not copied on
/// the way; others are made in `scratch` first, which loses what it holds and keeps its room.
///
/// # Errors
///
/// [`ErrorKind::UndefinedError`] where the mode forbids to print an undefined value; else what
/// [`escape_to`] refuses the value with, and the sink has taken nothing; and those of [`write`].
///
/// [`ErrorKind::UndefinedError`]: template_values_errors::ErrorKind::UndefinedError
#[inline(always)]
pub fn print<R: Records, S: Sink>(
    mode: UndefinedBehavior,
    escape: AutoEscape,
    value: &Value,
    records: &R,
    scratch: &mut String,
    sink: &mut S,
) -> Result<(), Error>
    ensures written { let forbidden = forbids_printing mode value.now in
        let text = guarded forbidden (kinded (escaped escape (R.known records.now) value.now)) in
        Prints text result (S.taken sink.old) (S.taken sink.new) }
    ensures failures { TellsFailures result (S.failures sink.old) (S.failures sink.new) }
{
    if forbids_printing(mode, value) {
        return refusal();
    }
    print_escaped(escape, value, records, scratch, sink)
}

#[inline(always)]
fn print_escaped<R: Records, S: Sink>(
    escape: AutoEscape,
    value: &Value,
    records: &R,
    scratch: &mut String,
    sink: &mut S,
) -> Result<(), Error>
    ensures written { let text = kinded (escaped escape (R.known records.now) value.now) in
        Prints text result (S.taken sink.old) (S.taken sink.new) }
    ensures failures { TellsFailures result (S.failures sink.old) (S.failures sink.new) }
{
    if let Some(text) = standing_text(value, escape) {
        return write(text, sink);
    }
    if let Some(text) = short_text(value, escape) {
        return write_html(text, sink);
    }
    if let Some(number) = standing_number(value, escape) {
        return write_number(number, sink);
    }
    print_at_length(escape, value, records, scratch, sink)
}

/// The same, with the text made in `scratch`.
#[inline(never)]
fn print_at_length<R: Records, S: Sink>(
    escape: AutoEscape,
    value: &Value,
    records: &R,
    scratch: &mut String,
    sink: &mut S,
) -> Result<(), Error>
    ensures written { let text = kinded (escaped escape (R.known records.now) value.now) in
        Prints text result (S.taken sink.old) (S.taken sink.new) }
    ensures failures { TellsFailures result (S.failures sink.old) (S.failures sink.new) }
{
    make_text(value, escape, records, scratch)?;
    write(scratch.as_str(), sink)
}

/// A text that is written with references, and short enough to need no memory for them.
#[inline(always)]
fn short_text(value: &Value, escape: AutoEscape) -> Option<&str>
    ensures is { IfSome result (λ text. (known : Known) → escaped escape known value.now ≡ Ok (html text.now)) }
    ensures short { IfSome result (λ text. length text.now ≤ SHORT_TEXT) }
{
    match (value.content(), escape) {
        (Content::Text(text), AutoEscape::Html) if text.len() <= SHORT_TEXT => Some(text),
        _ => None,
    }
}

/// Puts a short text into a sink with references for HTML's markup, which are made in a block.
#[inline(never)]
fn write_html<S: Sink>(text: &str, sink: &mut S) -> Result<(), Error>
    requires { length text.now ≤ SHORT_TEXT }
    ensures written { Writes (html text.now) result (S.taken sink.old) (S.taken sink.new) }
    ensures failures { TellsFailures result (S.failures sink.old) (S.failures sink.new) }
{
    let mut block = [0; HTML_BLOCK];
    let used = put_html(&mut block, text);
    // References stand for whole characters.
    write(unsafe { str::from_utf8_unchecked(&block[..used]) }, sink)
}

/// A whole number that is written by its digits alone under an escape, whatever is known of records: HTML reads none of them as
/// markup.
#[inline(always)]
#[tactic(auto, using(template_values_print::proofs::Digits::number_printed, template_values_print::proofs::Digits::number_escaped))]
fn standing_number(value: &Value, escape: AutoEscape) -> Option<i128>
    ensures { IfSome result (λ n. (known : Known) → escaped escape known value.now ≡ Ok (signed_decimal n)) }
{
    let Content::Int(number) = value.content() else {
        return None;
    };
    match escape {
        AutoEscape::None => Some(number),
        AutoEscape::Html => Some(number),
        _ => None,
    }
}

/// Puts the digits of a whole number into a sink. They need no memory.
#[inline(never)]
fn write_number<S: Sink>(number: i128, sink: &mut S) -> Result<(), Error>
    ensures written { Writes (signed_decimal number) result (S.taken sink.old) (S.taken sink.new) }
    ensures failures { TellsFailures result (S.failures sink.old) (S.failures sink.new) }
{
    write(Buffer::new().format(number), sink)
}

/// The text of a value that stands as it is under an escape, whatever is known of records: a safe text, for HTML one
/// without markup, or any without an escape.
#[inline(always)]
fn standing_text(value: &Value, escape: AutoEscape) -> Option<&str>
    ensures { IfSome result (λ text. (known : Known) → escaped escape known value.now ≡ Ok text.now) }
{
    match escape {
        AutoEscape::None => value.as_str(),
        AutoEscape::Html => unmarked_text(value),
        AutoEscape::Json => safe_text(value),
        AutoEscape::Custom(_) => None,
    }
}

/// The text of a safe text, or of one that HTML reads as text alone.
#[inline(always)]
fn unmarked_text(value: &Value) -> Option<&str>
    ensures { IfSome result (λ text. (known : Known) → escaped Html known value.now ≡ Ok text.now) }
{
    match value.content() {
        Content::SafeText(text) => Some(text),
        Content::Text(text) if is_unmarked(text) => Some(text),
        _ => None,
    }
}

/// The text of a safe text.
#[inline(always)]
fn safe_text(value: &Value) -> Option<&str>
    ensures { option_copied result ≡ safe_text_in value.now }
{
    match value.content() {
        Content::SafeText(text) => Some(text),
        _ => None,
    }
}

/// Makes the text of a value under an escape in `scratch`, which loses what it holds and keeps its room.
///
/// # Errors
///
/// What [`escape_to`] refuses the value with; `scratch` is then empty.
pub fn make_text<R: Records>(
    value: &Value,
    escape: AutoEscape,
    records: &R,
    scratch: &mut String,
) -> Result<(), Error>
    ensures { AppendsOrRefuses [] (escaped escape (R.known records.now) value.now) result (string_bytes scratch.new) }
{
    scratch.clear();
    escape_to(value, escape, records, scratch)
}
