//! The text of a value under an escape.
ghost use Rattle.std.specs.Prelude.{string_bytes};
ghost use Rattle.template_values_forms.specs.Answers.{AppendsOrRefuses, mapped};
ghost use Rattle.template_values_forms.specs.Escaped.{escaped, html_text, json_text};
ghost use Rattle.template_values_forms.specs.Escapes.{html};
ghost use Rattle.template_values_print.specs.Pieces.{Writes};
ghost use Rattle.template_values_forms.specs.Printed.{printed};

use crate::{Markup, json_outer, print_outer, push};
use template_values_core::{Content, Value};
use template_values_errors::{AutoEscape, Error, ErrorKind};
use template_values_forms::Records;

/// Appends the text of the value under the escape `rule` to `out`, which a refusal leaves as it was:
/// as it prints, with references for HTML's markup, or as the compact JSON of `serde_json`. Under the
/// last two a safe text stands as it is. Namespaces are followed. Takes time linear in the text.
///
/// # Errors
///
/// - [`ErrorKind::InvalidOperation`], if the rule is a custom one, if a foreign namespace is met, or a
///   foreign loop or macro that prints, or if the value with the records that it leads to nests deeper
///   than [`DEPTH_LIMIT`] levels. As JSON, what a module holds counts too; it prints as its text alone.
/// - [`ErrorKind::BadSerialization`] as JSON: if a key is no text, a number lies outside -2^63 to
///   2^64 - 1, or a function, a loop or a macro is met, foreign or not.
/// - [`ErrorKind::OutOfMemory`]
///
/// [`DEPTH_LIMIT`]: template_values_model::DEPTH_LIMIT
pub fn escape_to<R: Records>(
    value: &Value,
    rule: AutoEscape,
    records: &R,
    out: &mut String,
) -> Result<(), Error>
    ensures { AppendsOrRefuses (string_bytes out.old) (escaped rule (R.known records.now) value.now) result (string_bytes out.new) }
{
    let length = out.as_str().len();
    match escape_outer(value, rule, records, out) {
        Ok(()) => Ok(()),
        Err(error) => {
            out.truncate(length);
            Err(error)
        }
    }
}

fn escape_outer<R: Records>(
    value: &Value,
    rule: AutoEscape,
    records: &R,
    out: &mut String,
) -> Result<(), Error>
    ensures { Writes Markup.Plain (string_bytes out.old) (escaped rule (R.known records.now) value.now) result (string_bytes out.new) }
{
    match rule {
        AutoEscape::None => print_outer(value, Markup::Plain, records, out),
        AutoEscape::Html => html_outer(value, records, out),
        AutoEscape::Json => json_or_safe(value, records, out),
        AutoEscape::Custom(_) => Err(Error::new(ErrorKind::InvalidOperation)),
    }
}

fn html_outer<R: Records>(value: &Value, records: &R, out: &mut String) -> Result<(), Error>
    ensures { Writes Markup.Plain (string_bytes out.old) (html_text (R.known records.now) value.now) result (string_bytes out.new) }
{
    match value.content() {
        Content::SafeText(text) => push(out, Markup::Plain, text),
        _ => print_html(value, records, out),
    }
}

fn print_html<R: Records>(value: &Value, records: &R, out: &mut String) -> Result<(), Error>
    ensures { Writes Markup.Plain (string_bytes out.old) (mapped html (printed (R.known records.now) value.now))
        result (string_bytes out.new) }
{
    print_outer(value, Markup::Html, records, out)
}

fn json_or_safe<R: Records>(value: &Value, records: &R, out: &mut String) -> Result<(), Error>
    ensures { Writes Markup.Plain (string_bytes out.old) (json_text (R.known records.now) value.now) result (string_bytes out.new) }
{
    match value.content() {
        Content::SafeText(safe) => push(out, Markup::Plain, safe),
        _ => json_outer(value, records, out),
    }
}
