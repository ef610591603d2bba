//! The JSON of a value that holds no others, and of bytes, laid out.
ghost use Rattle.std.specs.Prelude.{◌≡◌, ◌≤◌, ◌∷◌, decimal, false, Ok, string_bytes};
ghost use Rattle.serde_json.specs.Written.{compact_text};
ghost use Rattle.template_builtins_web.specs.Json.{before_item, nests, pretty_items, pretty_text};
ghost use Rattle.template_values_forms.specs.Answers.{joined, mapped};
ghost use Rattle.template_values_forms.specs.Json.{byte_items, flat_data};
ghost use Rattle.template_values_print.specs.Pieces.{Writes};

use crate::lines::{push_before, push_end};
use itoa::Buffer;
use template_values_core::{Content, Value};
use template_values_errors::{Error, ErrorKind};
use template_values_forms::NoRecords;
use template_values_print::{Markup, json_outer, push};

// Where no value may nest further.
pub(crate) fn pretty_flat(
    value: &Value,
    indent: &str,
    level: u32,
    out: &mut String,
) -> Result<(), Error>
    requires { level ≤ 1000 }
    ensures { Writes Markup.Plain (string_bytes out.old) (mapped (pretty_text indent.now level) (flat_data value.now))
        result (string_bytes out.new) }
{
    match value.content() {
        Content::Bytes(bytes) => pretty_bytes(bytes, indent, level, out),
        _ => pretty_leaf(value, out),
    }
}

fn pretty_leaf(value: &Value, out: &mut String) -> Result<(), Error>
    ensures { Writes Markup.Plain (string_bytes out.old) (mapped compact_text (flat_data value.now)) result (string_bytes out.new) }
{
    if nests(value) {
        return Err(Error::new(ErrorKind::InvalidOperation));
    }
    json_outer(value, &NoRecords, out)
}

fn nests(value: &Value) -> bool
    ensures { result ≡ nests value.now }
{
    match value.content() {
        Content::List(_) | Content::Tuple(_) => true,
        Content::Map(_) | Content::KeywordMap(_) | Content::Module(_, _) => true,
        Content::Namespace(_, _) => true,
        _ => false,
    }
}

fn pretty_bytes(bytes: &[u8], indent: &str, level: u32, out: &mut String) -> Result<(), Error>
    requires { level ≤ 1000 }
    ensures { Writes Markup.Plain (string_bytes out.old) (Ok (91 ∷ pretty_items false indent.now level (byte_items bytes.now)))
        result (string_bytes out.new) }
{
    push(out, Markup::Plain, "[")?;
    pretty_byte_items(bytes, indent, level, out)
}

fn pretty_byte_items(bytes: &[u8], indent: &str, level: u32, out: &mut String) -> Result<(), Error>
    requires { level ≤ 1000 }
    ensures { Writes Markup.Plain (string_bytes out.old) (Ok (pretty_items false indent.now level (byte_items bytes.now)))
        result (string_bytes out.new) }
{
    let mut later = false;
    for byte in bytes {
        pretty_byte(later, *byte, indent, level, out)?;
        later = true;
    }
    push_end(later, indent, level, "]", out)
}

fn pretty_byte(
    later: bool,
    byte: u8,
    indent: &str,
    level: u32,
    out: &mut String,
) -> Result<(), Error>
    requires { level ≤ 1000 }
    ensures { Writes Markup.Plain (string_bytes out.old)
        (joined (Ok (before_item later indent.now level)) (Ok (decimal byte))) result (string_bytes out.new) }
{
    push_before(later, indent, level, out)?;
    push(out, Markup::Plain, Buffer::new().format(byte))
}
