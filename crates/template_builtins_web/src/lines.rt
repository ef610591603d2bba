//! The lines of JSON that is laid out.
ghost use Rattle.std.specs.Prelude.{◌+◌, ◌≤◌, ◌++◌, Ok, string_bytes};
ghost use Rattle.std.specs.List.{repeat};
ghost use Rattle.template_builtins_web.specs.Json.{before_end, before_item, next_line, pretty_key};
ghost use Rattle.template_values_forms.specs.Answers.{mapped};
ghost use Rattle.template_values_forms.specs.Json.{key_data};
ghost use Rattle.template_values_print.specs.Pieces.{Writes};

use template_values_core::{Content, Value};
use template_values_errors::{Error, ErrorKind};
use template_values_print::{Markup, Quoting, push, push_quoted};

// Starts the line of an item or a member.
pub(crate) fn push_before(
    later: bool,
    indent: &str,
    level: u32,
    out: &mut String,
) -> Result<(), Error>
    requires { level ≤ 1000 }
    ensures { Writes Markup.Plain (string_bytes out.old) (Ok (before_item later indent.now level)) result (string_bytes out.new) }
{
    push(out, Markup::Plain, if later { "," } else { "" })?;
    push_line(indent, level + 1, out)
}

// A closing bracket has its line where something stands before it.
pub(crate) fn push_end(
    later: bool,
    indent: &str,
    level: u32,
    bracket: &str,
    out: &mut String,
) -> Result<(), Error>
    ensures { Writes Markup.Plain (string_bytes out.old) (Ok (before_end later indent.now level ++ bracket.now))
        result (string_bytes out.new) }
{
    if later {
        push_line(indent, level, out)?;
    }
    push(out, Markup::Plain, bracket)
}

fn push_line(indent: &str, level: u32, out: &mut String) -> Result<(), Error>
    ensures { Writes Markup.Plain (string_bytes out.old) (Ok (next_line indent.now level)) result (string_bytes out.new) }
{
    push(out, Markup::Plain, "\n")?;
    push_indent(indent, level, out)
}

fn push_indent(indent: &str, level: u32, out: &mut String) -> Result<(), Error>
    ensures { Writes Markup.Plain (string_bytes out.old) (Ok (repeat level indent.now)) result (string_bytes out.new) }
{
    let mut left = level;
    while 0 < left {
        push(out, Markup::Plain, indent)?;
        left -= 1;
    }
    Ok(())
}

pub(crate) fn push_key(key: &Value, out: &mut String) -> Result<(), Error>
    ensures { Writes Markup.Plain (string_bytes out.old) (mapped pretty_key (key_data key.now)) result (string_bytes out.new) }
{
    match key.content() {
        Content::Text(text) => push_key_text(text, out),
        Content::SafeText(text) => push_key_text(text, out),
        _ => Err(Error::new(ErrorKind::BadSerialization)),
    }
}

fn push_key_text(key: &str, out: &mut String) -> Result<(), Error>
    ensures { Writes Markup.Plain (string_bytes out.old) (Ok (pretty_key key.now)) result (string_bytes out.new) }
{
    push_quoted(out, Markup::Plain, Quoting::Json, key)?;
    push(out, Markup::Plain, ": ")
}
