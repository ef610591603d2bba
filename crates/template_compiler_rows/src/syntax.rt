//! A syntax from the entries of an object, and what stands in one.
use crate::report::{Report, unreadable};
use serde_json::{Map, Value as Json};
use std::alloc::Global;
use template_compiler_syntax::{SyntaxConfig, SyntaxConfigBuilder};
use template_values_errors::Error;

/// The default syntax with what the entries change, `source`, `ask` and `places` aside. An entry of another name or kind
/// is a SyntaxError.
pub(crate) fn syntax_of(alloc: Global, entries: &Map<String, Json>) -> Result<SyntaxConfig, Error> {
    built(&mut SyntaxConfig::builder(alloc), entries)
}

fn built(
    builder: &mut SyntaxConfigBuilder,
    entries: &Map<String, Json>,
) -> Result<SyntaxConfig, Error> {
    for (name, value) in entries {
        match name.as_str() {
            "source" | "ask" | "places" => {}
            name => set(builder, name, value)?,
        }
    }
    builder.build()
}

fn set(builder: &mut SyntaxConfigBuilder, name: &str, value: &Json) -> Result<(), Error> {
    match value {
        Json::Array(texts) => set_texts(builder, name, texts.as_slice()),
        Json::String(prefix) => set_prefix(builder, name, prefix.as_str()),
        Json::Bool(yes) => set_option(builder, name, *yes),
        _ => unreadable(),
    }
}

fn set_texts(builder: &mut SyntaxConfigBuilder, name: &str, texts: &[Json]) -> Result<(), Error> {
    match texts {
        [Json::String(start), Json::String(end)] => {
            set_delimiters(builder, name, start.as_str(), end.as_str())
        }
        _ => unreadable(),
    }
}

fn set_delimiters(
    builder: &mut SyntaxConfigBuilder,
    name: &str,
    start: &str,
    end: &str,
) -> Result<(), Error> {
    match name {
        "block" => builder.block_delimiters(start, end),
        "variable" => builder.variable_delimiters(start, end),
        "comment" => builder.comment_delimiters(start, end),
        _ => unreadable(),
    }
}

fn set_prefix(builder: &mut SyntaxConfigBuilder, name: &str, prefix: &str) -> Result<(), Error> {
    match name {
        "line_statement" => builder.line_statement_prefix(prefix),
        "line_comment" => builder.line_comment_prefix(prefix),
        _ => unreadable(),
    }
}

fn set_option(builder: &mut SyntaxConfigBuilder, name: &str, yes: bool) -> Result<(), Error> {
    match name {
        "trim_blocks" => builder.trim_blocks(yes),
        "lstrip_blocks" => builder.lstrip_blocks(yes),
        "keep_trailing_newline" => builder.keep_trailing_newline(yes),
        "scoped_blocks" => builder.scoped_blocks(yes),
        _ => return unreadable(),
    }
    Ok(())
}

/// What stands in a syntax that is copied, and built again of that.
pub(crate) fn parts_of_syntax(alloc: Global, syntax: &SyntaxConfig, out: &mut Report) {
    match &built_again(alloc, syntax) {
        Ok(syntax) => write_parts(syntax, out),
        Err(error) => out.refuse(error.kind()),
    }
}

fn built_again(alloc: Global, syntax: &SyntaxConfig) -> Result<SyntaxConfig, Error> {
    let copy = syntax.clone()?;
    let builder = copy.to_builder(alloc)?;
    builder.build()
}

fn write_parts(syntax: &SyntaxConfig, out: &mut Report) {
    out.tell("(syntax ", &syntax.block_delimiters());
    out.tell(" ", &syntax.variable_delimiters());
    out.tell(" ", &syntax.comment_delimiters());
    out.tell(" ", &syntax.line_statement_prefix());
    out.tell(" ", &syntax.line_comment_prefix());
    out.tell(" ", &syntax.trim_blocks());
    out.tell(" ", &syntax.lstrip_blocks());
    out.tell(" ", &syntax.keep_trailing_newline());
    out.tell(" ", &syntax.scoped_blocks());
    out.push(')')
}
