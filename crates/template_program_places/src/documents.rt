//! The places where documents and values are refused.

use crate::refusal_lines::{part_text, place_text};
use crate::toml_places::toml_place;
use std::alloc::Global;
use template_program_contexts::{Document, Form};
use template_values_errors::ErrorKind;
use template_values_json::{ContextError, Floats, context_from_json_with};

/// Where a document is refused as a context, behind its name: `site.json:3:14`, the line and the column in bytes where the reader
/// stood, or `site.json: rows[3].price`, the path of a number that is refused, or of a date or a time of TOML; else the name alone.
/// None where the document is not refused, and where memory is. Reads the document again.
pub fn document_place(
    alloc: Global,
    name: &str,
    document: Document<'_>,
    floats: Floats,
) -> Option<String> {
    match document.form {
        Form::Json => json_place(alloc, name, document.bytes, floats),
        Form::Toml => toml_place(alloc, name, document.bytes),
    }
}

fn json_place(alloc: Global, name: &str, bytes: &[u8], floats: Floats) -> Option<String> {
    match context_from_json_with(alloc, bytes, floats) {
        Ok(_context) => None,
        Err(refused) => refused_text(alloc, name, &refused),
    }
}

fn refused_text(alloc: Global, name: &str, refused: &ContextError) -> Option<String> {
    match refused.kind() {
        ErrorKind::OutOfMemory => None,
        ErrorKind::SyntaxError => place_text(alloc, name, refused.line(), refused.column()),
        _ => part_text(alloc, name, refused.path()),
    }
}

/// Where a value is refused that is given as JSON under a name of the context: `--json: rows[3].price`, the name and behind it the
/// path of the number. None where the value is not refused, and where memory is. Reads the value again.
pub fn value_place(alloc: Global, name: &str, json: &str, floats: Floats) -> Option<String> {
    match context_from_json_with(alloc, json.as_bytes(), floats) {
        Ok(_object) => None,
        Err(refused) => refused_part(alloc, name, &refused),
    }
}

// A value need be no object.
fn refused_part(alloc: Global, name: &str, refused: &ContextError) -> Option<String> {
    match refused.kind() {
        ErrorKind::OutOfMemory | ErrorKind::InvalidOperation => None,
        _ => value_text(alloc, name, refused.path()),
    }
}

// The path of a part of the value of a name.
fn value_text(alloc: Global, name: &str, path: &str) -> Option<String> {
    if path.is_empty() || path.as_bytes().starts_with(b"[") {
        format!(in alloc; "--json: {name}{path}").ok()
    } else {
        format!(in alloc; "--json: {name}.{path}").ok()
    }
}
