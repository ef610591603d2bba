//! Contexts: of one document, and of several with definitions and values.
use crate::report::Report;
use serde_json::{Map, Value as Json};
use std::alloc::Global;
use std::fmt::Display;
use template_program_contexts::{Document, Form, context_with, is_json};
use template_rows::pairs_of;
use template_values_core::Value;
use template_values_errors::ErrorKind;
use template_values_json::{Floats, context_from_json_with};

/// What comes of a document, where floats are refused, and where they are texts.
pub(crate) fn about_document(
    alloc: Global,
    document: &Json,
    entries: &Map<String, Json>,
    out: &mut Report,
) {
    out.expect_names(entries, &["d"]);
    let document = out.bytes_of(document);
    tell_document(alloc, document.as_slice(), Floats::Refused, out);
    out.push_str(" | ");
    tell_document(alloc, document.as_slice(), Floats::AsSpelled, out)
}

fn tell_document(alloc: Global, document: &[u8], floats: Floats, out: &mut Report) {
    tell(
        "fault: ",
        &context_from_json_with(alloc, document, floats),
        out,
    )
}

fn tell<E: Display + Drop>(fault: &str, made: &Result<Value, E>, out: &mut Report) {
    match made {
        Ok(context) => out.value(context),
        Err(error) => out.error(fault, error),
    }
}

/// Whether a text is JSON.
pub(crate) fn about_json(alloc: Global, text: &str, entries: &Map<String, Json>, out: &mut Report) {
    out.expect_names(entries, &["is_json"]);
    match is_json(alloc, text) {
        Ok(is_json) => out.tell("", &is_json),
        Err(_refused) => out.refuse(ErrorKind::OutOfMemory),
    }
}

/// The context of documents, definitions and values, where floats are refused, and where they are texts.
pub(crate) fn about_documents(alloc: Global, entries: &Map<String, Json>, out: &mut Report) {
    out.expect_names(entries, &["documents", "definitions", "values"]);
    let documents = documents_of(alloc, entries.get("documents"), out);
    let definitions = pairs(alloc, entries.get("definitions"), out);
    let values = pairs(alloc, entries.get("values"), out);
    let (documents, definitions) = (documents.as_slice(), definitions.as_slice());
    about_parts(alloc, documents, definitions, values.as_slice(), out)
}

fn pairs(alloc: Global, pairs: Option<&Json>, out: &mut Report) -> Vec<(String, String)> {
    out.or(pairs_of(alloc, pairs), Vec::new(alloc))
}

fn about_parts(
    alloc: Global,
    documents: &[(Form, Vec<u8>)],
    definitions: &[(String, String)],
    values: &[(String, String)],
    out: &mut Report,
) {
    let documents = lent(alloc, documents, out);
    let documents = documents.as_slice();
    tell_context(alloc, documents, definitions, values, Floats::Refused, out);
    out.push_str(" | ");
    tell_context(
        alloc,
        documents,
        definitions,
        values,
        Floats::AsSpelled,
        out,
    )
}

fn tell_context(
    alloc: Global,
    documents: &[Document<'_>],
    definitions: &[(String, String)],
    values: &[(String, String)],
    floats: Floats,
    out: &mut Report,
) {
    tell(
        "! ",
        &context_with(alloc, documents, definitions, values, floats),
        out,
    )
}

// The documents, whose bytes are held elsewhere.
fn lent<'a>(
    alloc: Global,
    documents: &'a [(Form, Vec<u8>)],
    out: &mut Report,
) -> Vec<Document<'a>> {
    let mut lent = Vec::new(alloc);
    for (form, bytes) in documents {
        let bytes = bytes.as_slice();
        if lent.push(Document { bytes, form: *form }).is_err() {
            out.refuse(ErrorKind::OutOfMemory)
        }
    }
    lent
}

// The bytes of the documents that an array lists, if it stands.
fn documents_of(alloc: Global, documents: Option<&Json>, out: &mut Report) -> Vec<(Form, Vec<u8>)> {
    let mut read = Vec::new(alloc);
    match documents {
        None => {}
        Some(Json::Array(documents)) => list_documents(documents.as_slice(), &mut read, out),
        Some(_) => out.refuse(ErrorKind::SyntaxError),
    }
    read
}

fn list_documents(documents: &[Json], read: &mut Vec<(Form, Vec<u8>)>, out: &mut Report) {
    for document in documents {
        let document = document_of(document, out);
        if read.push(document).is_err() {
            out.refuse(ErrorKind::OutOfMemory)
        }
    }
}

fn document_of(document: &Json, out: &mut Report) -> (Form, Vec<u8>) {
    match document {
        Json::Object(entries) => (Form::Toml, toml_of(entries, out)),
        bytes => (Form::Json, out.bytes_of(bytes)),
    }
}

fn toml_of(entries: &Map<String, Json>, out: &mut Report) -> Vec<u8> {
    out.expect_names(entries, &["toml"]);
    match entries.get("toml") {
        Some(bytes) => out.bytes_of(bytes),
        None => {
            out.refuse(ErrorKind::SyntaxError);
            Vec::new(*out.text.allocator())
        }
    }
}
