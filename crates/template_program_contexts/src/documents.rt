//! Documents, and the entries that they have.
ghost use Rattle.std.specs.Prelude.{◌≡◌, None, IfOk, IfErr};
ghost use Rattle.template_values_errors.specs.Memory.{NoMemory};
ghost use Rattle.template_values_json.specs.Entries.{ArePlain};
ghost use Rattle.template_values_json.specs.Json.{IsRefusal};
ghost use Rattle.template_program_contexts.specs.Documents.{documents_under, fault_of_document, fault_of_documents, json_member, member_of};
ghost use Rattle.template_program_contexts.specs.Entries.{Say};
ghost use Rattle.template_values_json.specs.Contexts.{fault_of};

use crate::texts::spelled_entries;
use crate::toml_tables::toml_entries;
use std::alloc::Global;
use template_values_core::Entry;
use template_values_errors::Error;
use template_values_json::{Floats, entries_from_json};

/// What the bytes of a document are.
#[derive(Clone, Copy, Debug, Drop, PartialEq, Eq)]
pub enum Form {
    /// A JSON object.
    Json,
    /// TOML.
    Toml,
}

/// A document that a context is read from.
#[derive(Clone, Copy)]
pub struct Document<'a> {
    /// What stands in it.
    pub bytes: &'a [u8],
    /// What the bytes are.
    pub form: Form,
}

/// One entry for each member of each document, in order.
pub(crate) fn document_entries(
    alloc: Global,
    documents: &[Document<'_>],
    floats: Floats,
) -> Result<Vec<Entry>, Error>
    ensures faultless { IfOk result (λ _. fault_of_documents floats documents.now ≡ None) }
    ensures says { IfOk result (λ es. Say (documents_under floats documents.now) es.items) }
    ensures plain { IfOk result (λ es. ArePlain es.items) }
    ensures refused { IfErr result (IsRefusal (fault_of_documents floats documents.now)) }
{
    let mut entries = Vec::new(alloc);
    for document in documents {
        let mut members = member_entries(alloc, document, floats)?;
        entries.append(&mut members)?;
    }
    Ok(entries)
}

/// One entry for each member of a document.
fn member_entries(
    alloc: Global,
    document: &Document<'_>,
    floats: Floats,
) -> Result<Vec<Entry>, Error>
    ensures faultless { IfOk result (λ _. fault_of_document floats document.now ≡ None) }
    ensures says { IfOk result (λ es. Say (member_of floats document.now) es.items) }
    ensures plain { IfOk result (λ es. ArePlain es.items) }
    ensures refused { IfErr result (IsRefusal (fault_of_document floats document.now)) }
{
    match document.form {
        Form::Json => json_entries(alloc, document.bytes, floats),
        Form::Toml => toml_entries(alloc, document.bytes),
    }
}

fn json_entries(alloc: Global, bytes: &[u8], floats: Floats) -> Result<Vec<Entry>, Error>
    ensures faultless { IfOk result (λ _. fault_of floats bytes.now ≡ None) }
    ensures says { IfOk result (λ es. Say (json_member floats bytes.now) es.items) }
    ensures plain { IfOk result (λ es. ArePlain es.items) }
    ensures refused { IfErr result (IsRefusal (fault_of floats bytes.now)) }
{
    match floats {
        Floats::Refused => entries_from_json(alloc, bytes),
        Floats::AsSpelled => spelled_entries(alloc, bytes),
    }
}
