//! JSON whose numbers are kept as they are spelled.
ghost use Rattle.std.specs.Prelude.{◌≡◌, ◌<◌, ◌≤◌, ◌⊎◌, [], ◌∷◌, None, Some, IfOk, IfErr, is_some, option_map};
ghost use Rattle.json.specs.Tree.{depth as nesting};
ghost use Rattle.json.specs.Value.{value_view};
ghost use Rattle.serde_json.specs.Read.{max_depth};
ghost use Rattle.template_values_json.specs.Contexts.{fault_of as fault_of_context, fault_of_tree as fault_of_object, tree_of};
ghost use Rattle.template_values_json.specs.Spelled.{spelled_value};
ghost use Rattle.template_values_json.specs.declared.contexts.Floats.TheVariants.{AsSpelled};
ghost use Rattle.template_values_core.specs.Depth.{depth};
ghost use Rattle.template_values_model.specs.declared.TheConstants.{DEPTH_LIMIT};
ghost use Rattle.template_values_errors.specs.Memory.{NoMemory};
ghost use Rattle.template_values_json.specs.Entries.{ArePlain};
ghost use Rattle.template_values_json.specs.Json.{IsRefusal};
ghost use Rattle.template_program_contexts.specs.Documents.{json_member, spelled_member};
ghost use Rattle.template_program_contexts.specs.Entries.{Say};
ghost use Rattle.template_program_contexts.specs.Values.{fault_of_tree};

use crate::spelled::{entries_from, value_from};
use json::{Reader, Scratch, Value as Json};
use std::alloc::{AllocError, Global};
use template_values_core::{Entry, Value};
use template_values_errors::{Error, ErrorKind};

// As deep as `serde_json` reads.
const MAX_DEPTH: usize = 127;

/// Whether a text is JSON: one value, of any kind, nested no deeper than 127 levels. Takes time in proportion to the text.
///
/// # Errors
///
/// Where memory is refused.
pub fn is_json(alloc: Global, text: &str) -> Result<bool, AllocError>
    ensures { IfOk result (λ b. b ≡ is_some (tree_of text.now)) }
{
    let mut scratch = Scratch::new(alloc);
    let mut reader = Reader::new(text, &mut scratch)?;
    match reader.skip_value(MAX_DEPTH) {
        Ok(()) => Ok(reader.next().is_none()),
        Err(_) => Ok(false),
    }
}

/// The value that a text is as JSON.
pub(crate) fn spelled_value(alloc: Global, text: &str) -> Result<Value, Error>
    ensures faultless { IfOk result (λ _. fault_of_tree (tree_of text.now) ≡ None) }
    ensures is { IfOk result (λ v. option_map spelled_value (tree_of text.now) ≡ Some v) }
    ensures shallow { IfOk result (λ v. depth v < DEPTH_LIMIT) }
    ensures refused { IfErr result (IsRefusal (fault_of_tree (tree_of text.now))) }
{
    let mut scratch = Scratch::new(alloc);
    let tree = read_tree(alloc, text, &mut scratch)?;
    value_from(alloc, &tree)
}

/// One entry for each member of the JSON object that the bytes are.
pub(crate) fn spelled_entries(alloc: Global, bytes: &[u8]) -> Result<Vec<Entry>, Error>
    ensures faultless { IfOk result (λ _. fault_of_context AsSpelled bytes.now ≡ None) }
    ensures says { IfOk result (λ es. Say (json_member AsSpelled bytes.now) es.items) }
    ensures plain { IfOk result (λ es. ArePlain es.items) }
    ensures refused { IfErr result (IsRefusal (fault_of_context AsSpelled bytes.now)) }
{
    match simdutf8::basic::from_utf8(bytes) {
        Ok(text) => text_entries(alloc, text),
        Err(_) => Err(Error::new(ErrorKind::SyntaxError)),
    }
}

fn text_entries(alloc: Global, text: &str) -> Result<Vec<Entry>, Error>
    ensures faultless { IfOk result (λ _. fault_of_object (tree_of text.now) ≡ None) }
    ensures says { IfOk result (λ es. Say (spelled_member (tree_of text.now)) es.items) }
    ensures plain { IfOk result (λ es. ArePlain es.items) }
    ensures refused { IfErr result (IsRefusal (fault_of_object (tree_of text.now))) }
{
    let mut scratch = Scratch::new(alloc);
    let tree = read_tree(alloc, text, &mut scratch)?;
    object_entries(alloc, &tree)
}

// One entry for each member of a document, which is to be an object.
fn object_entries(alloc: Global, tree: &Json<'_>) -> Result<Vec<Entry>, Error>
    requires shallow { nesting (value_view tree.now) ≤ max_depth }
    ensures faultless { IfOk result (λ _. fault_of_object (Some (value_view tree.now)) ≡ None) }
    ensures says { IfOk result (λ es. Say (spelled_member (Some (value_view tree.now))) es.items) }
    ensures plain { IfOk result (λ es. ArePlain es.items) }
    ensures refused { IfErr result (IsRefusal (fault_of_object (Some (value_view tree.now)))) }
{
    match tree {
        Json::Object(members) => entries_from(alloc, members),
        _ => Err(Error::new(ErrorKind::InvalidOperation)),
    }
}

// The JSON that a text is.
#[tactic(auto, unfolding(template_values_json::specs::Contexts::tree_of))]
fn read_tree<'a>(alloc: Global, text: &'a str, scratch: &'a mut Scratch) -> Result<Json<'a>, Error>
    ensures is { IfOk result (λ tree. tree_of text.now ≡ Some (value_view tree)) }
    ensures nests { IfOk result (λ tree. nesting (value_view tree) ≤ max_depth) }
    ensures refused { IfErr result (λ kinds. NoMemory kinds
        ⊎ ((tree_of text.now ≡ None) × (kinds ≡ ErrorKind.SyntaxError ∷ []))) }
{
    let mut reader = Reader::new(text, scratch)?;
    let tree = match Json::read(alloc, &mut reader, MAX_DEPTH) {
        Ok(tree) => tree,
        Err(json::Error::OutOfMemory) => return Err(Error::new(ErrorKind::OutOfMemory)),
        Err(_) => return Err(Error::new(ErrorKind::SyntaxError)),
    };
    match reader.next() {
        None => Ok(tree),
        Some(_) => Err(Error::new(ErrorKind::SyntaxError)),
    }
}
