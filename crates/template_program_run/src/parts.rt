//! What the context of a render is made of.
ghost use Rattle.std.specs.Prelude.{◌≡◌, []};

use template_program_contexts::Document;
use template_values_json::Floats;

/// What the context of a render is made of, beside the definitions of its request: these go over the documents, and the values
/// over both.
#[derive(Clone, Copy)]
pub struct ContextParts<'a> {
    /// The documents, in order: a later one's members replace those of the same names.
    pub documents: &'a [Document<'a>],
    /// The values, as names with texts of JSON: a later one replaces an earlier one of its name.
    pub values: &'a [(String, String)],
    /// What becomes of a number of JSON that is no whole one of 64 bits.
    pub floats: Floats,
}

impl<'a> ContextParts<'a> {
    /// The documents alone, whose floats are refused.
    pub fn of_documents(documents: &'a [Document<'a>]) -> ContextParts<'a>
        ensures documents { result.documents.now ≡ documents.entry.now }
        ensures values { result.values.now ≡ [] }
        ensures floats { result.floats ≡ Floats.Refused }
    {
        ContextParts {
            documents,
            values: &[],
            floats: Floats::Refused,
        }
    }
}
