//! The JSON of a request.
ghost use Rattle.std.specs.Prelude.{◌≡◌, IfErr, IfOk, None, Some};
ghost use Rattle.std.specs.Str.{IsUtf8};
ghost use Rattle.json.specs.Json.{document};
ghost use Rattle.json.specs.Tree.{HasNumbers};
ghost use Rattle.json.specs.Value.{value_view};
ghost use Rattle.template_requests.specs.Faults.{IsFaultOf};

use crate::faults::MessageFault;
use crate::member::Member;
use json::{Error, Scratch, Value as Json};
use std::alloc::Global;

/// The JSON that the bytes are, which nests 128 levels at most. Its texts are those of the bytes, but for those with escapes,
/// which stand in `scratch`.
///
/// # Errors
///
/// `Malformed` with the whole where they are no JSON, or nest deeper; `Memory`.
pub fn tree_of<'text>(
    alloc: Global,
    bytes: &'text [u8],
    scratch: &'text mut Scratch,
) -> Result<Json<'text>, MessageFault>
    ensures is { IfOk result (λ tree. IsUtf8 bytes.now × (document bytes.now ≡ Some (value_view tree))) }
    ensures numbers { IfOk result (λ tree. HasNumbers (value_view tree)) }
    ensures refused { IfErr result (λ fault. IsFaultOf fault Member.Whole (IsUtf8 bytes.now → document bytes.now ≡ None)) }
{
    match Json::from_slice(alloc, bytes, scratch) {
        Ok(tree) => Ok(tree),
        Err(Error::Invalid) => Err(MessageFault::Malformed(Member::Whole)),
        Err(_) => Err(MessageFault::Memory),
    }
}
