//! The documents of the context, as they are read.
ghost use Rattle.std.specs.Prelude.{◌≡◌, ℕ, [], List, Some, map, true, IfOk, IfSome, IsErrOf};
ghost use Rattle.template_program_run.specs.Held.{all_held, bytes_or, held_as, origin_in};
ghost use Rattle.template_program_run.specs.Origins.{AreFrom, IsFrom, LacksAt, LacksDataFile, LacksDocument, LacksPiped, shown_as};

use crate::inputs::INPUT_LIMIT;
use crate::origins::{Origin, holds_input};
use std::alloc::{AllocError, Global};
use template_program_contexts::{Document, Form};
use template_program_parts::{FileFault, FileSystem, ReadWrapper, Reader, read_file, read_whole};

/// The documents of a context, as they were read.
#[derive(Drop)]
pub(crate) struct Held {
    /// The documents, in order.
    pub(crate) documents: Vec<HeldDocument>,
    /// What the input has, where one of them is the input.
    pub(crate) input: Vec<u8>,
}

/// A document, as it was read.
#[derive(Drop)]
pub(crate) struct HeldDocument {
    /// The path of a file, as it is named; `-` where it is the input.
    pub(crate) name: String,
    /// The bytes of a file; none where it is the input.
    pub(crate) bytes: Option<Vec<u8>>,
    /// What they are.
    pub(crate) form: Form,
}

impl Held {
    /// No documents.
    pub(crate) fn new(alloc: Global) -> Held
        ensures { all_held result ≡ [] }
    {
        Held {
            documents: Vec::new(alloc),
            input: Vec::new(alloc),
        }
    }
}

/// Reads what stands at the origins: the input, where it is one of them, and then the files in order.
pub(crate) fn read_documents<R: FileSystem + AllocGlobal, I: Reader>(
    rt: &R,
    origins: &[Origin<'_>],
    input: &mut I,
) -> Result<Held, FileFault>
    ensures read { IfOk result (λ held. AreFrom (R.content rt.now) (I.remaining input.old) (map origin_in origins.now) (all_held held)) }
    ensures refused { IsErrOf result FileFault.File
        → LacksDocument (R.content rt.now) (I.may_fail input.old) (I.remaining input.old) (map origin_in origins.now) }
{
    let piped = read_piped(rt.alloc(), holds_input(origins), input)?;
    let documents = read_origins(rt, origins)?;
    Ok(Held {
        documents,
        input: piped,
    })
}

// What the input has, if it is wanted.
fn read_piped<I: Reader>(
    alloc: Global,
    is_wanted: bool,
    input: &mut I,
) -> Result<Vec<u8>, FileFault>
    ensures read { IfOk result (λ bytes. is_wanted ≡ true → IfSome (I.remaining input.old) (λ all. bytes.items ≡ all)) }
    ensures refused { IsErrOf result FileFault.File → LacksPiped (I.may_fail input.old) (I.remaining input.old) is_wanted }
{
    if !is_wanted {
        return Ok(Vec::new(alloc));
    }
    read_whole(alloc, &mut ReadWrapper::new(input), INPUT_LIMIT)
}

// What stands at the origins; nothing is read where it is the input.
fn read_origins<R: FileSystem + AllocGlobal>(
    rt: &R,
    origins: &[Origin<'_>],
) -> Result<Vec<HeldDocument>, FileFault>
    ensures read { IfOk result (λ documents. (piped : List ℕ)
        → AreFrom (R.content rt.now) (Some piped) (map origin_in origins.now) (map (held_as piped) documents.items)) }
    ensures refused { IsErrOf result FileFault.File → LacksDataFile (R.content rt.now) (map origin_in origins.now) }
{
    let mut documents = Vec::new(rt.alloc());
    for origin in origins {
        documents.push(read_origin(rt, *origin)?)?;
    }
    Ok(documents)
}

fn read_origin<R: FileSystem + AllocGlobal>(
    rt: &R,
    origin: Origin<'_>,
) -> Result<HeldDocument, FileFault>
    ensures read { IfOk result (λ document. (piped : List ℕ)
        → IsFrom (R.content rt.now) (Some piped) (origin_in origin.entry) (held_as piped document)) }
    ensures refused { IsErrOf result FileFault.File → LacksAt (R.content rt.now) (origin_in origin.entry) }
{
    match origin {
        Origin::File(path, form) => {
            let name = String::from_str(rt.alloc(), path)?;
            let bytes = read_file(rt, path, INPUT_LIMIT)?;
            Ok(HeldDocument {
                name,
                bytes: Some(bytes),
                form,
            })
        }
        Origin::Input => Ok(HeldDocument {
            name: String::from_str(rt.alloc(), "-")?,
            bytes: None,
            form: Form::Json,
        }),
    }
}

/// The documents that are held, whose bytes are not copied.
pub(crate) fn documents_of<'a>(
    alloc: Global,
    held: &'a Held,
) -> Result<Vec<Document<'a>>, AllocError>
    ensures { IfOk result (λ documents. map shown_as documents.items ≡ all_held held.entry.now) }
{
    lent(alloc, held.documents.as_slice(), held.input.as_slice())
}

fn lent<'a>(
    alloc: Global,
    held: &'a [HeldDocument],
    input: &'a [u8],
) -> Result<Vec<Document<'a>>, AllocError>
    ensures { IfOk result (λ documents. map shown_as documents.items ≡ map (held_as input.entry.now) held.entry.now) }
{
    let mut documents = Vec::new(alloc);
    for document in held {
        documents.push(document_of(document, input))?;
    }
    Ok(documents)
}

/// One of them, where the input has these bytes.
pub(crate) fn document_of<'a>(held: &'a HeldDocument, input: &'a [u8]) -> Document<'a>
    ensures { shown_as result ≡ held_as input.entry.now held.entry.now }
{
    Document {
        bytes: bytes_of(held, input),
        form: held.form,
    }
}

fn bytes_of<'a>(document: &'a HeldDocument, input: &'a [u8]) -> &'a [u8]
    ensures { result.now ≡ bytes_or input.entry.now document.entry.now.bytes }
{
    match &document.bytes {
        Some(bytes) => bytes.as_slice(),
        None => input,
    }
}
