//! A whole input, read to its end.
ghost use Rattle.std.specs.Prelude.{◌≡◌, ◌<◌, ◌≤◌, ◌⊎◌, IfOk, IfSome, IsErrOf, false};
ghost use Rattle.std.specs.Prelude.{IsTrue, OnOk, length, string_bytes, string_len, vec_len};
ghost use Rattle.std.specs.Io.KnownBytes.{Consumes, IsAtEnd};
ghost use Rattle.template_program_parts.specs.Reading.{AddsPiece, GivesAtMost, GivesCount, GivesNoText, LacksFile, LacksText};

use crate::{FileFault, Source};
use std::alloc::Global;

/// How many bytes one read asks for.
const PIECE: usize = 16384;

/// All bytes that `source` has left, which are fewer than `limit`. Reads them in pieces of 16 KiB, and
/// never more than `limit` of them; takes time in proportion to the bytes.
///
/// # Errors
///
/// [`FileFault::File`] where a read fails, and where `limit` bytes came, of which no more are read; what
/// a failing read stood before is not passed over. [`FileFault::Memory`] where memory was refused.
pub fn read_whole<S: Source>(
    alloc: Global,
    source: &mut S,
    limit: usize,
) -> Result<Vec<u8>, FileFault>
    ensures whole { IfOk result (λ bytes. IfSome (S.remaining source.old) (λ all. bytes.items ≡ all)) }
    ensures below { IfOk result (λ bytes. vec_len bytes < limit) }
    ensures taken { IfOk result (λ bytes. Consumes (S.remaining source.old) (S.remaining source.new) bytes.items) }
    ensures end { OnOk result (IsAtEnd (S.remaining source.new)) }

    // A failing read is told as `File`, and without one only an input that is too long is.
    ensures read_ok { OnOk result (S.has_failed source.new ≡ S.has_failed source.old) }
    ensures memory { IsErrOf result FileFault.Memory → S.has_failed source.new ≡ S.has_failed source.old }
    ensures file { IsErrOf result FileFault.File → IsTrue (S.has_failed source.new)
        ⊎ GivesCount (S.remaining source.old) (S.remaining source.new) limit }
    ensures no_further { GivesAtMost (S.remaining source.old) (S.remaining source.new) limit }

    // Where no read may fail, only an input that is too long is told so.
    ensures lacks { IsErrOf result FileFault.File → S.may_fail source.old ≡ false → S.has_failed source.old ≡ false
        → LacksFile (S.remaining source.old) limit }
{
    let mut bytes = Vec::new(alloc);
    let mut piece = [0u8; PIECE];
    while bytes.len() < limit {
        let room = (limit - bytes.len()).min(PIECE);
        if read_more(source, &mut piece[..room], &mut bytes)? == 0 {
            return Ok(bytes);
        }
    }
    Err(FileFault::File)
}

/// The text of all bytes that `source` has left, read as [`read_whole`] does.
///
/// # Errors
///
/// As [`read_whole`], and [`FileFault::File`] where the bytes are no UTF-8.
pub fn read_text<S: Source>(
    alloc: Global,
    source: &mut S,
    limit: usize,
) -> Result<String, FileFault>
    ensures whole { IfOk result (λ text. IfSome (S.remaining source.old) (λ all. string_bytes text ≡ all)) }
    ensures below { IfOk result (λ text. string_len text < limit) }
    ensures taken { IfOk result (λ text. Consumes (S.remaining source.old) (S.remaining source.new) (string_bytes text)) }
    ensures end { OnOk result (IsAtEnd (S.remaining source.new)) }

    // As above, but for bytes that are no text.
    ensures read_ok { OnOk result (S.has_failed source.new ≡ S.has_failed source.old) }
    ensures memory { IsErrOf result FileFault.Memory → S.has_failed source.new ≡ S.has_failed source.old }
    ensures file { IsErrOf result FileFault.File → IsTrue (S.has_failed source.new)
        ⊎ GivesCount (S.remaining source.old) (S.remaining source.new) limit
        ⊎ GivesNoText (S.remaining source.old) (S.remaining source.new) }
    ensures no_further { GivesAtMost (S.remaining source.old) (S.remaining source.new) limit }
    ensures lacks { IsErrOf result FileFault.File → S.may_fail source.old ≡ false → S.has_failed source.old ≡ false
        → LacksText (S.remaining source.old) limit }
{
    let bytes = read_whole(alloc, source, limit)?;
    String::from_utf8(bytes).map_err(|_| FileFault::File)
}

/// One read, of at most as many bytes as `piece` takes, put behind `bytes`; how many came.
fn read_more<S: Source>(
    source: &mut S,
    piece: &mut [u8],
    bytes: &mut Vec<u8>,
) -> Result<usize, FileFault>
    ensures count { IfOk result (λ count. count ≤ length piece.old) }
    ensures adds { IfOk result (λ count. AddsPiece (S.remaining source.old) (S.remaining source.new)
        bytes.old.items bytes.new.items count) }
    ensures end { IfOk result (λ count. count ≡ 0 → 0 < length piece.old
        → IsAtEnd (S.remaining source.new)) }
    ensures read_ok { OnOk result (S.has_failed source.new ≡ S.has_failed source.old) }
    ensures memory { IsErrOf result FileFault.Memory → S.has_failed source.new ≡ S.has_failed source.old }
    ensures file { IsErrOf result FileFault.File → IsTrue (S.has_failed source.new) }
    ensures no_further { GivesAtMost (S.remaining source.old) (S.remaining source.new)
        (length piece.old) }
    ensures sound { S.may_fail source.old ≡ false →
        (S.may_fail source.new ≡ false) × (S.has_failed source.new ≡ S.has_failed source.old) }
{
    let count = source.read_piece(piece)?;
    bytes.extend_from_slice(&piece[..count])?;
    Ok(count)
}
