//! A reply, written where the caller wants it.
ghost use Rattle.std.specs.Prelude.{◌≡◌, length, string_bytes};
ghost use Rattle.template_c.specs.Exports.{laid};

use template_replies::Reply;

/// Writes a beginning of the reply, as long as there is room, and the length of the whole. Gives the status.
pub(crate) fn write_reply(reply: &Reply, out: &mut [u8], written: &mut usize) -> u8
    ensures status { result ≡ reply.now.status }
    ensures laid { out.new ≡ laid (string_bytes reply.now.text) out.old }
    ensures written { written.new ≡ length (string_bytes reply.now.text) }
{
    let bytes = reply.text.as_bytes();
    *written = bytes.len();
    lay(bytes, out);
    reply.status
}

// Lays a beginning of the bytes over those that stand there.
fn lay(bytes: &[u8], out: &mut [u8])
    ensures { out.new ≡ laid bytes.now out.old }
{
    let count = out.len().min(bytes.len());
    out[..count].copy_from_slice(&bytes[..count]);
}
