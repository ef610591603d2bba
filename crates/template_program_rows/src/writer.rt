//! A writer of a text.
ghost use Rattle.template_program_output.specs.Shown.{Puts};

use template_program_files::Writer;
use template_program_output::{Output, write_flushed};
use template_program_parts::RENDER;

/// What writes a text, and ends with this status, or with that of a fault of a render where it is not taken.
#[derive(Clone, Copy)]
pub(crate) struct Text<'a> {
    pub(crate) text: &'a str,
    pub(crate) status: u8,
}

impl Writer for Text<'_> {
    ghost writes = { λ writer before after _ _ _. Puts before after writer.text.now };

    fn write_to<O: Output, F: Output>(&self, mut out: O, _fault: &mut F) -> (u8, O) {
        match write_flushed(&mut out, self.text.as_bytes()) {
            Ok(()) => (self.status, out),
            Err(_refused) => (RENDER, out),
        }
    }
}
