//! JSON that means nothing to HTML.
ghost use Rattle.std.specs.Prelude.{◌≡◌, ◌<◌, ◌∷◌, [], IfOk, MatchOption, OnSome, string_bytes};
ghost use Rattle.template_builtins_web.specs.Markup.{unmarked, unmarked_byte};

use std::alloc::{AllocError, Global};

// What may mean something to HTML stands as an escape of JSON.
pub(crate) fn unmarked(alloc: Global, text: &str) -> Result<String, AllocError>
    ensures { IfOk result (λ t. string_bytes t ≡ unmarked text.now) }
{
    let mut out = String::new(alloc);
    let mut start = 0;
    for (i, byte) in text.as_bytes().iter().enumerate() {
        let Some(reference) = unmarked_byte(*byte) else {
            continue;
        };
        out.push_str(&text[start..i])?;
        out.push_str(reference)?;
        start = i + 1;
    }
    out.push_str(&text[start..])?;
    Ok(out)
}

fn unmarked_byte(byte: u8) -> Option<&'static str>
    ensures is { MatchOption result (unmarked_byte byte ≡ byte ∷ []) (λ r. r.now ≡ unmarked_byte byte) }
    ensures ascii { OnSome result (byte < 128) }
{
    match byte {
        b'<' => Some("\\u003c"),
        b'>' => Some("\\u003e"),
        b'&' => Some("\\u0026"),
        b'\'' => Some("\\u0027"),
        _ => None,
    }
}
