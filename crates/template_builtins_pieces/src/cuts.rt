//! Texts cut at the places where another stands.
ghost use Rattle.std.specs.Prelude.{◌≡◌, ◌<◌, IfOk, Some, length};
ghost use Rattle.template_builtins_pieces.specs.Cuts as cuts;
ghost use Rattle.template_builtins_pieces.specs.Reading.{all_shown};
ghost use Rattle.template_builtins_texts.specs.Replacing.{parts_between, places_up_to};

use crate::reading::cuts_up_to;
use std::alloc::{AllocError, Global};

// The parts between separators, after so many cuts from the left at most; below 0 there is no limit.
pub(crate) fn parts_between<'a>(
    alloc: Global,
    text: &'a str,
    separator: &str,
    count: i128,
) -> Result<Vec<&'a str>, AllocError>
    requires { 0 < length separator.now }
    ensures { IfOk result (λ parts. all_shown parts.items
        ≡ parts_between separator.now (places_up_to (Some count) text.entry.now) text.entry.now) }
{
    text.splitn(cuts_up_to(count, text) + 1, separator)
        .collect(alloc)
}

// The parts between separators, after so many cuts from the right at most.
pub(crate) fn last_parts<'a>(
    alloc: Global,
    text: &'a str,
    separator: &str,
    count: i128,
) -> Result<Vec<&'a str>, AllocError>
    requires { 0 < length separator.now }
    ensures { IfOk result (λ parts. all_shown parts.items
        ≡ cuts.last_parts separator.now (places_up_to (Some count) text.entry.now) text.entry.now) }
{
    let mut parts = parts_back(alloc, text, separator, count)?;
    parts.reverse();
    Ok(parts)
}

// The same, the last one first.
fn parts_back<'a>(
    alloc: Global,
    text: &'a str,
    separator: &str,
    count: i128,
) -> Result<Vec<&'a str>, AllocError>
    requires { 0 < length separator.now }
    ensures { IfOk result (λ parts. all_shown parts.items
        ≡ cuts.parts_back separator.now (places_up_to (Some count) text.entry.now) text.entry.now) }
{
    text.rsplitn(cuts_up_to(count, text) + 1, separator)
        .collect(alloc)
}
