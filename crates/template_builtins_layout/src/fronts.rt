//! The first characters of a text.
ghost use Rattle.std.specs.Prelude.{◌≡◌, IfOk, string_bytes};
ghost use Rattle.template_builtins_layout.specs.Fronts.{before_last_space, first_characters, front_of};

use crate::reading::character_count;
use std::alloc::{AllocError, Global};

// So many first characters that an end has room behind them, cut off at their last space unless words may be cut.
#[tactic(auto, unfolding(crate::specs::Fronts::front_of))]
pub(crate) fn front_of(
    alloc: Global,
    killwords: bool,
    length: usize,
    end: &str,
    text: &str,
) -> Result<String, AllocError>
    ensures { IfOk result (λ t. string_bytes t ≡ front_of killwords length end.now text.now) }
{
    let count = length.saturating_sub(character_count(end));
    let front = first_characters(alloc, count, text)?;
    if killwords {
        return Ok(front);
    }
    String::from_str(alloc, before_last_space(front.as_str()))
}

fn first_characters(alloc: Global, count: usize, text: &str) -> Result<String, AllocError>
    ensures { IfOk result (λ t. string_bytes t ≡ first_characters count text.now) }
{
    text.chars().take(count).collect(alloc)
}

// What stands before the last space, or all where there is none.
fn before_last_space(text: &str) -> &str
    ensures { result.now ≡ before_last_space text.now }
{
    match text.rfind(' ') {
        Some(place) => &text[..place],
        None => text,
    }
}
