//! Texts broken into lines of a width.
ghost use Rattle.std.specs.Prelude.{◌≡◌, ◌≤◌, ◌++◌, IfErr, IfOk, IsTrue, OnOk, chars, string_bytes};
ghost use Rattle.template_builtins_layout.specs.Layouts as layouts;
ghost use Rattle.template_values_errors.specs.Memory.{NoMemory};

use crate::characters::split_text;
use crate::pieces::split_word;
use crate::putting::push_text;
use crate::reading::character_count;
use std::alloc::Global;
use template_values_errors::Error;
use template_values_print::Markup;

// How lines are laid out.
#[derive(Clone, Copy)]
pub(crate) struct Layout<'a> {
    // How words are put in.
    pub(crate) markup: Markup,
    // What stands between lines, as it is put in.
    pub(crate) wrap: &'a str,
    // How many characters a line has at most.
    pub(crate) width: usize,
    // Whether longer words are cut.
    pub(crate) cuts: bool,
}

// The lines of a text, each broken into lines of a width.
pub(crate) fn wrapped(alloc: Global, layout: Layout<'_>, text: &str) -> Result<String, Error>
    ensures made { IfOk result (λ t. string_bytes t ≡ layouts.wrapped layout.entry text.now) }
    ensures refused { IfErr result NoMemory }
{
    let mut out = String::new(alloc);
    let mut begun = false;
    for line in text.lines() {
        push_next_line(&mut out, layout, begun, line)?;
        begun = true;
    }
    Ok(out)
}

// Puts in a line, behind a break if it is not the first.
fn push_next_line(
    out: &mut String,
    layout: Layout<'_>,
    begun: bool,
    line: &str,
) -> Result<(), Error>
    ensures made { OnOk result (string_bytes out.new ≡ string_bytes out.old ++ layouts.next_line layout.entry begun line.now) }
    ensures refused { IfErr result NoMemory }
{
    if !begun {
        return push_line(out, layout, line);
    }
    push_text(out, Markup::Plain, layout.wrap)?;
    push_line(out, layout, line)
}

// Puts in a line, broken before words that have no room.
fn push_line(out: &mut String, layout: Layout<'_>, line: &str) -> Result<(), Error>
    ensures made { OnOk result (string_bytes out.new ≡ string_bytes out.old ++ layouts.wrapped_line layout.entry line.now) }
    ensures refused { IfErr result NoMemory }
{
    let mut room = layout.width;
    let mut rest = line;
    while let Some(((gap, word), after)) = split_word(rest) {
        let start = push_lead(out, layout, room, gap, word)?;
        room = push_word(out, layout, start, word)?;
        rest = after;
    }
    Ok(())
}

// Puts in what stands before a word, and tells the room that is left.
fn push_lead(
    out: &mut String,
    layout: Layout<'_>,
    room: usize,
    gap: &str,
    word: &str,
) -> Result<usize, Error>
    ensures made { OnOk result (string_bytes out.new ≡ string_bytes out.old
        ++ layouts.lead layout.entry room (chars gap.now, chars word.now)) }
    ensures left { IfOk result (λ n. n ≡ layouts.room_before layout.entry room (chars gap.now, chars word.now)) }
    ensures refused { IfErr result NoMemory }
{
    let blanks = character_count(gap);
    if stays(layout, room, blanks, character_count(word)) {
        push_text(out, layout.markup, gap)?;
        return Ok(room - blanks);
    }
    if room == layout.width {
        return Ok(layout.width);
    }
    push_text(out, Markup::Plain, layout.wrap)?;
    Ok(layout.width)
}

// Whether a word of so many characters stays on a line with so much room, behind white space of so many.
fn stays(layout: Layout<'_>, room: usize, gap: usize, word: usize) -> bool
    ensures value { result ≡ layouts.stays layout.entry room gap word }
    ensures within { IsTrue result → gap ≤ room }
{
    gap < room && (word <= room - gap || (layout.cuts && layout.width < word))
}

// Puts in a word on a line with so much room, and tells the room that it leaves.
fn push_word(out: &mut String, layout: Layout<'_>, room: usize, word: &str) -> Result<usize, Error>
    ensures made { OnOk result (string_bytes out.new ≡ string_bytes out.old ++ layouts.typed layout.entry room (chars word.now)) }
    ensures left { IfOk result (λ n. n ≡ layouts.room_behind layout.entry room (chars word.now)) }
    ensures refused { IfErr result NoMemory }
{
    let mut left = room;
    let mut rest = word;
    while let Some((character, after)) = split_text(rest) {
        left = push_character(out, layout, left, character)?;
        rest = after;
    }
    Ok(left)
}

fn push_character(
    out: &mut String,
    layout: Layout<'_>,
    room: usize,
    character: &str,
) -> Result<usize, Error>
    ensures made { OnOk result (string_bytes out.new ≡ string_bytes out.old ++ layouts.next_character layout.entry room character.now) }
    ensures left { IfOk result (λ n. n ≡ layouts.room_after layout.entry room) }
    ensures refused { IfErr result NoMemory }
{
    if layout.cuts && room == 0 {
        push_text(out, Markup::Plain, layout.wrap)?;
        push_text(out, layout.markup, character)?;
        return Ok(layout.width.saturating_sub(1));
    }
    push_text(out, layout.markup, character)?;
    Ok(room.saturating_sub(1))
}
