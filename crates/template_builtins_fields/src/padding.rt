//! What is shown, in the width of its field.
ghost use Rattle.std.specs.Prelude.{◌≡◌, IfOk, chars, length, string_bytes};
ghost use Rattle.std.specs.Char.{encode_utf8};
ghost use Rattle.std.specs.List.{repeat};
ghost use Rattle.template_builtins_arguments.specs.Answers.{Tells, TellsAs};
ghost use Rattle.template_builtins_fields.specs.Padding as padding;
ghost use Rattle.template_builtins_fields.specs.Shown as forms;

use crate::layouts::{Alignment, Layout};
use crate::shown::Form;
use std::alloc::{AllocError, Global};
use template_builtins_arguments::refusal;
use template_values_errors::Error;

#[tactic(auto, unfolding(crate::specs::Padding::laid_out))]
pub(crate) fn laid_out(alloc: Global, layout: Layout, form: &Form<'_>) -> Result<String, Error>
    ensures { TellsAs (λ s. string_bytes s) result (padding.laid_out layout (forms.seen form.now)) }
{
    let alignment = alignment_of(layout, form.number)?;
    let sign = sign_of(form.negative);
    Ok(padded(
        alloc,
        alignment,
        fill_of(layout),
        layout.width,
        sign,
        form.body.as_str(),
    )?)
}

fn sign_of(negative: bool) -> &'static str
    ensures { result.now ≡ padding.sign_of negative }
{
    if negative { "-" } else { "" }
}

// What fills the width up: a zero or a space where nothing is said.
fn fill_of(layout: Layout) -> char
    ensures { result ≡ padding.fill_of layout }
{
    match layout.fill {
        Some(fill) => fill,
        None => zero_or_space(layout.zero),
    }
}

fn zero_or_space(zero: bool) -> char
    ensures { result ≡ padding.zero_or_space zero }
{
    if zero { '0' } else { ' ' }
}

// Only numbers have a sign that stands apart.
fn alignment_of(layout: Layout, number: bool) -> Result<Alignment, Error>
    ensures { Tells result (padding.alignment_of layout number) }
{
    match layout.alignment {
        None => Ok(usual_alignment(layout.zero, number)),
        Some(Alignment::Apart) => apart(number),
        Some(alignment) => Ok(alignment),
    }
}

fn apart(number: bool) -> Result<Alignment, Error>
    ensures { Tells result (padding.apart number) }
{
    if number {
        Ok(Alignment::Apart)
    } else {
        refusal()
    }
}

// Where numbers and other values stand when nothing is said.
fn usual_alignment(zero: bool, number: bool) -> Alignment
    ensures { result ≡ padding.usual_alignment zero number }
{
    if !number {
        Alignment::Left
    } else if zero {
        Alignment::Apart
    } else {
        Alignment::Right
    }
}

#[tactic(auto, unfolding(crate::specs::Padding::padded))]
fn padded(
    alloc: Global,
    alignment: Alignment,
    fill: char,
    width: usize,
    sign: &str,
    body: &str,
) -> Result<String, AllocError>
    ensures { IfOk result (λ s. string_bytes s ≡ padding.padded alignment (encode_utf8 fill) width sign.now body.now) }
{
    let lacking = width
        .saturating_sub(character_count(sign))
        .saturating_sub(character_count(body));
    let gaps = gaps_of(alignment, lacking);
    let mut out = filling(alloc, fill, gaps.front)?;
    out.push_str(sign)?;
    out.push_str(filling(alloc, fill, gaps.inner)?.as_str())?;
    out.push_str(body)?;
    out.push_str(filling(alloc, fill, gaps.back)?.as_str())?;
    Ok(out)
}

// So many of a character.
fn filling(alloc: Global, fill: char, count: usize) -> Result<String, AllocError>
    ensures { IfOk result (λ s. string_bytes s ≡ repeat count (encode_utf8 fill)) }
{
    fill.encode_utf8(&mut [0; 4]).repeat(alloc, count)
}

fn character_count(text: &str) -> usize
    ensures { result ≡ length (chars text.now) }
{
    text.chars().count()
}

// How many characters fill up before a sign, between it and the digits, and behind.
#[derive(Clone, Copy)]
struct Gaps {
    front: usize,
    inner: usize,
    back: usize,
}

fn gaps_of(alignment: Alignment, lacking: usize) -> Gaps
    ensures { result ≡ padding.gaps_of alignment lacking }
{
    match alignment {
        Alignment::Left => Gaps {
            front: 0,
            inner: 0,
            back: lacking,
        },
        Alignment::Right => Gaps {
            front: lacking,
            inner: 0,
            back: 0,
        },
        Alignment::Center => Gaps {
            front: lacking / 2,
            inner: 0,
            back: lacking - lacking / 2,
        },
        Alignment::Apart => Gaps {
            front: 0,
            inner: lacking,
            back: 0,
        },
    }
}
