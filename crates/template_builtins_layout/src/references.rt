//! References in texts, and the characters that they stand for.
ghost use Rattle.std.specs.Prelude.{◌≡◌, ◌++◌, ◌∷◌, IfOk, MatchOption, OnOk, option_copied, string_bytes};
ghost use Rattle.template_builtins_layout.specs.References.{character_named, part_after, referred, unescaped};

use std::alloc::{AllocError, Global};

// A text with the characters that its references stand for.
pub(crate) fn unescaped(alloc: Global, text: &str) -> Result<String, AllocError>
    ensures { IfOk result (λ t. string_bytes t ≡ unescaped text.now) }
{
    let mut out = String::new(alloc);
    let mut behind = false;
    let mut rest = text;
    while let Some((part, after)) = rest.split_once('&') {
        push_part(&mut out, behind, part)?;
        rest = after;
        behind = true;
    }
    push_part(&mut out, behind, rest)?;
    Ok(out)
}

// Puts in a part of a text, which stands behind an ampersand or not.
fn push_part(out: &mut String, behind: bool, part: &str) -> Result<(), AllocError>
    ensures { OnOk result (string_bytes out.new ≡ string_bytes out.old ++ part_after behind part.now) }
{
    if behind {
        push_referred(out, part)
    } else {
        out.push_str(part)
    }
}

// What stands behind an ampersand: a name up to a semicolon as its character.
fn push_referred(out: &mut String, part: &str) -> Result<(), AllocError>
    ensures { OnOk result (string_bytes out.new ≡ string_bytes out.old ++ referred part.now) }
{
    match reference_in(part) {
        Some((character, after)) => push_both(out, character, after),
        None => push_both(out, "&", part),
    }
}

fn push_both(out: &mut String, first: &str, second: &str) -> Result<(), AllocError>
    ensures { OnOk result (string_bytes out.new ≡ string_bytes out.old ++ (first.now ++ second.now)) }
{
    out.push_str(first)?;
    out.push_str(second)
}

// The character that a name at the begin stands for, and what is behind that.
#[tactic(auto, using(crate::proofs::Ampersands::no_semicolon, crate::proofs::Ampersands::known_name))]
fn reference_in(part: &str) -> Option<(&'static str, &str)>
    ensures { MatchOption result (referred part.now ≡ 38 ∷ part.now) (λ p. referred part.now ≡ p.0.now ++ p.1.now) }
{
    let (name, after) = part.split_once(';')?;
    let character = character_named(name)?;
    Some((character, after))
}

// The character that a name stands for.
fn character_named(name: &str) -> Option<&'static str>
    ensures { option_copied result ≡ character_named name.now }
{
    match name {
        "lt" => Some("<"),
        "gt" => Some(">"),
        "amp" => Some("&"),
        "quot" | "#34" => Some("\""),
        "#39" | "#x27" => Some("'"),
        "#x2f" => Some("/"),
        _ => None,
    }
}
