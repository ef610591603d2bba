//! The templates that are reached, and those that can be read.
ghost use Rattle.std.specs.Prelude.{◌≡◌, ◌⊎◌, ℕ, ◌+◌, ◌<◌, List, length, drop, false, true, get_or, map, IfOk, IfErr, Some};
ghost use Rattle.std.specs.Bool.{Decides};
ghost use Rattle.std.specs.List.{filter, zip};
ghost use Rattle.template_values_errors.specs.Memory.{NoMemory};
ghost use Rattle.template_program_reached.specs.Places.{kept_of, text_at};
ghost use Rattle.template_program_reached.specs.Sifted.{IsKept, IsReadable, Sifts};
ghost use Rattle.template_program_reached.specs.Views.{texts_in};

use crate::marks::reached;
use crate::places::{place_of, places_of};
use std::alloc::Global;
use std::collections::BTreeMap;
use template_compiler_sources::parse;
use template_compiler_syntax::SyntaxConfig;
use template_values_errors::{Error, ErrorKind};

/// Of templates, names with sources, in their order: those that the main one reaches by the names that stand as text
/// literals in statements that load templates, itself among them, and of the others those that have a tree under the
/// syntax. A later one of a name takes the place of those before. So a source that is refused stays only where the main
/// template reaches it. Each source is read once, in linear time, and each name is looked up by its order.
///
/// # Errors
///
/// [`ErrorKind::OutOfMemory`]
pub fn readable(
    alloc: Global,
    templates: Vec<(String, String)>,
    main: &str,
    syntax: &SyntaxConfig,
) -> Result<Vec<(String, String)>, Error>
    ensures sifted { IfOk result (λ left.
        let all = texts_in templates.items in Sifts syntax.now all main.now all (texts_in left.items)) }
    ensures refused { IfErr result NoMemory }
{
    let kept = kept_marks(alloc, templates.as_slice(), main, syntax)?;
    marked(alloc, templates, kept)
}

// Those that have a mark.
fn marked(
    alloc: Global,
    templates: Vec<(String, String)>,
    marks: Vec<bool>,
) -> Result<Vec<(String, String)>, Error>
    ensures marked { IfOk result (λ left. left.items ≡ map (λ p. p.0) (filter (λ p. p.1) (zip templates.items marks.items))) }
    ensures refused { IfErr result NoMemory }
{
    Ok(
        templates
            .into_iter()
            .zip(marks)
            .filter(|(_, mark)| *mark)
            .map(|(template, _)| template)
            .collect(alloc)?,
    )
}

// A mark for each template: whether it is kept.
fn kept_marks(
    alloc: Global,
    templates: &[(String, String)],
    main: &str,
    syntax: &SyntaxConfig,
) -> Result<Vec<bool>, Error>
    ensures length { IfOk result (λ marks. length marks.items ≡ length templates.now) }
    ensures kept { IfOk result (λ marks. (i : ℕ) → i < length templates.now → Decides (get_or marks.items i false)
        (let all = texts_in templates.now in IsKept syntax.now all main.now (drop (i + 1) all) (text_at all i))) }
    ensures refused { IfErr result NoMemory }
{
    let places = places_of(alloc, templates)?;
    let reached = reached(alloc, templates, &places, main, syntax)?;
    let mut marks = Vec::new(alloc);
    for place in 0..templates.len() {
        let template = &templates[place];
        let is_kept = is_last(&places, template.0.as_str(), place)
            && is_needed(alloc, reached[place], template.1.as_str(), syntax)?;
        marks.push(is_kept)?;
    }
    Ok(marks)
}

// Whether a template is kept that is the last of its name.
fn is_needed(
    alloc: Global,
    is_reached: bool,
    source: &str,
    syntax: &SyntaxConfig,
) -> Result<bool, Error>
    ensures needed { IfOk result (λ yes. Decides yes ((is_reached ≡ true) ⊎ IsReadable syntax.now source.now)) }
    ensures refused { IfErr result NoMemory }
{
    if is_reached {
        return Ok(true);
    }
    is_readable(alloc, source, syntax)
}

// Whether no later template than the one at the place has its name.
fn is_last(places: &BTreeMap<&str, usize>, name: &str, place: usize) -> bool
    ensures { Decides result (kept_of name.now places.now ≡ Some place) }
{
    match place_of(places, name) {
        Some(last) => last == place,
        None => false,
    }
}

// Whether a source has a tree.
fn is_readable(alloc: Global, source: &str, syntax: &SyntaxConfig) -> Result<bool, Error>
    ensures readable { IfOk result (λ yes. Decides yes (IsReadable syntax.now source.now)) }
    ensures refused { IfErr result NoMemory }
{
    match parse(alloc, source, "", syntax.clone()?) {
        Ok(_tree) => Ok(true),
        Err(error) => match error.kind() {
            ErrorKind::OutOfMemory => Err(error),
            _ => Ok(false),
        },
    }
}
