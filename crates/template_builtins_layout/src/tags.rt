//! Texts without tags.
ghost use Rattle.std.specs.Prelude.{◌≡◌, ◌<◌, IfOk, IfSome, length, string_bytes};
ghost use Rattle.std.specs.Str.{IsUtf8};
ghost use Rattle.template_builtins_arguments.specs.Answers.{Tells};
ghost use Rattle.template_builtins_layout.specs.Filters as filters;
ghost use Rattle.template_builtins_layout.specs.Tags.{Gives, around_tag, without};
ghost use Rattle.template_builtins_layout.specs.Stripping.{stripped, without_tags};
ghost use Rattle.template_callables.specs.Views.{seen_in};

use crate::reading::lone_text;
use crate::references::unescaped;
use crate::spacing::single_spaced;
use std::alloc::{AllocError, Global};
use template_callables::CallView;
use template_values_core::Value;
use template_values_errors::Error;

pub(crate) fn strip_tags(
    alloc: Global,
    view: &CallView<'_>,
    value: &Value,
    arguments: &[Value],
) -> Result<Value, Error>
    ensures { Tells result (filters.strip_tags (seen_in view.now) value.now arguments.now) }
{
    let text = lone_text(alloc, view, value, arguments)?;
    Value::from_text(stripped(alloc, text.as_str())?)
}

fn stripped(alloc: Global, text: &str) -> Result<String, AllocError>
    ensures { IfOk result (λ t. string_bytes t ≡ stripped text.now) }
{
    let rest = without_tags(alloc, text)?;
    let spaced = single_spaced(alloc, rest.as_str())?;
    unescaped(alloc, spaced.as_str())
}

fn without_tags(alloc: Global, text: &str) -> Result<String, AllocError>
    ensures { IfOk result (λ t. string_bytes t ≡ without_tags text.now) }
{
    let rest = without(alloc, "<!--", "-->", text)?;
    without(alloc, "<", ">", rest.as_str())
}

// A text without what stands from each start up to the first end behind it.
fn without(alloc: Global, start: &str, finish: &str, text: &str) -> Result<String, AllocError>
    requires some_start { 0 < length start.now }
    requires some_finish { 0 < length finish.now }
    ensures { IfOk result (λ t. string_bytes t ≡ without start.now finish.now text.now) }
{
    let mut out = String::new(alloc);
    let mut rest = text;
    while let Some((before, after)) = around_tag(start, finish, rest) {
        out.push_str(before)?;
        rest = after;
    }
    out.push_str(rest)?;
    Ok(out)
}

// What is before the first start, and what is behind the first end behind that.
#[tactic(auto, using(crate::proofs::Tagging::no_start, crate::proofs::Tagging::behind_tag, crate::proofs::Tagging::below_tag))]
fn around_tag<'a>(start: &str, finish: &str, text: &'a str) -> Option<(&'a str, &'a str)>
    requires some_start { 0 < length start.now }
    requires some_finish { 0 < length finish.now }
    ensures parts { Gives result (around_tag start.now finish.now text.entry.now) }
    ensures less { IfSome result (λ p. length p.1.now < length text.entry.now) }
    ensures rest { IfSome result (λ p. IsUtf8 p.1.now) }
{
    let (before, inner) = text.split_once(start)?;
    let (_, after) = inner.split_once(finish)?;
    Some((before, after))
}
