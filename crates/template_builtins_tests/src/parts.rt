//! The ends of texts.
ghost use Rattle.std.specs.Prelude.{◌≡◌};
ghost use Rattle.template_builtins_arguments.specs.Answers.{Tells};
ghost use Rattle.template_builtins_tests.specs.Tests as tests;
ghost use Rattle.template_callables.specs.Views.{seen_in};

use std::alloc::Global;
use template_builtins_arguments::printed;
use template_callables::CallView;
use template_values_core::Value;
use template_values_errors::Error;

/// An end of a text.
#[derive(Clone, Copy)]
pub(crate) enum End {
    /// Where it begins.
    Front,
    /// Where it ends.
    Back,
}

// Whether the printed form of a value has another's at an end.
pub(crate) fn relates(
    end: End,
    alloc: Global,
    view: &CallView<'_>,
    value: &Value,
    part: &Value,
) -> Result<bool, Error>
    ensures { Tells result (tests.relates end (seen_in view.now) value.now part.now) }
{
    let text = printed(alloc, view, value)?;
    has_at(end, alloc, view, text.as_str(), part)
}

fn has_at(
    end: End,
    alloc: Global,
    view: &CallView<'_>,
    text: &str,
    part: &Value,
) -> Result<bool, Error>
    ensures { Tells result (tests.has_at end (seen_in view.now) text.now part.now) }
{
    let part = printed(alloc, view, part)?;
    Ok(stands_at(end, text, part.as_str()))
}

fn stands_at(end: End, text: &str, part: &str) -> bool
    ensures { result ≡ tests.stands_at end text.now part.now }
{
    match end {
        End::Front => text.as_bytes().starts_with(part.as_bytes()),
        End::Back => text.as_bytes().ends_with(part.as_bytes()),
    }
}
