//! What filters on the layout of texts read.
ghost use Rattle.std.specs.Prelude.{◌≡◌, length, chars, option_copied, pos};
ghost use Rattle.template_builtins_arguments.specs.Answers.{Tells, TellsAs};
ghost use Rattle.template_builtins_arguments.specs.Given.{given_by};
ghost use Rattle.template_builtins_arguments.specs.Printing.{shown};
ghost use Rattle.template_builtins_layout.specs.Reading.{lone_text, width_of};
ghost use Rattle.template_builtins_layout.specs.Widths.{width_from};
ghost use Rattle.template_callables.specs.Views.{seen_in};

use std::alloc::Global;
use template_builtins_arguments::{Arguments, PrintedForm, printed, refusal};
use template_callables::CallView;
use template_values_core::Value;
use template_values_errors::Error;

/// The greatest width.
pub const GREATEST_WIDTH: usize = 16_777_216;

// The text of a value, where no argument is given.
pub(crate) fn lone_text<'a>(
    alloc: Global,
    view: &CallView<'_>,
    value: &'a Value,
    arguments: &[Value],
) -> Result<PrintedForm<'a>, Error>
    ensures { TellsAs shown result (lone_text (seen_in view.now) value.entry.now arguments.now) }
{
    Arguments::read(&[], 0, arguments)?;
    printed(alloc, view, value)
}

// The width that is the first argument, or its default.
pub(crate) fn width_of(given: &Arguments<'_>, default: i128) -> Result<usize, Error>
    ensures { Tells result (width_of (given_by given.now 0) default) }
{
    width_from(given.number(0, default)?)
}

// Below 0 it is 0.
fn width_from(count: i128) -> Result<usize, Error>
    ensures { Tells result (width_from count) }
{
    if count > GREATEST_WIDTH as i128 {
        return refusal();
    }
    if count < 0 {
        return Ok(0);
    }
    Ok(count as usize)
}

// How many characters a text has.
pub(crate) fn character_count(text: &str) -> usize
    ensures { result ≡ length (chars text.now) }
{
    text.chars().count()
}
