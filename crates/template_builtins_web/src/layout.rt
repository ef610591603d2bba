//! How a text is laid out.
ghost use Rattle.template_builtins_arguments.specs.Answers.{Tells};
ghost use Rattle.template_builtins_arguments.specs.Given.{given_by};
ghost use Rattle.template_builtins_web.specs.Filters.{layout_from};
ghost use Rattle.template_builtins_web.specs.Json.{layout_of};

use template_builtins_arguments::{Arguments, refusal};
use template_values_errors::Error;

/// The greatest number of spaces a level.
pub const GREATEST_WIDTH: usize = 16_777_216;

// On one line, or with so many spaces a level, by the first argument.
pub(crate) fn layout_from(given: Arguments<'_>) -> Result<Option<usize>, Error>
    ensures { Tells result (layout_from (given_by given.entry 0)) }
{
    layout_of(given.optional_number(0)?)
}

// Below 0 it is 0.
fn layout_of(count: Option<i128>) -> Result<Option<usize>, Error>
    ensures { Tells result (layout_of count) }
{
    let Some(count) = count else {
        return Ok(None);
    };
    if count > GREATEST_WIDTH as i128 {
        return refusal();
    }
    if count < 0 {
        return Ok(Some(0));
    }
    Ok(Some(count as usize))
}
