//! What a case brings that says how values are printed.
ghost use Rattle.std.specs.Prelude.{IfErr, IfOk};
ghost use Rattle.template_values_errors.specs.Memory.{NoMemory};
ghost use Rattle.template_callables.specs.Formats.{Formats};
ghost use Rattle.template_callables.specs.Views.{seen_in};
ghost use Rattle.template_rows.specs.Prints.{formats_say, text_or_value};

use crate::brought::Brought;
use std::alloc::Global;
use template_callables::{Answer, CallView, Callable, FormatAnswer, Formatter};
use template_values_core::Value;
use template_values_errors::Error;

/// A text that is answered stands as it is; another value is printed under the escape in force; and so is the value itself where
/// more is asked for.
impl Formatter for Brought {
    ghost answer = { formats_say };

    fn format(&self, view: &CallView<'_>, value: &Value) -> FormatAnswer {
        match self.printed(view, value) {
            Ok(answer) => answer,
            Err(refused) => FormatAnswer::Fault(refused),
        }
    }
}

impl Brought {
    fn printed(&self, view: &CallView<'_>, value: &Value) -> Result<FormatAnswer, Error>
        ensures printed { IfOk result (Formats (formats_say self.now (seen_in view.now) value.now)) }
        ensures refused { IfErr result NoMemory }
    {
        let args = vec![in self.alloc; value.copy()?]?;
        match Callable::invoke(self, view, args.as_slice()) {
            Answer::Done(_temps, answer) => text_or_value(self.alloc, answer),
            Answer::Fault(error) => Ok(FormatAnswer::Fault(error)),
            Answer::More(_temps, _asked) => Ok(FormatAnswer::Escaped(value.copy()?)),
        }
    }
}

fn text_or_value(alloc: Global, value: Value) -> Result<FormatAnswer, Error>
    ensures printed { IfOk result (Formats (text_or_value value)) }
    ensures refused { IfErr result NoMemory }
{
    if let Some(text) = value.as_str() {
        return Ok(FormatAnswer::Raw(String::from_str(alloc, text)?));
    }
    Ok(FormatAnswer::Escaped(value))
}
