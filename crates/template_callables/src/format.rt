//! How values are printed.
use crate::view::CallView;
use template_values_core::Value;
use template_values_errors::Error;

/// What is printed in the place of a value.
#[derive(Drop)]
pub enum FormatAnswer {
    /// A text, as it stands.
    Raw(String),
    /// A value, as it is printed under the escape in force.
    Escaped(Value),
    /// Nothing: printing is refused with this fault, whose kinds are taken as those of [`Answer::Fault`](crate::Answer::Fault).
    Fault(Error),
}

/// What says how values are printed. It is asked for each value that a template prints and that its undefined behavior lets print.
/// Its answer is a function of the object, of what it sees of the run, and of the value; or it is want of memory. An object that
/// allocates keeps a `Global`.
pub trait Formatter: Drop {
    ghost use Rattle.template_values_model.specs.Val.{Val};
    ghost use Rattle.template_callables.specs.Callables.{View, Formatted};
    ghost use Rattle.template_callables.specs.Formats.{Formats};
    ghost use Rattle.template_callables.specs.Views.{seen_in};

    /// The answer for each view and value.
    ghost answer: { Self → View → Val → Formatted };

    /// Says what is printed in the place of a value.
    fn format(&self, view: &CallView<'_>, value: &Value) -> FormatAnswer
        ensures { Formats (answer self.now (seen_in view.now) value.now) result };
}

/// Each value is printed as it is.
#[derive(Drop)]
pub struct NoFormatter;

impl Formatter for NoFormatter {
    ghost use Rattle.template_callables.specs.Callables.{escapes};

    ghost answer = { λ formatter view value. escapes value };

    fn format(&self, _view: &CallView<'_>, value: &Value) -> FormatAnswer {
        match value.copy() {
            Ok(copy) => FormatAnswer::Escaped(copy),
            Err(refused) => FormatAnswer::Fault(refused),
        }
    }
}
