//! What the machine asks of what a user brought.
use crate::answer::Answer;
use crate::format::FormatAnswer;
use crate::view::CallView;
use template_values_core::Value;

/// What a user brought, as the machine asks it: filters and tests by their names, functions by their numbers, what answers for
/// methods that values do not have, and what says how values are printed. Nothing is answered where there is none.
pub trait Callbacks {
    ghost use Rattle.std.specs.Prelude.{◌≡◌, is_some};
    ghost use Rattle.template_callables.specs.Callables.{Callables};
    ghost use Rattle.template_callables.specs.Callbacks.{AnswersUnder, FormatsUnder, method_says};
    ghost use Rattle.template_callables.specs.Views.{seen_in};

    /// What is answered for each view and arguments.
    ghost callables: { Self → Callables };

    /// What the filter of a name answers.
    fn filter(&self, name: &str, view: &CallView<'_>, args: &[Value]) -> Option<Answer>
        ensures { AnswersUnder ((callables self.now).filters name.now) (seen_in view.now) args.now result };

    /// What the test of a name answers.
    fn test(&self, name: &str, view: &CallView<'_>, args: &[Value]) -> Option<Answer>
        ensures { AnswersUnder ((callables self.now).tests name.now) (seen_in view.now) args.now result };

    /// What the function of a number answers.
    fn function(&self, number: usize, view: &CallView<'_>, args: &[Value]) -> Option<Answer>
        ensures { AnswersUnder ((callables self.now).functions number) (seen_in view.now) args.now result };

    /// What is answered for a method that a value does not have.
    fn method(
        &self,
        value: &Value,
        name: &str,
        view: &CallView<'_>,
        args: &[Value],
    ) -> Option<Answer>
        ensures { AnswersUnder (method_says (callables self.now).methods value.now name.now) (seen_in view.now) args.now result };

    /// Whether something says how values are printed.
    fn formats(&self) -> bool
        ensures { result ≡ is_some (callables self.now).formats };

    /// What is printed in the place of a value, where something says so.
    fn format(&self, view: &CallView<'_>, value: &Value) -> Option<FormatAnswer>
        ensures { FormatsUnder (callables self.now).formats (seen_in view.now) value.now result };
}
