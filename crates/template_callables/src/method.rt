//! Methods that values do not have.
use crate::answer::Answer;
use crate::view::CallView;
use template_values_core::Value;
use template_values_errors::{Error, ErrorKind};

/// What answers where a method is called that its object does not have. Its answer is a function of the object that answers, of
/// what it sees of the run, and of the value, the method's name and the arguments; or it is want of memory.
pub trait UnknownMethod: Drop {
    ghost use Rattle.std.specs.Prelude.{ℕ, List};
    ghost use Rattle.template_values_model.specs.Val.{Val};
    ghost use Rattle.template_callables.specs.Callables.{View, Stated};
    ghost use Rattle.template_callables.specs.Answers.{Answers};
    ghost use Rattle.template_callables.specs.Views.{seen_in};

    /// The answer for each view, value, method and arguments.
    ghost answer: { Self → View → Val → List ℕ → List Val → Stated };

    /// Answers a call of a method of a value.
    fn invoke(&self, view: &CallView<'_>, value: &Value, method: &str, args: &[Value]) -> Answer
        ensures { Answers (answer self.now (seen_in view.now) value.now method.now args.now) result };
}

/// Nothing answers: the call is refused with `UnknownMethod`.
#[derive(Drop)]
pub struct NoMethod;

impl UnknownMethod for NoMethod {
    ghost use Rattle.std.specs.Prelude.{[], ◌∷◌};
    ghost use Rattle.template_values_errors.specs.declared.ErrorKind.TheVariants.{UnknownMethod};
    ghost use Rattle.template_callables.specs.Callables.{refuses};

    ghost answer = { λ callable view value method args. refuses (UnknownMethod ∷ []) };

    fn invoke(
        &self,
        _view: &CallView<'_>,
        _value: &Value,
        _method: &str,
        _args: &[Value],
    ) -> Answer {
        Answer::Fault(Error::new(ErrorKind::UnknownMethod))
    }
}
