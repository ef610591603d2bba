//! Functions, filters and tests.
use crate::answer::Answer;
use crate::view::CallView;
use template_values_core::Value;
use template_values_errors::{Error, ErrorKind};

/// A function, filter or test of a user's own. Its answer is a function of the object, of what it sees of the run, and of its
/// arguments; or it is want of memory. An object that allocates keeps a `Global`.
pub trait Callable: Drop {
    ghost use Rattle.std.specs.Prelude.{List};
    ghost use Rattle.template_values_model.specs.Val.{Val};
    ghost use Rattle.template_callables.specs.Callables.{View, Stated};
    ghost use Rattle.template_callables.specs.Answers.{Answers};
    ghost use Rattle.template_callables.specs.Views.{seen_in};

    /// The answer for each view and arguments.
    ghost answer: { Self → View → List Val → Stated };

    /// Answers a call. The first argument of a filter is what it filters, of a test what it tests. Keyword arguments are one
    /// keyword map behind the others (`Kwargs` reads it).
    fn invoke(&self, view: &CallView<'_>, args: &[Value]) -> Answer
        ensures { Answers (answer self.now (seen_in view.now) args.now) result };
}

/// No callable: it refuses every call.
#[derive(Drop)]
pub struct NoCallable;

impl Callable for NoCallable {
    ghost use Rattle.std.specs.Prelude.{[], ◌∷◌};
    ghost use Rattle.template_values_errors.specs.declared.ErrorKind.TheVariants.{InvalidOperation};
    ghost use Rattle.template_callables.specs.Callables.{refuses};

    ghost answer = { λ callable view args. refuses (InvalidOperation ∷ []) };

    fn invoke(&self, _view: &CallView<'_>, _args: &[Value]) -> Answer {
        Answer::Fault(Error::new(ErrorKind::InvalidOperation))
    }
}
