//! One of two kinds of callables, or of what answers for unknown methods.
use crate::answer::Answer;
use crate::callable::Callable;
use crate::method::UnknownMethod;
use crate::view::CallView;
use template_values_core::Value;

/// A callable, or what answers for unknown methods, of the one type or the other, so that an environment may take several.
#[derive(Drop)]
pub enum Either<A, B> {
    /// Of the first type.
    First(A),
    /// Of the second type.
    Second(B),
}

impl<A: Callable, B: Callable> Callable for Either<A, B> {
    ghost use Rattle.template_callables.specs.Eithers.{either_says};

    ghost answer = { either_says A.answer B.answer };

    fn invoke(&self, view: &CallView<'_>, args: &[Value]) -> Answer {
        match self {
            Either::First(first) => first.invoke(view, args),
            Either::Second(second) => second.invoke(view, args),
        }
    }
}

impl<A: UnknownMethod, B: UnknownMethod> UnknownMethod for Either<A, B> {
    ghost use Rattle.template_callables.specs.Eithers.{either_method_says};

    ghost answer = { either_method_says A.answer B.answer };

    fn invoke(&self, view: &CallView<'_>, value: &Value, method: &str, args: &[Value]) -> Answer {
        match self {
            Either::First(first) => first.invoke(view, value, method, args),
            Either::Second(second) => second.invoke(view, value, method, args),
        }
    }
}
