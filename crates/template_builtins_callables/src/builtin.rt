//! A builtin as a callable.
ghost use Rattle.template_builtins_arguments.specs.Answers.{Tells};
ghost use Rattle.template_builtins_callables.specs.Says.{made};
ghost use Rattle.template_callables.specs.Views.{seen_in};

use crate::filter::Filter;
use crate::test::Test;
use std::alloc::Global;
use template_builtins_arguments::stated;
use template_callables::{Answer, CallView, Callable, Either};
use template_values_core::Value;
use template_values_errors::{Error, ErrorKind};

/// What a builtin is.
#[derive(Clone, Copy)]
pub enum Kind {
    /// A filter: the first argument of a call is what it filters.
    Filter(Filter),
    /// A test: the first argument of a call is what it tests.
    Test(Test),
}

/// A builtin filter or test, as an environment calls it.
#[derive(Drop)]
pub struct Builtin {
    /// Where it takes its memory.
    pub alloc: Global,
    /// What it is.
    pub kind: Kind,
}

impl Callable for Builtin {
    ghost use Rattle.template_builtins_callables.specs.Says.{builtin_says};

    ghost answer = { builtin_says };

    fn invoke(&self, view: &CallView<'_>, args: &[Value]) -> Answer {
        stated(self.called(view, args))
    }
}

/// By this the builtins are installed beside callables of another type.
impl<Own> From<Builtin> for Either<Builtin, Own> {
    ghost use Rattle.std.specs.Prelude.{◌≡◌};
    ghost use Rattle.template_callables.specs.declared.either.Either.TheVariants.{First};

    ghost from_gives = { λ builtin either. either ≡ First builtin };

    fn from(builtin: Builtin) -> Either<Builtin, Own> {
        Either::First(builtin)
    }
}

impl Builtin {
    fn called(&self, view: &CallView<'_>, args: &[Value]) -> Result<Value, Error>
        ensures { Tells result (made self.now.kind (seen_in view.now) args.now) }
    {
        let [value, given @ ..] = args else {
            return Err(Error::new(ErrorKind::MissingArgument));
        };
        match self.kind {
            Kind::Filter(filter) => filter.apply(self.alloc, view, value, given),
            Kind::Test(test) => test.apply(self.alloc, view, value, given),
        }
    }
}
