//! What runs ask an environment.
use crate::environment::Environment;
use crate::starting::unit;
use std::borrow::CowStr;
use template_callables::{
    Answer, CallView, Callable, Callbacks, Extension, FormatAnswer, Formatter, PathJoin,
    UnknownMethod,
};
use template_machine_going::Stop;
use template_machine_renders::{Compiled, Templates};
use template_values_core::Value;

impl<'source, E: Extension> Callbacks for Environment<'source, E> {
    ghost use Rattle.template_machine_environment.specs.Extras.{user_answers};
    ghost use Rattle.template_machine_environment.specs.Reading.{callables_of};

    ghost callables = { callables_of (user_answers E.Callable.answer E.Method.answer E.Formatter.answer E.Join.answer) };

    fn filter(&self, name: &str, view: &CallView<'_>, args: &[Value]) -> Option<Answer> {
        match self.extensions.filters.get(name) {
            Some(filter) => Some(filter.invoke(view, args)),
            None => None,
        }
    }

    fn test(&self, name: &str, view: &CallView<'_>, args: &[Value]) -> Option<Answer> {
        match self.extensions.tests.get(name) {
            Some(test) => Some(test.invoke(view, args)),
            None => None,
        }
    }

    fn function(&self, number: usize, view: &CallView<'_>, args: &[Value]) -> Option<Answer> {
        match self.extensions.function(number) {
            Some(function) => Some(function.invoke(view, args)),
            None => None,
        }
    }

    fn method(
        &self,
        value: &Value,
        name: &str,
        view: &CallView<'_>,
        args: &[Value],
    ) -> Option<Answer> {
        match &self.extensions.method {
            Some(method) => Some(method.invoke(view, value, name, args)),
            None => None,
        }
    }

    fn formats(&self) -> bool {
        match &self.extensions.formatter {
            Some(_formatter) => true,
            None => false,
        }
    }

    fn format(&self, view: &CallView<'_>, value: &Value) -> Option<FormatAnswer> {
        match &self.extensions.formatter {
            Some(formatter) => Some(formatter.format(view, value)),
            None => None,
        }
    }
}

impl<'source, E: Extension> Templates for Environment<'source, E> {
    ghost use Rattle.template_machine_environment.specs.Extras.{joins_by};
    ghost use Rattle.template_machine_environment.specs.Reading.{extras_of, registry_of};
    ghost use Rattle.template_machine_environment.specs.Standing.{units_of};

    ghost standing = { λ e. units_of (registry_of e) };

    ghost joins = { λ e. joins_by E.Join.answer (extras_of e).join };

    fn get(&self, name: &str) -> Option<Compiled<'_>> {
        match self.registry.templates.get(name) {
            Some(template) => Some(unit(template)),
            None => None,
        }
    }

    fn join<'a>(&self, name: &'a str, parent: &str) -> Result<CowStr<'a>, Stop> {
        match &self.extensions.join {
            Some(join) => Ok(CowStr::Owned(join.join(name, parent)?)),
            None => Ok(CowStr::Borrowed(name)),
        }
    }
}
