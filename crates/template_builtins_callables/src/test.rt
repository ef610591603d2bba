//! Tests.
ghost use Rattle.std.specs.Prelude.{◌≡◌, is_some};
ghost use Rattle.template_builtins_arguments.specs.Answers.{Tells};
ghost use Rattle.template_builtins_callables.specs.Builtins.{is_filter_name, is_test_name, tested};
ghost use Rattle.template_callables.specs.Views.{seen_in};

use crate::names::{filter_named, test_named};
use std::alloc::Global;
use template_builtins_arguments::Arguments;
use template_builtins_tests::ValueTest;
use template_callables::CallView;
use template_values_core::Value;
use template_values_errors::Error;

/// A builtin test.
#[derive(Clone, Copy)]
pub enum Test {
    /// Of a value by itself.
    Value(ValueTest),
    /// Whether a text is the name of a builtin filter.
    Filter,
    /// Whether a text is the name of a builtin test.
    Test,
}

impl Test {
    /// What the test says of a value and the arguments after it: a truth value.
    ///
    /// # Errors
    ///
    /// Those of the test, and [`ErrorKind::OutOfMemory`](template_values_errors::ErrorKind::OutOfMemory).
    pub fn apply(
        self,
        alloc: Global,
        view: &CallView<'_>,
        value: &Value,
        arguments: &[Value],
    ) -> Result<Value, Error>
        ensures { Tells result (tested self (seen_in view.now) value.now arguments.now) }
    {
        match self {
            Test::Value(test) => test.apply(alloc, view, value, arguments),
            Test::Filter => {
                Arguments::read(&[], 0, arguments)?;
                Ok(Value::from_bool(is_filter_name(value)))
            }
            Test::Test => {
                Arguments::read(&[], 0, arguments)?;
                Ok(Value::from_bool(is_test_name(value)))
            }
        }
    }
}

fn is_filter_name(value: &Value) -> bool
    ensures { result ≡ is_filter_name value.now }
{
    match value.as_str() {
        Some(name) => filter_named(name).is_some(),
        None => false,
    }
}

fn is_test_name(value: &Value) -> bool
    ensures { result ≡ is_test_name value.now }
{
    match value.as_str() {
        Some(name) => test_named(name).is_some(),
        None => false,
    }
}
