//! The tests of values.
ghost use Rattle.std.specs.Prelude.{◌≡◌, not, ℤ, Bool, [], ◌∷◌, codes, Ok};
ghost use Rattle.template_builtins_arguments.specs.Answers.{Tells, TellsAs, then};
ghost use Rattle.template_builtins_arguments.specs.Arguments as read;
ghost use Rattle.template_builtins_arguments.specs.Given.{names_of};
ghost use Rattle.template_builtins_tests.specs.Identity.{identical};
ghost use Rattle.template_builtins_tests.specs.Numbers.{is_multiple};
ghost use Rattle.template_builtins_tests.specs.Tests.{by_itself, counts, holds, value_tested, with_one};
ghost use Rattle.template_callables.specs.Views.{seen_in};

use crate::comparisons::{Comparison, found_in};
use crate::identity::is_identical;
use crate::kinds::ValueKind;
use crate::letters::{is_lower, is_upper};
use crate::numbers::{divides, is_even};
use crate::parts::{End, relates};
use std::alloc::Global;
use template_builtins_arguments::{Arguments, whole};
use template_callables::CallView;
use template_values_core::Value;
use template_values_errors::Error;

/// A builtin test of a value by itself, or with another.
#[derive(Clone, Copy)]
pub enum ValueTest {
    /// Whether it is of a kind.
    Kind(ValueKind),
    /// Whether it is a text with a lower case letter and no upper case one.
    Lower,
    /// Whether it is a text with an upper case letter and no lower case one.
    Upper,
    /// Whether the number is odd.
    Odd,
    /// Whether the number is even.
    Even,
    /// Whether the number is a multiple of another.
    DivisibleBy,
    /// Whether its printed form begins with another's.
    StartingWith,
    /// Whether its printed form ends with another's.
    EndingWith,
    /// Whether it compares so with another.
    Compare(Comparison),
    /// Whether it is in a container.
    In,
    /// Whether it is identical to another: a safe text is not a plain one, nor a truth value a number.
    SameAs,
}

impl ValueTest {
    /// Whether the test holds for a value and the arguments after it, as a truth value. Linear in the smaller one of what is
    /// compared, or in what is looked through.
    ///
    /// # Errors
    ///
    /// - [`ErrorKind::TooManyArguments`] and [`ErrorKind::MissingArgument`], as [`Arguments::read`] tells.
    /// - [`ErrorKind::UndefinedError`] at an undefined value, where these may not be compared, sought, gone over or printed.
    /// - [`ErrorKind::InvalidOperation`] of another value than a number, at a divisor 0, in what holds nothing, and at a namespace, a
    ///   loop or a macro whose printed form is needed.
    /// - [`ErrorKind::OutOfMemory`]
    ///
    /// [`ErrorKind::TooManyArguments`]: template_values_errors::ErrorKind::TooManyArguments
    /// [`ErrorKind::MissingArgument`]: template_values_errors::ErrorKind::MissingArgument
    /// [`ErrorKind::UndefinedError`]: template_values_errors::ErrorKind::UndefinedError
    /// [`ErrorKind::InvalidOperation`]: template_values_errors::ErrorKind::InvalidOperation
    /// [`ErrorKind::OutOfMemory`]: template_values_errors::ErrorKind::OutOfMemory
    pub fn apply(
        self,
        alloc: Global,
        view: &CallView<'_>,
        value: &Value,
        arguments: &[Value],
    ) -> Result<Value, Error>
        ensures { Tells result (value_tested self (seen_in view.now) value.now arguments.now) }
    {
        let holds = self.holds(alloc, view, value, arguments)?;
        Ok(Value::from_bool(holds))
    }

    fn holds(
        self,
        alloc: Global,
        view: &CallView<'_>,
        value: &Value,
        arguments: &[Value],
    ) -> Result<bool, Error>
        ensures { Tells result (holds self (seen_in view.now) value.now arguments.now) }
    {
        match self {
            ValueTest::Kind(kind) => by_itself(arguments, kind.holds(value)),
            ValueTest::Lower => by_itself(arguments, is_lower(value)),
            ValueTest::Upper => by_itself(arguments, is_upper(value)),
            ValueTest::Odd => is_odd_number(value, arguments),
            ValueTest::Even => is_even_number(value, arguments),
            ValueTest::DivisibleBy => divides(value, only(&["num"], arguments)?),
            ValueTest::StartingWith => relates(
                End::Front,
                alloc,
                view,
                value,
                only(&["s"], arguments)?,
            ),
            ValueTest::EndingWith => relates(
                End::Back,
                alloc,
                view,
                value,
                only(&["s"], arguments)?,
            ),
            ValueTest::Compare(comparison) => {
                comparison.compared(view, value, only(&["other"], arguments)?)
            }
            ValueTest::In => found_in(view, value, only(&["seq"], arguments)?),
            ValueTest::SameAs => same_as(value, arguments),
        }
    }
}

// What is so of the value, where no arguments are given.
fn by_itself(arguments: &[Value], holds: bool) -> Result<bool, Error>
    ensures { Tells result (by_itself arguments.now holds) }
{
    Arguments::read(&[], 0, arguments)?;
    Ok(holds)
}

// The one argument, of this name.
fn only<'a>(name: &'a [&'a str; 1], arguments: &'a [Value]) -> Result<&'a Value, Error>
    ensures { TellsAs (λ v. v.now) result
        (then (read.arguments (names_of name.entry.now) 1 arguments.entry.now) (λ given. read.needed_from (given 0))) }
{
    let arguments = Arguments::read(name, 1, arguments)?;
    arguments.needed(0)
}

fn is_even_number(value: &Value, arguments: &[Value]) -> Result<bool, Error>
    ensures { Tells result (counts arguments.now value.now (λ n. is_multiple n 2)) }
{
    Arguments::read(&[], 0, arguments)?;
    Ok(is_even(whole(value)?))
}

fn is_odd_number(value: &Value, arguments: &[Value]) -> Result<bool, Error>
    ensures { Tells result (counts arguments.now value.now (λ n. not (is_multiple n 2))) }
{
    Arguments::read(&[], 0, arguments)?;
    Ok(!is_even(whole(value)?))
}

fn same_as(value: &Value, arguments: &[Value]) -> Result<bool, Error>
    ensures { Tells result (with_one (codes "other") arguments.now (λ w. Ok (identical value.now w))) }
{
    Ok(is_identical(value, only(&["other"], arguments)?))
}
