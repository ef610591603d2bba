//! The filters and tests that arguments name, and the arguments for these.
ghost use Rattle.std.specs.Prelude.{◌≡◌, option_map};
ghost use Rattle.template_builtins_arguments.specs.Answers.{Tells, TellsAs};
ghost use Rattle.template_builtins_arguments.specs.Arguments.{is_keywords};
ghost use Rattle.template_builtins_callables.specs.Builtins as builtins;
ghost use Rattle.template_builtins_callables.specs.Each as each;
ghost use Rattle.template_builtins_callables.specs.Naming.{asked_of, named_of};

use crate::filter::Filter;
use crate::names::{filter_named, test_named};
use crate::test::Test;
use template_builtins_arguments::{Arguments, refusal};
use template_values_core::{Content, Value};
use template_values_errors::{Error, ErrorKind};
use template_values_operators::kinds::is_none;

/// The name of a test, and the arguments after it.
#[derive(Clone, Copy)]
pub struct Named<'a> {
    /// The name.
    pub name: &'a Value,
    /// The arguments.
    pub arguments: &'a [Value],
}

/// A test that is asked of items, with its arguments.
#[derive(Clone, Copy)]
pub struct Asked<'a> {
    /// The test.
    pub test: Test,
    /// The arguments.
    pub arguments: &'a [Value],
}

/// The filter of a name.
///
/// # Errors
///
/// - [`ErrorKind::InvalidOperation`], if the name is no text.
/// - [`ErrorKind::UnknownFilter`], if no builtin filter has the name.
pub fn filter_by(name: &Value) -> Result<Filter, Error>
    ensures { Tells result (builtins.filter_by name.now) }
{
    let Some(name) = name.as_str() else {
        return refusal();
    };
    match filter_named(name) {
        Some(filter) => Ok(filter),
        None => Err(Error::new(ErrorKind::UnknownFilter)),
    }
}

fn test_by(name: &Value) -> Result<Test, Error>
    ensures { Tells result (builtins.test_by name.now) }
{
    let Some(name) = name.as_str() else {
        return refusal();
    };
    match test_named(name) {
        Some(test) => Ok(test),
        None => Err(Error::new(ErrorKind::UnknownTest)),
    }
}

/// Whether an argument is a keyword map that stands alone, and so no argument by place.
pub fn is_alone(value: &Value, rest: &[Value]) -> bool
    ensures { result ≡ each.is_alone value.now rest.now }
{
    is_keywords(value) && rest.is_empty()
}

fn is_keywords(value: &Value) -> bool
    ensures { result ≡ is_keywords value.now }
{
    match value.content() {
        Content::KeywordMap(_) => true,
        _ => false,
    }
}

/// Sees to it that no argument is left.
///
/// # Errors
///
/// [`ErrorKind::TooManyArguments`], if one is.
pub fn no_more(arguments: &[Value]) -> Result<(), Error>
    ensures { Tells result (each.no_more arguments.now) }
{
    Arguments::read(&[], 0, arguments)?;
    Ok(())
}

/// The name of a test and the arguments after it, if the first argument by place is a name.
///
/// # Errors
///
/// [`ErrorKind::TooManyArguments`], if none is named and an argument is left.
pub fn test_in(arguments: &[Value]) -> Result<Option<Named<'_>>, Error>
    ensures { TellsAs (option_map named_of) result (each.test_in arguments.now) }
{
    let Some((name, rest)) = arguments.split_first() else {
        return Ok(None);
    };
    if is_none(name) {
        no_more(rest)?;
        return Ok(None);
    }
    if is_alone(name, rest) {
        no_more(arguments)?;
        return Ok(None);
    }
    Ok(Some(Named {
        name,
        arguments: rest,
    }))
}

/// The test of a name, with its arguments.
///
/// # Errors
///
/// - [`ErrorKind::InvalidOperation`], if the name is no text.
/// - [`ErrorKind::UnknownTest`], if no builtin test has the name.
pub fn test_from<'a>(named: Option<Named<'a>>) -> Result<Option<Asked<'a>>, Error>
    ensures { TellsAs (option_map asked_of) result (each.test_from (option_map named_of named.entry)) }
{
    let Some(named) = named else {
        return Ok(None);
    };
    let test = test_by(named.name)?;
    Ok(Some(Asked {
        test,
        arguments: named.arguments,
    }))
}
