//! Arguments by place and by keyword.
ghost use Rattle.std.specs.Prelude.{◌≡◌, bytes_eq, option_copied};
ghost use Rattle.std.specs.List.{list_any};
ghost use Rattle.template_builtins_arguments.specs.Answers.{Tells, TellsAs};
ghost use Rattle.template_builtins_arguments.specs.Arguments as read;
ghost use Rattle.template_builtins_arguments.specs.Given.{given_by, names_of};
ghost use Rattle.template_builtins_arguments.specs.Printing.{shown};
ghost use Rattle.template_callables.specs.Views.{seen_in};
ghost use Rattle.template_values_core.specs.Maps.{pairs_of};
ghost use Rattle.template_values_core.specs.Shape.{pairs_in};

use crate::answers::refusal;
use crate::parts::{PrintedForm, printed, truth_of};
use std::alloc::Global;
use template_callables::CallView;
use template_values_core::{Content, Entry, Value};
use template_values_errors::{Error, ErrorKind};

/// The arguments of a call, after the value: for each parameter what is given by place, else by its name. The keyword ones stand last
/// in one keyword map.
#[derive(Clone, Copy)]
pub struct Arguments<'a> {
    names: &'a [&'a str],
    values: &'a [Value],
}

impl<'a> Arguments<'a> {
    /// Reads the arguments for parameters of these names, of which the first `needed` have no default. Linear in their numbers.
    ///
    /// # Errors
    ///
    /// - [`ErrorKind::TooManyArguments`], if one is given that no parameter takes, or one twice.
    /// - Then [`ErrorKind::MissingArgument`], if one is missing that has no default.
    pub fn read(
        names: &'a [&'a str],
        needed: usize,
        values: &'a [Value],
    ) -> Result<Arguments<'a>, Error>
        ensures { TellsAs given_by result (read.arguments (names_of names.entry.now) needed values.entry.now) }
    {
        if !are_taken(names, values) {
            return Err(Error::new(ErrorKind::TooManyArguments));
        }
        let arguments = Arguments { names, values };
        if !arguments.are_given(needed) {
            return Err(Error::new(ErrorKind::MissingArgument));
        }
        Ok(arguments)
    }

    /// The argument of the parameter of this number, from 0, if it is given. Linear in the number of keyword arguments.
    pub fn at(&self, number: usize) -> Option<&'a Value>
        ensures { option_copied result ≡ given_by self.now number }
    {
        let values: &'a [Value] = self.values;
        match by_place(values).get(number) {
            Some(value) => Some(value),
            None => self.by_name(number),
        }
    }

    // What is given by the name of the parameter.
    fn by_name(&self, number: usize) -> Option<&'a Value>
        ensures { option_copied result ≡ read.named_at (names_of self.now.names.now) self.now.values.now number }
    {
        let values: &'a [Value] = self.values;
        keywords_in(values)?.value_at(self.names.get(number)?)
    }

    // Whether each of the first n is given.
    #[tactic(auto, using(crate::proofs::Giving::are_given_more))]
    fn are_given(&self, n: usize) -> bool
        ensures { result ≡ read.are_given (given_by self.now) n }
    {
        for number in 0..n {
            if self.at(number).is_none() {
                return false;
            }
        }
        true
    }

    /// The argument of a parameter that has no default.
    ///
    /// # Errors
    ///
    /// [`ErrorKind::MissingArgument`], if it is not given.
    pub fn needed(&self, number: usize) -> Result<&'a Value, Error>
        ensures { TellsAs (λ v. v.now) result (read.needed_from (given_by self.now number)) }
    {
        match self.at(number) {
            None => Err(Error::new(ErrorKind::MissingArgument)),
            Some(value) => Ok(value),
        }
    }

    /// The printed form of a parameter's argument, or its default. Linear in its length, but for that of a text, which takes no
    /// time.
    ///
    /// # Errors
    ///
    /// Those of [`printed`](crate::printed).
    pub fn text(
        &self,
        alloc: Global,
        view: &CallView<'_>,
        number: usize,
        default: &'a str,
    ) -> Result<PrintedForm<'a>, Error>
        ensures { TellsAs shown result (read.text_from (seen_in view.now) (given_by self.now number) default.entry.now) }
    {
        match self.at(number) {
            None => Ok(PrintedForm::Held(default)),
            Some(value) => printed(alloc, view, value),
        }
    }

    /// The whole number of a parameter, or its default.
    ///
    /// # Errors
    ///
    /// [`ErrorKind::InvalidOperation`], if it is no whole number.
    pub fn number(&self, number: usize, default: i128) -> Result<i128, Error>
        ensures { Tells result (read.number_from (given_by self.now number) default) }
    {
        match self.at(number) {
            None => Ok(default),
            Some(value) => whole(value),
        }
    }

    /// The whole number of a parameter; none where it is not given, or `none`.
    ///
    /// # Errors
    ///
    /// [`ErrorKind::InvalidOperation`], if it is no whole number.
    pub fn optional_number(&self, number: usize) -> Result<Option<i128>, Error>
        ensures { Tells result (read.optional_number (given_by self.now number)) }
    {
        match self.at(number) {
            None => Ok(None),
            Some(value) => whole_or_none(value),
        }
    }

    /// The flag of a parameter, by its truth, or its default.
    ///
    /// # Errors
    ///
    /// Those of [`truth_of`](crate::truth_of).
    pub fn flag(&self, view: &CallView<'_>, number: usize, default: bool) -> Result<bool, Error>
        ensures { Tells result (read.flag_from (seen_in view.now) (given_by self.now number) default) }
    {
        match self.at(number) {
            None => Ok(default),
            Some(value) => truth_of(view, value),
        }
    }
}

/// The whole number that a value is.
///
/// # Errors
///
/// [`ErrorKind::InvalidOperation`], if it is another kind of value.
pub fn whole(value: &Value) -> Result<i128, Error>
    ensures { Tells result (read.whole value.now) }
{
    match value.content() {
        Content::Int(whole) => Ok(whole),
        _ => refusal(),
    }
}

fn whole_or_none(value: &Value) -> Result<Option<i128>, Error>
    ensures { Tells result (read.whole_or_none value.now) }
{
    match value.content() {
        Content::None => Ok(None),
        Content::Int(whole) => Ok(Some(whole)),
        _ => refusal(),
    }
}

// The keyword map that stands last.
fn keywords_in(values: &[Value]) -> Option<&Value>
    ensures { option_copied result ≡ read.keywords_in values.now }
{
    let last = values.get(values.len().saturating_sub(1))?;
    match last.content() {
        Content::KeywordMap(_) => Some(last),
        _ => None,
    }
}

// The arguments before the keyword map.
fn by_place(values: &[Value]) -> &[Value]
    ensures { result.now ≡ read.by_place values.now }
{
    match keywords_in(values) {
        Some(_) => &values[..values.len().saturating_sub(1)],
        None => values,
    }
}

// Whether no argument is one too many.
fn are_taken(names: &[&str], values: &[Value]) -> bool
    ensures { result ≡ read.are_taken (names_of names.now) values.now }
{
    let count = by_place(values).len();
    match names.get(count..) {
        Some(left) => has_known(left, values),
        None => false,
    }
}

// Whether each keyword is one of these names.
fn has_known(names: &[&str], values: &[Value]) -> bool
    ensures { result ≡ read.has_known (names_of names.now) (read.keywords_in values.now) }
{
    match keywords_in(values) {
        Some(keywords) => match keywords.content() {
            Content::KeywordMap(entries) => are_known(names, entries),
            _ => true,
        },
        None => true,
    }
}

fn are_known(names: &[&str], entries: &[Entry]) -> bool
    ensures { result ≡ read.are_known (names_of names.now) (pairs_of (pairs_in entries.now)) }
{
    for entry in entries {
        if !is_known(names, &entry.key) {
            return false;
        }
    }
    true
}

#[tactic(auto, using(crate::proofs::Naming::is_no_name))]
fn is_known(names: &[&str], key: &Value) -> bool
    ensures { result ≡ read.is_known (names_of names.now) key.now }
{
    match key.as_str() {
        Some(key) => has_name(names, key),
        None => false,
    }
}

fn has_name(names: &[&str], key: &str) -> bool
    ensures { result ≡ list_any (λ name. bytes_eq key.now name) (names_of names.now) }
{
    for name in names {
        if key == *name {
            return true;
        }
    }
    false
}
