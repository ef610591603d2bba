//! What is answered by what a case brings.
ghost use Rattle.std.specs.Prelude.{◌≡◌, ◌⊎◌, ◌∷◌, [], IfErr, IfOk, option_to_list};
ghost use Rattle.template_values_errors.specs.Memory.{NoMemory};
ghost use Rattle.template_values_core.specs.Answers.{text_in};
ghost use Rattle.template_values_core.specs.Reads.{whole_number};
ghost use Rattle.template_values_named.specs.Keywords.{keywords};
ghost use Rattle.template_values_model.specs.Gives.{Gives};
ghost use Rattle.template_values_model.specs.Val as values;
ghost use Rattle.template_callables.specs.Answers.{Answers};
ghost use Rattle.template_callables.specs.Callables as callables;
ghost use Rattle.template_callables.specs.Callables.{finishes, goes_on};
ghost use Rattle.template_callables.specs.Views.{seen_in};
ghost use Rattle.template_rows.specs.Says as says;
ghost use Rattle.template_rows.specs.Says.{behavior_name, escape_name, first_says, keyword_at, keyword_of, name_says, seen_says, what_says};

use std::alloc::Global;
use template_callables::{Answer, CallView, Further, copy_all};
use template_values_core::Value;
use template_values_errors::{AutoEscape, Error, ErrorKind, UndefinedBehavior};
use template_values_named::Kwargs;
use template_values_operators::growth::copy_or_undefined;
use template_values_operators::kinds::list_made;
use template_values_operators::mul;

/// What is answered.
#[derive(Drop)]
pub enum What {
    /// The list of the arguments.
    Arguments,
    /// The argument at a place, counted from 0; undefined, if there is none.
    At(usize),
    /// The argument of a name.
    Keyword(String),
    /// What is seen of the run.
    Seen(Seen),
    /// A value.
    Gives(Value),
    /// A fault of a kind, and of the kind of its cause, if it has one.
    Fails(ErrorKind, Option<ErrorKind>),
    /// What the filter of a name comes to for the arguments.
    Filter(String),
    /// What the test of a name comes to for them.
    Test(String),
    /// What a name stands for.
    Lookup(String),
    /// What the macro of a name comes to for the arguments, as a text.
    Macro(String),
    /// The text of the block of a name.
    Rendered(String),
    /// What is among the temps under a name; undefined, if nothing is.
    Get(String),
    /// What is made of the first argument. There has to be one.
    First(First),
}

/// What is seen of the run.
#[derive(Clone, Copy)]
pub enum Seen {
    /// The name of the template that runs.
    Template,
    /// The escape in force.
    Escape,
    /// What may be done with undefined values.
    Undefined,
    /// The name of the block that runs; none, if no block does.
    Block,
}

/// What is made of the first argument.
#[derive(Drop)]
pub enum First {
    /// Itself.
    Itself,
    /// Its text, as one that is written without escapes.
    Safe,
    /// Whether the second argument is equal to it.
    Same,
    /// It times a value.
    Times(Value),
    /// Itself, where it is at most 0; else what the filter of a name comes to for what is one less.
    Down(String),
    /// What is among the temps under a name, where it is from then on.
    Temp(String),
    /// What it comes to where it is called with the others.
    Call,
    /// What is done by the name that it is.
    Name(Named),
}

/// What is done by a name, with the other arguments.
#[derive(Clone, Copy)]
pub enum Named {
    /// The filter of the name is applied to them.
    Filter,
    /// The test of the name is asked of them.
    Test,
    /// The name is looked up.
    Lookup,
    /// The macro of the name is called with them.
    Macro,
    /// What is among the temps under the name is given.
    Get,
    /// The first of them is among the temps under the name from then on.
    Set,
}

impl What {
    /// The answer to arguments.
    pub fn answer(
        &self,
        alloc: Global,
        view: &CallView<'_>,
        args: &[Value],
    ) -> Result<Answer, Error>
        ensures answers { IfOk result (Answers (what_says self.now (seen_in view.now) args.now)) }
        ensures refused { IfErr result NoMemory }
    {
        match self {
            What::Arguments => Ok(Answer::from(list_made(alloc, copy_all(alloc, args)?))),
            What::At(place) => Ok(Answer::from(copy_or_undefined(args.get(*place)))),
            What::Keyword(name) => Ok(Answer::from(keyword(name.as_str(), args))),
            What::Seen(seen) => seen.answer(alloc, view),
            What::Gives(value) => Ok(Answer::Done(None, value.copy()?)),
            What::Fails(kind, cause) => Ok(Answer::Fault(fault(alloc, *kind, *cause))),
            What::Filter(name) => filter(alloc, name.as_str(), args),
            What::Test(name) => test(alloc, name.as_str(), args),
            What::Lookup(name) => lookup(alloc, name.as_str()),
            What::Macro(name) => call_macro(alloc, name.as_str(), args),
            What::Rendered(name) => rendered(alloc, name.as_str()),
            What::Get(name) => Ok(Answer::from(copy_or_undefined(view.get_temp(name.as_str())))),
            What::First(first) => match args {
                [value, others @ ..] => first.answer(alloc, view, value, others),
                [] => Ok(missing()),
            },
        }
    }
}

impl Seen {
    fn answer(self, alloc: Global, view: &CallView<'_>) -> Result<Answer, Error>
        ensures answers { IfOk result (Answers (seen_says self (seen_in view.now))) }
        ensures refused { IfErr result NoMemory }
    {
        match self {
            Seen::Template => text(alloc, view.name()),
            Seen::Escape => text(alloc, escape_name(view.auto_escape())),
            Seen::Undefined => text(alloc, behavior_name(view.undefined_behavior())),
            Seen::Block => match view.current_block() {
                Some(name) => text(alloc, name),
                None => Ok(Answer::Done(None, Value::none())),
            },
        }
    }
}

impl First {
    fn answer(
        &self,
        alloc: Global,
        view: &CallView<'_>,
        value: &Value,
        others: &[Value],
    ) -> Result<Answer, Error>
        ensures answers { IfOk result (Answers (first_says self.now (seen_in view.now) value.now others.now)) }
        ensures refused { IfErr result NoMemory }
    {
        match self {
            First::Itself => Ok(Answer::Done(None, value.copy()?)),
            First::Safe => safe(alloc, value),
            First::Same => Ok(same(value, others)),
            First::Times(by) => Ok(Answer::from(mul(alloc, value, by))),
            First::Down(name) => down(alloc, name.as_str(), value),
            First::Temp(name) => set(alloc, view, name.as_str(), value),
            First::Call => call(alloc, value, others),
            First::Name(named) => match value.as_str() {
                Some(name) => named.answer(alloc, view, name, others),
                None => Ok(missing()),
            },
        }
    }
}

impl Named {
    fn answer(
        self,
        alloc: Global,
        view: &CallView<'_>,
        name: &str,
        args: &[Value],
    ) -> Result<Answer, Error>
        ensures answers { IfOk result (Answers (name_says self (seen_in view.now) name.now args.now)) }
        ensures refused { IfErr result NoMemory }
    {
        match self {
            Named::Filter => filter(alloc, name, args),
            Named::Test => test(alloc, name, args),
            Named::Lookup => lookup(alloc, name),
            Named::Macro => call_macro(alloc, name, args),
            Named::Get => Ok(Answer::from(copy_or_undefined(view.get_temp(name)))),
            Named::Set => match args {
                [value, ..] => set(alloc, view, name, value),
                [] => Ok(missing()),
            },
        }
    }
}

// There is an argument less than has to be.
fn missing() -> Answer
    ensures { result ≡ Answer.Fault (ErrorKind.MissingArgument ∷ []) }
{
    Answer::Fault(Error::new(ErrorKind::MissingArgument))
}

fn text(alloc: Global, text: &str) -> Result<Answer, Error>
    ensures answers { IfOk result (Answers (finishes [] (values.text text.now))) }
    ensures refused { IfErr result NoMemory }
{
    Ok(Answer::Done(None, Value::from_str(alloc, text)?))
}

fn escape_name(escape: AutoEscape) -> &'static str
    ensures { result.now ≡ escape_name escape }
{
    match escape {
        AutoEscape::None => "None",
        AutoEscape::Html => "Html",
        AutoEscape::Json => "Json",
        AutoEscape::Custom(_) => "Custom",
    }
}

fn behavior_name(behavior: UndefinedBehavior) -> &'static str
    ensures { result.now ≡ behavior_name behavior }
{
    match behavior {
        UndefinedBehavior::Lenient => "Lenient",
        UndefinedBehavior::Chainable => "Chainable",
        UndefinedBehavior::SemiStrict => "SemiStrict",
        UndefinedBehavior::Strict => "Strict",
    }
}

pub(crate) fn fault(alloc: Global, kind: ErrorKind, cause: Option<ErrorKind>) -> Error
    ensures { (result ≡ kind ∷ option_to_list cause) ⊎ NoMemory result }
{
    match cause {
        Some(cause) => Error::with_cause(alloc, kind, Error::new(cause)),
        None => Error::new(kind),
    }
}

fn keyword(name: &str, args: &[Value]) -> Result<Value, Error>
    ensures { Gives result (keyword_at name.now args.now) }
{
    match args.last() {
        Some(last) => keyword_of(name, last),
        None => Err(Error::new(ErrorKind::MissingArgument)),
    }
}

fn keyword_of(name: &str, value: &Value) -> Result<Value, Error>
    ensures { Gives result (keyword_of name.now (keywords value.now)) }
{
    match Kwargs::extract(value)? {
        Some(keywords) => keywords.get(name),
        None => Err(Error::new(ErrorKind::MissingArgument)),
    }
}

fn filter(alloc: Global, name: &str, args: &[Value]) -> Result<Answer, Error>
    ensures answers { IfOk result (Answers (goes_on [] (callables.filter name.now args.now))) }
    ensures refused { IfErr result NoMemory }
{
    let asked = Further::Filter(String::from_str(alloc, name)?, copy_all(alloc, args)?);
    Ok(Answer::More(None, asked))
}

fn test(alloc: Global, name: &str, args: &[Value]) -> Result<Answer, Error>
    ensures answers { IfOk result (Answers (goes_on [] (callables.test name.now args.now))) }
    ensures refused { IfErr result NoMemory }
{
    let asked = Further::Test(String::from_str(alloc, name)?, copy_all(alloc, args)?);
    Ok(Answer::More(None, asked))
}

fn lookup(alloc: Global, name: &str) -> Result<Answer, Error>
    ensures answers { IfOk result (Answers (goes_on [] (callables.lookup name.now))) }
    ensures refused { IfErr result NoMemory }
{
    let asked = Further::Lookup(String::from_str(alloc, name)?);
    Ok(Answer::More(None, asked))
}

fn call(alloc: Global, value: &Value, args: &[Value]) -> Result<Answer, Error>
    ensures answers { IfOk result (Answers (goes_on [] (callables.call value.now args.now))) }
    ensures refused { IfErr result NoMemory }
{
    let asked = Further::Call(value.copy()?, copy_all(alloc, args)?);
    Ok(Answer::More(None, asked))
}

fn call_macro(alloc: Global, name: &str, args: &[Value]) -> Result<Answer, Error>
    ensures answers { IfOk result (Answers (goes_on [] (callables.call_macro name.now args.now))) }
    ensures refused { IfErr result NoMemory }
{
    let asked = Further::Macro(String::from_str(alloc, name)?, copy_all(alloc, args)?);
    Ok(Answer::More(None, asked))
}

fn rendered(alloc: Global, name: &str) -> Result<Answer, Error>
    ensures answers { IfOk result (Answers (goes_on [] (callables.block name.now))) }
    ensures refused { IfErr result NoMemory }
{
    let asked = Further::Block(String::from_str(alloc, name)?);
    Ok(Answer::More(None, asked))
}

fn safe(alloc: Global, value: &Value) -> Result<Answer, Error>
    ensures answers { IfOk result (Answers (says.safe (text_in value.now))) }
    ensures refused { IfErr result NoMemory }
{
    match value.as_str() {
        Some(text) => {
            let safe = Value::from_safe_text(String::from_str(alloc, text)?)?;
            Ok(Answer::Done(None, safe))
        }
        None => Ok(Answer::Fault(Error::new(ErrorKind::InvalidOperation))),
    }
}

fn same(value: &Value, others: &[Value]) -> Answer
    ensures { Answers (says.same value.now others.now) result }
{
    match others {
        [other, ..] => Answer::Done(None, Value::from_bool(value == other)),
        [] => missing(),
    }
}

// The filter of the name goes down to 0.
fn down(alloc: Global, name: &str, value: &Value) -> Result<Answer, Error>
    ensures answers { IfOk result (Answers (says.down_from name.now (whole_number value.now))) }
    ensures refused { IfErr result NoMemory }
{
    let Some(number) = value.as_int() else {
        return Ok(Answer::Fault(Error::new(ErrorKind::InvalidOperation)));
    };
    if number <= 0 {
        Ok(Answer::Done(None, Value::from_int(number)))
    } else {
        filter(alloc, name, &[Value::from_int(number - 1)])
    }
}

// The value is among the temps under the name from now on.
fn set(alloc: Global, view: &CallView<'_>, name: &str, value: &Value) -> Result<Answer, Error>
    ensures answers { IfOk result (Answers (says.set name.now (seen_in view.now) value.now)) }
    ensures refused { IfErr result NoMemory }
{
    let before = copy_or_undefined(view.get_temp(name))?;
    let name = String::from_str(alloc, name)?;
    let temps = vec![in alloc; (name, value.copy()?)]?;
    Ok(Answer::Done(Some(temps), before))
}
