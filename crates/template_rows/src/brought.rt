//! What a case brings under a name, and what answers for methods.
ghost use Rattle.std.specs.Prelude.{◌≡◌, ◌∷◌, ◌++◌, IfErr, IfOk};
ghost use Rattle.template_values_errors.specs.Memory.{NoMemory};
ghost use Rattle.template_values_model.specs.Gives.{Gives};
ghost use Rattle.template_values_model.specs.Val as values;
ghost use Rattle.template_values_named.specs.Named.{local_at, pairs_named};
ghost use Rattle.template_callables.specs.Answers.{Answers, stated_by, temps_in};
ghost use Rattle.template_callables.specs.Views.{seen_in};
ghost use Rattle.template_rows.specs.Brings.{SetsFirst, before, brought_says, first_set, methods_say, one_more};

use crate::what::What;
use std::alloc::Global;
use template_callables::{Answer, CallView, Callable, UnknownMethod, copy_all};
use template_values_core::Value;
use template_values_errors::Error;
use template_values_operators::add;

/// What a case brings under a name.
#[derive(Drop)]
pub struct Brought {
    /// What its answers are made with.
    pub alloc: Global,
    /// What is set among the temps first, in turn.
    pub sets: Vec<(String, Value)>,
    /// The name under which the temps have the number of the calls, if these are counted.
    pub counts: Option<String>,
    /// What it answers.
    pub what: What,
}

impl Callable for Brought {
    ghost answer = { brought_says };

    fn invoke(&self, view: &CallView<'_>, args: &[Value]) -> Answer {
        match self.first_temps(view) {
            Ok(temps) => match self.what.answer(self.alloc, view, args) {
                Ok(answer) => behind(temps, answer),
                Err(refused) => Answer::Fault(refused),
            },
            Err(error) => Answer::Fault(error),
        }
    }
}

/// The value is the first argument, and the method's name is the second.
impl UnknownMethod for Brought {
    ghost answer = { methods_say };

    fn invoke(&self, view: &CallView<'_>, value: &Value, method: &str, args: &[Value]) -> Answer {
        match self.given(value, method, args) {
            Ok(given) => Callable::invoke(self, view, given.as_slice()),
            Err(refused) => Answer::Fault(refused),
        }
    }
}

impl Brought {
    // What is set among the temps before what is answered.
    fn first_temps(&self, view: &CallView<'_>) -> Result<Vec<(String, Value)>, Error>
        ensures { SetsFirst (first_set self.now (seen_in view.now)) result }
    {
        let mut temps = copy_temps(self.alloc, self.sets.as_slice())?;
        if let Some(name) = &self.counts {
            let count = counted(self.alloc, view, name.as_str())?;
            temps.push((name.clone()?, count))?;
        }
        Ok(temps)
    }

    // The arguments where a method is called.
    fn given(&self, value: &Value, method: &str, args: &[Value]) -> Result<Vec<Value>, Error>
        ensures given { IfOk result (λ given. given.items ≡ value.now ∷ values.text method.now ∷ args.now) }
        ensures refused { IfErr result NoMemory }
    {
        let name = Value::from_str(self.alloc, method)?;
        let mut given = vec![in self.alloc; value.copy()?, name]?;
        let mut args = copy_all(self.alloc, args)?;
        given.append(&mut args)?;
        Ok(given)
    }
}

fn copy_temps(alloc: Global, temps: &[(String, Value)]) -> Result<Vec<(String, Value)>, Error>
    ensures copies { IfOk result (λ copies. pairs_named copies.items ≡ pairs_named temps.now) }
    ensures refused { IfErr result NoMemory }
{
    let mut copies = Vec::with_capacity(alloc, temps.len())?;
    for (name, value) in temps {
        copies.push((name.clone()?, value.copy()?))?;
    }
    Ok(copies)
}

// One more than the number that is among the temps under the name, or 1 where there is none.
fn counted(alloc: Global, view: &CallView<'_>, name: &str) -> Result<Value, Error>
    ensures { Gives result (one_more (local_at name.now (seen_in view.now).temps)) }
{
    match view.get_temp(name) {
        Some(count) => add(alloc, count, &Value::from_int(1)),
        None => Ok(Value::from_int(1)),
    }
}

// The answer, with its temps behind others.
fn behind(temps: Vec<(String, Value)>, answer: Answer) -> Answer
    ensures { Answers (before (pairs_named temps.items) (stated_by answer)) result }
{
    match answer {
        Answer::Done(more, value) => match with_more(temps, more) {
            Ok(temps) => Answer::Done(Some(temps), value),
            Err(refused) => Answer::Fault(refused),
        },
        Answer::Fault(error) => Answer::Fault(error),
        Answer::More(more, asked) => match with_more(temps, more) {
            Ok(temps) => Answer::More(Some(temps), asked),
            Err(refused) => Answer::Fault(refused),
        },
    }
}

fn with_more(
    temps: Vec<(String, Value)>,
    more: Option<Vec<(String, Value)>>,
) -> Result<Vec<(String, Value)>, Error>
    ensures all { IfOk result (λ all. pairs_named all.items ≡ pairs_named temps.items ++ temps_in more) }
    ensures refused { IfErr result NoMemory }
{
    let mut all = temps;
    if let Some(mut more) = more {
        all.append(&mut more)?;
    }
    Ok(all)
}
