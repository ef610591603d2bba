//! Expressions of an environment, and their values.
ghost use Rattle.std.specs.Prelude.{◌≡◌, ◌≢◌, ◌≤◌, ◌^◌, ◌↔◌, ◌+◌, ◌∷◌, [], ℕ, List, length, IsTrue, IfOk, IfErr, OnOk, Err};
ghost use Rattle.std.specs.BTreeSet.{contains_text};
ghost use Rattle.std.specs.Cow.{cow_str_bytes};
ghost use Rattle.template_values_errors.specs.Memory.{NoMemory};
ghost use Rattle.template_compiler_process.specs.Fuel.{under};
ghost use Rattle.template_machine_meaning.specs.Laws.{GivesOne};
ghost use Rattle.template_machine_meaning.specs.Meaning.{evaluated};
ghost use Rattle.template_compiled.specs.Expressions.{IsAcceptedExpression, IsExpressionRefusedWith, expression_in};
ghost use Rattle.template_compiler_names.specs.Names.{IsToldAlone};
ghost use Rattle.template_machine_environment.specs.Evaluations.{Gives};
ghost use Rattle.template_machine_environment.specs.Extras.{user_answers};
ghost use Rattle.template_machine_environment.specs.Reading.{registry_of, setting_in};

use crate::environment::Environment;
use crate::laws::every_expression_runs;
use crate::starting::begun_alone;
use std::borrow::CowStr;
use std::collections::BTreeSet;
use template_callables::{Extension, NoExtension};
use template_compiled::CompiledExpression;
use template_machine_meaning::{every_expression_gives, expression_isolation};
use template_machine_renders::{Program, run_expression};
use template_machine_surroundings::{NullWriter, StateIds};
use template_values_core::Value;
use template_values_errors::{Error, ErrorKind};
use template_values_forms::freeze;

// The name that an expression runs under.
const EXPRESSION: &str = "<expression>";

/// An expression that an environment compiled.
pub struct Expression<'env, 'source, E: Extension = NoExtension> {
    environment: &'env Environment<'source, E>,
    pub(crate) compiled: CompiledExpression<'source>,
}

impl<'env, 'source, E: Extension> Drop for Expression<'env, 'source, E> {
    fn drop(self) {
        let Expression {
            environment: _,
            compiled: _,
        } = self;
    }
}

impl<'source, E: Extension> Environment<'source, E> {
    ghost use Rattle.template_machine_environment.specs.Evaluations.{environment_under, text_of};

    /// Compiles the source of an expression, which is read alike under every syntax. Takes time linear in the source,
    /// besides what the operators of constant trees cost.
    ///
    /// # Errors
    ///
    /// Those of [`CompiledExpression::new`].
    pub fn compile_expression(
        &self,
        source: &'source str,
    ) -> Result<Expression<'_, 'source, E>, Error>
        ensures accepted { OnOk result (IsAcceptedExpression source.now) }
        ensures source { IfOk result (λ e. text_of e ≡ source.now) }
        ensures here { IfOk result (λ e. environment_under e ≡ self.now) }
        ensures refused { IfErr result (IsExpressionRefusedWith source.now) }
        ensures too_large { 2 ^ 32 ≤ length source.now → result ≡ Err (ErrorKind.TooLarge ∷ []) }
    {
        let compiled = CompiledExpression::new(self.allocator(), source)?;
        Ok(Expression {
            environment: self,
            compiled,
        })
    }

    /// The same of a source that need not outlive the environment: the expression keeps a copy.
    ///
    /// # Errors
    ///
    /// As [`Environment::compile_expression`].
    pub fn compile_expression_owned(
        &self,
        source: CowStr<'_>,
    ) -> Result<Expression<'_, 'source, E>, Error>
        ensures accepted { OnOk result (IsAcceptedExpression (cow_str_bytes source.entry)) }
        ensures source { IfOk result (λ e. text_of e ≡ cow_str_bytes source.entry) }
        ensures here { IfOk result (λ e. environment_under e ≡ self.now) }
        ensures refused { IfErr result (IsExpressionRefusedWith (cow_str_bytes source.entry)) }
        ensures too_large { 2 ^ 32 ≤ length (cow_str_bytes source.entry) → result ≡ Err (ErrorKind.TooLarge ∷ []) }
    {
        let compiled = CompiledExpression::from_owned(self.allocator(), source)?;
        Ok(Expression {
            environment: self,
            compiled,
        })
    }
}

impl<'env, 'source, E: Extension> Expression<'env, 'source, E> {
    ghost use Rattle.template_machine_environment.specs.Evaluations.{IsIsolatedEvaluation, evaluation_of, fuel_under, text_of};

    /// The value of the expression over a context, under no escape and the fuel of its environment, in a state of its
    /// own. The templates and the globals that stand there do so here. Where what the user brought asks for no names,
    /// contexts that agree at those that stand in the expression give the same. A namespace is given as a map of what it
    /// holds, and so is each that stands in the value, since no other state knows it. Linear in the instructions that it
    /// runs, besides what operators and calls cost, and in the value that it gives.
    ///
    /// # Errors
    ///
    /// The fault that the expression ends with, as [`ErrorKind::OutOfFuel`]; [`ErrorKind::InvalidOperation`] where a
    /// namespace in the value is foreign, as one that the context or a global has from another state, or where it holds
    /// itself, and where no state id is left; [`ErrorKind::OutOfMemory`] where a growth was refused.
    /// [`ErrorKind::WriteFailure`] only where a callable states it, since it writes nothing.
    pub fn eval(&self, ids: &mut StateIds, context: Value) -> Result<Value, Error>
        // Its meaning leaves one value, or ends with a fault.
        ensures finished { let says = user_answers E.Callable.answer E.Method.answer E.Formatter.answer E.Join.answer in
            GivesOne (evaluation_of says self.now ids.old context).end }
        ensures value { let says = user_answers E.Callable.answer E.Method.answer E.Formatter.answer E.Join.answer in
            ids.old ≢ u64.MAX → Gives result (under (fuel_under self.now) (evaluation_of says self.now ids.old context)) }
        ensures counted { ids.old ≢ u64.MAX → ids.new ≡ ids.old + 1 }
        ensures exhausted { ids.old ≡ u64.MAX → (result ≡ Err (ErrorKind.InvalidOperation ∷ [])) × (ids.new ≡ ids.old) }
        ensures isolated { let says = user_answers E.Callable.answer E.Method.answer E.Formatter.answer E.Join.answer in
            IsIsolatedEvaluation says self.now context }
    {
        every_expression_runs(self);
        every_expression_gives();
        expression_isolation();
        let id = ids.next()?;
        evaluate(self.environment, id, &self.compiled, context)
    }

    /// The names that the expression uses, each once, by order of their bytes; where `nested`, each with the dotted
    /// names that stand directly behind it, as `page.title`. Reads the source once more, in time linear in its length,
    /// and takes a look-up for each place of use.
    ///
    /// # Errors
    ///
    /// [`ErrorKind::OutOfMemory`].
    pub fn undeclared_variables(&self, nested: bool) -> Result<BTreeSet<String>, Error>
        ensures told { IfOk result (λ names. (text : List ℕ) → IsTrue (contains_text names text)
            ↔ IsToldAlone nested text (expression_in (text_of self.now))) }
        ensures refused { IfErr result NoMemory }
    {
        self.compiled
            .undeclared(self.environment.allocator(), nested)
    }
}

// Runs the code of an expression over a context, in the state of a number, and hands its value out. It writes nothing and opens
// no loop.
fn evaluate<'env, 'source, E: Extension>(
    environment: &'env Environment<'source, E>,
    id: u64,
    compiled: &'env CompiledExpression<'source>,
    context: Value,
) -> Result<Value, Error>
    ensures { let says = user_answers E.Callable.answer E.Method.answer E.Formatter.answer E.Join.answer in
        Gives result (under (registry_of environment.now).fuel
        (evaluated (setting_in says environment.now) id (expression_in compiled.now) context)) }
{
    let registry = &environment.registry;
    let alloc = registry.alloc;
    let mut state = begun_alone(id, environment, context)?;
    let mut left = registry.fuel;
    let mut scratch = String::new(alloc);
    let program = Program {
        templates: environment,
        root: None,
        kept: None,
        rules: registry.rules(EXPRESSION),
    };
    match run_expression(
        alloc,
        program,
        compiled.instructions(),
        &mut state,
        &mut left,
        &mut scratch,
        &mut NullWriter,
    ) {
        Ok(value) => freeze(alloc, value, &state),
        Err(stop) => Err(stop.into_error()),
    }
}
