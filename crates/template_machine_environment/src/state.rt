//! States of templates, as callers see them.
ghost use Rattle.std.specs.Prelude.{◌≡◌, ◌≢◌, ◌+◌, ◌∷◌, ◌⊎◌, [], ℕ, List, IfOk, IfErr, OnOk, OnErr, None, Some, Ok, Err, is_some, option_copied, option_map, string_bytes};
ghost use Rattle.std.specs.BTreeSet.{contains_text};
ghost use Rattle.template_values_errors.specs.Memory.{NoMemory};
ghost use Rattle.template_values_named.specs.Named.{local_at};
ghost use Rattle.template_compiler_process.specs.Fuel.{under};
ghost use Rattle.template_compiler_process.specs.Process.{value};
ghost use Rattle.template_values_model.specs.Val.{truth};
ghost use Rattle.template_machine_meaning.specs.Calls.{with_temps};
ghost use Rattle.template_machine_meaning.specs.Functions.{filter_named, test_named};
ghost use Rattle.template_machine_meaning.specs.Keeps.{KeepsWorld};
ghost use Rattle.template_machine_meaning.specs.Plans.{put_back};
ghost use Rattle.template_machine_meaning.specs.World.{looked_up};
ghost use Rattle.template_machine_calls.specs.Formatted.{outside};
ghost use Rattle.template_machine_calls.specs.Left.{entry_plan, reached_by};
ghost use Rattle.template_machine_going.specs.Told.{SparesSink};
ghost use Rattle.template_machine_renders.specs.Plans.{PutsBack, run_of};
ghost use Rattle.template_machine_state.specs.Names.{is_exported};
ghost use Rattle.template_compiler_code_shapes.specs.Checked.{kind_in};
ghost use Rattle.template_compiler_code_shapes.specs.declared.StreamKind.{StreamKind};
ghost use Rattle.template_machine_environment.specs.Extras.{user_answers};
ghost use Rattle.template_machine_environment.specs.Reading.{registry_of};
ghost use Rattle.template_machine_environment.specs.Renderings.{AnswersFailure, Finishes, GivesText, IsNoMore, LeavesFuel, Renders, WhereFinished, left_of, set_of};

use crate::environment::Environment;
use crate::laws::{every_block_ends, every_call_ends};
use crate::levels::Levels;
use crate::starting::{begun, own_name, program};
use crate::template::Template;
use std::collections::BTreeSet;
use template_callables::{Extension, NoExtension};
use template_compiled::CompiledTemplate;
use template_compiler_code_shapes::Checked;
use template_machine_calls::{
    Entry, Reached, call_filter, call_found, call_test, format_value, turn_all,
};
use template_machine_going::Stop;
use template_machine_renders::{Templates, run_block, run_entry, run_stream};
use template_machine_state::{Caller, State as MachineState};
use template_machine_surroundings::{NullWriter, Sink, StateIds};
use template_values_core::{Entry as MapEntry, Value};
use template_values_errors::{AutoEscape, Error, ErrorKind, UndefinedBehavior};
use template_values_forms::{LoopView, MacroView, Records};
use template_values_operators::growth::copies;
use template_values_print::print_to;

/// What surrounds a template: as a render of it left it, or without any frame.
pub struct State<'env, 'source, E: Extension = NoExtension> {
    pub(crate) id: u64,
    pub(crate) environment: &'env Environment<'source, E>,
    // The template of which it is a state, if it is one's.
    pub(crate) template: Option<&'env CompiledTemplate<'source>>,
    pub(crate) machine: MachineState<'env>,
    // What was consumed of the fuel, and what remains of it.
    pub(crate) fuel: Option<Levels>,
    // How many streams were handed in.
    pub(crate) streams: usize,
}

impl<'env, 'source, E: Extension> Drop for State<'env, 'source, E> {
    fn drop(self) {
        let State {
            id: _,
            environment: _,
            template: _,
            machine: _,
            fuel: _,
            streams: _,
        } = self;
    }
}

impl<'env, 'source, E: Extension> State<'env, 'source, E> {
    ghost use Rattle.template_machine_environment.specs.Standing.{settings_of, source_at};
    ghost use Rattle.template_machine_environment.specs.States.{DoesThere, EndsIn, GivesLeft, GivesPrinted, GivesTold, IsMissing, KeepsRest, KeepsState, LeavesWorld, Returns, WhereReturned, around_in, block_in, call_in, environment_in, format_in, frameless, fuel_left_in, fuel_set_in, head_of_template, id_in, joined_in, macro_in, name_in, own_in, stream_in, streams_in, template_in, worded_in, world_in};
    ghost use Rattle.template_machine_environment.specs.Views.{environment_of, name_of, source_of};

    // A state without frames, of a template if one is given, with its escape and blocks, that has consumed no fuel.
    pub(crate) fn without_frames(
        environment: &'env Environment<'source, E>,
        template: Option<&'env CompiledTemplate<'source>>,
        ids: &mut StateIds,
    ) -> Result<State<'env, 'source, E>, Error>
        ensures here { IfOk result (λ s. environment_in s ≡ environment.now) }
        ensures of_template { IfOk result (λ s. template_in s ≡ option_copied template.entry) }
        ensures world { IfOk result (λ s. world_in s
            ≡ frameless ids.old (settings_of (registry_of environment.now)).globals (head_of_template (option_copied template.entry))) }
        ensures given { IfOk result (λ s. fuel_set_in s ≡ (registry_of environment.now).fuel) }
        ensures remains { IfOk result (λ s. fuel_left_in s ≡ (registry_of environment.now).fuel) }
        ensures id { IfOk result (λ s. id_in s ≡ ids.old) }
        ensures refused { ids.old ≢ u64.MAX → IfErr result NoMemory }
        ensures counted { ids.old ≢ u64.MAX → ids.new ≡ ids.old + 1 }
        ensures exhausted { ids.old ≡ u64.MAX → (result ≡ Err (ErrorKind.InvalidOperation ∷ [])) × (ids.new ≡ ids.old) }
    {
        let id = ids.next()?;
        let machine = begun(id, environment, template, Value::undefined())?;
        Ok(State {
            id,
            environment,
            template,
            machine: machine.without_frames(),
            fuel: unspent(environment.fuel()),
            streams: 0,
        })
    }

    /// The number of the state.
    pub fn id(&self) -> u64
        ensures { result ≡ id_in self.now }
    {
        self.id
    }

    /// The environment of its template.
    pub fn env(&self) -> &'env Environment<'source, E>
        ensures { result.now ≡ environment_in self.now }
    {
        self.environment
    }

    /// The name of the template whose text ran last: its own, or that of the template that it extends; of a state without a
    /// template `<unknown>`.
    pub fn name(&self) -> &str
        ensures { result.now ≡ name_in self.now }
    {
        self.machine.here_name(own_name(self.template))
    }

    /// The block that runs: none does between calls.
    pub fn current_block(&self) -> Option<&'env str>
        ensures { option_copied result ≡ (world_in self.now).block }
    {
        self.machine.block()
    }

    /// The escape in force.
    pub fn auto_escape(&self) -> AutoEscape
        ensures { result ≡ (world_in self.now).escape }
    {
        self.machine.auto_escape()
    }

    /// What may be done with undefined values.
    pub fn undefined_behavior(&self) -> UndefinedBehavior
        ensures { result ≡ (settings_of (registry_of (environment_in self.now))).undefined }
    {
        self.environment.undefined_behavior()
    }

    /// What a name stands for: what the innermost frame that knows it has under it, a local value first, then its loop,
    /// which `loop` is the name of, then what its context has; else the environment's global of this name. Linear in the
    /// number of frames and of their names, and logarithmic in the size of each context and in the number of globals. The
    /// value shares its contents.
    ///
    /// # Errors
    ///
    /// [`ErrorKind::OutOfMemory`]
    pub fn lookup(&self, name: &str) -> Result<Option<Value>, Error>
        ensures found { IfOk result (λ found. found ≡ looked_up name.now (world_in self.now)) }
        ensures refused { IfErr result NoMemory }
    {
        self.machine.looked_up(name)
    }

    /// The names of the outermost frame's locals that do not begin with `_`. Takes n log n comparisons for n locals.
    ///
    /// # Errors
    ///
    /// [`ErrorKind::OutOfMemory`]
    pub fn exports(&self) -> Result<BTreeSet<String>, Error>
        ensures exported { IfOk result (λ names. (name : List ℕ) → contains_text names name ≡ is_exported name (world_in self.now).frames) }
        ensures refused { IfErr result NoMemory }
    {
        self.machine.exports(self.environment.allocator())
    }

    /// The names that [`State::lookup`] finds: each frame's locals, `loop` where a frame's loop has its variable, the
    /// text keys of a context that is a map or a module, and the environment's globals. Takes n log n comparisons for n names in all
    /// frames, their contexts and the globals.
    ///
    /// # Errors
    ///
    /// [`ErrorKind::OutOfMemory`]
    pub fn known_variables(&self) -> Result<BTreeSet<String>, Error>
        ensures known { IfOk result (λ names. (name : List ℕ) → contains_text names name
            ≡ is_some (looked_up name (world_in self.now))) }
        ensures refused { IfErr result NoMemory }
    {
        self.machine.known_variables(self.environment.allocator())
    }

    /// What a filter comes to for these arguments, the first of which is what it filters; and what it asks the machine further: that
    /// may run a macro or a block, which consume the fuel that remains. Costs what the filter costs, and what it asks for.
    ///
    /// # Errors
    ///
    /// [`ErrorKind::UnknownFilter`] where the environment has none of this name; the fault that the filter answers with, or what
    /// it asks for, by the kinds that it states; [`ErrorKind::InvalidOperation`] where more is asked for at once than there are
    /// levels left; the fault of what runs; [`ErrorKind::OutOfMemory`] alone where a growth was refused. What was open before is
    /// so again; temps may have been set, and of a fuel that ran out nothing is left.
    pub fn apply_filter(&mut self, name: &str, args: &[Value]) -> Result<Value, Error>
        // It is finished under some bound.
        ensures finished { let says = user_answers E.Callable.answer E.Method.answer E.Formatter.answer E.Join.answer in
            Returns (call_in says self.old (filter_named name.now) args.now) }

        // Under each bound where it is finished, it is what the call comes to.
        ensures told { let says = user_answers E.Callable.answer E.Method.answer E.Formatter.answer E.Join.answer in
            WhereReturned (call_in says self.old (filter_named name.now) args.now) (GivesTold value (fuel_left_in self.old) result) }
        ensures remains { let says = user_answers E.Callable.answer E.Method.answer E.Formatter.answer E.Join.answer in
            WhereReturned (call_in says self.old (filter_named name.now) args.now)
            (λ reply. LeavesFuel (fuel_left_in self.old) (run_of reply) result (fuel_left_in self.new)) }
        ensures world { let says = user_answers E.Callable.answer E.Method.answer E.Formatter.answer E.Join.answer in
            WhereReturned (call_in says self.old (filter_named name.now) args.now)
            (λ reply. LeavesWorld (fuel_left_in self.old) (world_in self.old) result reply (world_in self.new)) }

        // Whatever its end, the frames are as before, and so is what every run keeps: the state's number, what the environment gives,
        // the block that runs, the names of what was loaded, with others before them at most, and the bodies that blocks run, with
        // others behind them at most.
        ensures frames { (world_in self.new).frames ≡ (world_in self.old).frames }
        ensures keeps { KeepsWorld (world_in self.old) (world_in self.new) }

        // Behind a fault what else was open is so again.
        ensures put_back { OnErr result (PutsBack (world_in self.old) (world_in self.new)) }
        ensures rest { KeepsState self.old self.new }
    {
        every_call_ends(self);
        let environment = self.environment;
        let rules = environment.registry.rules(own_name(self.template));
        let alloc = environment.allocator();
        let mark = self.machine.mark(alloc)?;
        let reached = match call_filter(alloc, rules, environment, name, args, &mut self.machine) {
            Ok(reached) => reached,
            Err(stop) => return Err(stop.into_error()),
        };
        match self.come_to(reached) {
            Ok(value) => Ok(value),
            Err(stop) => Err(self.failed(mark, stop.into_error())),
        }
    }

    /// What a test comes to for these arguments, the first of which is what it tests; and what it asks the machine further.
    /// Costs what the test costs, and what it asks for.
    ///
    /// # Errors
    ///
    /// [`ErrorKind::UnknownTest`] where the environment has none of this name; else as [`State::apply_filter`].
    pub fn perform_test(&mut self, name: &str, args: &[Value]) -> Result<bool, Error>
        // It is finished under some bound.
        ensures finished { let says = user_answers E.Callable.answer E.Method.answer E.Formatter.answer E.Join.answer in
            Returns (call_in says self.old (test_named name.now) args.now) }

        // Under each bound where it is finished, it is what the call comes to.
        ensures told { let says = user_answers E.Callable.answer E.Method.answer E.Formatter.answer E.Join.answer in
            WhereReturned (call_in says self.old (test_named name.now) args.now)
            (GivesTold (λ is. value (truth is)) (fuel_left_in self.old) result) }
        ensures remains { let says = user_answers E.Callable.answer E.Method.answer E.Formatter.answer E.Join.answer in
            WhereReturned (call_in says self.old (test_named name.now) args.now)
            (λ reply. LeavesFuel (fuel_left_in self.old) (run_of reply) result (fuel_left_in self.new)) }
        ensures world { let says = user_answers E.Callable.answer E.Method.answer E.Formatter.answer E.Join.answer in
            WhereReturned (call_in says self.old (test_named name.now) args.now)
            (λ reply. LeavesWorld (fuel_left_in self.old) (world_in self.old) result reply (world_in self.new)) }

        // Whatever its end, the frames are as before, and so is what every run keeps: the state's number, what the environment gives,
        // the block that runs, the names of what was loaded, with others before them at most, and the bodies that blocks run, with
        // others behind them at most.
        ensures frames { (world_in self.new).frames ≡ (world_in self.old).frames }
        ensures keeps { KeepsWorld (world_in self.old) (world_in self.new) }

        // Behind a fault what else was open is so again.
        ensures put_back { OnErr result (PutsBack (world_in self.old) (world_in self.new)) }
        ensures rest { KeepsState self.old self.new }
    {
        every_call_ends(self);
        let environment = self.environment;
        let rules = environment.registry.rules(own_name(self.template));
        let alloc = environment.allocator();
        let mark = self.machine.mark(alloc)?;
        let reached = match call_test(alloc, rules, environment, name, args, &mut self.machine) {
            Ok(reached) => reached,
            Err(stop) => return Err(stop.into_error()),
        };
        match self.come_to(reached) {
            Ok(value) => Ok(value.is_true()),
            Err(stop) => Err(self.failed(mark, stop.into_error())),
        }
    }

    /// The text of what a call comes to of what stands under a name, with these arguments: of a macro that the template has made or
    /// imported, over what is left of its closure and under the escape in force, or of a function. Keywords are one keyword map behind
    /// the other arguments. The fuel that remains is consumed on. Costs what the call costs, and is linear in its text.
    ///
    /// # Errors
    ///
    /// [`ErrorKind::UnknownFunction`] where nothing stands under the name; [`ErrorKind::InvalidOperation`] at what cannot be called, as
    /// a loop, where no level is left, and at a value that cannot be printed; [`ErrorKind::TooManyArguments`] at arguments that a macro
    /// does not take; the fault of what runs, as [`ErrorKind::OutOfFuel`]; [`ErrorKind::OutOfMemory`]. Then as [`State::apply_filter`].
    pub fn call_macro(&mut self, name: &str, args: &[Value]) -> Result<String, Error>
        // It is finished under some bound.
        ensures finished { let says = user_answers E.Callable.answer E.Method.answer E.Formatter.answer E.Join.answer in
            Returns (macro_in says self.old name.now args.now) }

        // Under each bound where it is finished, it is the text that the call comes to.
        ensures told { let says = user_answers E.Callable.answer E.Method.answer E.Formatter.answer E.Join.answer in
            WhereReturned (macro_in says self.old name.now args.now) (GivesTold (worded_in self.new) (fuel_left_in self.old) result) }
        ensures remains { let says = user_answers E.Callable.answer E.Method.answer E.Formatter.answer E.Join.answer in
            WhereReturned (macro_in says self.old name.now args.now)
            (λ reply. LeavesFuel (fuel_left_in self.old) (run_of reply) result (fuel_left_in self.new)) }
        ensures world { let says = user_answers E.Callable.answer E.Method.answer E.Formatter.answer E.Join.answer in
            WhereReturned (macro_in says self.old name.now args.now)
            (λ reply. LeavesWorld (fuel_left_in self.old) (world_in self.old) result reply (world_in self.new)) }

        // Whatever its end, the frames are as before, and so is what every run keeps: the state's number, what the environment gives,
        // the block that runs, the names of what was loaded, with others before them at most, and the bodies that blocks run, with
        // others behind them at most.
        ensures frames { (world_in self.new).frames ≡ (world_in self.old).frames }
        ensures keeps { KeepsWorld (world_in self.old) (world_in self.new) }

        // Behind a fault what else was open is so again.
        ensures put_back { OnErr result (PutsBack (world_in self.old) (world_in self.new)) }
        ensures rest { KeepsState self.old self.new }
    {
        every_call_ends(self);
        let environment = self.environment;
        let rules = environment.registry.rules(own_name(self.template));
        let alloc = environment.allocator();
        let given = copies(alloc, args)?;
        let mark = self.machine.mark(alloc)?;
        let reached = match call_found(alloc, rules, environment, name, given, &mut self.machine) {
            Ok(reached) => reached,
            Err(stop) => return Err(stop.into_error()),
        };
        let value = match self.come_to(reached) {
            Ok(value) => value,
            Err(stop) => return Err(self.failed(mark, stop.into_error())),
        };
        let mut text = String::new(alloc);
        match print_to(&value, &self.machine, &mut text) {
            Ok(()) => Ok(text),
            Err(error) => Err(self.failed(mark, error)),
        }
    }

    // The error of a call, behind which is open again what was open where it was marked.
    fn failed(&mut self, mark: Caller<'env>, error: Error) -> Error
        ensures same { result ≡ error }
        ensures put_back { world_in self.new ≡ put_back mark.entry (world_in self.old) }
        ensures rest { KeepsRest self.old self.new }
    {
        self.machine.leave_block(mark);
        error
    }

    // What a call came to: a value, or that of what it enters, and what is made of it.
    //
    // # Errors
    //
    // Those of `turn_all` and `enter`.
    fn come_to(&mut self, reached: Reached) -> Result<Value, Stop>
        ensures does { let says = user_answers E.Callable.answer E.Method.answer E.Formatter.answer E.Join.answer in
            DoesThere says (reached_by (around_in says self.old) reached (world_in self.old)) self.old self.new result }
        ensures frames { (world_in self.new).frames ≡ (world_in self.old).frames }
        ensures keeps { KeepsWorld (world_in self.old) (world_in self.new) }
        ensures spares { IfErr result SparesSink }
        ensures rest { KeepsState self.old self.new }
    {
        match reached {
            Reached::Value(value, turnings) => {
                let alloc = self.environment.allocator();
                turn_all(alloc, turnings, value, &self.machine)
            }
            Reached::Enters(entry) => self.enter(entry),
        }
    }

    // The value of what a call enters, which runs with the fuel that remains; what it writes goes into captures alone.
    //
    // # Errors
    //
    // Those of `run_entry`.
    fn enter(&mut self, entry: Entry) -> Result<Value, Stop>
        ensures does { let says = user_answers E.Callable.answer E.Method.answer E.Formatter.answer E.Join.answer in
            DoesThere says (entry_plan (around_in says self.old) entry (world_in self.old)) self.old self.new result }
        ensures frames { (world_in self.new).frames ≡ (world_in self.old).frames }
        ensures keeps { KeepsWorld (world_in self.old) (world_in self.new) }
        ensures spares { IfErr result SparesSink }
        ensures rest { KeepsState self.old self.new }
    {
        let environment = self.environment;
        let alloc = environment.allocator();
        let mut left = remaining(self.fuel);
        let mut scratch = String::new(alloc);
        let mut sink = NullWriter;
        let told = run_entry(
            alloc,
            program(environment, self.template),
            entry,
            &mut self.machine,
            &mut left,
            &mut scratch,
            &mut sink,
        );
        self.fuel = spend(self.fuel, left);
        told
    }

    /// What was set last under a name, by a callable or by [`State::set_temp`]. Logarithmic in the number of temps. The value
    /// shares its contents.
    ///
    /// # Errors
    ///
    /// [`ErrorKind::OutOfMemory`]
    pub fn get_temp(&self, name: &str) -> Result<Option<Value>, Error>
        ensures found { IfOk result (λ found. found ≡ local_at name.now (world_in self.now).temps) }
        ensures refused { IfErr result NoMemory }
    {
        match self.machine.temp(name) {
            Some(value) => Ok(Some(value.copy()?)),
            None => Ok(None),
        }
    }

    /// Sets a value under a name, for the callables that are called from now on in this state. Gives the value in whose
    /// place it stands, if there was one. Logarithmic in the number of temps; keeps a copy of the name.
    ///
    /// # Errors
    ///
    /// [`ErrorKind::OutOfMemory`]; the temps are then as before.
    pub fn set_temp(&mut self, name: &str, value: Value) -> Result<Option<Value>, Error>
        ensures set { OnOk result (world_in self.new ≡ with_temps ((name.now, value) ∷ []) (world_in self.old)) }
        ensures replaced { IfOk result (λ replaced. replaced ≡ local_at name.now (world_in self.old).temps) }
        ensures rest { KeepsRest self.old self.new }
        ensures refused { IfErr result NoMemory }
        ensures unchanged { OnErr result (world_in self.new ≡ world_in self.old) }
    {
        let alloc = self.environment.allocator();
        self.machine.set_temp(alloc, name, value)
    }

    /// The text that a value is printed as: as the environment's formatter says, or under the escape in force where there is none.
    /// Costs what the formatter costs, and is linear in the text.
    ///
    /// # Errors
    ///
    /// [`ErrorKind::UndefinedError`] where an undefined value may not be printed; the fault that the formatter answers with, by
    /// the kinds that it states; what the escape refuses the value with; [`ErrorKind::OutOfMemory`] alone where a growth was
    /// refused.
    pub fn format(&self, value: &Value) -> Result<String, Error>
        ensures { let says = user_answers E.Callable.answer E.Method.answer E.Formatter.answer E.Join.answer in
            GivesPrinted (outside (world_in self.now)) result (format_in says self.now value.now) }
    {
        let environment = self.environment;
        let rules = environment.registry.rules(own_name(self.template));
        match format_value(
            environment.allocator(),
            rules,
            environment,
            &self.machine,
            value,
        ) {
            Ok(text) => Ok(text),
            Err(stop) => Err(stop.into_error()),
        }
    }

    /// The template that a name means where it stands in the template of this state's name. Takes a look-up among the names.
    ///
    /// # Errors
    ///
    /// [`ErrorKind::TemplateNotFound`] where none stands; the fault of the environment's path join callback, by the kinds that
    /// it states; [`ErrorKind::OutOfMemory`].
    pub fn get_template(&self, name: &str) -> Result<Template<'env, 'source, E>, Error>
        ensures found { let says = user_answers E.Callable.answer E.Method.answer E.Formatter.answer E.Join.answer in
            IfOk result (λ t. joined_in says self.now name.now ≡ Ok (name_of t)) }
        ensures stands { IfOk result (λ t. source_at (registry_of (environment_in self.now)) (name_of t) ≡ Some (source_of t)) }
        ensures here { IfOk result (λ t. environment_of t ≡ environment_in self.now) }
        ensures missing { let says = user_answers E.Callable.answer E.Method.answer E.Formatter.answer E.Join.answer in
            IfErr result (λ kinds. NoMemory kinds
            ⊎ IsMissing (registry_of (environment_in self.now)) (joined_in says self.now name.now) kinds) }
    {
        let environment = self.environment;
        let joined = match environment.join(name, self.name()) {
            Ok(joined) => joined,
            Err(stop) => return Err(stop.into_error()),
        };
        environment.get_template(joined.as_str())
    }

    /// The text of a block of the template, or of one that it extends, over what its frames hold: as a call of the block in the
    /// template gives it, but also where what is written there is dropped. The fuel that remains is consumed on. Linear in
    /// the instructions that it runs and in its text, besides what operators and calls cost.
    ///
    /// # Errors
    ///
    /// As [`State::render_block_to_write`]; [`ErrorKind::WriteFailure`] only where a callable states it.
    pub fn render_block(&mut self, block: &str) -> Result<String, Error>
        // Its meaning is finished under some bound.
        ensures finished { let says = user_answers E.Callable.answer E.Method.answer E.Formatter.answer E.Join.answer in
            Finishes (block_in says self.old block.now) }

        // Under each bound where its meaning is finished, its text is the one that the call gives.
        ensures text { let says = user_answers E.Callable.answer E.Method.answer E.Formatter.answer E.Join.answer in
            WhereFinished (block_in says self.old block.now)
            (λ run. GivesText (λ text. string_bytes text) result (under (fuel_left_in self.old) run)) }
        ensures remains { let says = user_answers E.Callable.answer E.Method.answer E.Formatter.answer E.Join.answer in
            WhereFinished (block_in says self.old block.now)
            (λ run. LeavesFuel (fuel_left_in self.old) run result (fuel_left_in self.new)) }
        ensures world { let says = user_answers E.Callable.answer E.Method.answer E.Formatter.answer E.Join.answer in
            WhereFinished (block_in says self.old block.now) (λ run. EndsIn (fuel_left_in self.old) result run (world_in self.new)) }

        // Whatever its end, the frames are as before, and so is what every run keeps: the state's number, what the environment gives,
        // the block that runs, the names of what was loaded, with others before them at most, and the bodies that blocks run, with
        // others behind them at most.
        ensures frames { (world_in self.new).frames ≡ (world_in self.old).frames }
        ensures keeps { KeepsWorld (world_in self.old) (world_in self.new) }

        // What else was open is so again.
        ensures put_back { PutsBack (world_in self.old) (world_in self.new) }
        ensures rest { KeepsState self.old self.new }
    {
        let mut text = String::new(self.environment.allocator());
        self.render_block_to_write(block, &mut text)?;
        Ok(text)
    }

    /// The same into a sink, in one or more pieces.
    ///
    /// # Errors
    ///
    /// [`ErrorKind::UnknownBlock`] where there is no block of this name; [`ErrorKind::InvalidOperation`] where its only body
    /// requires another, and where no level is left; the fault that the block ends with, as [`ErrorKind::OutOfFuel`]: the
    /// text before it is then in the sink. [`ErrorKind::OutOfMemory`] where a growth was refused, and
    /// [`ErrorKind::WriteFailure`] where the sink failed; it has then taken a beginning of the text. Where a callable states
    /// either as its fault, the sink has not failed. Frames, captures, the escape and the block that runs are then as before;
    /// temps, and what the block loaded, stay; of a fuel that ran out nothing is left.
    pub fn render_block_to_write<S: Sink>(&mut self, block: &str, sink: &mut S) -> Result<(), Error>
        // Its meaning is finished under some bound.
        ensures finished { let says = user_answers E.Callable.answer E.Method.answer E.Formatter.answer E.Join.answer in
            Finishes (block_in says self.old block.now) }

        // Under each bound where its meaning is finished, its text is the one that goes into the sink.
        ensures renders { let says = user_answers E.Callable.answer E.Method.answer E.Formatter.answer E.Join.answer in
            WhereFinished (block_in says self.old block.now)
            (λ run. Renders result (S.taken sink.old) (S.taken sink.new) (S.failures sink.old) (S.failures sink.new)
            (under (fuel_left_in self.old) run)) }

        // Where the sink does not fail, the fuel and the world that are left are what that leaves.
        ensures remains { let says = user_answers E.Callable.answer E.Method.answer E.Formatter.answer E.Join.answer in
            S.failures sink.new ≡ S.failures sink.old → WhereFinished (block_in says self.old block.now)
            (λ run. LeavesFuel (fuel_left_in self.old) run result (fuel_left_in self.new)) }
        ensures world { let says = user_answers E.Callable.answer E.Method.answer E.Formatter.answer E.Join.answer in
            S.failures sink.new ≡ S.failures sink.old → WhereFinished (block_in says self.old block.now)
            (λ run. EndsIn (fuel_left_in self.old) result run (world_in self.new)) }

        // Whatever its end, the frames are as before, and so is what every run keeps: the state's number, what the environment gives,
        // the block that runs, the names of what was loaded, with others before them at most, and the bodies that blocks run, with
        // others behind them at most.
        ensures frames { (world_in self.new).frames ≡ (world_in self.old).frames }
        ensures keeps { KeepsWorld (world_in self.old) (world_in self.new) }

        // What else was open is so again.
        ensures put_back { PutsBack (world_in self.old) (world_in self.new) }
        ensures failures { AnswersFailure result (S.failures sink.old) (S.failures sink.new) }
        ensures rest { KeepsState self.old self.new }
    {
        every_block_ends(self);
        let environment = self.environment;
        let alloc = environment.allocator();
        let mut left = remaining(self.fuel);
        let mut scratch = String::new(alloc);
        let done = run_block(
            alloc,
            program(environment, self.template),
            block,
            &mut self.machine,
            &mut left,
            &mut scratch,
            sink,
        );
        self.fuel = spend(self.fuel, left);
        match done {
            Ok(()) => Ok(()),
            Err(stop) => Err(stop.into_error()),
        }
    }

    /// Runs a stream that no compiler wrote as a template's, in a frame of its own, with the templates that it extends: the text goes
    /// into a sink, in one or more pieces, and the value is given that its own instructions leave. An expression's leave one, a
    /// template's none. The fuel that remains is consumed on. Linear in the instructions that it runs and in its text, besides what
    /// operators and calls cost. What the stream makes, macros and loops that may be called again, can be run while it runs alone: a
    /// later call of one is refused by [`ErrorKind::InvalidOperation`].
    ///
    /// # Errors
    ///
    /// [`ErrorKind::InvalidOperation`] where no level is left; the fault that the run ends with, as [`ErrorKind::OutOfFuel`]: the text
    /// before it is then in the sink. [`ErrorKind::OutOfMemory`] where a growth was refused, and [`ErrorKind::WriteFailure`] where the
    /// sink failed; it has then taken a beginning of the text. Where a callable states either as its fault, the sink has not failed.
    /// Frames, captures, the escape and the block that runs are then as before; temps, and what the stream loaded, stay; of a fuel that
    /// ran out nothing is left.
    pub fn run_checked<S: Sink>(
        &mut self,
        stream: &'env Checked<'source>,
        sink: &mut S,
    ) -> Result<Option<Value>, Error>
        // Under each bound where the stream's run is finished, its text is the one that goes into the sink.
        ensures renders { let says = user_answers E.Callable.answer E.Method.answer E.Formatter.answer E.Join.answer in
            WhereFinished (stream_in says self.old stream.now)
            (λ run. Renders result (S.taken sink.old) (S.taken sink.new) (S.failures sink.old) (S.failures sink.new)
            (under (fuel_left_in self.old) run)) }

        // The value is the one that its own instructions leave, if they leave one: those of a template's stream leave none.
        ensures gives { let says = user_answers E.Callable.answer E.Method.answer E.Formatter.answer E.Join.answer in
            IfOk result (GivesLeft (own_in says self.old stream.now)) }
        ensures template { IfOk result (λ given. kind_in stream.now ≡ StreamKind.Template → given ≡ None) }

        // Where the sink does not fail, the fuel and the world that are left are what the run leaves.
        ensures remains { let says = user_answers E.Callable.answer E.Method.answer E.Formatter.answer E.Join.answer in
            S.failures sink.new ≡ S.failures sink.old → WhereFinished (stream_in says self.old stream.now)
            (λ run. LeavesFuel (fuel_left_in self.old) run result (fuel_left_in self.new)) }
        ensures world { let says = user_answers E.Callable.answer E.Method.answer E.Formatter.answer E.Join.answer in
            S.failures sink.new ≡ S.failures sink.old → WhereFinished (stream_in says self.old stream.now)
            (λ run. EndsIn (fuel_left_in self.old) result run (world_in self.new)) }

        // Whatever its end, the frames are as before, and so is what every run keeps: the state's number, what the environment gives,
        // the block that runs, the names of what was loaded, with others before them at most, and the bodies that blocks run, with
        // others behind them at most.
        ensures frames { (world_in self.new).frames ≡ (world_in self.old).frames }
        ensures keeps { KeepsWorld (world_in self.old) (world_in self.new) }

        // What else was open is so again.
        ensures put_back { PutsBack (world_in self.old) (world_in self.new) }
        ensures failures { AnswersFailure result (S.failures sink.old) (S.failures sink.new) }

        // The next stream that is handed in has another number.
        ensures counted { streams_in self.old ≢ usize.MAX → streams_in self.new ≡ streams_in self.old + 1 }
        ensures rest { KeepsState self.old (record self.new { streams = streams_in self.old }) }
    {
        let number = self.streams;
        let Some(next) = number.checked_add(1) else {
            return Err(Error::new(ErrorKind::OutOfMemory));
        };
        self.streams = next;
        let environment = self.environment;
        let alloc = environment.allocator();
        let mut left = remaining(self.fuel);
        let mut scratch = String::new(alloc);
        let done = run_stream(
            alloc,
            program(environment, self.template),
            number,
            stream,
            &mut self.machine,
            &mut left,
            &mut scratch,
            sink,
        );
        self.fuel = spend(self.fuel, left);
        match done {
            Ok(given) => Ok(given),
            Err(stop) => Err(stop.into_error()),
        }
    }

    /// What was consumed of the fuel and what remains of it, where one was set.
    pub fn fuel_levels(&self) -> Option<(u64, u64)>
        ensures remaining { option_map (λ levels. levels.1) result ≡ fuel_left_in self.now }
        ensures sum { option_map (λ levels. levels.0 + levels.1) result ≡ fuel_set_in self.now }
    {
        match self.fuel {
            Some(levels) => Some((levels.consumed, levels.remaining)),
            None => None,
        }
    }
}

// A look into a namespace, a loop or a macro of this state finds it, so that values which it gave can be printed and looked into.
impl<'env, 'source, E: Extension> Records for State<'env, 'source, E> {
    ghost use Rattle.template_machine_meaning.specs.Records.{known_of};
    ghost use Rattle.template_machine_environment.specs.States.{world_in};

    ghost known = { λ s. known_of (world_in s) };

    fn namespace(&self, id: u64, number: usize) -> Option<&[MapEntry]> {
        self.machine.namespace(id, number)
    }

    fn loop_view(&self, id: u64, number: usize) -> Option<LoopView<'_>> {
        self.machine.loop_view(id, number)
    }

    fn macro_view(&self, id: u64, number: usize) -> Option<MacroView<'_>> {
        self.machine.macro_view(id, number)
    }
}

// The levels of a fuel of which nothing was consumed.
pub(crate) fn unspent(fuel: Option<u64>) -> Option<Levels>
    ensures set { set_of result ≡ fuel }
    ensures left { left_of result ≡ fuel }
{
    match fuel {
        Some(fuel) => Some(Levels {
            consumed: 0,
            remaining: fuel,
        }),
        None => None,
    }
}

// What is left of a fuel.
fn remaining(levels: Option<Levels>) -> Option<u64>
    ensures { result ≡ left_of levels }
{
    match levels {
        Some(levels) => Some(levels.remaining),
        None => None,
    }
}

// The levels of a fuel of which so much is left now: no more than was.
pub(crate) fn spend(levels: Option<Levels>, left: Option<u64>) -> Option<Levels>
    ensures set { set_of result ≡ set_of levels }
    ensures left { IsNoMore (left_of levels) left → left_of result ≡ left }
{
    match (levels, left) {
        (Some(levels), Some(left)) => {
            let remaining = left.min(levels.remaining);
            Some(Levels {
                consumed: levels.consumed + (levels.remaining - remaining),
                remaining,
            })
        }
        _ => levels,
    }
}
