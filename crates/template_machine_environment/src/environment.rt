//! Environments.
ghost use Rattle.std.specs.Prelude.{◌≡◌, ◌+◌, ◌≢◌, ◌≤◌, ◌^◌, ◌∷◌, [], ℕ, List, length, None, Some, Option, Err, IfOk, IfErr, OnOk, OnErr, bytes_eq, min, map, option_map, All, string_bytes, if◌then◌else◌};
ghost use Rattle.std.specs.Cmp.Lexicographic.{slice_cmp};
ghost use Rattle.std.specs.Cow.{cow_str_bytes};
ghost use Rattle.std.specs.List.{find};
ghost use Rattle.std.specs.List.Sorted.{IsStrictlySortedBy};
ghost use Rattle.std.specs.Map.Iter.{deref_pair};
ghost use Rattle.std.specs.Ordering.{nat_cmp};
ghost use Rattle.template_values_errors.specs.Memory.{NoMemory};
ghost use Rattle.template_compiler_syntax.specs.Syntax.{default_syntax};
ghost use Rattle.template_machine_surroundings.specs.Rule.{IsEscapeOf};
ghost use Rattle.template_machine_tables.specs.Globals.{own_globals, with_global, without_global};
ghost use Rattle.template_compiled.specs.Compiled.{IsFaithful};
ghost use Rattle.template_compiled.specs.Sources.{HasNoRoom, IsAccepted, IsRefusedWith};
ghost use Rattle.template_compiled.specs.Plain.{IsPlain, text_kept};
ghost use Rattle.template_machine_environment_histories.specs.Histories as changes;
ghost use Rattle.template_machine_meaning.specs.Meaning.{no_head};
ghost use Rattle.template_machine_environment.specs.Extras.{no_extras, user_answers};
ghost use Rattle.template_machine_environment.specs.Plain.{ReadGivesItself};
ghost use Rattle.template_machine_environment.specs.Standing.{greatest_limit, new_settings, no_globals};

use crate::extensions::Extensions;
use crate::registry::Registry;
use crate::state::State;
use crate::template::{Template, TemplateCode};
use std::alloc::Global;
use std::borrow::CowStr;
use template_callables::{Extension, NoExtension};
use template_compiled::{CompiledTemplate, CompiledTemplates, TemplateConfig};
use template_compiler_syntax::SyntaxConfig;
use template_machine_meaning::isolation;
use template_machine_surroundings::{AutoEscapeRule, EscapeRule, StateIds};
use template_machine_tables::Globals;
use template_values_core::Value;
use template_values_errors::{Error, ErrorKind, UndefinedBehavior};

// The deepest that a render may be.
const MAX_RECURSION: usize = 500;

// The name of a template from a source without a name.
const UNNAMED: &str = "<string>";

/// The templates that stand, by name, the globals, what a user brought by the types of an [`Extension`], and what each render
/// keeps to.
pub struct Environment<'source, E: Extension = NoExtension> {
    pub(crate) registry: Registry<'source>,
    pub(crate) extensions: Extensions<E>,
}

// By hand, as with all that this crate hands out: a crate that drops one would else prove anew how each of its parts is
// dropped.
impl<'source, E: Extension> Drop for Environment<'source, E> {
    fn drop(self) {
        let Environment {
            registry: _,
            extensions: _,
        } = self;
    }
}

impl<'source> Environment<'source> {
    ghost use Rattle.template_machine_environment.specs.Standing.{settings_of, source_at};
    ghost use Rattle.template_machine_environment.specs.Reading.{extras_of, registry_of};

    /// An environment without templates, under the default syntax and escapes by name, without fuel, with the greatest
    /// recursion limit, where undefined values are lenient. Its globals are its functions `range`, `dict` and `namespace`. It
    /// takes a state id as its own.
    ///
    /// # Errors
    ///
    /// [`ErrorKind::InvalidOperation`] where no state id is left; [`ErrorKind::OutOfMemory`], with the id taken.
    pub fn new(alloc: Global, ids: &mut StateIds) -> Result<Environment<'source>, Error>
        ensures empty { IfOk result (λ e. (name : List ℕ) → source_at (registry_of e) name ≡ None) }
        ensures settings { IfOk result (λ e. settings_of (registry_of e)
            ≡ new_settings (own_globals ids.old) default_syntax EscapeRule.ByName) }
        ensures extras { IfOk result (λ e. extras_of e ≡ no_extras) }
        ensures refused { ids.old ≢ u64.MAX → IfErr result NoMemory }
        ensures counted { ids.old ≢ u64.MAX → ids.new ≡ ids.old + 1 }
        ensures exhausted { ids.old ≡ u64.MAX → (result ≡ Err (ErrorKind.InvalidOperation ∷ [])) × (ids.new ≡ ids.old) }
    {
        Environment::extended(alloc, ids)
    }

    /// The same without globals, where no function can be called, and with no escape, whatever a template's name is.
    ///
    /// # Errors
    ///
    /// [`ErrorKind::InvalidOperation`] where no state id is left.
    pub fn empty(alloc: Global, ids: &mut StateIds) -> Result<Environment<'source>, Error>
        ensures empty { IfOk result (λ e. (name : List ℕ) → source_at (registry_of e) name ≡ None) }
        ensures settings { IfOk result (λ e. settings_of (registry_of e)
            ≡ new_settings (no_globals ids.old) default_syntax EscapeRule.Never) }
        ensures extras { IfOk result (λ e. extras_of e ≡ no_extras) }
        ensures had_one { OnOk result (ids.old ≢ u64.MAX) }
        ensures counted { OnOk result (ids.new ≡ ids.old + 1) }
        ensures refused { IfErr result (λ kinds. (kinds ≡ ErrorKind.InvalidOperation ∷ []) × (ids.old ≡ u64.MAX) × (ids.new ≡ ids.old)) }
    {
        Environment::extended_empty(alloc, ids)
    }
}

impl<'source, E: Extension> Environment<'source, E> {
    ghost use Rattle.template_machine_environment.specs.Standing.{global_at, settings_of, source_at, unnamed};
    ghost use Rattle.template_machine_environment.specs.Changes.{Changes};
    ghost use Rattle.template_machine_environment.specs.Reading.{IsUnchanged, brought_of, extras_of, read_under, registry_of, rule_for};
    ghost use Rattle.template_machine_environment.specs.Isolated.{IsIsolatedSource};
    ghost use Rattle.template_machine_environment.specs.Renderings.{RendersSource};
    ghost use Rattle.template_machine_environment.specs.States.{environment_in, frameless, fuel_left_in, fuel_set_in, id_in, template_in, world_in};
    ghost use Rattle.template_machine_environment.specs.Views.{environment_of, escape_of, name_of, source_of};

    /// The same as [`Environment::new`] makes, for what a user brings by the types of `E`: nothing is brought yet. `E` says
    /// which types these are, so the environment's type is written where it is made, as in
    /// `let mut environment: Environment<'_, Shop> = Environment::extended(alloc, ids)?`.
    ///
    /// # Errors
    ///
    /// As [`Environment::new`].
    pub fn extended(alloc: Global, ids: &mut StateIds) -> Result<Environment<'source, E>, Error>
        ensures empty { IfOk result (λ e. (name : List ℕ) → source_at (registry_of e) name ≡ None) }
        ensures settings { IfOk result (λ e. settings_of (registry_of e)
            ≡ new_settings (own_globals ids.old) default_syntax EscapeRule.ByName) }
        ensures extras { IfOk result (λ e. extras_of e ≡ no_extras) }
        ensures refused { ids.old ≢ u64.MAX → IfErr result NoMemory }
        ensures counted { ids.old ≢ u64.MAX → ids.new ≡ ids.old + 1 }
        ensures exhausted { ids.old ≡ u64.MAX → (result ≡ Err (ErrorKind.InvalidOperation ∷ [])) × (ids.new ≡ ids.old) }
    {
        let id = ids.next()?;
        let globals = Globals::with_functions(alloc, id)?;
        Ok(Environment::under(alloc, globals, TemplateConfig::new()))
    }

    /// The same as [`Environment::empty`] makes, for what a user brings by the types of `E`: without globals and with no escape,
    /// and nothing is brought yet.
    ///
    /// # Errors
    ///
    /// As [`Environment::empty`].
    pub fn extended_empty(
        alloc: Global,
        ids: &mut StateIds,
    ) -> Result<Environment<'source, E>, Error>
        ensures empty { IfOk result (λ e. (name : List ℕ) → source_at (registry_of e) name ≡ None) }
        ensures settings { IfOk result (λ e. settings_of (registry_of e)
            ≡ new_settings (no_globals ids.old) default_syntax EscapeRule.Never) }
        ensures extras { IfOk result (λ e. extras_of e ≡ no_extras) }
        ensures had_one { OnOk result (ids.old ≢ u64.MAX) }
        ensures counted { OnOk result (ids.new ≡ ids.old + 1) }
        ensures refused { IfErr result (λ kinds. (kinds ≡ ErrorKind.InvalidOperation ∷ []) × (ids.old ≡ u64.MAX) × (ids.new ≡ ids.old)) }
    {
        let config = TemplateConfig {
            default_auto_escape: EscapeRule::Never,
            ..TemplateConfig::new()
        };
        let id = ids.next()?;
        Ok(Environment::under(alloc, Globals::empty(alloc, id), config))
    }

    // An environment without templates and with nothing of a user's, with what it gives to each run, and what its templates
    // are compiled under.
    fn under(alloc: Global, globals: Globals, config: TemplateConfig) -> Environment<'source, E>
        ensures empty { (name : List ℕ) → source_at (registry_of result) name ≡ None }
        ensures settings { settings_of (registry_of result) ≡ new_settings globals config.syntax_config config.default_auto_escape }
        ensures extras { extras_of result ≡ no_extras }
    {
        Environment {
            registry: Registry {
                globals,
                alloc,
                templates: CompiledTemplates::new(alloc),
                config,
                fuel: None,
                recursion_limit: MAX_RECURSION,
                undefined_behavior: UndefinedBehavior::Lenient,
            },
            extensions: Extensions::new(alloc),
        }
    }

    /// Adds a template, in the place of one that stands under that name. Takes time linear in the source, besides
    /// what the operators of constant trees cost, and a look-up among the names.
    ///
    /// # Errors
    ///
    /// Those of [`CompiledTemplate::new`]. After a refusal all is as before.
    pub fn add_template(&mut self, name: &'source str, source: &'source str) -> Result<(), Error>
        ensures accepted { OnOk result (IsAccepted (read_under E.Rule.answer self.old name.now source.now)) }
        ensures stands { OnOk result
            (Changes (changes.added name.now (read_under E.Rule.answer self.old name.now source.now)) self.old self.new) }
        ensures settings { settings_of (registry_of self.new) ≡ settings_of (registry_of self.old) }
        ensures extras { extras_of self.new ≡ extras_of self.old }
        ensures refused { IfErr result (IsRefusedWith (read_under E.Rule.answer self.old name.now source.now)) }
        ensures too_large { 2 ^ 32 ≤ length source.now → result ≡ Err (ErrorKind.TooLarge ∷ []) }
        ensures plain { IsPlain (read_under E.Rule.answer self.old name.now source.now) → IfErr result (HasNoRoom source.now) }
        ensures stays { OnErr result
            (Changes (changes.refused name.now (read_under E.Rule.answer self.old name.now source.now)) self.old self.new) }
        ensures unchanged { OnErr result (IsUnchanged self.old self.new) }
    {
        let compiled = self.compile(name, source)?;
        self.registry.insert(compiled)
    }

    /// The same of texts that need not outlive the environment: it keeps copies of them, which takes time and memory
    /// linear in the source and its code.
    ///
    /// # Errors
    ///
    /// As [`Environment::add_template`].
    pub fn add_template_owned(&mut self, name: CowStr<'_>, source: CowStr<'_>) -> Result<(), Error>
        ensures accepted { OnOk result
            (IsAccepted (read_under E.Rule.answer self.old (cow_str_bytes name.entry) (cow_str_bytes source.entry))) }
        ensures stands { OnOk result (Changes (changes.added (cow_str_bytes name.entry)
            (read_under E.Rule.answer self.old (cow_str_bytes name.entry) (cow_str_bytes source.entry))) self.old self.new) }
        ensures settings { settings_of (registry_of self.new) ≡ settings_of (registry_of self.old) }
        ensures extras { extras_of self.new ≡ extras_of self.old }
        ensures refused { IfErr result
            (IsRefusedWith (read_under E.Rule.answer self.old (cow_str_bytes name.entry) (cow_str_bytes source.entry))) }
        ensures too_large { 2 ^ 32 ≤ length (cow_str_bytes source.entry) → result ≡ Err (ErrorKind.TooLarge ∷ []) }
        ensures plain { IsPlain (read_under E.Rule.answer self.old (cow_str_bytes name.entry) (cow_str_bytes source.entry)) →
            IfErr result (HasNoRoom (cow_str_bytes source.entry)) }
        ensures stays { OnErr result (Changes (changes.refused (cow_str_bytes name.entry)
            (read_under E.Rule.answer self.old (cow_str_bytes name.entry) (cow_str_bytes source.entry))) self.old self.new) }
        ensures unchanged { OnErr result (IsUnchanged self.old self.new) }
    {
        let alloc = self.registry.alloc;
        let copied = CompiledTemplate::from_owned(alloc, name, source, &self.registry.config)?;
        let ruled = self.ruled(copied);
        self.registry.insert(ruled)
    }

    // A source compiled under what the environment is set to, as a template of a name.
    fn compile(
        &self,
        name: &'source str,
        source: &'source str,
    ) -> Result<CompiledTemplate<'source>, Error>
        ensures name { IfOk result (λ t. t.name ≡ name.now) }
        ensures source { IfOk result (λ t. t.source ≡ read_under E.Rule.answer self.now name.now source.now) }
        ensures faithful { IfOk result IsFaithful }
        ensures refused { IfErr result (IsRefusedWith (read_under E.Rule.answer self.now name.now source.now)) }
        ensures too_large { 2 ^ 32 ≤ length source.now → result ≡ Err (ErrorKind.TooLarge ∷ []) }
        ensures plain { IsPlain (read_under E.Rule.answer self.now name.now source.now) → IfErr result (HasNoRoom source.now) }
    {
        let alloc = self.registry.alloc;
        let compiled = CompiledTemplate::new(alloc, name, source, &self.registry.config)?;
        Ok(self.ruled(compiled))
    }

    // What was compiled, under the escape that the environment's own rule gives its name, if there is one.
    fn ruled<'text>(&self, compiled: CompiledTemplate<'text>) -> CompiledTemplate<'text>
        ensures name { result.name ≡ compiled.entry.name }
        ensures text { result.source.text ≡ compiled.entry.source.text }
        ensures syntax { result.source.syntax ≡ compiled.entry.source.syntax }
        ensures escapes { result.source.escapes
            ≡ rule_for E.Rule.answer compiled.entry.source.escapes (extras_of self.now).rule compiled.entry.name }
        ensures faithful { IsFaithful result }
    {
        match &self.extensions.rule {
            Some(rule) => {
                let escape = rule.rule(compiled.name());
                compiled.with_auto_escape(escape)
            }
            None => compiled,
        }
    }

    /// No template stands under the name any more. Takes a look-up among the names.
    pub fn remove_template(&mut self, name: &str)
        ensures removed { Changes (changes.removed name.now) self.old self.new }
        ensures settings { settings_of (registry_of self.new) ≡ settings_of (registry_of self.old) }
        ensures extras { extras_of self.new ≡ extras_of self.old }
    {
        self.registry.remove(name);
    }

    /// No template stands any more. Linear in what stood.
    pub fn clear_templates(&mut self)
        ensures cleared { Changes changes.cleared self.old self.new }
        ensures settings { settings_of (registry_of self.new) ≡ settings_of (registry_of self.old) }
        ensures extras { extras_of self.new ≡ extras_of self.old }
    {
        self.registry.clear();
    }

    /// Puts a value under a name, in the place of one that stands there: from now on each render, state and expression
    /// finds it where no frame and no context knows the name. So another value under the name of `range`, `dict` or
    /// `namespace` replaces that function. A function that another environment has by itself cannot be called here, and
    /// a namespace, a loop or a macro of a state is foreign to each other one. Keeps a copy of the name, and takes a
    /// look-up among the names.
    ///
    /// # Errors
    ///
    /// [`ErrorKind::OutOfMemory`]; all is then as before.
    pub fn add_global(&mut self, name: &str, value: Value) -> Result<(), Error>
        ensures stands { OnOk result ((other : List ℕ) → global_at (registry_of self.new) other
            ≡ (if bytes_eq name.now other then Some value else global_at (registry_of self.old) other)) }
        ensures settings { OnOk result (settings_of (registry_of self.new) ≡ record (settings_of (registry_of self.old))
            { globals = with_global name.now value (settings_of (registry_of self.old)).globals }) }
        ensures sources { (name : List ℕ) → source_at (registry_of self.new) name ≡ source_at (registry_of self.old) name }
        ensures extras { extras_of self.new ≡ extras_of self.old }
        ensures refused { IfErr result NoMemory }
        ensures unchanged { OnErr result (IsUnchanged self.old self.new) }
    {
        self.registry.put_global(name, value)
    }

    /// No value stands under the name any more, be it a function that the environment has by itself. Takes a look-up
    /// among the names, and no memory.
    pub fn remove_global(&mut self, name: &str)
        ensures removed { (other : List ℕ) → global_at (registry_of self.new) other
            ≡ (if bytes_eq name.now other then None else global_at (registry_of self.old) other) }
        ensures settings { settings_of (registry_of self.new) ≡ record (settings_of (registry_of self.old))
            { globals = without_global name.now (settings_of (registry_of self.old)).globals } }
        ensures sources { (name : List ℕ) → source_at (registry_of self.new) name ≡ source_at (registry_of self.old) name }
        ensures extras { extras_of self.new ≡ extras_of self.old }
    {
        self.registry.remove_global(name);
    }

    /// The names that values stand under, with these, by order of the names by bytes, each once. Linear in their number.
    ///
    /// # Errors
    ///
    /// [`ErrorKind::OutOfMemory`]
    pub fn globals(&self) -> Result<Vec<(&str, &Value)>, Error>
        ensures listed { IfOk result (λ list. map deref_pair list.items ≡ (settings_of (registry_of self.now)).globals.named) }
        ensures ordered { IfOk result (λ list. IsStrictlySortedBy (slice_cmp nat_cmp) (map (λ global. global.0.now) list.items)) }
        ensures refused { IfErr result NoMemory }
    {
        self.registry.globals.entries(self.registry.alloc)
    }

    /// Sets the syntax that templates are read under from now on.
    pub fn set_syntax(&mut self, syntax: SyntaxConfig)
        ensures sources { (name : List ℕ) → source_at (registry_of self.new) name ≡ source_at (registry_of self.old) name }
        ensures settings { settings_of (registry_of self.new) ≡ record (settings_of (registry_of self.old)) { syntax = syntax } }
        ensures extras { extras_of self.new ≡ extras_of self.old }
    {
        self.registry.config.syntax_config = syntax;
    }

    /// The syntax that templates are read under.
    pub fn syntax(&self) -> &SyntaxConfig
        ensures { result.now ≡ (settings_of (registry_of self.now)).syntax }
    {
        &self.registry.config.syntax_config
    }

    /// Sets the fuel of each render from now on, or takes it away.
    pub fn set_fuel(&mut self, fuel: Option<u64>)
        ensures sources { (name : List ℕ) → source_at (registry_of self.new) name ≡ source_at (registry_of self.old) name }
        ensures settings { settings_of (registry_of self.new) ≡ record (settings_of (registry_of self.old)) { fuel = fuel } }
        ensures extras { extras_of self.new ≡ extras_of self.old }
    {
        self.registry.fuel = fuel;
    }

    /// The fuel of each render, if one is set.
    pub fn fuel(&self) -> Option<u64>
        ensures { result ≡ (settings_of (registry_of self.now)).fuel }
    {
        self.registry.fuel
    }

    /// Sets how deep a render may be from now on: 500 at most.
    pub fn set_recursion_limit(&mut self, level: usize)
        ensures sources { (name : List ℕ) → source_at (registry_of self.new) name ≡ source_at (registry_of self.old) name }
        ensures settings { settings_of (registry_of self.new)
            ≡ record (settings_of (registry_of self.old)) { limit = min level greatest_limit } }
        ensures extras { extras_of self.new ≡ extras_of self.old }
    {
        self.registry.recursion_limit = level.min(MAX_RECURSION);
    }

    /// How deep a render may be.
    pub fn recursion_limit(&self) -> usize
        ensures { result ≡ (settings_of (registry_of self.now)).limit }
    {
        self.registry.recursion_limit
    }

    /// Sets what may be done with undefined values from now on.
    pub fn set_undefined_behavior(&mut self, behavior: UndefinedBehavior)
        ensures sources { (name : List ℕ) → source_at (registry_of self.new) name ≡ source_at (registry_of self.old) name }
        ensures settings { settings_of (registry_of self.new) ≡ record (settings_of (registry_of self.old)) { undefined = behavior } }
        ensures extras { extras_of self.new ≡ extras_of self.old }
    {
        self.registry.undefined_behavior = behavior;
    }

    /// What may be done with undefined values.
    pub fn undefined_behavior(&self) -> UndefinedBehavior
        ensures { result ≡ (settings_of (registry_of self.now)).undefined }
    {
        self.registry.undefined_behavior
    }

    /// The template that stands under a name. Takes a look-up among the names, and no memory.
    ///
    /// # Errors
    ///
    /// [`ErrorKind::TemplateNotFound`] where none stands.
    pub fn get_template(&self, name: &str) -> Result<Template<'_, 'source, E>, Error>
        ensures found { IfOk result (λ t. source_at (registry_of self.now) name.now ≡ Some (source_of t)) }
        ensures named { IfOk result (λ t. name_of t ≡ name.now) }
        ensures here { IfOk result (λ t. environment_of t ≡ self.now) }
        ensures missing { IfErr result (λ kinds. (kinds ≡ ErrorKind.TemplateNotFound ∷ [])
            × (source_at (registry_of self.now) name.now ≡ None)) }
    {
        match self.registry.templates.get(name) {
            Some(compiled) => Ok(Template {
                environment: self,
                compiled: TemplateCode::Borrowed(compiled),
            }),
            None => Err(Error::new(ErrorKind::TemplateNotFound)),
        }
    }

    /// The templates that stand, by order of their names by bytes. Linear in their number.
    ///
    /// # Errors
    ///
    /// [`ErrorKind::OutOfMemory`]
    pub fn templates(&self) -> Result<Vec<Template<'_, 'source, E>>, Error>
        ensures listed { IfOk result (λ list. (name : List ℕ) → source_at (registry_of self.now) name
            ≡ option_map source_of (find (λ t. bytes_eq name (name_of t)) list.items)) }
        ensures ordered { IfOk result (λ list. IsStrictlySortedBy (slice_cmp nat_cmp) (map name_of list.items)) }
        ensures here { IfOk result (λ list. All (λ t. environment_of t ≡ self.now) list.items) }
        ensures refused { IfErr result NoMemory }
    {
        let mut listed = Vec::new(self.registry.alloc);
        for compiled in self.registry.templates.values() {
            listed.push(Template {
                environment: self,
                compiled: TemplateCode::Borrowed(compiled),
            })?;
        }
        Ok(listed)
    }

    /// A template of its own from a source, under the name `<string>`. It does not stand here. Takes time linear in
    /// the source, besides what the operators of constant trees cost.
    ///
    /// # Errors
    ///
    /// Those of [`Environment::add_template`].
    pub fn template_from_str(&self, source: &'source str) -> Result<Template<'_, 'source, E>, Error>
        ensures accepted { OnOk result (IsAccepted (read_under E.Rule.answer self.now unnamed source.now)) }
        ensures source { IfOk result (λ t. source_of t ≡ read_under E.Rule.answer self.now unnamed source.now) }
        ensures named { IfOk result (λ t. name_of t ≡ unnamed) }
        ensures escape { IfOk result (λ t. IsEscapeOf (source_of t).escapes unnamed (escape_of t)) }
        ensures here { IfOk result (λ t. environment_of t ≡ self.now) }
        ensures refused { IfErr result (IsRefusedWith (read_under E.Rule.answer self.now unnamed source.now)) }
        ensures too_large { 2 ^ 32 ≤ length source.now → result ≡ Err (ErrorKind.TooLarge ∷ []) }
        ensures plain { IsPlain (read_under E.Rule.answer self.now unnamed source.now) → IfErr result (HasNoRoom source.now) }
    {
        self.template_from_named_str(UNNAMED, source)
    }

    /// A template of its own from a source, under a name. It does not stand here. Takes time linear in the source,
    /// besides what the operators of constant trees cost.
    ///
    /// # Errors
    ///
    /// Those of [`Environment::add_template`].
    pub fn template_from_named_str(
        &self,
        name: &'source str,
        source: &'source str,
    ) -> Result<Template<'_, 'source, E>, Error>
        ensures accepted { OnOk result (IsAccepted (read_under E.Rule.answer self.now name.now source.now)) }
        ensures source { IfOk result (λ t. source_of t ≡ read_under E.Rule.answer self.now name.now source.now) }
        ensures named { IfOk result (λ t. name_of t ≡ name.now) }
        ensures escape { IfOk result (λ t. IsEscapeOf (source_of t).escapes name.now (escape_of t)) }
        ensures here { IfOk result (λ t. environment_of t ≡ self.now) }
        ensures refused { IfErr result (IsRefusedWith (read_under E.Rule.answer self.now name.now source.now)) }
        ensures too_large { 2 ^ 32 ≤ length source.now → result ≡ Err (ErrorKind.TooLarge ∷ []) }
        ensures plain { IsPlain (read_under E.Rule.answer self.now name.now source.now) → IfErr result (HasNoRoom source.now) }
    {
        let own = self.compile(name, source)?;
        Ok(Template {
            environment: self,
            compiled: TemplateCode::Owned(own),
        })
    }

    /// A state without a template and without frames, under the name `<unknown>` and no escape.
    ///
    /// # Errors
    ///
    /// [`ErrorKind::OutOfMemory`]; [`ErrorKind::InvalidOperation`] where no state id is left.
    pub fn empty_state(&self, ids: &mut StateIds) -> Result<State<'_, 'source, E>, Error>
        ensures here { IfOk result (λ s. environment_in s ≡ self.now) }
        ensures of_none { IfOk result (λ s. template_in s ≡ None) }
        ensures world { IfOk result (λ s. world_in s ≡ frameless ids.old (settings_of (registry_of self.now)).globals no_head) }
        ensures given { IfOk result (λ s. fuel_set_in s ≡ (settings_of (registry_of self.now)).fuel) }
        ensures remains { IfOk result (λ s. fuel_left_in s ≡ (settings_of (registry_of self.now)).fuel) }
        ensures id { IfOk result (λ s. id_in s ≡ ids.old) }
        ensures refused { ids.old ≢ u64.MAX → IfErr result NoMemory }
        ensures counted { ids.old ≢ u64.MAX → ids.new ≡ ids.old + 1 }
        ensures exhausted { ids.old ≡ u64.MAX → (result ≡ Err (ErrorKind.InvalidOperation ∷ [])) × (ids.new ≡ ids.old) }
    {
        State::without_frames(self, None, ids)
    }

    /// The text of a render of a source over a context, under the name `<string>`. The source is read as by
    /// [`Environment::template_from_str`].
    ///
    /// # Errors
    ///
    /// Those of [`Environment::template_from_str`]: then no state id is taken. Then those of [`Template::render`].
    pub fn render_str(
        &self,
        source: &'source str,
        ids: &mut StateIds,
        context: Value,
    ) -> Result<String, Error>
        ensures renders { let says = user_answers E.Callable.answer E.Method.answer E.Formatter.answer E.Join.answer in
            RendersSource (brought_of says self.now) (registry_of self.now) unnamed
            (read_under E.Rule.answer self.now unnamed source.now) context ids.old ids.new (λ text. string_bytes text) result }
        ensures too_large { 2 ^ 32 ≤ length source.now → result ≡ Err (ErrorKind.TooLarge ∷ []) }

        // Where no marker starts in the source, that is its text.
        ensures plain { let read = read_under E.Rule.answer self.now unnamed source.now in
            ids.old ≢ u64.MAX → IsPlain read →
            ReadGivesItself (settings_of (registry_of self.now)).fuel source.now (text_kept read) (λ text. string_bytes text) result }

        // Where what the user brought asks for no names, contexts that agree at those that can matter make no difference.
        ensures isolated { let says = user_answers E.Callable.answer E.Method.answer E.Formatter.answer E.Join.answer in
            IsIsolatedSource (brought_of says self.now) (registry_of self.now)
            (read_under E.Rule.answer self.now unnamed source.now) context }
    {
        self.render_named_str(UNNAMED, source, ids, context)
    }

    /// The text of a render of a source over a context, under a name. The source is read as by
    /// [`Environment::template_from_named_str`].
    ///
    /// # Errors
    ///
    /// Those of [`Environment::template_from_named_str`]: then no state id is taken. Then those of
    /// [`Template::render`].
    pub fn render_named_str(
        &self,
        name: &'source str,
        source: &'source str,
        ids: &mut StateIds,
        context: Value,
    ) -> Result<String, Error>
        ensures renders { let says = user_answers E.Callable.answer E.Method.answer E.Formatter.answer E.Join.answer in
            RendersSource (brought_of says self.now) (registry_of self.now) name.now
            (read_under E.Rule.answer self.now name.now source.now) context ids.old ids.new (λ text. string_bytes text) result }
        ensures too_large { 2 ^ 32 ≤ length source.now → result ≡ Err (ErrorKind.TooLarge ∷ []) }

        // Where no marker starts in the source, that is its text.
        ensures plain { let read = read_under E.Rule.answer self.now name.now source.now in
            ids.old ≢ u64.MAX → IsPlain read →
            ReadGivesItself (settings_of (registry_of self.now)).fuel source.now (text_kept read) (λ text. string_bytes text) result }

        // Where what the user brought asks for no names, contexts that agree at those that can matter make no difference.
        ensures isolated { let says = user_answers E.Callable.answer E.Method.answer E.Formatter.answer E.Join.answer in
            IsIsolatedSource (brought_of says self.now) (registry_of self.now)
            (read_under E.Rule.answer self.now name.now source.now) context }
    {
        isolation();
        let template = self.template_from_named_str(name, source)?;
        template.render(ids, context)
    }

    // What its renders take their memory from.
    pub(crate) fn allocator(&self) -> Global {
        self.registry.alloc
    }
}
