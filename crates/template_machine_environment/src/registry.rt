//! What renders see of an environment beside what its user brought.
ghost use Rattle.std.specs.Prelude.{ℕ, List};
ghost use Rattle.std.specs.Option.{ForSome};
ghost use Rattle.template_machine_surroundings.specs.Rule.{IsEscapeOf};
ghost use Rattle.template_compiled.specs.Standing.{compiled_at};

use std::alloc::Global;
use template_compiled::{CompiledTemplate, CompiledTemplates, TemplateConfig};
use template_machine_renders::Rules;
use template_machine_tables::Globals;
use template_values_core::Value;
use template_values_errors::{Error, UndefinedBehavior};

/// The templates that stand, by name, and what each render keeps to: all of an environment but what its user brought.
#[derive(Drop)]
pub struct Registry<'source> {
    // The environment's number, and what stands under the frames of each run.
    pub(crate) globals: Globals,
    pub(crate) alloc: Global,
    pub(crate) templates: CompiledTemplates<'source>,
    pub(crate) config: TemplateConfig,
    pub(crate) fuel: Option<u64>,
    pub(crate) recursion_limit: usize,
    pub(crate) undefined_behavior: UndefinedBehavior,
    // What stands has the escape of the name that it stands under.
    ghost escaped: { (name : List ℕ) → ForSome (compiled_at templates name) (λ t. ∥ IsEscapeOf t.source.escapes name t.escape ∥₁) },
}

impl<'source> Registry<'source> {
    ghost use Rattle.std.specs.Prelude.{◌≡◌, None, Some, OnOk, OnErr, IfErr, bytes_eq, if◌then◌else◌};
    ghost use Rattle.template_values_errors.specs.Memory.{NoMemory};
    ghost use Rattle.template_compiled.specs.Compiled.{IsFaithful};
    ghost use Rattle.template_machine_tables.specs.Globals.{with_global, without_global};
    ghost use Rattle.template_machine_environment.specs.Standing.{global_at, settings_of, source_at};

    // The template goes in the place of one that stands under its name.
    pub(crate) fn insert(&mut self, template: CompiledTemplate<'source>) -> Result<(), Error>
        requires { IsFaithful template }
        ensures stands { OnOk result ((name : List ℕ) → compiled_at self.new.templates name
            ≡ (if bytes_eq template.entry.name name then Some template.entry else compiled_at self.old.templates name)) }
        ensures unchanged { OnErr result ((name : List ℕ) → compiled_at self.new.templates name ≡ compiled_at self.old.templates name) }
        ensures refused { IfErr result NoMemory }
        ensures settings { settings_of self.new ≡ settings_of self.old }
    {
        self.templates.insert(self.alloc, template)
    }

    // No template stands under the name any more.
    pub(crate) fn remove(&mut self, name: &str)
        ensures removed { (other : List ℕ) → compiled_at self.new.templates other
            ≡ (if bytes_eq name.now other then None else compiled_at self.old.templates other) }
        ensures settings { settings_of self.new ≡ settings_of self.old }
    {
        self.templates.remove(name);
    }

    // No template stands any more.
    pub(crate) fn clear(&mut self)
        ensures cleared { (name : List ℕ) → compiled_at self.new.templates name ≡ None }
        ensures settings { settings_of self.new ≡ settings_of self.old }
    {
        self.templates.clear();
    }

    // The value stands under the name from now on, in the place of one that stands there.
    pub(crate) fn put_global(&mut self, name: &str, value: Value) -> Result<(), Error>
        ensures stands { OnOk result ((other : List ℕ) → global_at self.new other
            ≡ (if bytes_eq name.now other then Some value else global_at self.old other)) }
        ensures settings { OnOk result (settings_of self.new ≡ record (settings_of self.old)
            { globals = with_global name.now value (settings_of self.old).globals }) }
        ensures sources { (name : List ℕ) → source_at self.new name ≡ source_at self.old name }
        ensures refused { IfErr result NoMemory }
        ensures unchanged { OnErr result (settings_of self.new ≡ settings_of self.old) }
    {
        self.globals.insert(self.alloc, name, value)
    }

    // No value stands under the name any more.
    pub(crate) fn remove_global(&mut self, name: &str)
        ensures removed { (other : List ℕ) → global_at self.new other
            ≡ (if bytes_eq name.now other then None else global_at self.old other) }
        ensures settings { settings_of self.new ≡ record (settings_of self.old)
            { globals = without_global name.now (settings_of self.old).globals } }
        ensures sources { (name : List ℕ) → source_at self.new name ≡ source_at self.old name }
    {
        self.globals.remove(name);
    }

    // What a run keeps to, under the name of what is rendered or evaluated.
    pub(crate) fn rules<'env>(&self, name: &'env str) -> Rules<'env>
        ensures name { result.name.now ≡ name.now }
        ensures limit { result.limit ≡ self.now.recursion_limit }
        ensures undefined { result.undefined ≡ self.now.undefined_behavior }
    {
        Rules {
            name,
            limit: self.recursion_limit,
            undefined: self.undefined_behavior,
        }
    }
}
