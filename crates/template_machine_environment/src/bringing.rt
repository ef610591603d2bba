//! What a user brings to an environment.
ghost use Rattle.std.specs.Prelude.{◌≡◌, ◌≤◌, ◌⊎◌, ◌^◌, ◌++◌, ◌∷◌, [], ℕ, List, None, Some, Err, IfErr, OnErr, OnOk, bytes_eq, if◌then◌else◌};
ghost use Rattle.template_values_errors.specs.Memory.{NoMemory};
ghost use Rattle.template_values_model.specs.Val as values;
ghost use Rattle.template_machine_tables.specs.Globals.{with_global};
ghost use Rattle.template_machine_environment.specs.Extras.{Puts, next_number};

use crate::environment::Environment;
use crate::extensions::put;
use template_callables::Extension;
use template_machine_surroundings::EscapeRule;
use template_machine_tables::OWN_FUNCTIONS;
use template_values_core::Value;
use template_values_errors::{Error, ErrorKind};

impl<'source, E: Extension> Environment<'source, E> {
    ghost use Rattle.template_machine_environment.specs.Standing.{global_at, settings_of, source_at};
    ghost use Rattle.template_machine_environment.specs.Reading.{IsUnchanged, extras_of, read_under, registry_of};

    /// Adds a filter, in the place of one that stands under that name, which is dropped. Keeps a copy of the name, and takes
    /// a look-up among the names of filters.
    ///
    /// # Errors
    ///
    /// [`ErrorKind::OutOfMemory`]; all is then as before.
    pub fn add_filter(&mut self, name: &str, filter: E::Callable) -> Result<(), Error>
        ensures stands { OnOk result (Puts name.now (Some filter) (extras_of self.old).filters (extras_of self.new).filters) }
        ensures others { extras_of self.new ≡ record (extras_of self.old) { filters = (extras_of self.new).filters } }
        ensures sources { (name : List ℕ) → source_at (registry_of self.new) name ≡ source_at (registry_of self.old) name }
        ensures settings { settings_of (registry_of self.new) ≡ settings_of (registry_of self.old) }
        ensures refused { IfErr result NoMemory }
        ensures unchanged { OnErr result (IsUnchanged self.old self.new) }
    {
        let alloc = self.registry.alloc;
        put(alloc, &mut self.extensions.filters, name, filter)
    }

    /// No filter stands under the name any more; one that did is dropped. Takes a look-up among the names of filters, and no
    /// memory.
    pub fn remove_filter(&mut self, name: &str)
        ensures removed { Puts name.now None (extras_of self.old).filters (extras_of self.new).filters }
        ensures others { extras_of self.new ≡ record (extras_of self.old) { filters = (extras_of self.new).filters } }
        ensures sources { (name : List ℕ) → source_at (registry_of self.new) name ≡ source_at (registry_of self.old) name }
        ensures settings { settings_of (registry_of self.new) ≡ settings_of (registry_of self.old) }
    {
        let _removed = self.extensions.filters.remove(name);
    }

    /// Adds a test, in the place of one that stands under that name, which is dropped. What it answers is taken for true or
    /// false as a condition takes its value. Keeps a copy of the name, and takes a look-up among the names of tests.
    ///
    /// # Errors
    ///
    /// [`ErrorKind::OutOfMemory`]; all is then as before.
    pub fn add_test(&mut self, name: &str, test: E::Callable) -> Result<(), Error>
        ensures stands { OnOk result (Puts name.now (Some test) (extras_of self.old).tests (extras_of self.new).tests) }
        ensures others { extras_of self.new ≡ record (extras_of self.old) { tests = (extras_of self.new).tests } }
        ensures sources { (name : List ℕ) → source_at (registry_of self.new) name ≡ source_at (registry_of self.old) name }
        ensures settings { settings_of (registry_of self.new) ≡ settings_of (registry_of self.old) }
        ensures refused { IfErr result NoMemory }
        ensures unchanged { OnErr result (IsUnchanged self.old self.new) }
    {
        let alloc = self.registry.alloc;
        put(alloc, &mut self.extensions.tests, name, test)
    }

    /// No test stands under the name any more; one that did is dropped. Takes a look-up among the names of tests, and no
    /// memory.
    pub fn remove_test(&mut self, name: &str)
        ensures removed { Puts name.now None (extras_of self.old).tests (extras_of self.new).tests }
        ensures others { extras_of self.new ≡ record (extras_of self.old) { tests = (extras_of self.new).tests } }
        ensures sources { (name : List ℕ) → source_at (registry_of self.new) name ≡ source_at (registry_of self.old) name }
        ensures settings { settings_of (registry_of self.new) ≡ settings_of (registry_of self.old) }
    {
        let _removed = self.extensions.tests.remove(name);
    }

    /// Adds a function, and puts its value under the name among the globals, as [`Environment::add_global`] puts one. The
    /// value may be handed on and called by whatever name: so the function stays until the environment ends, whatever comes
    /// to stand under its name. It takes the next number, which no other function of this environment is ever given. Keeps a
    /// copy of the name, and takes a look-up among the names of globals.
    ///
    /// # Errors
    ///
    /// [`ErrorKind::OutOfMemory`]; [`ErrorKind::InvalidOperation`] where there is no next number. All is then as before.
    pub fn add_function(&mut self, name: &str, function: E::Callable) -> Result<(), Error>
        ensures stands { OnOk result
            (extras_of self.new ≡ record (extras_of self.old) { functions = (extras_of self.old).functions ++ function ∷ [] }) }
        ensures found { let globals = (settings_of (registry_of self.old)).globals in
            let value = values.function globals.environment (next_number (extras_of self.old)) in
            OnOk result ((other : List ℕ) → global_at (registry_of self.new) other
            ≡ (if bytes_eq name.now other then Some value else global_at (registry_of self.old) other)) }
        ensures settings { let globals = (settings_of (registry_of self.old)).globals in
            OnOk result (settings_of (registry_of self.new) ≡ record (settings_of (registry_of self.old))
            { globals = with_global name.now (values.function globals.environment (next_number (extras_of self.old))) globals }) }
        ensures sources { (name : List ℕ) → source_at (registry_of self.new) name ≡ source_at (registry_of self.old) name }
        ensures refused { IfErr result (λ kinds. NoMemory kinds
            ⊎ ((kinds ≡ ErrorKind.InvalidOperation ∷ []) × (2 ^ 64 ≤ next_number (extras_of self.old)))) }
        ensures exhausted { 2 ^ 64 ≤ next_number (extras_of self.old) → result ≡ Err (ErrorKind.InvalidOperation ∷ []) }
        ensures unchanged { OnErr result (IsUnchanged self.old self.new) }
    {
        let Some(number) = self.extensions.functions.len().checked_add(OWN_FUNCTIONS) else {
            return Err(Error::new(ErrorKind::InvalidOperation));
        };
        self.extensions.functions.reserve(1)?;
        let value = Value::function(self.registry.globals.environment(), number);
        self.registry.put_global(name, value)?;
        self.extensions.functions.push_reserved(function);
        Ok(())
    }

    /// Sets what answers from now on where a method is called that its object does not have. One that was set before is
    /// dropped. Without one the call is refused with [`ErrorKind::UnknownMethod`].
    pub fn set_unknown_method_callback(&mut self, method: E::Method)
        ensures extras { extras_of self.new ≡ record (extras_of self.old) { method = Some method } }
        ensures sources { (name : List ℕ) → source_at (registry_of self.new) name ≡ source_at (registry_of self.old) name }
        ensures settings { settings_of (registry_of self.new) ≡ settings_of (registry_of self.old) }
    {
        self.extensions.method = Some(method);
    }

    /// Sets what from now on says how values are printed: it is asked for each value that a template prints and that its
    /// undefined behavior lets print. One that was set before is dropped. Without one each value is printed as it is, under
    /// the escape in force.
    pub fn set_formatter(&mut self, formatter: E::Formatter)
        ensures extras { extras_of self.new ≡ record (extras_of self.old) { formatter = Some formatter } }
        ensures sources { (name : List ℕ) → source_at (registry_of self.new) name ≡ source_at (registry_of self.old) name }
        ensures settings { settings_of (registry_of self.new) ≡ settings_of (registry_of self.old) }
    {
        self.extensions.formatter = Some(formatter);
    }

    /// Sets what from now on says which templates are meant by the names that stand in templates, of what they extend, include
    /// and import, and by those that [`State::get_template`](crate::State::get_template) is asked for. One that was set before
    /// is dropped. Without one each name means itself.
    pub fn set_path_join_callback(&mut self, join: E::Join)
        ensures extras { extras_of self.new ≡ record (extras_of self.old) { join = Some join } }
        ensures sources { (name : List ℕ) → source_at (registry_of self.new) name ≡ source_at (registry_of self.old) name }
        ensures settings { settings_of (registry_of self.new) ≡ settings_of (registry_of self.old) }
    {
        self.extensions.join = Some(join);
    }

    /// Sets the rule that from now on gives the escape of each template that is added or read, by its name. One that
    /// was set before is dropped.
    pub fn set_auto_escape_callback(&mut self, rule: E::Rule)
        ensures extras { extras_of self.new ≡ record (extras_of self.old) { rule = Some rule } }
        ensures escapes { (name text : List ℕ) →
            (read_under E.Rule.answer self.new name text).escapes ≡ EscapeRule.Fixed (E.Rule.answer rule name) }
        ensures sources { (name : List ℕ) → source_at (registry_of self.new) name ≡ source_at (registry_of self.old) name }
        ensures settings { settings_of (registry_of self.new) ≡ settings_of (registry_of self.old) }
    {
        self.extensions.rule = Some(rule);
    }
}
