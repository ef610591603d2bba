//! The names of a context that can matter to a render.
ghost use Rattle.std.specs.Prelude.{◌≡◌, ◌↔◌, ℕ, List, IsTrue, IfOk, IfErr};
ghost use Rattle.std.specs.BTreeSet.{contains_text};
ghost use Rattle.template_values_errors.specs.Memory.{NoMemory};
ghost use Rattle.template_values_model.specs.Val.{Val};
ghost use Rattle.template_compiler_names.specs.Names.{IsTold};
ghost use Rattle.template_machine_meaning.specs.Isolation.{AskNoNames, IsContextName, is_given};
ghost use Rattle.template_machine_environment.specs.Extras.{user_answers};
ghost use Rattle.template_machine_environment.specs.Isolated.{AgreeAmong, IsSameRenderIn, tree_of};
ghost use Rattle.template_machine_environment.specs.Reading.{brought_of, callables_of, registry_of, setting_in};

use crate::environment::Environment;
use crate::template::Template;
use std::alloc::Global;
use std::collections::BTreeSet;
use template_callables::Extension;
use template_compiler_names_statements::add_name;
use template_machine_meaning::isolation;
use template_values_errors::Error;

impl<'source, E: Extension> Environment<'source, E> {
    /// The names of a context that can matter to a render of a template of this environment: `caller`, `loop`,
    /// `self`, `super`, and the names that it needs, or a registered template: those that it uses, those that one of its
    /// blocks or recursive loops uses by itself, and those that it imports from others. What a user brought may ask for
    /// others ([`Further`](template_callables::Further)): these are not among them. Reads the source of each once more, in
    /// time linear in their length, and takes a look-up for each place of use, and once more for each block and each
    /// recursive loop around it.
    ///
    /// # Errors
    ///
    /// [`ErrorKind::OutOfMemory`].
    pub fn context_names(
        &self,
        template: &Template<'_, 'source, E>,
    ) -> Result<BTreeSet<String>, Error>
        ensures listed { let says = user_answers E.Callable.answer E.Method.answer E.Formatter.answer E.Join.answer in
            IfOk result (λ names. (name : List ℕ) → IsTrue (contains_text names name)
            ↔ IsContextName (setting_in says self.now) (tree_of template.now) name) }

        // Where what the user brought asks for no names, contexts that agree at these make no difference to its renders here.
        ensures isolated { let says = user_answers E.Callable.answer E.Method.answer E.Formatter.answer E.Join.answer in
            IfOk result (λ names. AskNoNames (callables_of says self.now) → (c d : Val) → AgreeAmong names c d
            → IsSameRenderIn (brought_of says self.now) (registry_of self.now) template.now c d) }
        ensures refused { IfErr result NoMemory }
    {
        let alloc = self.allocator();
        let mut names = given_names(alloc)?;
        template.compiled.get().add_undeclared(alloc, &mut names)?;
        self.registry.templates.add_undeclared(alloc, &mut names)?;
        isolation();
        Ok(names)
    }
}

impl<'env, 'source, E: Extension> Template<'env, 'source, E> {
    /// The names that the template uses where no store of theirs goes before, each once, by order of their bytes; where
    /// `nested`, each with the dotted names that stand directly behind it, as `page.title`. Reads the source once more,
    /// in time linear in its length, and takes a look-up for each place of use.
    ///
    /// # Errors
    ///
    /// [`ErrorKind::OutOfMemory`].
    pub fn undeclared_variables(&self, nested: bool) -> Result<BTreeSet<String>, Error>
        ensures told { IfOk result (λ names. (text : List ℕ) → IsTrue (contains_text names text)
            ↔ IsTold nested text (tree_of self.now)) }
        ensures refused { IfErr result NoMemory }
    {
        let alloc = self.environment.allocator();
        self.compiled.get().undeclared(alloc, nested)
    }
}

// The names that the engine gives in places.
fn given_names(alloc: Global) -> Result<BTreeSet<String>, Error>
    ensures given { IfOk result (λ names. (name : List ℕ) → contains_text names name ≡ is_given name) }
    ensures refused { IfErr result NoMemory }
{
    let mut names = BTreeSet::new(alloc);
    add_name(alloc, &mut names, "self")?;
    add_name(alloc, &mut names, "super")?;
    add_name(alloc, &mut names, "loop")?;
    add_name(alloc, &mut names, "caller")?;
    Ok(names)
}
