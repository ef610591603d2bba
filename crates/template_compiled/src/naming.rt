//! The names that compiled templates use, as what stands under names is asked for them.
ghost use Rattle.template_compiled.specs.Names.{uses as used_by};

use crate::compiled::CompiledTemplate;
use std::alloc::Global;
use std::collections::BTreeSet;
use template_machine_environment_histories::UsesNames;
use template_values_errors::Error;

impl UsesNames for CompiledTemplate<'_> {
    ghost uses = { used_by };

    fn add_names(&self, alloc: Global, names: &mut BTreeSet<String>) -> Result<(), Error> {
        self.add_undeclared(alloc, names)
    }
}
