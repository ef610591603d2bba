//! What a callable sees of the run that calls it.
ghost use Rattle.std.specs.Prelude.{◌≡◌, option_copied};
ghost use Rattle.template_values_named.specs.Named.{local_at};

use template_values_core::Value;
use template_values_errors::{AutoEscape, UndefinedBehavior};
use template_values_named::NamedValues;

/// The values that callables set under names in a run, for those that are called later in it.
pub type Temps = NamedValues;

/// What a callable sees of the run that calls it. A copy takes no memory.
#[derive(Clone, Copy)]
pub struct CallView<'a> {
    name: &'a str,
    auto_escape: AutoEscape,
    undefined_behavior: UndefinedBehavior,
    current_block: Option<&'a str>,
    temps: &'a Temps,
}

impl<'a> CallView<'a> {
    ghost use Rattle.template_callables.specs.Views.{seen_in};

    /// A view of a run: the name of the template that runs, the escape in force, what may be done with undefined values, the name
    /// of the block that runs, if one does, and the temps.
    pub fn new(
        name: &'a str,
        auto_escape: AutoEscape,
        undefined_behavior: UndefinedBehavior,
        current_block: Option<&'a str>,
        temps: &'a Temps,
    ) -> CallView<'a>
        ensures { seen_in result ≡ record {
          name = name.now;
          escape = auto_escape;
          undefined = undefined_behavior;
          block = option_copied current_block.entry;
          temps = temps.now;
        } }
    {
        CallView {
            name,
            auto_escape,
            undefined_behavior,
            current_block,
            temps,
        }
    }

    /// The name of the template that runs.
    pub fn name(&self) -> &'a str
        ensures { result.now ≡ (seen_in self.now).name }
    {
        self.name
    }

    /// The escape in force.
    pub fn auto_escape(&self) -> AutoEscape
        ensures { result ≡ (seen_in self.now).escape }
    {
        self.auto_escape
    }

    /// What may be done with undefined values.
    pub fn undefined_behavior(&self) -> UndefinedBehavior
        ensures { result ≡ (seen_in self.now).undefined }
    {
        self.undefined_behavior
    }

    /// The name of the block that runs, if one does.
    pub fn current_block(&self) -> Option<&'a str>
        ensures { option_copied result ≡ (seen_in self.now).block }
    {
        self.current_block
    }

    /// What was set last under a name in this run, if anything was. Logarithmic in the number of temps.
    pub fn get_temp(&self, name: &str) -> Option<&'a Value>
        ensures { option_copied result ≡ local_at name.now (seen_in self.now).temps }
    {
        let temps: &'a Temps = self.temps;
        temps.get(name)
    }
}
