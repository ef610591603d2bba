//! Names of templates that stand in templates.
use std::alloc::Global;
use template_values_errors::Error;

/// What says which template a name means that stands in a template. Its answer is a function of the object and of both names; or it
/// is want of memory. An object that allocates keeps a `Global`.
pub trait PathJoin: Drop {
    ghost use Rattle.template_callables.specs.Joins.{Joins, IsJoined};

    /// The answer for each name and each name of a template in which it stands.
    ghost answer: { Self → Joins };

    /// The name that `name` means in the template `parent`.
    ///
    /// # Errors
    ///
    /// Those of the object. Their kinds are taken as those of [`Answer::Fault`](crate::Answer::Fault).
    fn join(&self, name: &str, parent: &str) -> Result<String, Error>
        ensures { IsJoined (answer self.now name.now parent.now) result };
}

/// Each name means itself.
#[derive(Drop)]
pub struct NoJoin {
    alloc: Global,
}

impl NoJoin {
    /// One that takes its memory from `alloc`.
    pub fn new(alloc: Global) -> NoJoin {
        NoJoin { alloc }
    }
}

impl PathJoin for NoJoin {
    ghost use Rattle.template_callables.specs.Joins.{keeps_name};

    ghost answer = { λ join. keeps_name };

    fn join(&self, name: &str, _parent: &str) -> Result<String, Error> {
        Ok(String::from_str(self.alloc, name)?)
    }
}
