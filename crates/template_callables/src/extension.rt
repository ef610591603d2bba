//! What an environment takes of a user's own, by its types.
use crate::callable::{Callable, NoCallable};
use crate::format::{Formatter, NoFormatter};
use crate::join::{NoJoin, PathJoin};
use crate::method::{NoMethod, UnknownMethod};
use template_machine_surroundings::{AutoEscapeRule, NoRule};

/// The types of what an environment takes of a user's own. A unit struct names them once, and the environment's type names it. For
/// what isn't brought, `NoCallable`, `NoMethod`, `NoFormatter`, `NoJoin` and `NoRule` stand.
pub trait Extension {
    /// Functions, filters and tests; [`Either`](crate::Either) makes one type of two, an enum of one's own of more.
    type Callable: Callable;
    /// What answers for methods that values do not have.
    type Method: UnknownMethod;
    /// How values are printed.
    type Formatter: Formatter;
    /// Which templates the names mean that stand in templates.
    type Join: PathJoin;
    /// The rule of escapes.
    type Rule: AutoEscapeRule;
}

/// Nothing of a user's own.
pub struct NoExtension;

impl Extension for NoExtension {
    type Callable = NoCallable;

    type Method = NoMethod;

    type Formatter = NoFormatter;

    type Join = NoJoin;

    type Rule = NoRule;
}
