//! What a case may bring, by its types.
use std::alloc::Global;
use template_callables::{Extension, NoCallable, NoExtension, NoFormatter, NoJoin, NoMethod};
use template_machine_surroundings::{AutoEscapeRule, NoRule};
use template_rows::{Brought, Joined};
use template_values_errors::AutoEscape;

/// What is made of what a case says.
pub(crate) trait Made: Extension {
    /// The rule that names of fewer bytes are escaped.
    fn shorter_than(length: usize) -> Self::Rule;

    fn callable(brought: Brought) -> Self::Callable;

    fn method(brought: Brought) -> Self::Method;

    fn formatter(brought: Brought) -> Self::Formatter;

    fn join(alloc: Global, joined: Joined) -> Self::Join;
}

impl Made for NoExtension {
    fn shorter_than(_length: usize) -> NoRule {
        NoRule
    }

    fn callable(_brought: Brought) -> NoCallable {
        NoCallable
    }

    fn method(_brought: Brought) -> NoMethod {
        NoMethod
    }

    fn formatter(_brought: Brought) -> NoFormatter {
        NoFormatter
    }

    fn join(alloc: Global, _joined: Joined) -> NoJoin {
        NoJoin::new(alloc)
    }
}

/// All that a case may bring.
pub(crate) struct Own;

impl Extension for Own {
    type Callable = Brought;

    type Method = Brought;

    type Formatter = Brought;

    type Join = Joined;

    type Rule = ShortNames;
}

impl Made for Own {
    fn shorter_than(length: usize) -> ShortNames {
        ShortNames { length }
    }

    fn callable(brought: Brought) -> Brought {
        brought
    }

    fn method(brought: Brought) -> Brought {
        brought
    }

    fn formatter(brought: Brought) -> Brought {
        brought
    }

    fn join(_alloc: Global, joined: Joined) -> Joined {
        joined
    }
}

/// Escapes under names of fewer bytes.
#[derive(Drop)]
pub(crate) struct ShortNames {
    length: usize,
}

impl AutoEscapeRule for ShortNames {
    ghost use Rattle.std.specs.Prelude.{if◌then◌else◌, length, ltb};
    ghost use Rattle.template_values_errors.specs.declared.modes.AutoEscape.TheVariants as escapes;

    ghost answer = { λ it name. if ltb (length name) it.length then escapes.Html else escapes.None };

    fn rule(&self, name: &str) -> AutoEscape {
        if name.len() < self.length {
            AutoEscape::Html
        } else {
            AutoEscape::None
        }
    }
}
