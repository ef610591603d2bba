//! Comparisons of two values.
ghost use Rattle.std.specs.Prelude.{◌≡◌};
ghost use Rattle.template_builtins_arguments.specs.Answers.{Tells};
ghost use Rattle.template_builtins_tests.specs.Comparisons as comparisons;
ghost use Rattle.template_callables.specs.Views.{seen_in};

use template_builtins_arguments::{is_half_strict, is_loud, is_strict};
use template_callables::CallView;
use template_values_core::Value;
use template_values_errors::{Error, ErrorKind};
use template_values_forms::NoRecords;
use template_values_items::contains;

/// A comparison.
#[derive(Clone, Copy)]
pub enum Comparison {
    /// `==`
    Equal,
    /// `!=`
    Unequal,
    /// `<`
    Less,
    /// `<=`
    LessOrEqual,
    /// `>`
    Greater,
    /// `>=`
    GreaterOrEqual,
}

impl Comparison {
    // Whether it holds for two values, where undefined ones may be compared.
    pub(crate) fn compared(
        self,
        view: &CallView<'_>,
        value: &Value,
        other: &Value,
    ) -> Result<bool, Error>
        ensures { Tells result (comparisons.compared self (seen_in view.now) value.now other.now) }
    {
        if is_strict(view.undefined_behavior()) && (is_loud(value) || is_loud(other)) {
            return Err(Error::new(ErrorKind::UndefinedError));
        }
        Ok(self.holds(value, other))
    }

    fn holds(self, value: &Value, other: &Value) -> bool
        ensures { result ≡ comparisons.compares self value.now other.now }
    {
        match self {
            Comparison::Equal => value == other,
            Comparison::Unequal => value != other,
            Comparison::Less => value.cmp(other).is_lt(),
            Comparison::LessOrEqual => value.cmp(other).is_le(),
            Comparison::Greater => value.cmp(other).is_gt(),
            Comparison::GreaterOrEqual => value.cmp(other).is_ge(),
        }
    }
}

// Whether the value is in the container, where undefined ones may be sought and gone over.
pub(crate) fn found_in(view: &CallView<'_>, value: &Value, container: &Value) -> Result<bool, Error>
    ensures { Tells result (comparisons.found_in (seen_in view.now) value.now container.now) }
{
    let undefined = view.undefined_behavior();
    if (is_strict(undefined) && is_loud(value))
        || (is_half_strict(undefined) && is_loud(container))
    {
        return Err(Error::new(ErrorKind::UndefinedError));
    }
    contains(container, value, &NoRecords)
}
