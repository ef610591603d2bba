//! Escapes and behaviours of undefined, by name.
use template_values::{AutoEscape, UndefinedBehavior};

/// The escape of that name; none where there is no such one.
pub(crate) fn escape_named(name: &str) -> Option<AutoEscape> {
    match name {
        "none" => Some(AutoEscape::None),
        "html" => Some(AutoEscape::Html),
        "json" => Some(AutoEscape::Json),
        "custom" => Some(AutoEscape::Custom(7)),
        "other_custom" => Some(AutoEscape::Custom(8)),
        _ => None,
    }
}

/// The behaviour of that name; none where there is no such one.
pub(crate) fn behavior_named(name: &str) -> Option<UndefinedBehavior> {
    match name {
        "default" => Some(UndefinedBehavior::default()),
        "lenient" => Some(UndefinedBehavior::Lenient),
        "chainable" => Some(UndefinedBehavior::Chainable),
        "semi_strict" => Some(UndefinedBehavior::SemiStrict),
        "strict" => Some(UndefinedBehavior::Strict),
        _ => None,
    }
}
