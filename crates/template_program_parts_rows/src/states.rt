//! The escapes that names have, and the numbers that states are given.
use crate::report::Report;
use serde_json::{Map, Value as Json};
use template_machine_surroundings::{EscapeRule, StateIds, default_auto_escape_callback};
use template_rows::number_of;
use template_values::AutoEscape;

/// The escape of a name by its ending, and then that under each rule.
pub(crate) fn about_escape(name: &Json, entries: &Map<String, Json>, out: &mut Report) {
    out.expect_names(entries, &["escape"]);
    let name = out.text_of(Some(name));
    out.tell("", &default_auto_escape_callback(name));
    out.tell(", ", &EscapeRule::ByName.escape(name));
    out.tell(" ", &EscapeRule::Never.escape(name));
    out.tell(" ", &EscapeRule::Fixed(AutoEscape::Json).escape(name))
}

/// So many numbers from the first one on, and why there is none where that is.
pub(crate) fn about_ids(first: &Json, entries: &Map<String, Json>, out: &mut Report) {
    out.expect_names(entries, &["first_id", "count"]);
    let first = out.or(number_of(Some(first)), None).unwrap_or(0);
    let count = out.count_of(entries.get("count"), 1);
    tell_ids(&mut StateIds::new(first), count, out)
}

fn tell_ids(ids: &mut StateIds, count: usize, out: &mut Report) {
    for number in 0..count {
        if number > 0 {
            out.push_str(" ");
        }
        match ids.next() {
            Ok(id) => out.tell("", &id),
            Err(error) => out.error("! ", &error),
        }
    }
}
