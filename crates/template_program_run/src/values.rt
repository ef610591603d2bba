//! Values that the words give as JSON.
ghost use Rattle.std.specs.Prelude.{map, IfErr, OnOk};
ghost use Rattle.template_program_run.specs.Values.{AreJsonTexts, RefusesValues};

use std::alloc::Global;
use template_program_contexts::is_json;
use template_program_words::{Definition, WordsFault};

/// Refuses a value whose text is no JSON. Takes time in proportion to the texts.
pub(crate) fn check_values(alloc: Global, values: &[Definition<'_>]) -> Result<(), WordsFault>
    ensures json { OnOk result (AreJsonTexts (map (λ value. value.text.now) values.now)) }
    ensures refused { IfErr result (RefusesValues (map (λ value. value.text.now) values.now)) }
{
    for value in values {
        if !is_json(alloc, value.text)? {
            return Err(WordsFault::Definition);
        }
    }
    Ok(())
}
