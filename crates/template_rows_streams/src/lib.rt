//! Streams of instructions as stored rows list them: an array of steps, each a word, or a word with a number or a letter.
#![tactic(auto)]

mod words;

use serde_json::Value as Json;
use std::alloc::Global;
use template_compiler_code::Instructions;
use template_values_errors::Error;
pub use words::instruction;

/// The stream that the steps list.
///
/// # Errors
///
/// `SyntaxError` for a step that says no instruction; `OutOfMemory`.
pub fn stream_of(alloc: Global, steps: &[Json]) -> Result<Instructions<'static>, Error> {
    let mut code = Instructions::new(alloc, "t.txt", "");
    for step in steps {
        let _place = code.add(instruction(alloc, step)?)?;
    }
    Ok(code)
}
