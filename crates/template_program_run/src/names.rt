//! Names, one a line, or as a JSON list.
ghost use Rattle.std.specs.Prelude.{◌≡◌, IfErr, IfOk, OnOk, OnErr, map, string_bytes};
ghost use Rattle.std.specs.Io.KnownBytes.{Appends};
ghost use Rattle.serde_json.specs.View.{view};
ghost use Rattle.template_values_errors.specs.Memory.{NoMemory};
ghost use Rattle.template_machine_surroundings.specs.Writes.{AppendsBeginning};
ghost use Rattle.template_machine_environment_settings.specs.Outcomes.{IsWant, TellsFailures};
ghost use Rattle.template_program_run.specs.Lines.{json_line_of, line_of, lines_of, strings_of, told_names};

use serde_json::Value as Json;
use std::alloc::Global;
use std::collections::BTreeSet;
use template_machine_surroundings::{Sink, write_text};
use template_values_errors::Error;

/// Writes the names in order of bytes: as a JSON list on one line, or each with a newline behind it. A list is made whole
/// before it is written.
///
/// # Errors
///
/// `OutOfMemory` or `WriteFailure`, where the sink answers so; it has then taken a beginning. `OutOfMemory` where there is no
/// room for the list; then nothing is written.
pub(crate) fn write_names<S: Sink>(
    alloc: Global,
    names: &BTreeSet<String>,
    as_json: bool,
    sink: &mut S,
) -> Result<(), Error>
    ensures written { OnOk result (Appends (S.taken sink.old) (S.taken sink.new) (told_names as_json names.now.keys)) }
    ensures beginning { OnErr result (AppendsBeginning (S.taken sink.old) (S.taken sink.new) (told_names as_json names.now.keys)) }
    ensures want { IfErr result IsWant }
    ensures failures { TellsFailures result (S.failures sink.old) (S.failures sink.new) }
{
    if as_json {
        write_json(alloc, names, sink)
    } else {
        write_lines(names, sink)
    }
}

// Writes the names as a JSON list, and a newline.
fn write_json<S: Sink>(alloc: Global, names: &BTreeSet<String>, sink: &mut S) -> Result<(), Error>
    ensures written { OnOk result (Appends (S.taken sink.old) (S.taken sink.new) (json_line_of names.now.keys)) }
    ensures beginning { OnErr result (AppendsBeginning (S.taken sink.old) (S.taken sink.new) (json_line_of names.now.keys)) }
    ensures want { IfErr result IsWant }
    ensures failures { TellsFailures result (S.failures sink.old) (S.failures sink.new) }
{
    let line = json_line(alloc, names)?;
    write_text(sink, line.as_str())?;
    Ok(())
}

// The line of a JSON list of the names.
fn json_line(alloc: Global, names: &BTreeSet<String>) -> Result<String, Error>
    ensures line { IfOk result (λ line. string_bytes line ≡ json_line_of names.now.keys) }
    ensures refused { IfErr result NoMemory }
{
    let texts = json_texts(alloc, names)?;
    let mut line = Json::Array(texts).to_string(alloc)?;
    line.push_str("\n")?;
    Ok(line)
}

// The names as texts of JSON.
fn json_texts(alloc: Global, names: &BTreeSet<String>) -> Result<Vec<Json>, Error>
    ensures texts { IfOk result (λ texts. map view texts.items ≡ strings_of names.now.keys) }
    ensures refused { IfErr result NoMemory }
{
    let mut texts = Vec::new(alloc);
    for name in names {
        texts.push(Json::String(name.clone()?))?;
    }
    Ok(texts)
}

// Writes each name and a newline behind it.
fn write_lines<S: Sink>(names: &BTreeSet<String>, sink: &mut S) -> Result<(), Error>
    ensures written { OnOk result (Appends (S.taken sink.old) (S.taken sink.new) (lines_of names.now.keys)) }
    ensures beginning { OnErr result (AppendsBeginning (S.taken sink.old) (S.taken sink.new) (lines_of names.now.keys)) }
    ensures want { IfErr result IsWant }
    ensures failures { TellsFailures result (S.failures sink.old) (S.failures sink.new) }
{
    for name in names {
        write_line(name.as_str(), sink)?;
    }
    Ok(())
}

fn write_line<S: Sink>(name: &str, sink: &mut S) -> Result<(), Error>
    ensures written { OnOk result (Appends (S.taken sink.old) (S.taken sink.new) (line_of name.now)) }
    ensures beginning { OnErr result (AppendsBeginning (S.taken sink.old) (S.taken sink.new) (line_of name.now)) }
    ensures want { IfErr result IsWant }
    ensures failures { TellsFailures result (S.failures sink.old) (S.failures sink.new) }
{
    write_text(sink, name)?;
    write_text(sink, "\n")?;
    Ok(())
}
