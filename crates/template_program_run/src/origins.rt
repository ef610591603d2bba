//! Where the documents of the context come from.
ghost use Rattle.std.specs.Prelude.{◌≡◌, ◌++◌, map, IfOk, OnOk};
ghost use Rattle.template_program_run.specs.Held.{origin_in};
ghost use Rattle.template_program_run.specs.Origins.{data_origin as origin_of, form_of as form_in, hold_input, is_input as is_input_in, origins_of as origins_in};

use std::alloc::{AllocError, Global};
use template_program_contexts::Form;
use template_program_words::{RenderWords, Words};

/// Where a document of the context comes from.
#[derive(Clone, Copy)]
pub(crate) enum Origin<'a> {
    /// A file, by its path, with what its bytes are.
    File(&'a str, Form),
    /// The input, which is JSON.
    Input,
}

/// Those that the words name: the context's file, which is JSON, and then the data.
pub(crate) fn origins_of<'a>(
    alloc: Global,
    words: &RenderWords<'a>,
) -> Result<Vec<Origin<'a>>, AllocError>
    ensures { IfOk result (λ origins. map origin_in origins.items ≡ origins_in (Words.Render words.now)) }
{
    let mut origins = Vec::new(alloc);
    if let Some(path) = words.context {
        origins.push(Origin::File(path, Form::Json))?;
    }
    add_data(&mut origins, words.data_files.as_slice())?;
    Ok(origins)
}

fn add_data<'a>(origins: &mut Vec<Origin<'a>>, paths: &[&'a str]) -> Result<(), AllocError>
    ensures { OnOk result (map origin_in origins.new.items
        ≡ map origin_in origins.old.items ++ map origin_of (map (λ path. path.now) paths.now)) }
{
    for path in paths {
        origins.push(data_origin(path))?;
    }
    Ok(())
}

// `-` names the input.
fn data_origin<'a>(path: &'a str) -> Origin<'a>
    ensures { origin_in result ≡ origin_of path.now }
{
    if path == "-" {
        return Origin::Input;
    }
    Origin::File(path, form_of(path))
}

fn form_of(path: &str) -> Form
    ensures { result ≡ form_in path.now }
{
    if path.as_bytes().ends_with(b".toml") {
        return Form::Toml;
    }
    Form::Json
}

/// Whether one of them is the input.
pub(crate) fn holds_input(origins: &[Origin<'_>]) -> bool
    ensures { result ≡ hold_input (map origin_in origins.now) }
{
    origins.iter().any(|origin| is_input(origin))
}

fn is_input(origin: &Origin<'_>) -> bool
    ensures { result ≡ is_input_in (origin_in origin.now) }
{
    match origin {
        Origin::File(_, _) => false,
        Origin::Input => true,
    }
}
