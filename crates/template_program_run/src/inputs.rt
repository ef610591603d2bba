//! The templates, the context and the request, by the words.
ghost use Rattle.std.specs.Prelude.{◌≡◌, [], All, map, true, false, IfErr, IfOk, IsErrOf, string_bytes, if◌then◌else◌};
ghost use Rattle.template_program_parts.specs.Context.{text_pairs};
ghost use Rattle.template_program_words.specs.Reading.{parts_of};
ghost use Rattle.template_program_run.specs.Held.{all_held};
ghost use Rattle.template_program_run.specs.Inputs.{AreTemplatesOf, AskForRun, IsAsked, IsGiven, LacksOne, LacksTemplateOf};
ghost use Rattle.template_program_run.specs.Naming.{main_of, naming_in, naming_of};
ghost use Rattle.template_program_run.specs.Served.{syntax_under};
ghost use Rattle.template_program_run.specs.Templates.{AreTemplates, IsInput, IsReadFrom, IsSameInput, LacksFiles, LacksInput, LacksTemplate, addition_names, template_names};
ghost use Rattle.template_program_run.specs.Told.{told_by};

use crate::documents::{Held, read_documents};
use crate::folder::read_sifted;
use crate::naming::{Naming, named_main, names_naming, reads_input, render_naming, takes_input};
use crate::options::Options;
use crate::origins::origins_of;
use crate::{Command, Request};
use std::alloc::Global;
use template_program_files::Folders;
use template_program_parts::{
    FileFault, FileSystem, ReadWrapper, Reader, read_text, read_text_file,
};
use template_program_words::{Definition, NamesWords, RenderWords, Words};
use template_values_errors::UndefinedBehavior;
use template_values_json::Floats;

/// An input of so many bytes or more is refused.
pub(crate) const INPUT_LIMIT: usize = 1 << 32;

// How deep a render may be in an environment as it begins.
const DEFAULT_LIMIT: usize = 500;

/// What a run takes.
#[derive(Drop)]
pub(crate) struct Inputs {
    pub(crate) request: Request,
    pub(crate) templates: Vec<(String, String)>,
    pub(crate) context: ReadContext,
}

/// What the context is made of, as it was read.
#[derive(Drop)]
pub(crate) struct ReadContext {
    pub(crate) documents: Held,
    pub(crate) values: Vec<(String, String)>,
    pub(crate) floats: Floats,
}

/// What is run as the words ask, with the files read: the templates in order, and then the context's.
pub(crate) fn read_inputs<R: FileSystem + Folders + AllocGlobal, I: Reader>(
    rt: &R,
    words: &Words<'_>,
    options: Options<'_>,
    input: &mut I,
) -> Result<Inputs, FileFault>
    requires { AskForRun words.now }
    ensures asked { IfOk result (λ inputs. IsAsked words.now inputs.request) }
    ensures templates { IfOk result
        (λ inputs. AreTemplatesOf (told_by (R.entries rt.now) (R.content rt.now) (I.may_fail input.old) (I.remaining input.old))
        (naming_of words.now).folder (naming_of words.now) (syntax_under options.entry) (text_pairs inputs.templates.items)) }
    ensures given { IfOk result (λ inputs.
        IsGiven (told_by (R.entries rt.now) (R.content rt.now) (I.may_fail input.old) (I.remaining input.old))
        words.now (all_held inputs.context.documents) (text_pairs inputs.context.values.items) inputs.context.floats) }
    ensures refused { IsErrOf result FileFault.File
        → LacksOne (told_by (R.entries rt.now) (R.content rt.now) (I.may_fail input.old) (I.remaining input.old)) words.now }
{
    match words {
        Words::Render(words) => read_render(rt, words, options, input),
        Words::Names(words) => read_names(rt, words, options, input),
        Words::Check(_) => unreachable!(),
    }
}

fn read_render<R: FileSystem + Folders + AllocGlobal, I: Reader>(
    rt: &R,
    words: &RenderWords<'_>,
    options: Options<'_>,
    input: &mut I,
) -> Result<Inputs, FileFault>
    ensures asked { IfOk result (λ inputs. IsAsked (Words.Render words.now) inputs.request) }
    ensures templates { IfOk result
        (λ inputs. AreTemplatesOf (told_by (R.entries rt.now) (R.content rt.now) (I.may_fail input.old) (I.remaining input.old))
        (naming_of (Words.Render words.now)).folder (naming_of (Words.Render words.now)) (syntax_under options.entry)
        (text_pairs inputs.templates.items)) }
    ensures given { IfOk result (λ inputs.
        IsGiven (told_by (R.entries rt.now) (R.content rt.now) (I.may_fail input.old) (I.remaining input.old))
        (Words.Render words.now) (all_held inputs.context.documents) (text_pairs inputs.context.values.items) inputs.context.floats) }
    ensures refused { IsErrOf result FileFault.File
        → LacksOne (told_by (R.entries rt.now) (R.content rt.now) (I.may_fail input.old) (I.remaining input.old)) (Words.Render words.now) }
{
    let origins = origins_of(rt.alloc(), words)?;
    let naming = render_naming(words, takes_input(words, origins.as_slice()));
    let templates = read_templates_of(rt, naming, options, input)?;
    let context = ReadContext {
        documents: read_documents(rt, origins.as_slice(), input)?,
        values: owned_definitions(rt.alloc(), words.values.as_slice())?,
        floats: floats_of(words.float_texts),
    };
    let request = render_request(rt.alloc(), words, naming)?;
    Ok(Inputs {
        request,
        templates,
        context,
    })
}

fn render_request(
    alloc: Global,
    words: &RenderWords<'_>,
    naming: Naming<'_>,
) -> Result<Request, FileFault>
    requires { naming_in naming ≡ naming_of (Words.Render words.now) }
    ensures memory { IfErr result (λ fault. fault ≡ FileFault.Memory) }
    ensures asked { IfOk result (IsAsked (Words.Render words.now)) }
{
    Ok(Request {
        main: main_name(alloc, naming)?,
        texts: owned_definitions(alloc, words.definitions.as_slice())?,
        fuel: words.fuel,
        limit: usize::from(words.limit),
        undefined: words.undefined,
        command: Command::Render,
    })
}

// What becomes of floats: they are texts, or refused.
fn floats_of(are_texts: bool) -> Floats
    ensures { result ≡ (if are_texts then Floats.AsSpelled else Floats.Refused) }
{
    if are_texts {
        return Floats::AsSpelled;
    }
    Floats::Refused
}

fn read_names<R: FileSystem + Folders + AllocGlobal, I: Reader>(
    rt: &R,
    words: &NamesWords<'_>,
    options: Options<'_>,
    input: &mut I,
) -> Result<Inputs, FileFault>
    ensures asked { IfOk result (λ inputs. IsAsked (Words.Names words.now) inputs.request) }
    ensures templates { IfOk result
        (λ inputs. AreTemplatesOf (told_by (R.entries rt.now) (R.content rt.now) (I.may_fail input.old) (I.remaining input.old))
        (naming_of (Words.Names words.now)).folder (naming_of (Words.Names words.now)) (syntax_under options.entry)
        (text_pairs inputs.templates.items)) }
    ensures given { IfOk result (λ inputs.
        IsGiven (told_by (R.entries rt.now) (R.content rt.now) (I.may_fail input.old) (I.remaining input.old))
        (Words.Names words.now) (all_held inputs.context.documents) (text_pairs inputs.context.values.items) inputs.context.floats) }
    ensures refused { IsErrOf result FileFault.File
        → LacksOne (told_by (R.entries rt.now) (R.content rt.now) (I.may_fail input.old) (I.remaining input.old)) (Words.Names words.now) }
{
    let naming = names_naming(words);
    let templates = read_templates_of(rt, naming, options, input)?;
    let request = Request {
        main: main_name(rt.alloc(), naming)?,
        texts: Vec::new(rt.alloc()),
        fuel: None,
        limit: DEFAULT_LIMIT,
        undefined: UndefinedBehavior::Lenient,
        command: Command::Names,
    };
    Ok(Inputs {
        request,
        templates,
        context: no_context(rt.alloc()),
    })
}

fn no_context(alloc: Global) -> ReadContext
    ensures documents { all_held result.documents ≡ [] }
    ensures values { text_pairs result.values.items ≡ [] }
    ensures floats { result.floats ≡ Floats.Refused }
{
    ReadContext {
        documents: Held::new(alloc),
        values: Vec::new(alloc),
        floats: Floats::Refused,
    }
}

/// The templates: of the folder, if one is given. Where the input is taken it is not read.
fn read_templates_of<R: FileSystem + Folders + AllocGlobal, I: Reader>(
    rt: &R,
    naming: Naming<'_>,
    options: Options<'_>,
    input: &mut I,
) -> Result<Vec<(String, String)>, FileFault>
    ensures read { IfOk result (λ templates.
        AreTemplatesOf (told_by (R.entries rt.now) (R.content rt.now) (I.may_fail input.old) (I.remaining input.old))
        (naming_in naming.entry).folder (naming_in naming.entry) (syntax_under options.entry) (text_pairs templates.items)) }
    ensures refused { IsErrOf result FileFault.File
        → LacksTemplateOf (told_by (R.entries rt.now) (R.content rt.now) (I.may_fail input.old) (I.remaining input.old))
        (naming_in naming.entry).folder (naming_in naming.entry) }
    ensures kept { naming.entry.input_is_taken ≡ true
        → IsSameInput (I.may_fail input.old) (I.remaining input.old) (I.may_fail input.new) (I.remaining input.new) }
{
    match naming.folder {
        Some(folder) => read_sifted(rt, folder, naming, options, input),
        None => read_templates(rt, naming.paths, reads_input(naming), input),
    }
}

/// The templates: the input as `<stdin>`, if it is to be read, or the files of these paths, by these.
pub(crate) fn read_templates<R: FileSystem + AllocGlobal, I: Reader>(
    rt: &R,
    paths: &[&str],
    from_input: bool,
    input: &mut I,
) -> Result<Vec<(String, String)>, FileFault>
    ensures read { IfOk result (λ templates. AreTemplates (R.content rt.now) (I.remaining input.old) (map (λ path. path.now) paths.now)
        (text_pairs templates.items) from_input) }
    ensures refused { IsErrOf result FileFault.File → LacksTemplate (R.content rt.now) (I.may_fail input.old) (I.remaining input.old)
        (map (λ path. path.now) paths.now) from_input }
    ensures kept { from_input ≡ false
        → IsSameInput (I.may_fail input.old) (I.remaining input.old) (I.may_fail input.new) (I.remaining input.new) }
{
    if from_input {
        return read_input(rt.alloc(), input);
    }
    read_files(rt, paths)
}

/// The input, as a template named `<stdin>`.
fn read_input<I: Reader>(alloc: Global, input: &mut I) -> Result<Vec<(String, String)>, FileFault>
    ensures named { IfOk result (λ templates. addition_names (text_pairs templates.items) ≡ template_names []) }
    ensures read { IfOk result (λ templates. IsInput (I.remaining input.old) (text_pairs templates.items)) }
    ensures refused { IsErrOf result FileFault.File → LacksInput (I.may_fail input.old) (I.remaining input.old) }
{
    let name = String::from_str(alloc, "<stdin>")?;
    let source = read_text(alloc, &mut ReadWrapper::new(input), INPUT_LIMIT)?;
    let mut templates = Vec::new(alloc);
    templates.push((name, source))?;
    Ok(templates)
}

/// The files, in order, as templates named by their paths.
fn read_files<R: FileSystem + AllocGlobal>(
    rt: &R,
    paths: &[&str],
) -> Result<Vec<(String, String)>, FileFault>
    ensures named { IfOk result (λ templates. addition_names (text_pairs templates.items) ≡ map (λ path. path.now) paths.now) }
    ensures read { IfOk result (λ templates. All (IsReadFrom (R.content rt.now)) (text_pairs templates.items)) }
    ensures refused { IsErrOf result FileFault.File → LacksFiles (R.content rt.now) (map (λ path. path.now) paths.now) }
{
    let alloc = rt.alloc();
    let mut templates = Vec::new(alloc);
    for path in paths {
        let name = String::from_str(alloc, path)?;
        let source = read_text_file(rt, path, INPUT_LIMIT)?;
        templates.push((name, source))?;
    }
    Ok(templates)
}

/// The name of the main template as an owned text.
fn main_name(alloc: Global, naming: Naming<'_>) -> Result<String, FileFault>
    ensures memory { IfErr result (λ fault. fault ≡ FileFault.Memory) }
    ensures name { IfOk result (λ name. string_bytes name ≡ main_of (naming_in naming.entry)) }
{
    Ok(String::from_str(alloc, named_main(naming))?)
}

/// The definitions as owned texts.
fn owned_definitions(
    alloc: Global,
    definitions: &[Definition<'_>],
) -> Result<Vec<(String, String)>, FileFault>
    ensures memory { IfErr result (λ fault. fault ≡ FileFault.Memory) }
    ensures texts { IfOk result (λ texts. text_pairs texts.items ≡ map parts_of definitions.now) }
{
    let mut texts = Vec::new(alloc);
    for definition in definitions {
        let name = String::from_str(alloc, definition.name)?;
        let text = String::from_str(alloc, definition.text)?;
        texts.push((name, text))?;
    }
    Ok(texts)
}
