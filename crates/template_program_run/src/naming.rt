//! The words on templates.
ghost use Rattle.std.specs.Prelude.{◌≡◌, ◌||◌, is_some, map};
ghost use Rattle.template_program_run.specs.Held.{origin_in};
ghost use Rattle.template_program_run.specs.Naming.{main_of, naming_in, naming_of, reads_input as is_input_read, reads_input_beside as is_read_beside};
ghost use Rattle.template_program_run.specs.Origins.{hold_input, origins_of};

use crate::origins::{Origin, holds_input};
use template_program_words::{CheckWords, NamesWords, RenderWords, Words};

/// How the words name templates.
#[derive(Clone, Copy)]
pub(crate) struct Naming<'a> {
    /// The folder whose files are templates.
    pub(crate) folder: Option<&'a str>,
    /// The name of the main template.
    pub(crate) main: Option<&'a str>,
    /// The paths of the templates.
    pub(crate) paths: &'a [&'a str],
    /// Whether the input is no template: it is read for the context, or an expression is wanted in place of a template, or a
    /// folder is checked.
    pub(crate) input_is_taken: bool,
}

/// Whether the input is no template, by the words behind `render` and the origins of the context.
pub(crate) fn takes_input(words: &RenderWords<'_>, origins: &[Origin<'_>]) -> bool
    ensures { result ≡ (hold_input (map origin_in origins.now) || is_some words.now.expression) }
{
    holds_input(origins) || words.expression.is_some()
}

/// What the words behind `render` say.
pub(crate) fn render_naming<'a>(words: &'a RenderWords<'a>, input_is_taken: bool) -> Naming<'a>
    requires { input_is_taken ≡ (hold_input (origins_of (Words.Render words.now)) || is_some words.now.expression) }
    ensures { naming_in result ≡ naming_of (Words.Render words.now) }
{
    Naming {
        folder: words.templates,
        main: words.main,
        paths: words.files.as_slice(),
        input_is_taken,
    }
}

/// What the words behind `names` say.
pub(crate) fn names_naming<'a>(words: &'a NamesWords<'a>) -> Naming<'a>
    ensures { naming_in result ≡ naming_of (Words.Names words.now) }
{
    Naming {
        folder: words.templates,
        main: words.main,
        paths: words.files.as_slice(),
        input_is_taken: false,
    }
}

/// What the words behind `check` say.
pub(crate) fn check_naming<'a>(words: &'a CheckWords<'a>) -> Naming<'a>
    ensures { naming_in result ≡ naming_of (Words.Check words.now) }
{
    Naming {
        folder: words.templates,
        main: None,
        paths: words.files.as_slice(),
        input_is_taken: words.templates.is_some(),
    }
}

/// The name of the main template: the one that is named, else that of the first path, else the input's.
pub(crate) fn named_main<'a>(naming: Naming<'a>) -> &'a str
    ensures { result.now ≡ main_of (naming_in naming.entry) }
{
    match (naming.main, naming.paths.first()) {
        (Some(main), _) => main,
        (None, Some(first)) => first,
        (None, None) => "<stdin>",
    }
}

/// Whether the input is read as a template: no path is given, and nothing takes it.
pub(crate) fn reads_input(naming: Naming<'_>) -> bool
    ensures { result ≡ is_input_read (naming_in naming.entry) }
{
    !naming.input_is_taken && naming.paths.is_empty()
}

/// Whether it is read beside a folder's templates: no main template is named.
pub(crate) fn reads_input_beside(naming: Naming<'_>) -> bool
    ensures { result ≡ is_read_beside (naming_in naming.entry) }
{
    naming.main.is_none() && reads_input(naming)
}
