//! The types of what the words ask for.
use crate::definitions::Definition;
use crate::escapes::EscapeWord;
use crate::syntax::SyntaxWords;
use template_values_errors::UndefinedBehavior;

/// What the words ask for.
#[derive(Debug, Drop)]
pub enum Words<'a> {
    /// `render`: the main template's text is wanted.
    Render(RenderWords<'a>),
    /// `names`: the names that the templates may ask for are wanted.
    Names(NamesWords<'a>),
    /// `check`: the refusals of the templates are wanted.
    Check(CheckWords<'a>),
}

/// The words behind `render`.
#[derive(Debug, Drop)]
pub struct RenderWords<'a> {
    /// The path of the context's file.
    pub context: Option<&'a str>,
    /// The texts that are set over the context, in the order of the words.
    pub definitions: Vec<Definition<'a>>,
    /// The values that are set over the context, in the order of the words: the text of each is JSON.
    pub values: Vec<Definition<'a>>,
    /// The paths of the files that hold more of the context, in the order of the words.
    pub data_files: Vec<&'a str>,
    /// Whether a float of the context is a text, as it is spelled.
    pub float_texts: bool,
    /// The expression whose value is printed in place of a template.
    pub expression: Option<&'a str>,
    /// Whether the expression's value is printed as JSON.
    pub as_json: bool,
    /// The fuel.
    pub fuel: Option<u64>,
    /// How deep the render may be: 500 where no word says it.
    pub limit: u16,
    /// What may be done with undefined values: lenient where no word says it.
    pub undefined: UndefinedBehavior,
    /// How values are escaped: as the template's name says where no word says it.
    pub autoescape: EscapeWord,
    /// Whether templates have the builtins.
    pub builtins: bool,
    /// The syntax of the templates.
    pub syntax: SyntaxWords<'a>,
    /// The name of the main template.
    pub main: Option<&'a str>,
    /// The path of the file that is written in place of standard output.
    pub output: Option<&'a str>,
    /// Whether the places of a fault are told.
    pub tells_where: bool,
    /// The folder whose files are templates.
    pub templates: Option<&'a str>,
    /// The paths of the templates, in the order of the words.
    pub files: Vec<&'a str>,
}

/// The words behind `names`.
#[derive(Debug, Drop)]
pub struct NamesWords<'a> {
    /// Whether templates have the builtins.
    pub builtins: bool,
    /// The syntax of the templates.
    pub syntax: SyntaxWords<'a>,
    /// The name of the main template.
    pub main: Option<&'a str>,
    /// The path of the file that is written in place of standard output.
    pub output: Option<&'a str>,
    /// Whether the places of a fault are told.
    pub tells_where: bool,
    /// Whether the names are printed as a JSON list.
    pub json: bool,
    /// The folder whose files are templates.
    pub templates: Option<&'a str>,
    /// The paths of the templates, in the order of the words.
    pub files: Vec<&'a str>,
}

/// The words behind `check`.
#[derive(Debug, Drop)]
pub struct CheckWords<'a> {
    /// Whether templates have the builtins: each name of a filter, test or function that nothing has is wanted too.
    pub builtins: bool,
    /// The syntax of the templates.
    pub syntax: SyntaxWords<'a>,
    /// The folder whose files are templates.
    pub templates: Option<&'a str>,
    /// The paths of the templates, in the order of the words.
    pub files: Vec<&'a str>,
}
