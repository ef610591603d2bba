//! The members of a request, by their names.
ghost use Rattle.std.specs.Prelude.{◌≡◌};
ghost use Rattle.template_requests.specs.Members.{member_name};

/// A member of a request, or what is wrong with the whole.
#[derive(Clone, Copy, Debug, PartialEq, Eq)]
pub enum Member {
    /// The request itself, which is no JSON, or no object.
    Whole,
    /// The templates: an object whose members are texts.
    Templates,
    /// The name of the main template.
    Main,
    /// The fuel of a render.
    Fuel,
    /// How deep a render may be.
    Limit,
    /// What may be done with undefined values.
    Undefined,
    /// Whether the builtins stand in the environment.
    Builtins,
    /// What becomes of numbers of the context that are no whole ones.
    Floats,
    /// How printed values are escaped.
    Autoescape,
    /// The syntax: an object of the members below.
    Syntax,
    /// Whether one newline after a block or a comment is taken off.
    TrimBlocks,
    /// Whether the spaces and tabs before a block or a comment that begins its line are taken off.
    LstripBlocks,
    /// Whether a newline at the end of a template stays.
    KeepTrailingNewline,
    /// Whether the word `scoped` may stand after the name of a block.
    ScopedBlocks,
    /// What begins a line that is a statement.
    LineStatementPrefix,
    /// What begins a comment that ends with its line.
    LineCommentPrefix,
    /// What blocks begin with.
    BlockStart,
    /// What blocks end with.
    BlockEnd,
    /// What prints begin with.
    VariableStart,
    /// What prints end with.
    VariableEnd,
    /// What comments begin with.
    CommentStart,
    /// What comments end with.
    CommentEnd,
}

impl Member {
    /// The name that the member has in its object; that of the whole is `request`.
    pub fn name(self) -> &'static str
        ensures { result.now ≡ member_name self }
    {
        match self {
            Member::Whole => "request",
            Member::Templates => "templates",
            Member::Main => "main",
            Member::Fuel => "fuel",
            Member::Limit => "limit",
            Member::Undefined => "undefined",
            Member::Builtins => "builtins",
            Member::Floats => "floats",
            Member::Autoescape => "autoescape",
            Member::Syntax => "syntax",
            Member::TrimBlocks => "trim_blocks",
            Member::LstripBlocks => "lstrip_blocks",
            Member::KeepTrailingNewline => "keep_trailing_newline",
            Member::ScopedBlocks => "scoped_blocks",
            Member::LineStatementPrefix => "line_statement_prefix",
            Member::LineCommentPrefix => "line_comment_prefix",
            Member::BlockStart => "block_start",
            Member::BlockEnd => "block_end",
            Member::VariableStart => "variable_start",
            Member::VariableEnd => "variable_end",
            Member::CommentStart => "comment_start",
            Member::CommentEnd => "comment_end",
        }
    }
}
