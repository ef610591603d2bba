//! The syntax of a request.
ghost use Rattle.std.specs.Prelude.{◌≡◌, IfErr, IfOk, None, OnOk};
ghost use Rattle.json.specs.Find.{as_object};
ghost use Rattle.json.specs.Value.{value_view};
ghost use Rattle.template_requests.specs.Faults.{IsFlaw, IsSyntaxFault};
ghost use Rattle.template_requests.specs.Members.{IsMalformed, given as given_in, member_name};
ghost use Rattle.template_requests.specs.Says.{IsObject, SaysParts, SaysSyntax};

use crate::faults::MessageFault;
use crate::leaves::{flag, given, text};
use crate::member::Member;
use json::Value as Json;

/// What a request sets of the syntax of templates. What it does not set is as in the default syntax.
#[derive(Clone, Copy, Debug)]
pub struct SyntaxParts<'text> {
    /// Whether one newline after a block or a comment is taken off.
    pub trim_blocks: bool,
    /// Whether the spaces and tabs before a block or a comment that begins its line are taken off.
    pub lstrip_blocks: bool,
    /// Whether a newline at the end of a template stays.
    pub keep_trailing_newline: bool,
    /// Whether the word `scoped` may stand after the name of a block.
    pub scoped_blocks: bool,
    /// What begins a line that is a statement.
    pub line_statement_prefix: Option<&'text str>,
    /// What begins a comment that ends with its line.
    pub line_comment_prefix: Option<&'text str>,
    /// What blocks begin with.
    pub block_start: Option<&'text str>,
    /// What blocks end with.
    pub block_end: Option<&'text str>,
    /// What prints begin with.
    pub variable_start: Option<&'text str>,
    /// What prints end with.
    pub variable_end: Option<&'text str>,
    /// What comments begin with.
    pub comment_start: Option<&'text str>,
    /// What comments end with.
    pub comment_end: Option<&'text str>,
}

/// What the request sets of the syntax, if it sets any.
pub(crate) fn syntax_in<'text>(
    object: &Json<'text>,
) -> Result<Option<SyntaxParts<'text>>, MessageFault>
    ensures says { IfOk result (SaysSyntax (given_in (member_name Member.Syntax) (value_view object.now))) }
    ensures refused { IfErr result (IsFlaw (value_view object.now)) }
{
    match given(object, Member::Syntax.name()) {
        None => Ok(None),
        Some(syntax) => Ok(Some(parts_in(syntax)?)),
    }
}

// The parts of the syntax.
fn parts_in<'text>(syntax: &Json<'text>) -> Result<SyntaxParts<'text>, MessageFault>
    ensures says { IfOk result (SaysParts (value_view syntax.now)) }
    ensures refused { IfErr result (IsSyntaxFault (value_view syntax.now)) }
{
    check_object(syntax, Member::Syntax)?;
    Ok(SyntaxParts {
        trim_blocks: flag(syntax, Member::TrimBlocks)?,
        lstrip_blocks: flag(syntax, Member::LstripBlocks)?,
        keep_trailing_newline: flag(syntax, Member::KeepTrailingNewline)?,
        scoped_blocks: flag(syntax, Member::ScopedBlocks)?,
        line_statement_prefix: text(syntax, Member::LineStatementPrefix)?,
        line_comment_prefix: text(syntax, Member::LineCommentPrefix)?,
        block_start: text(syntax, Member::BlockStart)?,
        block_end: text(syntax, Member::BlockEnd)?,
        variable_start: text(syntax, Member::VariableStart)?,
        variable_end: text(syntax, Member::VariableEnd)?,
        comment_start: text(syntax, Member::CommentStart)?,
        comment_end: text(syntax, Member::CommentEnd)?,
    })
}

/// Refuses what is no object.
pub(crate) fn check_object(value: &Json<'_>, member: Member) -> Result<(), MessageFault>
    ensures object { OnOk result (IsObject (value_view value.now)) }
    ensures refused { IfErr result (λ fault. IsMalformed fault member (as_object (value_view value.now) ≡ None)) }
{
    match value {
        Json::Object(_) => Ok(()),
        _ => Err(MessageFault::Malformed(member)),
    }
}
