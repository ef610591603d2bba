//! The templates of a request.
ghost use Rattle.std.specs.Prelude.{◌≡◌, IfErr, IfOk, None, Some, string_bytes};
ghost use Rattle.json.specs.Find.{as_str};
ghost use Rattle.json.specs.Value.{value_view};
ghost use Rattle.template_requests.specs.Faults.{IsFaultOf};
ghost use Rattle.template_requests.specs.Members.{given as given_in, member_name};
ghost use Rattle.template_requests.specs.Templates.{LacksText, LacksTexts, SaysTexts, named_texts};
ghost use Rattle.template_requests.specs.Views.{texts_of as texts_seen};

use crate::faults::MessageFault;
use crate::leaves::given;
use crate::member::Member;
use json::Value as Json;
use std::alloc::Global;

/// The names of the templates and their texts, in the order of the members.
///
/// # Errors
///
/// `Malformed` where there are none, they are no object, or a member of it is no text; `Memory`.
pub fn templates_in(alloc: Global, object: &Json<'_>) -> Result<Vec<(String, String)>, MessageFault>
    ensures says { IfOk result (λ templates.
        SaysTexts (given_in (member_name Member.Templates) (value_view object.now)) templates.items) }
    ensures refused { IfErr result (λ fault. IsFaultOf fault Member.Templates
        (LacksTexts (given_in (member_name Member.Templates) (value_view object.now)))) }
{
    match given(object, Member::Templates.name()) {
        Some(templates) => templates_of(alloc, templates),
        None => Err(MessageFault::Malformed(Member::Templates)),
    }
}

// The templates that are the members of an object.
fn templates_of(alloc: Global, json: &Json<'_>) -> Result<Vec<(String, String)>, MessageFault>
    ensures says { IfOk result (λ templates. SaysTexts (Some (value_view json.now)) templates.items) }
    ensures refused { IfErr result (λ fault. IsFaultOf fault Member.Templates (LacksTexts (Some (value_view json.now)))) }
{
    match json {
        Json::Object(members) => texts_of(alloc, members),
        _ => Err(MessageFault::Malformed(Member::Templates)),
    }
}

// The names and the texts of members.
fn texts_of(
    alloc: Global,
    members: &[(&str, Json<'_>)],
) -> Result<Vec<(String, String)>, MessageFault>
    ensures says { IfOk result (λ templates. named_texts templates.items ≡ texts_seen members.now) }
    ensures refused { IfErr result (λ fault. IsFaultOf fault Member.Templates (LacksText (texts_seen members.now))) }
{
    let mut templates = Vec::with_capacity(alloc, members.len())?;
    for member in members {
        templates.push(template_of(alloc, member)?)?;
    }
    Ok(templates)
}

// The name and the text of a member.
fn template_of(alloc: Global, member: &(&str, Json<'_>)) -> Result<(String, String), MessageFault>
    ensures says { IfOk result (λ template. (string_bytes template.0 ≡ member.now.0.now)
        × (as_str (value_view member.now.1) ≡ Some (string_bytes template.1))) }
    ensures refused { IfErr result (λ fault. IsFaultOf fault Member.Templates (as_str (value_view member.now.1) ≡ None)) }
{
    let Some(text) = member.1.as_str() else {
        return Err(MessageFault::Malformed(Member::Templates));
    };
    Ok((
        String::from_str(alloc, member.0)?,
        String::from_str(alloc, text)?,
    ))
}
