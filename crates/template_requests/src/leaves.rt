//! Members that are flags, numbers, texts and words.
ghost use Rattle.std.specs.Prelude.{◌≡◌, IfErr, IfOk, None, Some, option_and_then, option_map};
ghost use Rattle.json.specs.Value.{value_view};
ghost use Rattle.template_requests.specs.Words.{escape_named as escape_for, escape_of, floats_named as floats_for, floats_of, mode_named as mode_for, mode_of};
ghost use Rattle.template_requests.specs.Members.{IsMalformed, LacksNumber, SaysNumber, flag_of, given as given_in, member_name, text_of};

use crate::faults::MessageFault;
use crate::member::Member;
use json::Value as Json;
use template_machine_surroundings::EscapeRule;
use template_values_errors::{AutoEscape, UndefinedBehavior};
use template_values_json::Floats;

/// The member of the name, where it stands and is not null: of equal names the last one.
pub(crate) fn given<'tree, 'text>(
    object: &'tree Json<'text>,
    name: &str,
) -> Option<&'tree Json<'text>>
    ensures { option_map (λ found. value_view found.now) result ≡ given_in name.now (value_view object.now) }
{
    let found = object.get(name)?;
    if found.is_null() { None } else { Some(found) }
}

/// Whether the flag is set; it is not where it is not given.
pub(crate) fn flag(object: &Json<'_>, member: Member) -> Result<bool, MessageFault>
    ensures says { IfOk result (λ flag. flag_of (given_in (member_name member) (value_view object.now)) ≡ Some flag) }
    ensures refused { IfErr result (λ fault. IsMalformed fault member
        (flag_of (given_in (member_name member) (value_view object.now)) ≡ None)) }
{
    match given(object, member.name()) {
        None => Ok(false),
        Some(found) => found.as_bool().ok_or(MessageFault::Malformed(member)),
    }
}

/// The number, if one is given.
pub(crate) fn number(object: &Json<'_>, member: Member) -> Result<Option<u64>, MessageFault>
    ensures says { IfOk result (SaysNumber (given_in (member_name member) (value_view object.now))) }
    ensures refused { IfErr result (λ fault. IsMalformed fault member
        (LacksNumber (given_in (member_name member) (value_view object.now)))) }
{
    match given(object, member.name()) {
        None => Ok(None),
        Some(found) => match found.as_u64() {
            Some(number) => Ok(Some(number)),
            None => Err(MessageFault::Malformed(member)),
        },
    }
}

/// The text, if one is given.
pub(crate) fn text<'text>(
    object: &Json<'text>,
    member: Member,
) -> Result<Option<&'text str>, MessageFault>
    ensures says { IfOk result (λ text. text_of (given_in (member_name member) (value_view object.now))
        ≡ Some (option_map (λ text. text.now) text)) }
    ensures refused { IfErr result (λ fault. IsMalformed fault member
        (text_of (given_in (member_name member) (value_view object.now)) ≡ None)) }
{
    match given(object, member.name()) {
        None => Ok(None),
        Some(found) => match found.as_str() {
            Some(text) => Ok(Some(text)),
            None => Err(MessageFault::Malformed(member)),
        },
    }
}

/// What may be done with undefined values.
pub(crate) fn undefined(object: &Json<'_>) -> Result<UndefinedBehavior, MessageFault>
    ensures says { IfOk result (λ mode. option_and_then mode_of
        (text_of (given_in (member_name Member.Undefined) (value_view object.now))) ≡ Some mode) }
    ensures refused { IfErr result (λ fault. IsMalformed fault Member.Undefined
        (option_and_then mode_of (text_of (given_in (member_name Member.Undefined) (value_view object.now))) ≡ None)) }
{
    match text(object, Member::Undefined)? {
        None => Ok(UndefinedBehavior::Lenient),
        Some(word) => mode_named(word).ok_or(MessageFault::Malformed(Member::Undefined)),
    }
}

/// How printed values are escaped.
pub(crate) fn autoescape(object: &Json<'_>) -> Result<EscapeRule, MessageFault>
    ensures says { IfOk result (λ escape. option_and_then escape_of
        (text_of (given_in (member_name Member.Autoescape) (value_view object.now))) ≡ Some escape) }
    ensures refused { IfErr result (λ fault. IsMalformed fault Member.Autoescape
        (option_and_then escape_of (text_of (given_in (member_name Member.Autoescape) (value_view object.now))) ≡ None)) }
{
    match text(object, Member::Autoescape)? {
        None => Ok(EscapeRule::ByName),
        Some(word) => escape_named(word).ok_or(MessageFault::Malformed(Member::Autoescape)),
    }
}

/// What becomes of numbers of the context that are no whole ones.
pub(crate) fn floats(object: &Json<'_>) -> Result<Floats, MessageFault>
    ensures says { IfOk result (λ floats. option_and_then floats_of
        (text_of (given_in (member_name Member.Floats) (value_view object.now))) ≡ Some floats) }
    ensures refused { IfErr result (λ fault. IsMalformed fault Member.Floats
        (option_and_then floats_of (text_of (given_in (member_name Member.Floats) (value_view object.now))) ≡ None)) }
{
    match text(object, Member::Floats)? {
        None => Ok(Floats::Refused),
        Some(word) => floats_named(word).ok_or(MessageFault::Malformed(Member::Floats)),
    }
}

fn mode_named(word: &str) -> Option<UndefinedBehavior>
    ensures { result ≡ mode_for word.now }
{
    match word {
        "lenient" => Some(UndefinedBehavior::Lenient),
        "chainable" => Some(UndefinedBehavior::Chainable),
        "semistrict" => Some(UndefinedBehavior::SemiStrict),
        "strict" => Some(UndefinedBehavior::Strict),
        _ => None,
    }
}

fn escape_named(word: &str) -> Option<EscapeRule>
    ensures { result ≡ escape_for word.now }
{
    match word {
        "none" => Some(EscapeRule::Never),
        "html" => Some(EscapeRule::Fixed(AutoEscape::Html)),
        "json" => Some(EscapeRule::Fixed(AutoEscape::Json)),
        "name" => Some(EscapeRule::ByName),
        _ => None,
    }
}

fn floats_named(word: &str) -> Option<Floats>
    ensures { result ≡ floats_for word.now }
{
    match word {
        "refused" => Some(Floats::Refused),
        "text" => Some(Floats::AsSpelled),
        _ => None,
    }
}
