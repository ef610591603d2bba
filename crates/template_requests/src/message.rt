//! A request as a whole.
ghost use Rattle.std.specs.Prelude.{◌≡◌, IfErr, IfOk, None, Some, codes, option_and_then, option_map, string_bytes};
ghost use Rattle.json.specs.Find.{as_str};
ghost use Rattle.json.specs.Tree.{HasNumbers};
ghost use Rattle.json.specs.Value.{value_view};
ghost use Rattle.template_requests.specs.Faults.{IsFault, IsFaultOf};
ghost use Rattle.template_requests.specs.Members.{given as given_in, member_name};
ghost use Rattle.template_requests.specs.Says.{Says, context_of};

use crate::faults::MessageFault;
use crate::leaves::given;
use crate::member::Member;
use crate::settings::{Settings, settings_in};
use crate::syntax::check_object;
use crate::templates::templates_in;
use json::{Value as Json, to_vec};
use std::alloc::Global;

/// What a request says.
#[derive(Debug, Drop)]
pub struct Message<'text> {
    /// The names of the templates with their texts, in order: a later one stands in place of an earlier one of its name.
    pub templates: Vec<(String, String)>,
    /// The name of the main template.
    pub main: String,
    /// The text of the context, if one is given.
    pub context: Option<Vec<u8>>,
    /// The settings of the environment.
    pub settings: Settings<'text>,
}

/// What a request says. Copies the templates, and writes the context anew.
///
/// # Errors
///
/// `Malformed` with the first member that lacks or says nothing that it can say; `Memory`.
pub fn message_in<'text>(
    alloc: Global,
    object: &Json<'text>,
) -> Result<Message<'text>, MessageFault>
    requires numbers { HasNumbers (value_view object.now) }
    ensures says { IfOk result (Says (value_view object.now)) }
    ensures refused { IfErr result (IsFault (value_view object.now)) }
{
    check_object(object, Member::Whole)?;
    let settings = settings_in(object)?;
    let main = main_in(alloc, object)?;
    let templates = templates_in(alloc, object)?;
    let context = context_in(alloc, object)?;
    Ok(Message {
        templates,
        main,
        context,
        settings,
    })
}

// The name of the main template.
fn main_in(alloc: Global, object: &Json<'_>) -> Result<String, MessageFault>
    ensures says { IfOk result (λ main. option_and_then as_str (given_in (member_name Member.Main) (value_view object.now))
        ≡ Some (string_bytes main)) }
    ensures refused { IfErr result (λ fault. IsFaultOf fault Member.Main
        (option_and_then as_str (given_in (member_name Member.Main) (value_view object.now)) ≡ None)) }
{
    match given(object, Member::Main.name()).and_then(Json::as_str) {
        Some(main) => Ok(String::from_str(alloc, main)?),
        None => Err(MessageFault::Malformed(Member::Main)),
    }
}

// The text of the context, if one is given.
fn context_in(alloc: Global, object: &Json<'_>) -> Result<Option<Vec<u8>>, MessageFault>
    requires numbers { HasNumbers (value_view object.now) }
    ensures says { IfOk result (λ context. option_map (λ bytes. bytes.items) context
        ≡ context_of (given_in (codes "context") (value_view object.now))) }
    ensures refused { IfErr result (λ fault. fault ≡ MessageFault.Memory) }
{
    match given(object, "context") {
        Some(context) => Ok(Some(to_vec(alloc, context)?)),
        None => Ok(None),
    }
}
