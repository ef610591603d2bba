//! What a session is opened with.
ghost use Rattle.std.specs.Prelude.{IfErr, IfOk};
ghost use Rattle.json.specs.Value.{value_view};
ghost use Rattle.template_requests.specs.Faults.{IsFault};
ghost use Rattle.template_requests.specs.Says.{SaysOpening};

use crate::faults::MessageFault;
use crate::member::Member;
use crate::settings::{Settings, settings_in};
use crate::syntax::check_object;
use crate::templates::templates_in;
use json::Value as Json;
use std::alloc::Global;

/// What a session is opened with: a request without a main template and without a context.
#[derive(Debug, Drop)]
pub struct Opening<'text> {
    /// The names of the templates with their texts, in order: a later one stands in place of an earlier one of its name.
    pub templates: Vec<(String, String)>,
    /// The settings of the environment.
    pub settings: Settings<'text>,
}

/// What a session is opened with, by its JSON; a main template and a context are passed over. Copies the templates.
///
/// # Errors
///
/// `Malformed` with the first member that lacks or says nothing that it can say; `Memory`.
pub fn opening_in<'text>(
    alloc: Global,
    object: &Json<'text>,
) -> Result<Opening<'text>, MessageFault>
    ensures says { IfOk result (SaysOpening (value_view object.now)) }
    ensures refused { IfErr result (IsFault (value_view object.now)) }
{
    check_object(object, Member::Whole)?;
    let settings = settings_in(object)?;
    let templates = templates_in(alloc, object)?;
    Ok(Opening {
        templates,
        settings,
    })
}
