//! The settings of the environment that a request is answered in.
ghost use Rattle.std.specs.Prelude.{◌≡◌, IfErr, IfOk};
ghost use Rattle.json.specs.Value.{value_view};
ghost use Rattle.template_requests.specs.Faults.{IsFlaw};
ghost use Rattle.template_requests.specs.Says.{SaysSettings};

use crate::faults::MessageFault;
use crate::leaves::{autoescape, flag, floats, number, undefined};
use crate::member::Member;
use crate::syntax::{SyntaxParts, syntax_in};
use json::Value as Json;
use template_machine_surroundings::EscapeRule;
use template_values_errors::UndefinedBehavior;
use template_values_json::Floats;

// How deep a render may be where the request does not say it.
const DEFAULT_LIMIT: u64 = 500;

/// The settings of the environment that a request is answered in. Its texts are those of the JSON.
#[derive(Clone, Copy, Debug)]
pub struct Settings<'text> {
    /// The fuel of a render, if one is set.
    pub fuel: Option<u64>,
    /// How deep a render may be: 500 where the request does not say it.
    pub limit: u64,
    /// What may be done with undefined values: lenient where the request does not say it.
    pub undefined: UndefinedBehavior,
    /// Whether templates have the builtins.
    pub builtins: bool,
    /// What becomes of numbers of the context that are no whole ones: they are refused where the request does not say it.
    pub floats: Floats,
    /// How printed values are escaped: as the template's name says where the request does not say it.
    pub autoescape: EscapeRule,
    /// What is set of the syntax of the templates, if anything is.
    pub syntax: Option<SyntaxParts<'text>>,
}

/// The settings that a request says.
///
/// # Errors
///
/// `Malformed` with the first member that says nothing that it can say.
pub fn settings_in<'text>(object: &Json<'text>) -> Result<Settings<'text>, MessageFault>
    ensures says { IfOk result (SaysSettings (value_view object.now)) }
    ensures refused { IfErr result (IsFlaw (value_view object.now)) }
{
    Ok(Settings {
        fuel: number(object, Member::Fuel)?,
        limit: number(object, Member::Limit)?.unwrap_or(DEFAULT_LIMIT),
        undefined: undefined(object)?,
        builtins: flag(object, Member::Builtins)?,
        floats: floats(object)?,
        autoescape: autoescape(object)?,
        syntax: syntax_in(object)?,
    })
}
