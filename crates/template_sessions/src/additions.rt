//! The environment of a session: the templates, added in order, and what the options bring.
ghost use Rattle.std.specs.Prelude.{◌≡◌, IfOk, IfErr, OnOk};
ghost use Rattle.template_machine_environment_settings.specs.Reading.{brought_of, registry_of};
ghost use Rattle.template_program_parts.specs.Context.{text_pairs};
ghost use Rattle.template_program_run.specs.Additions.{AllAreAccepted, IsRefusedAddition};
ghost use Rattle.template_program_run.specs.Brought.{brought_if, program_answers};
ghost use Rattle.template_program_run.specs.Environments.{IsMade};
ghost use Rattle.template_program_run.specs.Ids.{IsLastId, behind_one};
ghost use Rattle.template_program_run.specs.Served.{served_under};

use std::alloc::Global;
use std::borrow::CowStr;
use template_machine_environment_settings::Environment;
use template_machine_surroundings::StateIds;
use template_program_run::{Options, Program, Request, set_up};
use template_values_errors::Error;

/// An environment with copies of the templates, of which a later one replaces an earlier one of its name, set to what
/// the request asks for, with what the options bring, and with the templates read as the options say.
///
/// # Errors
///
/// That of the first template that is refused; `InvalidOperation` where no state id is left, and `OutOfMemory`.
pub(crate) fn environment_of(
    alloc: Global,
    templates: &[(String, String)],
    request: &Request,
    options: Options<'_>,
    ids: &mut StateIds,
) -> Result<Environment<'static, Program>, Error>
    ensures accepted { IfOk result (λ e. AllAreAccepted (served_under options.entry) (text_pairs templates.entry.now)) }
    ensures made { IfOk result (λ e. IsMade (served_under options.entry) request.now (text_pairs templates.entry.now)
        ids.old (registry_of e)) }
    ensures brought { IfOk result (λ e. brought_of program_answers e ≡ brought_if options.entry.builtins) }
    ensures had_one { OnOk result (¬ IsLastId ids.old) }
    ensures counted { ids.new ≡ behind_one ids.old }
    ensures refused { IfErr result (IsRefusedAddition (served_under options.entry) (text_pairs templates.entry.now) ids.old) }
{
    let mut environment = set_up(alloc, request, options, ids)?;
    for (name, source) in templates {
        environment.add_template_owned(
            CowStr::Borrowed(name.as_str()),
            CowStr::Borrowed(source.as_str()),
        )?;
    }
    Ok(environment)
}
