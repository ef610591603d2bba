//! The environment that a request is answered in: the templates, added in order, and what the options bring.
ghost use Rattle.std.specs.Prelude.{◌≡◌, ℕ, List, None, IfOk, IfErr, OnOk, option_map, unwrap_or};
ghost use Rattle.template_values_errors.specs.Memory.{NoMemory};
ghost use Rattle.template_compiler_syntax.specs.Syntax.{default_syntax};
ghost use Rattle.template_machine_environment_settings.specs.Extras.{no_extras};
ghost use Rattle.template_machine_environment_settings.specs.Reading.{brought_of, extras_of, registry_of};
ghost use Rattle.template_machine_environment_settings.specs.Standing.{settings_of, source_at};
ghost use Rattle.template_program_parts.specs.Context.{text_pairs};
ghost use Rattle.template_program_run.specs.Additions.{AllAreAccepted, IsRefusedAddition, IsRefusedEnvironment};
ghost use Rattle.template_program_run.specs.Brought.{brought_if, program_answers};
ghost use Rattle.template_program_run.specs.Environments.{IsSetFor, IsMade, callback_under};
ghost use Rattle.template_program_run.specs.Ids.{IsLastId, behind_one};
ghost use Rattle.template_program_run.specs.Served.{served_under, syntax_under};

use crate::extension::{OneEscape, Program};
use crate::options::Options;
use crate::request::Request;
use std::alloc::Global;
use template_builtins::install;
use template_compiler_syntax::SyntaxConfig;
use template_machine_environment_settings::{Environment, set_bounds};
use template_machine_surroundings::{EscapeRule, StateIds};
use template_values_errors::{AutoEscape, Error};

/// An environment with the templates, of which a later one replaces an earlier one of its name, set to what
/// the request asks for, with what the options bring, and with the templates read as the options say.
///
/// # Errors
///
/// That of the first template that is refused; `InvalidOperation` where no state id is left, and `OutOfMemory`.
pub(crate) fn environment_of<'source>(
    alloc: Global,
    templates: &'source [(String, String)],
    request: &Request,
    options: Options<'_>,
    ids: &mut StateIds,
) -> Result<Environment<'source, Program>, Error>
    ensures accepted { IfOk result (λ e. AllAreAccepted (served_under options.entry) (text_pairs templates.entry.now)) }
    ensures made { IfOk result (λ e. IsMade (served_under options.entry) request.now (text_pairs templates.entry.now)
        ids.old (registry_of e)) }
    ensures brought { IfOk result (λ e. brought_of program_answers e ≡ brought_if options.entry.builtins) }
    ensures had_one { OnOk result (¬ IsLastId ids.old) }
    ensures counted { ids.new ≡ behind_one ids.old }
    ensures refused { IfErr result (IsRefusedAddition (served_under options.entry) (text_pairs templates.entry.now) ids.old) }
{
    let mut environment = set_up(alloc, request, options, ids)?;
    for (name, source) in templates {
        environment.add_template(name.as_str(), source.as_str())?;
    }
    Ok(environment)
}

/// An environment without templates, set to what the request asks for, with what the options bring and say: who adds templates to
/// it has them read as those of the request would be. Takes a state id.
///
/// # Errors
///
/// `InvalidOperation` where no state id is left, and `OutOfMemory`.
pub fn set_up<'source>(
    alloc: Global,
    request: &Request,
    options: Options<'_>,
    ids: &mut StateIds,
) -> Result<Environment<'source, Program>, Error>
    ensures empty { IfOk result (λ e. (name : List ℕ) → source_at (registry_of e) name ≡ None) }
    ensures settings { IfOk result (λ e. IsSetFor (syntax_under options.entry) request.now ids.old (settings_of (registry_of e))) }
    ensures brought { IfOk result (λ e. brought_of program_answers e ≡ brought_if options.entry.builtins) }
    ensures rule { IfOk result (λ e. (extras_of e).rule ≡ callback_under options.entry.escapes) }
    ensures had_one { OnOk result (¬ IsLastId ids.old) }
    ensures counted { ids.new ≡ behind_one ids.old }
    ensures refused { IfErr result (IsRefusedEnvironment ids.old) }
{
    let mut environment = begin(alloc, request, ids)?;
    set_syntax(&mut environment, options.syntax)?;
    bring(alloc, options.builtins, &mut environment)?;
    set_escapes(&mut environment, options.escapes);
    Ok(environment)
}

// An environment without templates, set to what the request asks for.
fn begin<'source>(
    alloc: Global,
    request: &Request,
    ids: &mut StateIds,
) -> Result<Environment<'source, Program>, Error>
    ensures empty { IfOk result (λ e. (name : List ℕ) → source_at (registry_of e) name ≡ None) }
    ensures settings { IfOk result (λ e. IsSetFor default_syntax request.now ids.old (settings_of (registry_of e))) }
    ensures extras { IfOk result (λ e. extras_of e ≡ no_extras) }
    ensures had_one { OnOk result (¬ IsLastId ids.old) }
    ensures counted { ids.new ≡ behind_one ids.old }
    ensures refused { IfErr result (IsRefusedEnvironment ids.old) }
{
    let mut environment: Environment<'_, Program> = Environment::extended(alloc, ids)?;
    set_bounds(
        &mut environment,
        request.fuel,
        request.limit,
        request.undefined,
    );
    Ok(environment)
}

// Sets the syntax, where one is given.
fn set_syntax(
    environment: &mut Environment<'_, Program>,
    syntax: Option<&SyntaxConfig>,
) -> Result<(), Error>
    ensures sources { (name : List ℕ) → source_at (registry_of environment.new) name ≡ source_at (registry_of environment.old) name }
    ensures settings { OnOk result (settings_of (registry_of environment.new) ≡ record (settings_of (registry_of environment.old))
        { syntax = unwrap_or (option_map (λ s. s.now) syntax.entry) (settings_of (registry_of environment.old)).syntax }) }
    ensures extras { extras_of environment.new ≡ extras_of environment.old }
    ensures refused { IfErr result NoMemory }
{
    if let Some(syntax) = syntax {
        environment.set_syntax(syntax.clone()?);
    }
    Ok(())
}

// Brings the builtins, where they are asked for, to an environment to which nothing was brought.
fn bring(
    alloc: Global,
    builtins: bool,
    environment: &mut Environment<'_, Program>,
) -> Result<(), Error>
    requires { extras_of environment.old ≡ no_extras }
    ensures brought { OnOk result (brought_of program_answers environment.new ≡ brought_if builtins) }
    ensures rule { OnOk result ((extras_of environment.new).rule ≡ None) }
    ensures sources { (name : List ℕ) → source_at (registry_of environment.new) name ≡ source_at (registry_of environment.old) name }
    ensures settings { settings_of (registry_of environment.new) ≡ settings_of (registry_of environment.old) }
    ensures refused { IfErr result NoMemory }
{
    if builtins {
        install(alloc, environment)?;
    }
    Ok(())
}

// Sets the rule of escapes, where they do not go by name, which they do in an environment without a rule.
fn set_escapes(environment: &mut Environment<'_, Program>, escapes: EscapeRule)
    requires { (extras_of environment.old).rule ≡ None }
    ensures extras { extras_of environment.new ≡ record (extras_of environment.old) { rule = callback_under escapes } }
    ensures sources { (name : List ℕ) → source_at (registry_of environment.new) name ≡ source_at (registry_of environment.old) name }
    ensures settings { settings_of (registry_of environment.new) ≡ settings_of (registry_of environment.old) }
{
    match escapes {
        EscapeRule::ByName => {}
        EscapeRule::Never => environment.set_auto_escape_callback(OneEscape {
            escape: AutoEscape::None,
        }),
        EscapeRule::Fixed(escape) => environment.set_auto_escape_callback(OneEscape { escape }),
    }
}
