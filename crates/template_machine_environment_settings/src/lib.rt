//! The laws of what an environment is for its renders: the sources that stand under names, the globals, what its user brought, the
//! limit and what undefined values may do are all that they see of it. So histories of changes that agree on each name come to
//! environments where each template renders to the same. The functions of this crate do nothing: each stands for the law in its
//! contract; save the one that sets what renders keep to. Environments, templates and the law that renders end are passed on, so
//! that programs name this crate alone.
#![tactic(auto)]

ghost use Rattle.template_machine_environment.specs.Extras.{user_answers};
ghost use Rattle.template_machine_environment_settings.specs.Alike.{AlikeHaveOneSetting, AlikeRenderTheSame};
ghost use Rattle.template_machine_environment_settings.specs.Histories.{AgreeingComeToOneSetting, AgreeingRenderTheSame};

mod bounds;

pub use bounds::set_bounds;
use template_callables::Extension;
pub use template_machine_environment::{Environment, Template, every_render_ends};

/// Environments where the same sources stand under the names, and that have the same globals, are answered the same where they ask
/// what their users brought, keep to the same limit and let undefined values do the same, give their renders one setting. An
/// environment's functions are known by its number, and can be called there alone: so the two have one number. A template of one
/// name and one source renders to the same in both, in states of one number, under every bound and over every context.
pub fn one_setting()
    ensures setting { AlikeHaveOneSetting }
    ensures renders { AlikeRenderTheSame }
{}

/// So do environments, with what users bring by the types of `E`, that histories of changes come to which agree on each name.
pub fn agreeing_histories<E: Extension>()
    ensures setting { let says = user_answers E.Callable.answer E.Method.answer E.Formatter.answer E.Join.answer in
        AgreeingComeToOneSetting E E.Callable E.Method E.Formatter E.Join E.Rule says }
    ensures renders { let says = user_answers E.Callable.answer E.Method.answer E.Formatter.answer E.Join.answer in
        AgreeingRenderTheSame E E.Callable E.Method E.Formatter E.Join E.Rule says }
{}
