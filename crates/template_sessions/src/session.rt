//! A session: an environment that stays, with the state ids of its renders.
ghost use Rattle.std.specs.Prelude.{◌≡◌, IfErr, IfOk, option_map, unwrap_or};
ghost use Rattle.template_compiler_syntax.specs.Syntax.{default_syntax};
ghost use Rattle.template_program_parts.specs.Context.{text_pairs};
ghost use Rattle.template_program_run.specs.Additions.{IsRefusedAddition};
ghost use Rattle.template_program_run.specs.Given.{given_in};
ghost use Rattle.template_replies.specs.Replies.{served_by};
ghost use Rattle.template_requests.specs.Syntaxes.{syntax_of as syntax_for};
ghost use Rattle.template_sessions.specs.Sessions.{IsKept, IsOpened, RendersIn};

use crate::additions::environment_of;
use std::alloc::Global;
use template_compiler_syntax::SyntaxConfig;
use template_machine_environment_settings::Environment;
use template_machine_surroundings::{Sink, StateIds};
use template_program_contexts::context_with;
use template_program_parts::{Command, Outcome};
use template_program_run::{ContextParts, Program, render};
use template_replies::{options_of, request_of};
use template_requests::Opening;
use template_values_errors::Error;
use template_values_json::Floats;

/// Templates that are compiled once, to be rendered often.
pub struct Session {
    pub(crate) environment: Environment<'static, Program>,
    pub(crate) ids: StateIds,
    pub(crate) floats: Floats,
}

impl Drop for Session {
    fn drop(self) {
        let Session {
            environment: _,
            ids: _,
            floats: _,
        } = self;
    }
}

impl Session {
    /// A session with the templates, read under the syntax that the settings set. Linear in the sources, besides what the
    /// operators of constant trees cost.
    ///
    /// # Errors
    ///
    /// That of the first template that is refused; `OutOfMemory`.
    pub fn open(
        alloc: Global,
        opening: Opening<'_>,
        syntax: Option<&SyntaxConfig>,
    ) -> Result<Session, Error>
        requires { unwrap_or (option_map (λ given. given.now) syntax) default_syntax ≡ syntax_for opening.settings.syntax }
        ensures opened { IfOk result (IsOpened opening.entry) }
        ensures refused { IfErr result (IsRefusedAddition (served_by opening.entry.settings)
            (text_pairs opening.entry.templates.items) 0) }
    {
        let Opening {
            templates,
            settings,
        } = opening;
        let request = request_of(alloc, Command::Render, String::new(alloc), settings);
        let options = options_of(settings, syntax);
        let mut ids = StateIds::new(0);
        let environment = environment_of(alloc, templates.as_slice(), &request, options, &mut ids)?;
        Ok(Session {
            environment,
            ids,
            floats: settings.floats,
        })
    }

    /// Renders a template of the session over a context, and writes the text into a sink as it comes. Takes a state id.
    ///
    /// # Errors
    ///
    /// [`Outcome::Context`] where the context is refused, then [`Outcome::Template`] where no template of the name stands;
    /// [`Outcome::Render`] where the render ends with a fault. Until the last nothing is written.
    pub fn render<S: Sink>(
        &mut self,
        alloc: Global,
        name: &str,
        context: ContextParts<'_>,
        sink: &mut S,
    ) -> Outcome
        ensures rendered { RendersIn self.old name.now (given_in context.entry) result
            (S.taken sink.old) (S.taken sink.new) (S.failures sink.old) (S.failures sink.new) }
        ensures kept { IsKept self.old self.new }
    {
        let context = match context_with(
            alloc,
            context.documents,
            &[],
            context.values,
            context.floats,
        ) {
            Ok(context) => context,
            Err(error) => return Outcome::Context(error),
        };
        let template = match self.environment.get_template(name) {
            Ok(template) => template,
            Err(error) => return Outcome::Template(error),
        };
        render(&template, context, &mut self.ids, sink)
    }
}
