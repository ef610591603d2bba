//! Which template is extended.
ghost use Rattle.std.specs.Prelude.{ℕ, List, Option, IfErr, OnErr};
ghost use Rattle.template_compiler_process.specs.Process.{done};
ghost use Rattle.template_machine_meaning.specs.Blocks.{load_plan};
ghost use Rattle.template_machine_meaning.specs.Keeps.{KeepsWorld};
ghost use Rattle.template_machine_going.specs.Told.{SparesSink};
ghost use Rattle.template_machine_loop.specs.Plans.{DoesPlan};
ghost use Rattle.template_machine_loop.specs.Programs.{programs_in};

use crate::templates::{Program, Templates};
use crate::told::told_by;
use std::alloc::Global;
use template_machine_going::Stop;
use template_machine_state::State;
use template_values_core::Value;
use template_values_errors::{Error, ErrorKind};

/// The template that a value names is extended from now on: its blocks go behind those that are there, it runs at the end of
/// the code, and what is written until then is dropped.
///
/// # Errors
///
/// `InvalidOperation` where a template is extended already, where the value is no text, and where the template's blocks were loaded
/// before; the fault of the name's join; `TemplateNotFound`; and a want of memory.
#[cold]
#[inline(never)]
pub(crate) fn extend<'env, T: Templates>(
    alloc: Global,
    program: Program<'env, '_, T>,
    value: &Value,
    state: &mut State<'env>,
) -> Result<(), Stop>
    ensures plan { let s = programs_in T.standing T.joins T.callables program.entry in
        (left : Option ℕ) (taken : Option (List ℕ)) →
        DoesPlan (λ u. done) s (load_plan s.around state.old state.old.parent value.now) state.old left taken result state.new left taken }
    ensures keeps { OnErr result (KeepsWorld state.old state.new) }
    ensures spares { IfErr result SparesSink }
{
    if state.parent().is_some() {
        return Err(Stop::Fault(Error::new(ErrorKind::InvalidOperation)));
    }
    let Some(name) = value.as_str() else {
        return Err(Stop::Fault(Error::new(ErrorKind::InvalidOperation)));
    };
    let joined = program
        .templates
        .join(name, state.here_name(program.rules.name))?;
    let meant = joined.as_str();
    if state.is_loaded(meant) {
        return Err(Stop::Fault(Error::new(ErrorKind::InvalidOperation)));
    }
    let Some(found) = program.templates.get(meant) else {
        return Err(Stop::Fault(Error::new(ErrorKind::TemplateNotFound)));
    };
    told_by(state.load_blocks(alloc, found.name, found.blocks))
}
