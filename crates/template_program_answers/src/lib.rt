//! The law that a request has one answer, where nothing is wanted: what `run_with` tells and writes is decided by the request, the
//! options, the templates, the context and the state id that is next, and what `run` does, which is it at no options; the law of
//! status 6; and that of contexts of JSON alone. Each function does nothing: it stands for the law in its contract.
#![tactic(auto)]

ghost use Rattle.template_program_answers.specs.Law.{JsonAlone, OneAnswer, SixIsWant};

use template_builtins::builtins_ask_no_names;
use template_machine_meaning::isolation;
use template_program_contexts::context_laws;

/// Two answers to one request under the same options, whatever these are, with the same templates and a context made of the same, given
/// while the same state id was next, as the contract of `run_with` tells them, end with the same outcome, kinds of errors and all,
/// and write the same bytes, where neither wants anything: memory, a sink that works, room for a source or its code, or a state id.
pub fn one_answer()
    ensures { OneAnswer }
{
    isolation();
    builtins_ask_no_names();
}

/// A render without the builtins whose status is 6 lacked memory. No fault of a template is told so, however many includes it
/// happened in.
pub fn six_is_want()
    ensures { SixIsWant }
{}

/// The context that is made of bytes of JSON alone, as `run` takes them, is that of `read_context`, and is refused as there.
pub fn json_alone()
    ensures { JsonAlone }
{
    context_laws();
}
