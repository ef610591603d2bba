//! The opening of a session.
ghost use Rattle.std.specs.Prelude.{◌≡◌, IfErr, IfOk, option_map, string_bytes, unwrap_or};
ghost use Rattle.json.specs.Value.{value_view};
ghost use Rattle.template_compiler_syntax.specs.Syntax.{default_syntax};
ghost use Rattle.template_requests.specs.Syntaxes.{syntax_of as syntax_for};
ghost use Rattle.template_replies.specs.Replies.{IsBare};
ghost use Rattle.template_sessions.specs.Openings.{Opens, OpensJson, RefusesJson, RefusesOpening, RefusesRequest, RefusesSession};
ghost use Rattle.template_sessions.specs.Sessions.{IsOpened};

use crate::session::Session;
use json::{Scratch, Value as Json};
use std::alloc::Global;
use template_compiler_syntax::SyntaxConfig;
use template_program_parts::Outcome;
use template_replies::{Reply, bare, refusal, reply_of, reply_to_fault};
use template_requests::{Opening, opening_in, syntax_of, tree_of};

/// Opens a session with the templates and the settings of a request, which is one JSON object. A main template and a context are
/// passed over.
///
/// # Errors
///
/// The reply to a request that is malformed, or whose syntax or templates are refused; of no text where no memory is left.
pub fn open(alloc: Global, request: &[u8]) -> Result<Box<Session>, Reply>
    ensures opened { IfOk result (λ session. Opens request.now session.value) }
    ensures refused { IfErr result (λ reply. RefusesRequest request.now reply.status (string_bytes reply.text)) }
{
    let mut scratch = Scratch::new(alloc);
    match tree_of(alloc, request, &mut scratch) {
        Ok(tree) => open_json(alloc, &tree),
        Err(fault) => Err(reply_to_fault(alloc, fault)),
    }
}

// The session that JSON opens.
fn open_json(alloc: Global, tree: &Json<'_>) -> Result<Box<Session>, Reply>
    ensures opened { IfOk result (λ session. OpensJson (value_view tree.now) session.value) }
    ensures refused { IfErr result (λ reply. RefusesJson (value_view tree.now) reply.status (string_bytes reply.text)) }
{
    match opening_in(alloc, tree) {
        Ok(opening) => open_with(alloc, opening),
        Err(fault) => Err(reply_to_fault(alloc, fault)),
    }
}

// The session of an opening that is well formed.
fn open_with(alloc: Global, opening: Opening<'_>) -> Result<Box<Session>, Reply>
    ensures opened { IfOk result (λ session. IsOpened opening.entry session.value) }
    ensures refused { IfErr result (λ reply. RefusesOpening opening.entry reply.status (string_bytes reply.text)) }
{
    match syntax_of(alloc, opening.settings.syntax) {
        Ok(syntax) => open_under(alloc, opening, syntax.as_ref()),
        Err(error) => Err(refusal(alloc, &error)),
    }
}

// The same under its syntax.
fn open_under(
    alloc: Global,
    opening: Opening<'_>,
    syntax: Option<&SyntaxConfig>,
) -> Result<Box<Session>, Reply>
    requires { unwrap_or (option_map (λ given. given.now) syntax) default_syntax ≡ syntax_for opening.settings.syntax }
    ensures opened { IfOk result (λ session. IsOpened opening.entry session.value) }
    ensures refused { IfErr result (λ reply. RefusesSession opening.entry reply.status (string_bytes reply.text)) }
{
    match Session::open(alloc, opening, syntax) {
        Ok(session) => boxed(alloc, session),
        Err(error) => Err(reply_of(alloc, Outcome::Template(error), String::new(alloc))),
    }
}

// The session in a box, if there is memory for that.
fn boxed(alloc: Global, session: Session) -> Result<Box<Session>, Reply>
    ensures boxed { IfOk result (λ whole. whole.value ≡ session) }
    ensures refused { IfErr result (λ reply. IsBare reply.status (string_bytes reply.text)) }
{
    match Box::new(alloc, session) {
        Ok(whole) => Ok(whole),
        Err(_refused) => Err(bare(alloc)),
    }
}
