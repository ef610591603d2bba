//! The renders of a session.
ghost use Rattle.std.specs.Prelude.{option_to_list, string_bytes};
ghost use Rattle.template_program_run.specs.Given.{given_in};
ghost use Rattle.template_sessions.specs.Sessions.{AreBytes, IsKept, RepliesIn, RepliesNamed, RendersInto};

use crate::session::Session;
use std::alloc::Global;
use template_program_contexts::{Document, Form};
use template_program_parts::Outcome;
use template_program_run::ContextParts;
use template_replies::{Reply, reply_of, reply_to_fault};
use template_requests::{Member, MessageFault};

/// The reply to a request for the text of a template of the session over a context: the template's name, and the context's
/// bytes, which are a JSON object; of no bytes there is no context.
pub fn reply_in(alloc: Global, session: &mut Session, name: &[u8], context: &[u8]) -> Reply
    ensures replies { RepliesIn session.old name.now context.now result.status (string_bytes result.text) }
    ensures kept { IsKept session.old session.new }
{
    match std::str::from_utf8(name) {
        Ok(name) => reply_named(alloc, session, name, context),
        Err(_) => reply_to_fault(alloc, MessageFault::Malformed(Member::Main)),
    }
}

// The reply for a template of a name.
fn reply_named(alloc: Global, session: &mut Session, name: &str, context: &[u8]) -> Reply
    ensures replies { RepliesNamed session.old name.now context.now result.status (string_bytes result.text) }
    ensures kept { IsKept session.old session.new }
{
    let document = document_of(context);
    let given = ContextParts {
        documents: document.as_slice(),
        values: &[],
        floats: session.floats,
    };
    let (outcome, text) = render_text(alloc, session, name, given);
    reply_of(alloc, outcome, text)
}

// The outcome of a render, and the text that it writes.
fn render_text(
    alloc: Global,
    session: &mut Session,
    name: &str,
    given: ContextParts<'_>,
) -> (Outcome, String)
    ensures renders { RendersInto session.old name.now (given_in given.entry) result.0 (string_bytes result.1) }
    ensures kept { IsKept session.old session.new }
{
    let mut text = String::new(alloc);
    let outcome = session.render(alloc, name, given, &mut text);
    (outcome, text)
}

// The bytes of a context as a document of JSON, if there are any.
fn document_of(context: &[u8]) -> Option<Document<'_>>
    ensures { AreBytes context.now (option_to_list result) }
{
    if context.is_empty() {
        return None;
    }
    Some(Document {
        bytes: context,
        form: Form::Json,
    })
}
