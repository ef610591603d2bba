//! The reply to a request.
ghost use Rattle.std.specs.Prelude.{◌≡◌, IsOkAnd, string_bytes};
ghost use Rattle.json.specs.Tree.{HasNumbers};
ghost use Rattle.json.specs.Value.{value_view};
ghost use Rattle.template_replies.specs.Replies.{IsBare, IsTold, RepliesToFault, RepliesToJson, RepliesToMessage, Replies, TellsRefusal};

use crate::running::run_message;
use json::{Scratch, Value as Json};
use std::alloc::{AllocError, Global};
use template_program_parts::{MEMORY, WORDS};
use template_program_run::Command;
use template_requests::{
    Message, MessageFault, failure_text, malformed_text, message_in, syntax_of, tree_of,
};
use template_values_errors::{Error, ErrorKind};

/// The reply to a request.
#[derive(Debug, Drop)]
pub struct Reply {
    /// The status, as the program ends with it: 0 where all is written, 1 for a fault of the render, 2 for a request that is
    /// malformed or a syntax that is refused, 4 for the context, 5 for a template that is refused or a main one that does not
    /// stand, and 6 where memory was refused.
    pub status: u8,
    /// At status 0 what is asked for: the text of the main template, or the names that can matter to it as a JSON list and a
    /// newline. Else one JSON object with the kinds of the error, outermost first, its places, and the text that was written before
    /// it; of a malformed request also the member that is malformed. Nothing, where no memory is left for that.
    pub text: String,
}

/// The reply to a request, which is one JSON object: the text of its main template, or the names that can matter to it.
pub fn reply_to(alloc: Global, command: Command, request: &[u8]) -> Reply
    ensures { Replies command request.now result.status (string_bytes result.text) }
{
    let mut scratch = Scratch::new(alloc);
    match tree_of(alloc, request, &mut scratch) {
        Ok(tree) => reply_to_json(alloc, command, &tree),
        Err(fault) => reply_to_fault(alloc, fault),
    }
}

// The reply to the JSON of a request.
fn reply_to_json(alloc: Global, command: Command, tree: &Json<'_>) -> Reply
    requires numbers { HasNumbers (value_view tree.now) }
    ensures { RepliesToJson command (value_view tree.now) result.status (string_bytes result.text) }
{
    match message_in(alloc, tree) {
        Ok(message) => reply_to_message(alloc, command, message),
        Err(fault) => reply_to_fault(alloc, fault),
    }
}

// The reply to a request that is well formed.
fn reply_to_message(alloc: Global, command: Command, message: Message<'_>) -> Reply
    ensures { RepliesToMessage command message.entry result.status (string_bytes result.text) }
{
    match syntax_of(alloc, message.settings.syntax) {
        Ok(syntax) => run_message(alloc, command, message, syntax.as_ref()),
        Err(error) => refusal(alloc, &error),
    }
}

/// The reply to a request that is refused before it is run.
pub fn reply_to_fault(alloc: Global, fault: MessageFault) -> Reply
    ensures { RepliesToFault fault result.status (string_bytes result.text) }
{
    match fault {
        MessageFault::Malformed(member) => told(alloc, WORDS, malformed_text(alloc, member)),
        MessageFault::Memory => bare(alloc),
    }
}

/// The reply to a syntax that is refused.
pub fn refusal(alloc: Global, error: &Error) -> Reply
    ensures { TellsRefusal error.now result.status (string_bytes result.text) }
{
    match error.kind() {
        ErrorKind::OutOfMemory => bare(alloc),
        _ => told(alloc, WORDS, failure_text(alloc, error, String::new(alloc))),
    }
}

/// The reply of a status with what is told, if there was memory for that.
pub(crate) fn told(alloc: Global, status: u8, told: Result<String, AllocError>) -> Reply
    ensures { IsTold (λ text. IsOkAnd told (λ given. text ≡ string_bytes given)) status result.status (string_bytes result.text) }
{
    match told {
        Ok(text) => Reply { status, text },
        Err(_refused) => bare(alloc),
    }
}

/// The reply where no memory is left for any.
pub fn bare(alloc: Global) -> Reply
    ensures { IsBare result.status (string_bytes result.text) }
{
    Reply {
        status: MEMORY,
        text: String::new(alloc),
    }
}
