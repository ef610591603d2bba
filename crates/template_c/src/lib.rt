//! The engine as functions that can be called from C. The header `include/dalecolander.h` says how.
#![tactic(auto)]

ghost use Rattle.std.specs.Prelude.{◌≡◌, None};
ghost use Rattle.template_c.specs.Exports.{OpensAt, RendersAt, Writes};
ghost use Rattle.template_program_parts.specs.declared.command.Command.TheVariants.{Names, Render};
ghost use Rattle.template_sessions.specs.Handles.{IsOpen};

mod writing;

use crate::writing::write_reply;
use std::alloc::Global;
use std::mem;
use template_handles::RawBox;
use template_replies::{Command, reply_to};
use template_sessions::{Handle, open, reply_in};

/// Renders the main template of a request over its context. The request is one JSON object; `out` takes a beginning of the
/// reply, and `written` the length of the whole.
///
/// Gives the status.
#[unsafe(no_mangle)]
pub extern "C" fn dalecolander_render(
    alloc: Global,
    request: &[u8],
    out: &mut [u8],
    written: &mut usize,
) -> u8
    ensures replies { Writes Render request.now out.old out.new written.new result }
{
    write_reply(&reply_to(alloc, Command::Render, request), out, written)
}

/// Tells the names of a context that can matter to the main template of a request, as a JSON list and a newline. All else is as
/// for [`dalecolander_render`].
#[unsafe(no_mangle)]
pub extern "C" fn dalecolander_names(
    alloc: Global,
    request: &[u8],
    out: &mut [u8],
    written: &mut usize,
) -> u8
    ensures replies { Writes Names request.now out.old out.new written.new result }
{
    write_reply(&reply_to(alloc, Command::Names, request), out, written)
}

/// Opens a session with the templates and the settings of a request, at a handle that has none. Where that is refused the
/// handle has none afterwards either, `out` takes a beginning of the reply, and `written` the length of the whole.
///
/// Gives the status.
#[unsafe(no_mangle)]
pub extern "C" fn dalecolander_open(
    alloc: Global,
    request: &[u8],
    handle: &mut Handle,
    out: &mut [u8],
    written: &mut usize,
) -> u8
    requires closed { handle.old.session ≡ None }
    ensures opens { OpensAt request.now handle.new.session out.old out.new written.new result }
{
    match open(alloc, request) {
        Ok(session) => {
            *handle = Handle::of(RawBox::of(session));
            *written = 0;
            0
        }
        Err(reply) => write_reply(&reply, out, written),
    }
}

/// Renders the template of a name in the session of a handle over a context, which is a JSON object; of no bytes there is no
/// context. `out` takes a beginning of the reply, and `written` the length of the whole.
///
/// Gives the status.
#[unsafe(no_mangle)]
pub extern "C" fn dalecolander_render_in(
    alloc: Global,
    handle: &mut Handle,
    name: &[u8],
    context: &[u8],
    out: &mut [u8],
    written: &mut usize,
) -> u8
    requires open { IsOpen handle.old.session }
    ensures renders { RendersAt handle.old.session name.now context.now handle.new.session out.old out.new written.new result }
{
    let mut session = mem::replace(handle, Handle::none())
        .into_raw(alloc)
        .into_box();
    let reply = reply_in(alloc, &mut session, name, context);
    *handle = Handle::of(RawBox::of(session));
    write_reply(&reply, out, written)
}

/// Gives up the session of a handle, which has none afterwards.
#[unsafe(no_mangle)]
pub extern "C" fn dalecolander_close(alloc: Global, handle: &mut Handle)
    requires open { IsOpen handle.old.session }
    ensures closed { handle.new.session ≡ None }
{
    let _session = mem::replace(handle, Handle::none())
        .into_raw(alloc)
        .into_box();
}
