//! What holds a session for who calls from C.
ghost use Rattle.std.specs.Prelude.{◌≡◌, Option, None, Some};
ghost use Rattle.template_sessions.specs.Handles.{IsOpen, held_at, session_code};
ghost use Rattle.template_sessions.specs.declared.session.Session.{Session};

use crate::session::Session;
use std::alloc::Global;
use std::marker::Model;
use std::ptr;
use template_handles::RawBox;

/// One pointer: to a session, which it owns, or to none.
#[repr(C)]
#[derive(Drop)]
pub struct Handle {
    at: *mut u8,
    /// The session.
    pub ghost session: { Option Session } by { session_code },
}

impl Model for Handle {
    ghost also_owns = { λ handle. held_at handle.at handle.session };
}

impl Handle {
    /// A handle of no session.
    pub fn none() -> Handle
        ensures { result.session ≡ None }
    {
        Handle {
            at: ptr::null_mut(),
        }
    }

    /// The handle of a session.
    pub fn of(session: RawBox<Session, Global>) -> Handle
        ensures { result.session ≡ Some session.value }
    {
        let RawBox { at, alloc: _ } = session;
        Handle { at: at as *mut u8 }
    }

    /// The session of a handle that has one.
    pub fn into_raw(self, alloc: Global) -> RawBox<Session, Global>
        requires open { IsOpen self.session }
        ensures { self.session ≡ Some result.value }
    {
        let Handle { at } = self;
        RawBox {
            at: at as *mut Session,
            alloc,
        }
    }
}
