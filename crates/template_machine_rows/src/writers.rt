//! Writers that take a few bytes a call, and fail.
ghost use Rattle.std.specs.Prelude.{◌≤◌, Some, length};
ghost use Rattle.std.specs.Io.{WritesAtMost};
ghost use Rattle.std.specs.Io.KnownBytes.{Keeps, WriteAppends};

use crate::report::Report;
use std::alloc::Global;
use std::io::{self, Write};
use template_values_core::Value;
use template_values_errors::ErrorKind;

/// How a writer takes bytes.
#[derive(Clone, Copy)]
pub(crate) struct Taking {
    /// How many bytes it takes; all, where it is not said.
    room: Option<usize>,
    /// How many a call takes at most; all, where it is not said.
    takes: Option<usize>,
    /// Which call takes nothing, the first one 1.
    stops: Option<usize>,
    /// Which call fails, as interrupted.
    fails: Option<usize>,
}

impl Taking {
    /// What is said of a writer: how many bytes it takes, a number; or a map of `room`, `takes`, `stops` and `fails`, each a number
    /// that may be left out. Nothing, and the writer takes all.
    pub(crate) fn of(said: Option<&Value>, out: &mut Report) -> Taking {
        let mut taking = Taking {
            room: None,
            takes: None,
            stops: None,
            fails: None,
        };
        let Some(said) = said else {
            return taking;
        };
        if let Some(room) = said.as_int() {
            taking.room = count_in(room, out);
            return taking;
        }
        for entry in said.entries().unwrap_or(&[]) {
            let count = count_in(entry.value.as_int().unwrap_or(-1), out);
            match entry.key.as_str() {
                Some("room") => taking.room = count,
                Some("takes") => taking.takes = count,
                Some("stops") => taking.stops = count,
                Some("fails") => taking.fails = count,
                _ => out.refuse(ErrorKind::SyntaxError),
            }
        }
        taking
    }

    // How many bytes of a piece the call of a number takes, where so many were taken before.
    fn count(&self, call: usize, before: usize, piece: &[u8]) -> usize
        ensures { result ≤ length piece.now }
    {
        if self.stops == Some(call) {
            return 0;
        }
        let left = self.room.unwrap_or(usize::MAX).saturating_sub(before);
        piece.len().min(left).min(self.takes.unwrap_or(usize::MAX))
    }
}

fn count_in(said: i128, out: &mut Report) -> Option<usize> {
    match usize::try_from(said) {
        Ok(count) => Some(count),
        Err(_) => {
            out.refuse(ErrorKind::SyntaxError);
            None
        }
    }
}

/// A writer that keeps what it took.
#[derive(Drop)]
pub(crate) struct Taker {
    /// What it took.
    pub(crate) bytes: Vec<u8>,
    taking: Taking,
    calls: usize,
}

impl Taker {
    /// A writer that took nothing yet.
    pub(crate) fn new(alloc: Global, taking: Taking) -> Taker {
        Taker {
            bytes: Vec::new(alloc),
            taking,
            calls: 0,
        }
    }
}

impl Write for Taker {
    ghost contents = { λ it. Some it.bytes.items };

    fn write(&mut self, buf: &[u8]) -> io::Result<usize>
        ensures bound { WritesAtMost result buf.now }
        ensures bytes { WriteAppends (Some self.old.bytes.items) (Some self.new.bytes.items) result buf.now }
    {
        self.calls = self.calls.saturating_add(1);
        if self.taking.fails == Some(self.calls) {
            return Err(io::Error::from(io::ErrorKind::Interrupted));
        }
        let count = self.taking.count(self.calls, self.bytes.len(), buf);
        self.bytes.extend_from_slice(&buf[..count])?;
        Ok(count)
    }

    fn flush(&mut self) -> io::Result<()>
        ensures bytes { Keeps (Some self.old.bytes.items) (Some self.new.bytes.items) }
    {
        Ok(())
    }
}
