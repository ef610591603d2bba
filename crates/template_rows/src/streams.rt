//! Inputs and outputs that fail.
ghost use Rattle.std.specs.Prelude.{◌≡◌, ◌⊎◌, ◌-◌, [], None, Some, IfErr, IfOk, OnErr, OnOk, min, length};
ghost use Rattle.std.specs.Io.{WritesAtMost, ReadsAtMost};
ghost use Rattle.std.specs.IoError.{error_kind};
ghost use Rattle.std.specs.Io.KnownBytes.{Keeps, ReadConsumes, WriteAppends};
ghost use Rattle.std.specs.declared.io.ErrorKind.{ErrorKind as Failure};

use std::alloc::{AllocError, Global};
use std::io::{self, Read, Write};

/// How many bytes stand ready for what is written or told.
pub const READY: usize = 4096;

// How many bytes a call moves at most.
const PIECE: usize = 3;

/// Gives its bytes, three in a call at most, then fails once by a kind, where there is one, and ends.
#[derive(Drop)]
pub struct Input<'bytes> {
    /// The bytes that are left.
    pub bytes: &'bytes [u8],
    /// How it fails behind them.
    pub fails: Option<io::ErrorKind>,
}

impl Read for Input<'_> {
    ghost remaining = { λ it. Some it.bytes.now };

    fn read(&mut self, buf: &mut [u8]) -> io::Result<usize>
        ensures bound { ReadsAtMost result buf.new }
        ensures bytes { ReadConsumes (Some self.old.bytes.now) (Some self.new.bytes.now) result buf.new }
        ensures pieces { IfOk result (λ n. n ≡ min (min (length buf.old) 3) (length self.old.bytes.now)) }
        ensures fails { IfErr result (λ e. (self.old.bytes.now ≡ []) × (self.old.fails ≡ Some (error_kind e))) }
        ensures once { IfErr result (λ _. self.new.fails ≡ None) }
        ensures kept { OnOk result (self.new.fails ≡ self.old.fails) }
        ensures ends { OnOk result (self.old.bytes.now ≡ [] → self.old.fails ≡ None) }
    {
        if self.bytes.is_empty() {
            return match self.fails.take() {
                Some(kind) => Err(io::Error::from(kind)),
                None => Ok(0),
            };
        }
        let most = buf.len().min(PIECE);
        self.bytes.read(&mut buf[..most])
    }
}

/// Takes the bytes that it has room for, three in a call at most, and then none, or fails by a kind; and it fails when
/// it is flushed where there is one for that.
#[derive(Drop)]
pub struct Output {
    /// What it took.
    pub bytes: Vec<u8>,
    /// How many bytes more it takes.
    pub room: usize,
    /// How it fails where it has no room.
    pub write_fails: Option<io::ErrorKind>,
    /// How it fails when it is flushed.
    pub flush_fails: Option<io::ErrorKind>,
}

impl Output {
    /// An output that took nothing yet, and does not fail.
    pub fn new(alloc: Global, room: usize) -> Result<Output, AllocError>
        ensures empty { IfOk result (λ it. it.bytes.items ≡ []) }
        ensures room { IfOk result (λ it. it.room ≡ room) }
        ensures writes { IfOk result (λ it. it.write_fails ≡ None) }
        ensures flushes { IfOk result (λ it. it.flush_fails ≡ None) }
    {
        Ok(Output {
            bytes: Vec::with_capacity(alloc, READY)?,
            room,
            write_fails: None,
            flush_fails: None,
        })
    }
}

impl Write for Output {
    ghost contents = { λ it. Some it.bytes.items };

    fn write(&mut self, buf: &[u8]) -> io::Result<usize>
        ensures bound { WritesAtMost result buf.now }
        ensures bytes { WriteAppends (Some self.old.bytes.items) (Some self.new.bytes.items) result buf.now }
        ensures pieces { IfOk result (λ n. n ≡ min (min (length buf.now) self.old.room) 3) }
        ensures room { IfOk result (λ n. self.new.room ≡ self.old.room - n) }
        ensures fails { IfErr result (λ e. ((self.old.room ≡ 0) × (self.old.write_fails ≡ Some (error_kind e)))
            ⊎ (error_kind e ≡ Failure.OutOfMemory)) }
        ensures full { OnOk result (self.old.room ≡ 0 → self.old.write_fails ≡ None) }
        ensures left { OnErr result (self.new.room ≡ self.old.room) }
        ensures same { (self.new.write_fails ≡ self.old.write_fails) × (self.new.flush_fails ≡ self.old.flush_fails) }
    {
        if let (0, Some(kind)) = (self.room, self.write_fails) {
            return Err(io::Error::from(kind));
        }
        let count = buf.len().min(self.room).min(PIECE);
        self.bytes.extend_from_slice(&buf[..count])?;
        self.room = self.room.saturating_sub(count);
        Ok(count)
    }

    fn flush(&mut self) -> io::Result<()>
        ensures bytes { Keeps (Some self.old.bytes.items) (Some self.new.bytes.items) }
        ensures ok { OnOk result (self.old.flush_fails ≡ None) }
        ensures fails { IfErr result (λ e. self.old.flush_fails ≡ Some (error_kind e)) }
        ensures unchanged { self.new ≡ self.old }
    {
        match self.flush_fails {
            None => Ok(()),
            Some(kind) => Err(io::Error::from(kind)),
        }
    }
}
