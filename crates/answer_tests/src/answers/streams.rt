//! A reader and a writer that fail, or give and take little at a time.

ghost use Rattle.std.specs.Prelude.{◌<◌, Some};

use std::alloc::Global;
use std::io::{self, ErrorKind, Read, Write};

/// Gives at most `first` bytes by the first read and `step` by each other, and then fails or ends.
#[derive(Drop)]
pub(crate) struct Source<'a> {
    rest: &'a [u8],
    first: usize,
    step: usize,
    fails: bool,
    ghost first_some: { 0 < first },
    ghost some: { 0 < step },
}

impl<'a> Source<'a> {
    pub fn new(bytes: &'a [u8], first: usize, step: usize) -> Source<'a> {
        Source {
            rest: bytes,
            first: first.max(1),
            step: step.max(1),
            fails: false,
        }
    }

    /// A reader that fails if no bytes are left.
    pub fn failing(bytes: &'a [u8], step: usize) -> Source<'a> {
        let mut source = Source::new(bytes, step, step);
        source.fails = true;
        source
    }
}

impl Read for Source<'_> {
    ghost remaining = { λ s. Some s.rest.now };

    fn read(&mut self, buffer: &mut [u8]) -> io::Result<usize> {
        if self.rest.is_empty() && self.fails {
            return Err(io::Error::from(ErrorKind::Other));
        }
        let count = self.first.min(self.rest.len()).min(buffer.len());
        let (given, rest) = self.rest.split_at(count);
        buffer[..count].copy_from_slice(given);
        self.rest = rest;
        self.first = self.step;
        Ok(count)
    }
}

/// Takes at most `step` bytes a write, and after `room` of them fails or takes none. Counts flushes, which fail if
/// `flush_fails` is set.
#[derive(Drop)]
pub(crate) struct Sink {
    pub taken: Vec<u8>,
    pub flushes: u32,
    step: usize,
    room: usize,
    fails: bool,
    flush_fails: bool,
}

impl Sink {
    pub fn new(alloc: Global, step: usize) -> Sink {
        Sink {
            taken: Vec::new(alloc),
            flushes: 0,
            step,
            room: usize::MAX,
            fails: false,
            flush_fails: false,
        }
    }

    /// A writer with room for this many bytes.
    pub fn with_room(alloc: Global, step: usize, room: usize, fails: bool) -> Sink {
        let mut sink = Sink::new(alloc, step);
        sink.room = room;
        sink.fails = fails;
        sink
    }

    /// A writer whose flushes fail.
    pub fn never_flushed(alloc: Global, step: usize) -> Sink {
        let mut sink = Sink::new(alloc, step);
        sink.flush_fails = true;
        sink
    }
}

impl Write for Sink {
    ghost contents = { λ w. Some w.taken.items };

    fn write(&mut self, bytes: &[u8]) -> io::Result<usize> {
        let left = self.room.saturating_sub(self.taken.len());
        let count = self.step.min(left).min(bytes.len());
        if count == 0 && self.fails {
            return Err(io::Error::from(ErrorKind::Other));
        }
        self.taken.extend_from_slice(&bytes[..count])?;
        Ok(count)
    }

    fn flush(&mut self) -> io::Result<()> {
        self.flushes = self.flushes.saturating_add(1);
        if self.flush_fails {
            return Err(io::Error::from(ErrorKind::Other));
        }
        Ok(())
    }
}
