//! The bytes of an answer until they are written.

ghost use Rattle.std.specs.Prelude.{◌≡◌, ◌<◌, ◌≤◌, [], Some, None, length, is_some, IfOk, IfErr, OnOk, OnErr};
ghost use Rattle.std.specs.Io.KnownBytes.{Appends, Keeps, WriteAppends};
ghost use Rattle.job_answer.specs.Bytes.{GivesPrefix};
ghost use Rattle.job_answer.specs.Outcome.{IsWritingFault};
ghost use Rattle.job_answer.specs.Sinks.{Ends, IsStill, PutsText, Stops, fault_of};

use crate::fault::Fault;
use crate::question::graphs::Graphs;
use route_walks::Memory;
use std::io::{self, ErrorKind, Write};

/// The most bytes a vertex of a text that is made before its turn. A block without walks has fewer.
const MAX_BYTES_A_VERTEX: usize = 64;

/// The bytes that are written at once.
pub const WRITE_BYTES: usize = 1 << 16;

/// The reason why no more of an answer comes.
#[derive(Clone, Copy, Debug, PartialEq, Eq)]
pub enum Stop {
    /// The system refused memory.
    Memory,
    /// The writer failed.
    Write,
}

impl From<Stop> for Fault {
    ghost from_gives = { λ stop given. given ≡ fault_of stop };

    fn from(stop: Stop) -> Fault {
        match stop {
            Stop::Memory => Fault::Memory,
            Stop::Write => Fault::Write,
        }
    }
}

/// Takes the bytes of an answer in order, and writes them in pieces. Once it has stopped, nothing more is written.
#[derive(Drop)]
pub struct Sink<'a, W> {
    pub writer: &'a mut W,
    /// The bytes that wait.
    pub waiting: &'a mut Vec<u8>,
    /// The bytes of a piece.
    pub piece: usize,
    /// The first reason why no more comes.
    pub stop: Option<Stop>,
}

impl<'a, W: Write> Sink<'a, W> {
    /// Ends bytes that were put behind those that wait, or that were refused memory: what makes a piece is written.
    pub fn end(&mut self, put: Result<(), Memory>)
        ensures { Ends W.contents put self.old self.new }
    {
        match put {
            Ok(()) if self.waiting.len() < self.piece => {}
            Ok(()) => self.send(),
            Err(_) => self.fail(Stop::Memory),
        }
    }

    /// Stops here. What waits is dropped.
    pub fn fail(&mut self, stop: Stop)
        ensures { Stops W.contents self.old self.new }
    {
        self.waiting.clear();
        if self.stop.is_none() {
            self.stop = Some(stop);
        }
    }

    /// Tells if nothing more is written.
    pub fn has_stopped(&self) -> bool
        ensures { result ≡ is_some self.now.stop }
    {
        self.stop.is_some()
    }

    fn send(&mut self)
        ensures still { IsStill self.old self.new }
        ensures put { PutsText W.contents [] self.old self.new }
        ensures none { self.new.waiting.now.items ≡ [] }
    {
        if self.stop.is_none() && write_bytes(self.writer, self.waiting).is_err() {
            self.stop = Some(Stop::Write);
        }
        self.waiting.clear();
    }

    /// Writes what waits, and then takes this text in its place.
    pub fn put_all(&mut self, text: Vec<u8>)
        ensures still { IsStill self.old self.new }
        ensures put { PutsText W.contents text.items self.old self.new }
    {
        self.send();
        *self.waiting = text;
        self.end(Ok(()));
    }

    /// Writes what waits, and flushes the writer once. The fault is the reason why the answer stopped.
    pub fn finish(&mut self) -> Result<(), Fault>
        ensures still { IsStill self.old self.new }
        ensures put { PutsText W.contents [] self.old self.new }
        ensures none { self.new.waiting.now.items ≡ [] }
        ensures whole { OnOk result (self.new.stop ≡ None) }
        ensures kinds { IfErr result IsWritingFault }
    {
        self.send();
        if self.stop.is_none() && flush(self.writer).is_err() {
            self.stop = Some(Stop::Write);
        }
        match self.stop {
            None => Ok(()),
            Some(stop) => Err(Fault::from(stop)),
        }
    }
}

/// The most bytes of a text made before its turn, so that memory doesn't grow with walks.
pub fn most_bytes(graphs: &Graphs) -> usize {
    let once = (graphs.network.n() as usize).saturating_mul(MAX_BYTES_A_VERTEX);
    match &graphs.grown {
        None => once,
        Some(_) => once.saturating_mul(2),
    }
}

/// A writer that takes nothing: a sink before it keeps its bytes, and fails once they make a piece.
#[derive(Drop)]
pub struct NoWriter;

impl Write for NoWriter {
    ghost contents = { λ _. Some [] };

    fn write(&mut self, _bytes: &[u8]) -> io::Result<usize> {
        Err(io::Error::from(ErrorKind::Other))
    }

    fn flush(&mut self) -> io::Result<()> {
        Ok(())
    }
}

/// Writes all of the bytes, and flushes once. Each error, and a write of no byte, is `Write`; a prefix was then
/// written.
pub fn write_whole<W: Write>(writer: &mut W, bytes: &[u8]) -> Result<(), Fault>
    ensures whole { OnOk result (Appends (W.contents writer.old) (W.contents writer.new) bytes.now) }
    ensures prefix { OnErr result (GivesPrefix (W.contents writer.old) (W.contents writer.new) bytes.now) }
    ensures only { IfErr result (λ fault. fault ≡ Fault.Write) }
{
    write_bytes(writer, bytes)?;
    flush(writer)
}

fn flush<W: Write>(writer: &mut W) -> Result<(), Fault>
    ensures bytes { Keeps (W.contents writer.old) (W.contents writer.new) }
    ensures only { IfErr result (λ fault. fault ≡ Fault.Write) }
{
    match writer.flush() {
        Ok(()) => Ok(()),
        Err(_) => Err(Fault::Write),
    }
}

/// Writes all of the bytes, as `write_whole`.
fn write_bytes<W: Write>(writer: &mut W, bytes: &[u8]) -> Result<(), Fault>
    ensures whole { OnOk result (Appends (W.contents writer.old) (W.contents writer.new) bytes.now) }
    ensures prefix { OnErr result (GivesPrefix (W.contents writer.old) (W.contents writer.new) bytes.now) }
    ensures only { IfErr result (λ fault. fault ≡ Fault.Write) }
{
    let mut rest = bytes;
    while !rest.is_empty() {
        let count = write_some(writer, rest)?;
        rest = rest.split_at(count).1;
    }
    Ok(())
}

fn write_some<W: Write>(writer: &mut W, bytes: &[u8]) -> Result<usize, Fault>
    ensures count { IfOk result (λ count. (0 < count) × (count ≤ length bytes.now)) }
    ensures bytes { WriteAppends (W.contents writer.old) (W.contents writer.new) result bytes.now }
    ensures only { IfErr result (λ fault. fault ≡ Fault.Write) }
{
    match writer.write(bytes) {
        Ok(0) => Err(Fault::Write),
        Ok(count) => Ok(count),
        Err(_) => Err(Fault::Write),
    }
}
