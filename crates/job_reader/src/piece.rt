//! A piece of a text, and what threads have read ahead in it.

ghost use Rattle.std.specs.Prelude.{◌≡◌, ◌<◌, ◌≤◌, ◌-◌, [], List, ℕ, true, false, length, IfOk, IfErr, OnOk, take};
ghost use Rattle.std.specs.Io.KnownBytes.{Consumes, IsAtEnd, ReadConsumes};
ghost use Rattle.dimacs_text.specs.Reading.{IsReadAhead, Reads};
ghost use Rattle.job_reader.specs.Taken.{TakesAtMost};

use crate::fault::ReadFault;
use dimacs_text::{JobReader, ReadAhead};
use route_walks::Memory;
use std::alloc::Global;
use std::io::Read;
use std::marker::Model;
use std::mem::replace;

#[derive(Drop)]
pub(crate) struct Piece {
    buffer: Vec<u8>,
    count: usize,
    ahead: ReadAhead,
    alloc: Global,
}

impl Model for Piece {
    ghost use Rattle.std.specs.Prelude.{◌<◌, ◌≤◌, List, ℕ, length, take};
    ghost use Rattle.dimacs_text.specs.Reading.{IsReadAhead};

    ghost Value = { List ℕ };

    ghost view = { λ p. take p.count p.buffer.items };

    ghost invariant = { λ p. (0 < length p.buffer.items) × (p.count ≤ length p.buffer.items)
        × IsReadAhead (take p.count p.buffer.items) p.ahead };
}

impl Piece {
    pub(crate) fn new(alloc: Global, room: usize) -> Result<Piece, Memory>
        requires { 0 < room }
        ensures { IfOk result (λ piece. piece ≡ []) }
    {
        Ok(Piece {
            buffer: vec![in alloc; 0; room]?,
            count: 0,
            ahead: ReadAhead::new(alloc),
            alloc,
        })
    }

    pub(crate) fn len(&self) -> usize
        ensures { result ≡ length self.now }
    {
        self.count
    }

    /// Takes the reader's next bytes, up to the limit, or to the room that there is if memory is refused. Returns true
    /// if the reader has ended.
    pub(crate) fn fill<R: Read>(&mut self, reader: &mut R, limit: usize) -> Result<bool, ReadFault>
        ensures bytes { OnOk result (Consumes
            (R.remaining reader.old) (R.remaining reader.new) self.new) }
        ensures few { length self.new ≤ limit }
        ensures end { IfOk result (λ ended. ended ≡ true → IsAtEnd (R.remaining reader.new)) }
        ensures more { IfOk result (λ ended. ended ≡ false → 0 < limit → 0 < length self.new) }
        ensures some { IfErr result (λ fault. TakesAtMost (limit - 1)
            (R.remaining reader.old) (R.remaining reader.new)) }
        ensures only { IfErr result (λ fault. fault ≡ ReadFault.Read) }
    {
        self.ahead.clear();
        self.count = 0;
        make_room(&mut self.buffer, limit);
        let room = self.buffer.len().min(limit);
        self.count = read_block(reader, &mut self.buffer, room)?;
        Ok(self.count < room)
    }

    pub(crate) fn bytes(&self) -> &[u8]
        ensures { result.now ≡ self.now }
    {
        &self.buffer[..self.count]
    }

    pub(crate) fn take_ahead(&mut self) -> ReadAhead
        ensures ahead { IsReadAhead self.old result }
        ensures same { self.new ≡ self.old }
    {
        replace(&mut self.ahead, ReadAhead::new(self.alloc))
    }

    pub(crate) fn put_ahead(&mut self, ahead: ReadAhead)
        requires { IsReadAhead self.old ahead }
        ensures { self.new ≡ self.old }
    {
        self.ahead = ahead;
    }

    pub(crate) fn feed_to(&self, job: &mut JobReader) -> Result<(), Memory>
        ensures { OnOk result (Reads job.old job.new self.now) }
    {
        job.feed_with(&self.buffer[..self.count], &self.ahead)
    }
}

/// Makes a buffer as long as the limit. If memory is refused it stays as it was.
fn make_room(buffer: &mut Vec<u8>, limit: usize)
    ensures { length buffer.old.items ≤ length buffer.new.items }
{
    if buffer.len() < limit {
        let _ = buffer.resize(limit, 0);
    }
}

/// Reads `room` bytes into a buffer, or fewer if the reader ends, and returns their number.
fn read_block<R: Read>(reader: &mut R, buffer: &mut [u8], room: usize) -> Result<usize, ReadFault>
    requires { room ≤ length buffer.old }
    ensures count { IfOk result (λ count. count ≤ room) }
    ensures bytes { IfOk result (λ count. Consumes
        (R.remaining reader.old) (R.remaining reader.new) (take count buffer.new)) }
    ensures end { IfOk result (λ count. count < room → IsAtEnd (R.remaining reader.new)) }
    ensures some { IfErr result (λ fault. TakesAtMost (room - 1)
        (R.remaining reader.old) (R.remaining reader.new)) }
    ensures only { IfErr result (λ fault. fault ≡ ReadFault.Read) }
{
    let mut filled = 0;
    while filled < room {
        let count = read_some(reader, &mut buffer[filled..room])?;
        if count == 0 {
            break;
        }
        filled += count;
    }
    Ok(filled)
}

fn read_some<R: Read>(reader: &mut R, buffer: &mut [u8]) -> Result<usize, ReadFault>
    ensures count { IfOk result (λ count. count ≤ length buffer.new) }
    ensures bytes { ReadConsumes
        (R.remaining reader.old) (R.remaining reader.new) result buffer.new }
    ensures only { IfErr result (λ fault. fault ≡ ReadFault.Read) }
{
    match reader.read(buffer) {
        Ok(count) => Ok(count),
        Err(_) => Err(ReadFault::Read),
    }
}
