//! Chunks of vertices, which a worker fills and shares whole.

ghost use Rattle.std.specs.Prelude.{◌≡◌, ◌≢◌, ◌≤◌, ◌<◌, ◌++◌, ◌∷◌, [], length};
ghost use Rattle.std.specs.Prelude.{IfNone, IfSome, OnErr, OnOk};
ghost use Rattle.std.specs.Bool.{OnFalse, OnTrue};
ghost use Rattle.obim_bags.specs.Chunks.{with_vertices};

use arrayvec::ArrayVec;
use std::error::Error;
use std::fmt;
use std::marker::Model;

/// The most vertices of a chunk.
pub const MAX_SIZE: usize = 256;

/// The worker that opened a chunk, and its number among that worker's, from 0.
#[derive(Clone, Copy, Debug, PartialEq, Eq)]
pub struct ChunkId {
    pub worker: u32,
    pub serial: u64,
}

/// A named stack of at most `size` vertices. It lies in one piece of some 1,050 bytes and never takes memory.
#[derive(Debug, Drop)]
pub struct Chunk {
    id: ChunkId,
    size: usize,
    vertices: ArrayVec<u32, MAX_SIZE>,
}

impl Model for Chunk {
    ghost use Rattle.std.specs.Prelude.{◌≡◌, ◌≤◌, length};
    ghost use Rattle.obim_bags.specs.declared.chunk.TheConstants.{MAX_SIZE};
    ghost use Rattle.obim_bags.specs.Chunks.{ChunkSeen};

    ghost Value = { ChunkSeen };

    ghost view = { λ c. record { id = c.id; size = c.size; vertices = c.vertices.items } };

    ghost invariant = { λ c. (1 ≤ c.size) × (c.size ≤ MAX_SIZE) × (length c.vertices.items ≤ c.size) };
}

/// The chunk has as many vertices as its size.
#[derive(Clone, Copy, Debug, PartialEq, Eq)]
pub struct Full;

impl fmt::Display for Full {
    fn fmt<W: fmt::Write>(&self, f: &mut fmt::Formatter<W>) -> fmt::Result {
        f.write_str("chunk is full")
    }
}

impl Error for Full {}

impl Chunk {
    /// An empty chunk for `size` vertices, 1 to 256.
    pub fn new(id: ChunkId, size: usize) -> Chunk
        requires { (1 ≤ size) × (size ≤ MAX_SIZE) }
        ensures { result ≡ record { id = id; size = size; vertices = [] } }
    {
        Chunk {
            id,
            size,
            vertices: ArrayVec::new(),
        }
    }

    /// Makes it a new chunk in the same room, empty, with this name and a size of 1 to 256.
    pub fn renew(&mut self, id: ChunkId, size: usize)
        requires { (1 ≤ size) × (size ≤ MAX_SIZE) }
        ensures { self.new ≡ record { id = id; size = size; vertices = [] } }
    {
        self.id = id;
        self.size = size;
        self.vertices.clear();
    }

    /// The name that it was opened with.
    pub fn id(&self) -> ChunkId
        ensures { result ≡ self.now.id }
    {
        self.id
    }

    /// The number of its vertices.
    pub fn len(&self) -> usize
        ensures { result ≡ length self.now.vertices }
    {
        self.vertices.len()
    }

    /// Puts `v` last; `Full` at the chunk's size.
    pub fn push(&mut self, v: u32) -> Result<(), Full>
        ensures last { OnOk result (self.new ≡ with_vertices (self.old.vertices ++ v ∷ []) self.old) }
        ensures full { OnErr result (length self.old.vertices ≡ self.old.size) }
        ensures unchanged { OnErr result (self.new ≡ self.old) }
    {
        if self.len() == self.size {
            return Err(Full);
        }
        self.vertices.push(v);
        Ok(())
    }

    /// Puts `v` last, unless the chunk would then be full. Returns true if it did.
    #[inline(always)]
    pub fn push_unless_last(&mut self, v: u32) -> bool
        ensures pushed { OnTrue result (self.new ≡ with_vertices (self.old.vertices ++ v ∷ []) self.old) }
        ensures unchanged { OnFalse result (self.new ≡ self.old) }
    {
        let is_last = self.len() + 1 >= self.size;
        if !is_last {
            self.vertices.push(v);
        }
        !is_last
    }

    /// Takes the last vertex; `None` if the chunk is empty.
    pub fn pop(&mut self) -> Option<u32>
        ensures last { IfSome result (λ v. self.old ≡ with_vertices (self.new.vertices ++ v ∷ []) self.new) }
        ensures empty { IfNone result (self.old.vertices ≡ []) }
        ensures unchanged { IfNone result (self.new ≡ self.old) }
    {
        self.vertices.pop()
    }

    /// The vertex that the `by`th pop from now on takes, if none is pushed before: a hint for prefetching.
    #[inline(always)]
    pub fn ahead(&self, by: usize) -> Option<u32> {
        let place = self.len().checked_sub(by)?;
        self.vertices.get(place).copied()
    }
}
