//! Opens chunks by name, in used boxes if there are some.

ghost use Rattle.std.specs.Prelude.{◌≡◌, ◌≤◌, [], IfSome};
ghost use Rattle.obim_bags.specs.declared.chunk.TheConstants.{MAX_SIZE};
ghost use Rattle.obim_pool.specs.declared.chunk_maker.TheConstants.{MAX_SERIAL};

use obim_bags::{Chunk, ChunkId, MAX_SIZE};
use std::alloc::Global;

/// The most chunks of a side.
const MAX_SERIAL: u64 = 1 << 62;

/// Opens the chunks of one worker, and keeps the box of one chunk that ran empty for the next.
#[derive(Drop)]
pub(crate) struct ChunkMaker {
    alloc: Global,
    size: usize,
    next: ChunkId,
    spare: Option<Box<Chunk>>,
    ghost size_is: { (1 ≤ size) × (size ≤ MAX_SIZE) },
    ghost serial_is: { next.serial ≤ MAX_SERIAL },
}

impl ChunkMaker {
    pub(crate) fn new(alloc: Global, worker: u32, size: usize) -> ChunkMaker
        requires { (1 ≤ size) × (size ≤ MAX_SIZE) }
    {
        ChunkMaker {
            alloc,
            size,
            next: ChunkId { worker, serial: 0 },
            spare: None,
        }
    }

    #[inline(always)]
    pub(crate) fn size(&self) -> usize {
        self.size
    }

    pub(crate) fn opened(&self) -> u64 {
        self.next.serial
    }

    /// An empty chunk with the next serial. `None` if memory is refused or serials ran out.
    pub(crate) fn open(&mut self) -> Option<Box<Chunk>>
        ensures { IfSome result (λ chunk. chunk.value.vertices ≡ []) }
    {
        if self.next.serial == MAX_SERIAL {
            return None;
        }
        let chunk = match self.spare.take() {
            Some(mut chunk) => {
                chunk.renew(self.next, self.size);
                chunk
            }
            None => Box::new(self.alloc, Chunk::new(self.next, self.size)).ok()?,
        };
        self.next.serial += 1;
        Some(chunk)
    }

    /// Keeps the box of a chunk for the next, unless there is one already.
    pub(crate) fn take_back(&mut self, chunk: Box<Chunk>) {
        if self.spare.is_none() {
            self.spare = Some(chunk);
        }
    }
}
