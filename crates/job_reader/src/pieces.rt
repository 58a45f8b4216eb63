//! The pieces of a text that are at work, and the threads that read them.

ghost use Rattle.std.specs.Prelude.{◌≡◌, [], IfOk};

use crate::piece::Piece;
use crate::readers::{PIECE_BYTES, Readers};
use route_walks::Memory;
use std::alloc::Global;
use std::mem::swap;

#[derive(Drop)]
pub(crate) struct Pieces {
    /// The piece that is fed next.
    pub front: Piece,
    /// The one after it, in which threads read ahead.
    pub back: Piece,
    /// The one that bytes are read into.
    pub spare: Piece,
    pub readers: Readers,
}

impl Pieces {
    pub(crate) fn new(alloc: Global, threads: usize) -> Result<Pieces, Memory>
        ensures front { IfOk result (λ pieces. pieces.front ≡ []) }
        ensures back { IfOk result (λ pieces. pieces.back ≡ []) }
    {
        Ok(Pieces {
            front: Piece::new(alloc, PIECE_BYTES)?,
            back: Piece::new(alloc, PIECE_BYTES)?,
            spare: Piece::new(alloc, PIECE_BYTES)?,
            readers: Readers::new(threads),
        })
    }

    /// Makes the spare piece the last, after the front one was fed.
    pub(crate) fn turn(&mut self)
        ensures front { self.new.front ≡ self.old.back }
        ensures back { self.new.back ≡ self.old.spare }
    {
        swap(&mut self.front, &mut self.back);
        swap(&mut self.back, &mut self.spare);
    }
}
