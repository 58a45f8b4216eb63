//! The two chunks that a side has of a bag.

ghost use Rattle.std.specs.Prelude.{◌≡◌, [], ◌∷◌, IfNone, IfSome};
ghost use Rattle.std.specs.Bool.{OnFalse, OnTrue};
ghost use Rattle.obim_pool.specs.Accounts.{AreSame};
ghost use Rattle.obim_pool.specs.Held.{held_of, vertices_in};

use crate::chunk_maker::ChunkMaker;
use obim_bags::Chunk;

/// The chunk that pushes fill and the one that pops drain, each perhaps absent.
#[derive(Drop)]
pub(crate) struct BagChunks {
    pub filling: Option<Box<Chunk>>,
    pub draining: Option<Box<Chunk>>,
    /// The chunks put into the bag since it was found empty, less those got. A hint, since other sides put and get too.
    pub waiting: u32,
}

impl BagChunks {
    pub(crate) fn absent() -> BagChunks
        ensures { held_of result ≡ [] }
    {
        BagChunks {
            filling: None,
            draining: None,
            waiting: 0,
        }
    }

    #[inline(always)]
    pub(crate) fn are_absent(&self) -> bool
        ensures { OnTrue result (held_of self.now ≡ []) }
    {
        self.filling.is_none() && self.draining.is_none()
    }

    /// Puts `v` into the filling chunk. Returns false if that is absent or full.
    #[inline(always)]
    pub(crate) fn add(&mut self, v: u32) -> bool
        ensures added { OnTrue result (AreSame (held_of self.new) (v ∷ held_of self.old)) }
        ensures unchanged { OnFalse result (held_of self.new ≡ held_of self.old) }
    {
        match &mut self.filling {
            Some(chunk) => chunk.push(v).is_ok(),
            None => false,
        }
    }

    /// Puts `v` into the filling chunk, unless that is absent or would then be full.
    #[inline(always)]
    pub(crate) fn add_unless_last(&mut self, v: u32) -> bool
        ensures added { OnTrue result (AreSame (held_of self.new) (v ∷ held_of self.old)) }
        ensures unchanged { OnFalse result (held_of self.new ≡ held_of self.old) }
    {
        match &mut self.filling {
            Some(chunk) => chunk.push_unless_last(v),
            None => false,
        }
    }

    pub(crate) fn has_room(&self, size: usize) -> bool {
        match &self.filling {
            Some(chunk) => chunk.len() < size,
            None => false,
        }
    }

    #[inline(always)]
    pub(crate) fn filled(&self) -> usize {
        match &self.filling {
            Some(chunk) => chunk.len(),
            None => 0,
        }
    }

    /// Takes the last vertex of the draining chunk. An emptied chunk's box goes to the maker.
    #[inline(always)]
    pub(crate) fn take_last(&mut self, maker: &mut ChunkMaker) -> Option<u32>
        ensures taken { IfSome result (λ v. AreSame (v ∷ held_of self.new) (held_of self.old)) }
        ensures unchanged { IfNone result (held_of self.new ≡ held_of self.old) }
        ensures empty { IfNone result (vertices_in self.new.draining ≡ []) }
        ensures filling { self.new.filling ≡ self.old.filling }
    {
        let Some(chunk) = &mut self.draining else {
            return None;
        };
        let last = chunk.pop();
        if chunk.len() == 0 {
            self.recycle(maker);
        }
        last
    }

    /// Does as `take_last`, or takes the only vertex of the filling chunk if no chunk waits, as where one vertex
    /// follows another.
    #[inline(always)]
    pub(crate) fn take_near(&mut self, maker: &mut ChunkMaker) -> Option<u32>
        ensures taken { IfSome result (λ v. AreSame (v ∷ held_of self.new) (held_of self.old)) }
        ensures unchanged { IfNone result (held_of self.new ≡ held_of self.old) }
    {
        match self.take_last(maker) {
            Some(v) => Some(v),
            None => self.take_only(),
        }
    }

    /// Takes the only vertex of the filling chunk, if no chunk waits in the bag.
    #[inline(always)]
    fn take_only(&mut self) -> Option<u32>
        requires { vertices_in self.old.draining ≡ [] }
        ensures taken { IfSome result (λ v. AreSame (v ∷ held_of self.new) (held_of self.old)) }
        ensures unchanged { IfNone result (held_of self.new ≡ held_of self.old) }
    {
        if self.waiting > 0 {
            return None;
        }
        match &mut self.filling {
            Some(chunk) if chunk.len() == 1 => chunk.pop(),
            _ => None,
        }
    }

    /// The vertex that the `by`th `take_last` from now on takes: a hint.
    #[inline(always)]
    pub(crate) fn ahead(&self, by: usize) -> Option<u32> {
        match &self.draining {
            Some(chunk) => chunk.ahead(by),
            None => None,
        }
    }

    /// Gives the box of the empty draining chunk to the maker.
    #[inline(never)]
    fn recycle(&mut self, maker: &mut ChunkMaker)
        requires { vertices_in self.old.draining ≡ [] }
        ensures filling { self.new.filling ≡ self.old.filling }
        ensures draining { vertices_in self.new.draining ≡ [] }
    {
        if let Some(chunk) = self.draining.take() {
            maker.take_back(chunk);
        }
    }

    /// Drains this chunk, which was got from the bag.
    pub(crate) fn drain(&mut self, maker: &mut ChunkMaker, chunk: Box<Chunk>)
        requires { vertices_in self.old.draining ≡ [] }
        ensures filling { self.new.filling ≡ self.old.filling }
        ensures draining { self.new.draining ≡ Some chunk }
    {
        self.recycle(maker);
        self.draining = Some(chunk);
        self.waiting = self.waiting.saturating_sub(1);
    }

    /// Drains the filling chunk, if there is one. The bag was found empty before.
    pub(crate) fn drain_filling(&mut self, maker: &mut ChunkMaker)
        requires { vertices_in self.old.draining ≡ [] }
        ensures same { AreSame (held_of self.new) (held_of self.old) }
        ensures filling { self.new.filling ≡ None }
    {
        if let Some(chunk) = self.filling.take() {
            self.drain(maker, chunk);
        }
        self.waiting = 0;
    }
}
