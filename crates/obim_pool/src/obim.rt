//! A pool of bags, drawn from by rising metric.

ghost use Rattle.std.specs.Prelude.{◌≡◌, ◌≢◌, ◌≤◌, [], replicate, All};
ghost use Rattle.std.specs.Prelude.{IfNone, IfOk, IfSome, OnOk};
ghost use Rattle.std.specs.Bool.{OnFalse, OnTrue};
ghost use Rattle.obim_bags.specs.declared.chunk.TheConstants.{MAX_SIZE};
ghost use Rattle.obim_bags.specs.Logs.{IsLogSettled};
ghost use Rattle.obim_pool.specs.Sides.{IsSideOf, Keeps, PushesTo, PushesNone, Pops, PopsNone, HasLowered};
ghost use Rattle.obim_pool.specs.Sides.{HasLookedBelow};
ghost use Rattle.obim_pool.specs.Sides.{mirrors_of, new_side};

use crate::chunk_maker::ChunkMaker;
use crate::pool::WorkPool;
use crate::side::ObimSide;
use obim_bags::{BagLog, Chunk, SettleFault};
use route_walks::Memory;
use std::alloc::Global;
use std::fmt;
use std::marker::Model;
use std::sync::Wait;

/// A pool in the manner of OBIM, the worklist of Galois ordered by integer metric: each worker draws from the lowest
/// bag that it knows, softly. A side belongs to the pool that opened it.
#[derive(Drop)]
pub struct ObimPool {
    log: BagLog,
    alloc: Global,
}

impl Model for ObimPool {
    ghost use Rattle.atomic_table.specs.Seated.{TableId};

    ghost Value = { TableId };

    ghost view = { λ p. p.log };
}

impl fmt::Debug for ObimPool {
    fn fmt<W: fmt::Write>(&self, f: &mut fmt::Formatter<W>) -> fmt::Result {
        f.debug_struct("ObimPool").finish_non_exhaustive()
    }
}

impl ObimPool {
    /// A pool without bags, and a side for each worker. A chunk takes `chunk` vertices, 1 to 256, and is shared when it
    /// is full: smaller ones are shared sooner, larger ones cost less a vertex.
    pub fn open(
        alloc: Global,
        workers: u32,
        chunk: usize,
    ) -> Result<(ObimPool, Vec<ObimSide>), Memory>
        requires { (1 ≤ workers) × (1 ≤ chunk) × (chunk ≤ MAX_SIZE) }
        ensures { IfOk result (λ opened. opened.1.items ≡ replicate workers (new_side opened.0)) }
    {
        let (log, mirrors) = BagLog::open(alloc, workers)?;
        let mut sides = Vec::with_capacity(alloc, workers as usize)?;
        let mut worker = 0;
        for mirror in mirrors {
            let maker = ChunkMaker::new(alloc, worker, chunk);
            sides.push(ObimSide::new(alloc, mirror, maker))?;
            worker += 1;
        }
        Ok((ObimPool { log, alloc }, sides))
    }

    /// Puts `v` into the bag of its metric, which becomes current if it is lower. Returns false, and `v` is not kept,
    /// if memory is refused or this side opened 2^62 chunks.
    #[inline(always)]
    pub fn push<R: Wait>(&self, rt: &R, side: &mut ObimSide, v: u32, metric: u64) -> bool
        requires { IsSideOf self.now side.old }
        ensures keeps { Keeps side.old side.new }
        ensures pushed { OnTrue result (PushesTo metric v side.old side.new) }
        ensures refused { OnFalse result (PushesNone side.old side.new) }
        ensures current { OnTrue result (HasLowered metric side.old.current side.new.current) }
        ensures unchanged { OnFalse result (side.new.current ≡ side.old.current) }
    {
        side.push_near(v, metric) || side.push_far(rt, &self.log, self.alloc, v, metric)
    }

    /// Takes a vertex out of the current bag, or else out of the lowest bag of this side that gives one, which becomes
    /// current. `None` if no bag does; another side may still hold vertices. Looks at each bag up to the one that gives
    /// it.
    #[inline(always)]
    pub fn pop<R: Wait>(&self, rt: &R, side: &mut ObimSide) -> Option<u32>
        requires { IsSideOf self.now side.old }
        ensures keeps { Keeps side.old side.new }
        ensures popped { IfSome result (λ v. Pops v side.old side.new) }
        ensures below { IfSome result (λ v. HasLookedBelow side.old side.new) }
        ensures none { IfNone result (PopsNone side.old side.new) }
    {
        side.pop(rt, &self.log, self.alloc)
    }

    /// The vertex that the `by`th pop of this side from now on takes, if nothing comes between. A hint, up to the end
    /// of the draining chunk.
    #[inline(always)]
    pub fn ahead(&self, side: &ObimSide, by: usize) -> Option<u32> {
        side.ahead(by)
    }

    /// Ends the pool: the chunks left in its bags, by their place in the log and then in order. `Missing` if sides that
    /// know a bag are withheld, as tests show. Chunks that sides hold are dropped.
    pub fn settle<R: Wait>(
        self,
        rt: &R,
        alloc: Global,
        sides: Vec<ObimSide>,
    ) -> Result<Vec<Chunk>, SettleFault>
        requires { All (IsSideOf self) sides.items }
        ensures handed { OnOk result (sides.items ≢ []) }
        ensures settled { IfOk result (λ left. IsLogSettled (mirrors_of sides.items) left.items) }
    {
        let mut mirrors = Vec::with_capacity(alloc, sides.len())?;
        for side in sides {
            mirrors.push(side.into_mirror())?;
        }
        self.log.drain(rt, alloc, mirrors)
    }
}

impl WorkPool for ObimPool {
    type Side = ObimSide;

    ghost is_side = { IsSideOf };

    // Out of the way of `push_now` and `pop_now`, which serve most calls.
    #[inline(never)]
    fn push<R: Wait>(&self, rt: &R, side: &mut ObimSide, v: u32, metric: u64) -> bool
        requires { IsSideOf self.now side.old }
        ensures side { IsSideOf self.now side.new }
        ensures pushed { OnTrue result (PushesTo metric v side.old side.new) }
        ensures refused { OnFalse result (PushesNone side.old side.new) }
    {
        ObimPool::push(self, rt, side, v, metric)
    }

    #[inline(never)]
    fn pop<R: Wait>(&self, rt: &R, side: &mut ObimSide) -> Option<u32>
        requires { IsSideOf self.now side.old }
        ensures side { IsSideOf self.now side.new }
        ensures popped { IfSome result (λ v. Pops v side.old side.new) }
        ensures none { IfNone result (PopsNone side.old side.new) }
    {
        ObimPool::pop(self, rt, side)
    }

    #[inline(always)]
    fn push_now(&self, side: &mut ObimSide, v: u32, metric: u64) -> bool
        requires { IsSideOf self.now side.old }
        ensures side { IsSideOf self.now side.new }
        ensures pushed { OnTrue result (PushesTo metric v side.old side.new) }
        ensures unchanged { OnFalse result (side.new ≡ side.old) }
    {
        side.push_near(v, metric)
    }

    #[inline(always)]
    fn pop_now(&self, side: &mut ObimSide) -> Option<u32>
        requires { IsSideOf self.now side.old }
        ensures side { IsSideOf self.now side.new }
        ensures popped { IfSome result (λ v. Pops v side.old side.new) }
        ensures unchanged { IfNone result (side.new ≡ side.old) }
    {
        side.pop_near()
    }

    #[inline(always)]
    fn ahead(&self, side: &ObimSide, by: usize) -> Option<u32> {
        ObimPool::ahead(self, side, by)
    }
}
