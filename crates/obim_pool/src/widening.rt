//! A pool whose buckets widen with the label.

ghost use Rattle.std.specs.Prelude.{◌≡◌, ◌≤◌, ◌<◌, replicate, IfNone, IfOk, IfSome};
ghost use Rattle.std.specs.Bool.{OnFalse, OnTrue};
ghost use Rattle.obim_bags.specs.declared.chunk.TheConstants.{MAX_SIZE};
ghost use Rattle.obim_pool.specs.Scales.{scale_bucket};
ghost use Rattle.obim_pool.specs.Sides.{IsSideOf, Pops, PopsNone, PushesTo, PushesNone, new_side};

use crate::obim::ObimPool;
use crate::pool::WorkPool;
use crate::scale::Scale;
use crate::side::ObimSide;
use obim_bags::MAX_SIZE;
use route_walks::Memory;
use std::alloc::Global;
use std::fmt;
use std::marker::Model;
use std::sync::Wait;

/// An `ObimPool` with a bag for each bucket of a scale, at most `MOST_BUCKETS` of them.
#[derive(Drop)]
pub struct WideningPool {
    pool: ObimPool,
    scale: Scale,
}

impl Model for WideningPool {
    ghost use Rattle.obim_pool.specs.Scales.{ScaledPool};

    ghost Value = { ScaledPool };

    ghost view = { λ p. record { log = p.pool; scale = p.scale } };
}

impl fmt::Debug for WideningPool {
    fn fmt<W: fmt::Write>(&self, f: &mut fmt::Formatter<W>) -> fmt::Result {
        f.debug_struct("WideningPool").finish_non_exhaustive()
    }
}

impl WideningPool {
    /// A pool of this scale without bags, and a side for each worker. A chunk takes `chunk` vertices, 1 to 256.
    pub fn open(
        alloc: Global,
        workers: u32,
        chunk: usize,
        scale: Scale,
    ) -> Result<(WideningPool, Vec<ObimSide>), Memory>
        requires { (1 ≤ workers) × (1 ≤ chunk) × (chunk ≤ MAX_SIZE) }
        ensures sides { IfOk result (λ opened. opened.1.items ≡ replicate workers (new_side opened.0.log)) }
        ensures scale { IfOk result (λ opened. opened.0.scale ≡ scale) }
    {
        let (pool, sides) = ObimPool::open(alloc, workers, chunk)?;
        Ok((WideningPool { pool, scale }, sides))
    }
}

impl WorkPool for WideningPool {
    type Side = ObimSide;

    ghost is_side = { λ pool. IsSideOf pool.log };

    // Out of the way of `push_now` and `pop_now`, which serve most calls.
    #[inline(never)]
    fn push<R: Wait>(&self, rt: &R, side: &mut ObimSide, v: u32, metric: u64) -> bool
        requires { IsSideOf self.now.log side.old }
        ensures side { IsSideOf self.now.log side.new }
        ensures pushed { OnTrue result (PushesTo (scale_bucket self.now.scale metric) v side.old side.new) }
        ensures refused { OnFalse result (PushesNone side.old side.new) }
    {
        self.pool.push(rt, side, v, self.scale.bucket_of(metric))
    }

    #[inline(never)]
    fn pop<R: Wait>(&self, rt: &R, side: &mut ObimSide) -> Option<u32>
        requires { IsSideOf self.now.log side.old }
        ensures side { IsSideOf self.now.log side.new }
        ensures popped { IfSome result (λ v. Pops v side.old side.new) }
        ensures none { IfNone result (PopsNone side.old side.new) }
    {
        self.pool.pop(rt, side)
    }

    #[inline(always)]
    fn push_now(&self, side: &mut ObimSide, v: u32, metric: u64) -> bool
        requires { IsSideOf self.now.log side.old }
        ensures side { IsSideOf self.now.log side.new }
        ensures pushed { OnTrue result (PushesTo (scale_bucket self.now.scale metric) v side.old side.new) }
        ensures unchanged { OnFalse result (side.new ≡ side.old) }
    {
        side.push_near(v, self.scale.bucket_of(metric))
    }

    #[inline(always)]
    fn pop_now(&self, side: &mut ObimSide) -> Option<u32>
        requires { IsSideOf self.now.log side.old }
        ensures side { IsSideOf self.now.log side.new }
        ensures popped { IfSome result (λ v. Pops v side.old side.new) }
        ensures unchanged { IfNone result (side.new ≡ side.old) }
    {
        side.pop_near()
    }

    #[inline(always)]
    fn ahead(&self, side: &ObimSide, by: usize) -> Option<u32> {
        self.pool.ahead(side, by)
    }
}
