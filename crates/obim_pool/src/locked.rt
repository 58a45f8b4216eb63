//! A pool that all workers share under one lock.

ghost use Rattle.std.specs.Prelude.{◌≡◌, All, IfNone, IfOk, IfSome, OnErr, OnOk, vec_len, ⊤};
ghost use Rattle.obim_pool.specs.Bags.{AreNoneEmpty, HaveNoVertex, HaveSameVertices};
ghost use Rattle.obim_pool.specs.Bags.{PutsLast, TakesLowest, vertex_count};

use crate::pool::WorkPool;
use route_walks::Memory;
use std::alloc::Global;
use std::collections::BTreeMap;
use std::fmt;
use std::sync::{Mutex, Wait};

/// One pool for all workers, under one lock: it gives the last vertex of the lowest metric.
#[derive(Drop)]
pub struct LockedPool {
    bags: Mutex<Bags>,
}

impl fmt::Debug for LockedPool {
    fn fmt<W: fmt::Write>(&self, f: &mut fmt::Formatter<W>) -> fmt::Result {
        f.debug_struct("LockedPool").finish_non_exhaustive()
    }
}

/// A worker's side of a `LockedPool`.
#[derive(Debug, Drop)]
pub struct LockedSide(());

// The vertices by metric, and how many they are.
#[derive(Drop)]
struct Bags {
    by_metric: BTreeMap<u64, Vec<u32>>,
    total: u64,
    alloc: Global,
    ghost none_empty: { AreNoneEmpty by_metric },
    ghost total_is: { total ≡ vertex_count by_metric },
}

impl LockedPool {
    /// An empty pool and a side for each worker.
    pub fn open(alloc: Global, workers: u32) -> Result<(LockedPool, Vec<LockedSide>), Memory>
        ensures sides { IfOk result (λ opened. vec_len opened.1 ≡ workers) }
        ensures of_pool { IfOk result (λ opened.
            All (⟦<LockedPool as WorkPool>⟧.is_side opened.0) opened.1.items) }
    {
        let mut sides = Vec::new(alloc);
        for _ in 0..workers {
            sides.push(LockedSide(()))?;
        }
        let pool = LockedPool {
            bags: Mutex::new(Bags::new(alloc)),
        };
        Ok((pool, sides))
    }

    /// Puts `v` last into the bag of its metric. Returns false if memory is refused or the pool has `u64::MAX`
    /// vertices.
    pub fn push<H: Wait>(&self, rt: &H, _side: &mut LockedSide, v: u32, metric: u64) -> bool {
        self.bags.lock(rt).push(metric, v).is_ok()
    }

    /// Takes the last vertex of the lowest bag, or `None` if the pool is empty.
    pub fn pop<H: Wait>(&self, rt: &H, _side: &mut LockedSide) -> Option<u32> {
        self.bags.lock(rt).pop()
    }
}

impl WorkPool for LockedPool {
    type Side = LockedSide;

    ghost is_side = { λ _ _. ⊤ };

    fn push<H: Wait>(&self, rt: &H, side: &mut LockedSide, v: u32, metric: u64) -> bool {
        LockedPool::push(self, rt, side, v, metric)
    }

    fn pop<H: Wait>(&self, rt: &H, side: &mut LockedSide) -> Option<u32> {
        LockedPool::pop(self, rt, side)
    }
}

impl Bags {
    fn new(alloc: Global) -> Bags
        ensures { HaveNoVertex result.by_metric }
    {
        Bags {
            by_metric: BTreeMap::new(alloc),
            total: 0,
            alloc,
        }
    }

    // Puts `v` last into the bag of the metric.
    fn push(&mut self, metric: u64, v: u32) -> Result<(), Memory>
        ensures put { OnOk result (PutsLast self.old.by_metric self.new.by_metric metric v) }
        ensures refused { OnErr result (HaveSameVertices self.old.by_metric self.new.by_metric) }
    {
        if self.total == u64::MAX {
            return Err(Memory);
        }
        let Some(bag) = self.by_metric.get_mut(&metric) else {
            let bag = vec![in self.alloc; v]?;
            self.by_metric.insert(metric, bag)?;
            self.total += 1;
            return Ok(());
        };
        bag.push(v)?;
        self.total += 1;
        Ok(())
    }

    // Takes the last vertex of the lowest bag, and the bag with its last vertex.
    fn pop(&mut self) -> Option<u32>
        ensures lowest { IfSome result (TakesLowest self.old.by_metric self.new.by_metric) }
        ensures none { IfNone result (HaveNoVertex self.old.by_metric) }
        ensures unchanged { IfNone result (HaveSameVertices self.old.by_metric self.new.by_metric) }
    {
        let (&metric, bag) = self.by_metric.first_key_value()?;
        if bag.len() > 1 {
            let last = self.by_metric.get_mut(&metric)?.pop()?;
            self.total -= 1;
            return Some(last);
        }
        let (_, mut bag) = self.by_metric.pop_first()?;
        self.total -= 1;
        bag.pop()
    }
}
