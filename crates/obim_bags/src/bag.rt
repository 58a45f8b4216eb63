//! Bags of chunks: one queue, and a pass of it for each worker.

ghost use Rattle.std.specs.Prelude.{◌≡◌, ◌≢◌, ◌≤◌, [], replicate, All};
ghost use Rattle.std.specs.Prelude.{IfErr, IfNone, IfOk, IfSome, OnErr, OnOk};
ghost use Rattle.std.specs.Bool.{OnFalse, OnTrue};
ghost use Rattle.obim_bags.specs.declared.fault.SettleFault.TheVariants.{Missing};
ghost use Rattle.obim_bags.specs.BagRule.{WasEmptyIfAlone};
ghost use Rattle.obim_bags.specs.Bags.{IsPassOf, new_pass, after_put, after_get, after_empty_find};
ghost use Rattle.obim_bags.specs.Bags.{AreAllPasses, AreSettled};

use crate::bag_rule::{ChunkQueue, Gets, Puts};
use crate::chunk::Chunk;
use crate::fault::SettleFault;
use crate::passes::{BagPass, add_workers, cut_shares, join_all, take_all};
use route_walks::Memory;
use std::alloc::Global;
use std::fmt;
use std::marker::Model;
use std::sync::Wait;

/// A bag of chunks of one metric, which threads share through a `&`. Each worker has a pass.
pub struct Bag {
    metric: u64,
    workers: u32,
    alloc: Global,
    queue: ChunkQueue,
}

impl Model for Bag {
    ghost use Rattle.std.specs.Prelude.{◌≤◌};
    ghost use Rattle.obim_bags.specs.Bags.{BagSeen};

    ghost Value = { BagSeen };

    ghost view = { λ b. record { metric = b.metric; workers = b.workers; queue = b.queue } };

    ghost invariant = { λ b. 1 ≤ b.workers };
}

impl fmt::Debug for Bag {
    fn fmt<W: fmt::Write>(&self, f: &mut fmt::Formatter<W>) -> fmt::Result {
        f.debug_struct("Bag")
            .field("metric", &self.metric)
            .field("workers", &self.workers)
            .finish_non_exhaustive()
    }
}

impl Bag {
    /// An empty bag, and a pass of share 1 for each worker.
    pub fn open<R: Wait>(
        _rt: &R,
        alloc: Global,
        metric: u64,
        workers: u32,
    ) -> Result<(Bag, Vec<BagPass>), Memory>
        requires { 1 ≤ workers }
        ensures metric { IfOk result (λ opened. opened.0.metric ≡ metric) }
        ensures workers { IfOk result (λ opened. opened.0.workers ≡ workers) }
        ensures passes { IfOk result (λ opened. opened.1.items ≡ replicate workers (new_pass opened.0)) }
    {
        let passes = Vec::with_capacity(alloc, workers as usize)?;
        let (queue, mut first) = ChunkQueue::with_rule(alloc)?;
        add_workers(&queue, &mut first, workers);
        let passes = cut_shares(&queue, first, workers, passes);
        let bag = Bag {
            metric,
            workers,
            alloc,
            queue,
        };
        Ok((bag, passes))
    }

    /// The metric of its chunks.
    pub fn metric(&self) -> u64
        ensures { result ≡ self.now.metric }
    {
        self.metric
    }

    /// Puts a chunk at the back. It comes back if memory is refused or the bag took 2^62 chunks.
    pub fn put<R: Wait>(&self, rt: &R, pass: &mut BagPass, chunk: Chunk) -> Result<(), Chunk>
        requires pass { IsPassOf self.now pass.old }
        requires filled { chunk.vertices ≢ [] }
        ensures put { OnOk result (pass.new ≡ after_put chunk pass.old) }
        ensures returned { IfErr result (λ back. back ≡ chunk) }
        ensures refused { OnErr result (pass.new ≡ pass.old) }
    {
        match Box::new(self.alloc, chunk) {
            Ok(boxed) => match self.put_boxed(rt, pass, boxed) {
                Ok(()) => Ok(()),
                Err(back) => Err(Box::into_inner(back)),
            },
            Err(refused) => Err(refused.value),
        }
    }

    /// Does as `put`, of a chunk in its box, which takes no memory for it.
    pub fn put_boxed<R: Wait>(
        &self,
        rt: &R,
        pass: &mut BagPass,
        chunk: Box<Chunk>,
    ) -> Result<(), Box<Chunk>>
        requires pass { IsPassOf self.now pass.old }
        requires filled { chunk.value.vertices ≢ [] }
        ensures put { OnOk result (pass.new ≡ after_put chunk.value pass.old) }
        ensures returned { IfErr result (λ back. back ≡ chunk) }
        ensures refused { OnErr result (pass.new ≡ pass.old) }
    {
        self.queue.push_as::<Puts, R>(rt, &mut pass.pass, chunk)
    }

    /// Takes the chunk at the front, which is never empty. `None` only if the bag was empty at some moment of the call.
    pub fn get<R: Wait>(&self, rt: &R, pass: &mut BagPass) -> Option<Chunk>
        requires { IsPassOf self.now pass.old }
        ensures got { IfSome result (λ chunk. pass.new ≡ after_get chunk pass.old) }
        ensures filled { IfSome result (λ chunk. chunk.vertices ≢ []) }
        ensures found_empty { IfNone result (pass.new ≡ after_empty_find pass.old) }
        ensures alone { IfNone result (WasEmptyIfAlone pass.old.tally) }
    {
        Some(Box::into_inner(self.get_boxed(rt, pass)?))
    }

    /// Does as `get`, of a chunk in its box.
    #[inline(always)]
    pub fn get_boxed<R: Wait>(&self, rt: &R, pass: &mut BagPass) -> Option<Box<Chunk>>
        requires { IsPassOf self.now pass.old }
        ensures got { IfSome result (λ chunk. pass.new ≡ after_get chunk.value pass.old) }
        ensures filled { IfSome result (λ chunk. chunk.value.vertices ≢ []) }
        ensures found_empty { IfNone result (pass.new ≡ after_empty_find pass.old) }
        ensures alone { IfNone result (WasEmptyIfAlone pass.old.tally) }
    {
        if self.finds_empty(pass) {
            return None;
        }
        self.take_front(rt, pass)
    }

    /// Returns true only if the bag was empty at some moment of the call, by two loads without a wait.
    #[inline(always)]
    pub fn finds_empty(&self, pass: &mut BagPass) -> bool
        requires { IsPassOf self.now pass.old }
        ensures found_empty { OnTrue result (pass.new ≡ after_empty_find pass.old) }
        ensures alone { OnTrue result (WasEmptyIfAlone pass.old.tally) }
        ensures unchanged { OnFalse result (pass.new ≡ pass.old) }
    {
        let empty = self.queue.is_empty_as::<Gets>(&mut pass.pass);
        if empty {
            pass.empties = pass.empties.wrapping_add(1);
        }
        empty
    }

    // Takes the chunk at the front, if the bag doesn't look empty.
    #[inline(never)]
    fn take_front<R: Wait>(&self, rt: &R, pass: &mut BagPass) -> Option<Box<Chunk>>
        requires { IsPassOf self.now pass.old }
        ensures got { IfSome result (λ chunk. pass.new ≡ after_get chunk.value pass.old) }
        ensures filled { IfSome result (λ chunk. chunk.value.vertices ≢ []) }
        ensures found_empty { IfNone result (pass.new ≡ after_empty_find pass.old) }
        ensures alone { IfNone result (WasEmptyIfAlone pass.old.tally) }
    {
        let got = self.queue.pop_as::<Gets, R>(rt, &mut pass.pass);
        if got.is_none() {
            pass.empties = pass.empties.wrapping_add(1);
        }
        got
    }

    /// Joins these passes and returns what is left in the bag, in order. After a fault the passes are gone, and with
    /// them chunks that were taken out.
    pub fn drain<R: Wait>(
        &self,
        rt: &R,
        alloc: Global,
        passes: Vec<BagPass>,
    ) -> Result<Vec<Chunk>, SettleFault>
        requires { All (IsPassOf self.now) passes.items }
        ensures all { OnOk result (AreAllPasses self.now passes.items) }
        ensures settled { IfOk result (λ left. AreSettled passes.items left.items) }
        ensures missing { IfErr result (λ fault. fault ≡ Missing → AreAllPasses self.now passes.items → ⊥) }
    {
        match join_all(&self.queue, self.workers, passes) {
            Some(one) => Ok(take_all(rt, alloc, &self.queue, one)?),
            None => Err(SettleFault::Missing),
        }
    }
}

impl Drop for Bag {
    fn drop(self) {
        let Bag {
            metric: _,
            workers: _,
            alloc: _,
            queue,
        } = self;
        queue.destroy();
    }
}
