//! The passes of a bag.

ghost use Rattle.std.specs.Prelude.{◌≡◌, ◌≤◌, ℕ, ◌+◌, [], replicate, All, vec_capacity, IfNone, IfOk, IfSome};
ghost use Rattle.crossbeam_queue.specs.SegTies.{IsSegPassOf};
ghost use Rattle.obim_bags.specs.Chunks.{ChunkSeen};
ghost use Rattle.obim_bags.specs.BagRule.{first_tally, new_tally, shares_of, weight_of};
ghost use Rattle.obim_bags.specs.Bags.{IsPassAmong, pass_among, tallies_of, AreJoined};

use crate::bag_rule::{AddsWorker, ChunkQueue, CutsShare, Gets, JoinsPasses, QueuePass};
use crate::chunk::Chunk;
use std::alloc::{AllocError, Global};
use std::fmt;
use std::marker::Model;
use std::sync::Wait;

/// A worker's way into a bag. If a pass is dropped, its bag is never drained.
#[derive(Drop)]
pub struct BagPass {
    pub(crate) pass: QueuePass,
    pub(crate) empties: u64,
}

impl Model for BagPass {
    ghost use Rattle.std.specs.Prelude.{◌≡◌, None};
    ghost use Rattle.obim_bags.specs.Bags.{PassSeen};

    ghost Value = { PassSeen };

    ghost view = { λ p. record {
      queue = record { web = p.pass.web; heap = p.pass.heap };
      tally = p.pass.me.view.client;
      empties = p.empties;
    } };

    ghost invariant = { λ p. (p.pass.me.hand ≡ None) × (p.pass.me.spare ≡ None)
        × (p.pass.me.view.client.share ≡ 1) };
}

impl fmt::Debug for BagPass {
    fn fmt<W: fmt::Write>(&self, f: &mut fmt::Formatter<W>) -> fmt::Result {
        f.debug_struct("BagPass").finish_non_exhaustive()
    }
}

impl BagPass {
    // The pass of the queue, which has one share.
    fn into_pass(self) -> QueuePass
        ensures pass { IsSegPassOf self.queue result }
        ensures tally { result.me.view.client ≡ self.tally }
        ensures share { self.tally.share ≡ 1 }
    {
        let BagPass { pass, empties: _ } = self;
        pass
    }
}

pub(crate) fn add_workers(queue: &ChunkQueue, first: &mut QueuePass, workers: u32)
    requires pass { IsSegPassOf queue.now first.old }
    requires new { first.old.me.view.client ≡ first_tally }
    requires some { 1 ≤ workers }
    ensures pass { IsSegPassOf queue.now first.new }
    ensures shares { first.new.me.view.client ≡ new_tally workers workers }
{
    for _ in 1..workers {
        queue.another::<AddsWorker>(first);
    }
}

/// Deals the first pass's shares out, one to each pass, into a vector with room.
pub(crate) fn cut_shares(
    queue: &ChunkQueue,
    mut first: QueuePass,
    workers: u32,
    mut passes: Vec<BagPass>,
) -> Vec<BagPass>
    requires pass { IsSegPassOf queue.now first }
    requires shares { first.me.view.client ≡ new_tally workers workers }
    requires some { 1 ≤ workers }
    requires none { passes.items ≡ [] }
    requires room { workers ≤ vec_capacity passes }
    ensures { result.items ≡ replicate workers (pass_among queue.now workers) }
{
    for _ in 1..workers {
        let pass = queue.another::<CutsShare>(&mut first);
        passes.push_reserved(BagPass { pass, empties: 0 });
    }
    passes.push_reserved(BagPass {
        pass: first,
        empties: 0,
    });
    passes
}

/// The passes as one, or `None` if some are missing.
pub(crate) fn join_all(
    queue: &ChunkQueue,
    workers: u32,
    mut passes: Vec<BagPass>,
) -> Option<QueuePass>
    requires some { 1 ≤ workers }
    requires passes { All (IsPassAmong queue.now workers) passes.items }
    ensures pass { IfSome result (λ one. IsSegPassOf queue.now one) }
    ensures workers { IfSome result (λ one. one.me.view.client.workers ≡ workers) }
    ensures share { IfSome result (λ one. one.me.view.client.share ≡ workers) }
    ensures joined { IfSome result (λ one. AreJoined passes.items [] one.me.view.client) }
    ensures missing { IfNone result (shares_of (tallies_of passes.items) ≡ workers → ⊥) }
{
    let count = passes.len();
    let mut one = passes.pop()?.into_pass();
    while let Some(other) = passes.pop() {
        queue.absorb::<JoinsPasses>(&mut one, other.into_pass());
    }
    if count == workers as usize {
        Some(one)
    } else {
        None
    }
}

pub(crate) fn take_all<R: Wait>(
    rt: &R,
    alloc: Global,
    queue: &ChunkQueue,
    mut pass: QueuePass,
) -> Result<Vec<Chunk>, AllocError>
    requires pass { IsSegPassOf queue.now pass }
    requires all { pass.me.view.client.share ≡ pass.me.view.client.workers }
    requires some { 1 ≤ pass.me.view.client.workers }
    ensures { IfOk result (λ left. (weight : ChunkSeen → ℕ)
        → weight_of weight pass.me.view.client.put
        ≡ weight_of weight pass.me.view.client.got + weight_of weight left.items) }
{
    let mut left = Vec::new(alloc);
    for _ in rt.forever() {
        match queue.pop_as::<Gets, R>(rt, &mut pass) {
            Some(chunk) => left.push(Box::into_inner(chunk))?,
            None => return Ok(left),
        }
    }
    unreachable!()
}
