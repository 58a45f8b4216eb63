//! Hops and parents that are blank again after each question.

ghost use Rattle.std.specs.Prelude.{◌≡◌, ◌<◌, ◌≤◌, All, IfOk, length, slice_index};
ghost use Rattle.route_walks.specs.declared.graph.TheConstants.{INF};
ghost use Rattle.route_walks.specs.Limit.{AreLeastToward};
ghost use Rattle.route_walks.specs.Operators.{seeds_from};
ghost use Rattle.walk_report.specs.Kept.{AreBlank, AreKept};
ghost use Rattle.walk_report.specs.Told.{AreWalksTo};

use crate::hop::{NONE, search};
use crate::parent::parents_among;
use crate::printed::walks_by;
use csr_graph::Csr;
use route_walks::Memory;
use std::alloc::Global;

/// Labels of walks from a source, and the limit up to which they are least.
#[derive(Clone, Copy, Debug)]
pub struct LabelsBelow<'a> {
    pub labels: &'a [u64],
    pub source: u32,
    pub limit: u64,
    ghost within: { limit ≤ INF },
}

/// Hops, parents, and the queue of a search. Vertices outside the queue have neither.
#[derive(Drop)]
pub(crate) struct Lists {
    pub hops: Vec<u32>,
    pub parents: Vec<u32>,
    pub queue: Vec<u32>,
}

impl Lists {
    pub(crate) fn new(alloc: Global, n: u32) -> Result<Lists, Memory>
        ensures { IfOk result (AreBlank n) }
    {
        let hops = vec![in alloc; NONE; n as usize]?;
        let parents = vec![in alloc; NONE; n as usize]?;
        let queue = Vec::new(alloc);
        Ok(Lists {
            hops,
            parents,
            queue,
        })
    }

    pub(crate) fn walks_to(
        &mut self,
        alloc: Global,
        csr: &Csr,
        from: LabelsBelow<'_>,
        targets: &[u32],
    ) -> Result<Vec<Vec<u32>>, Memory>
        requires blank { AreBlank csr.now.n self.old }
        requires source { from.source < csr.now.n }
        requires count { length from.labels.now ≡ csr.now.n }
        requires start { 0 < from.limit → slice_index from.labels.now from.source ≡ 0 }
        requires targets { All (λ t. t < csr.now.n) targets.now }
        ensures kept { AreKept csr.now.n self.new }
        ensures walks { All (λ t. AreLeastToward from.entry.limit csr.now.n csr.now.arcs (seeds_from from.entry.source) t
            (slice_index from.entry.labels.now)) targets.now → IfOk result (λ walks. AreWalksTo from.entry.limit csr.now.n
            csr.now.arcs from.entry.source from.entry.labels.now targets.now walks.items) }
    {
        // The proof alone needs this: it ensures that arcs lead to vertices.
        let _ = csr.n();
        let LabelsBelow {
            labels,
            source,
            limit,
        } = from;
        search(csr, labels, source, limit, &mut self.hops, &mut self.queue)?;
        parents_among(csr, labels, &self.hops, &self.queue, &mut self.parents);
        walks_by(alloc, &self.hops, &self.parents, targets)
    }

    pub(crate) fn wipe(&mut self)
        requires { AreKept (length self.old.hops.items) self.old }
        ensures { AreBlank (length self.old.hops.items) self.new }
    {
        while let Some(v) = self.queue.pop() {
            self.hops[v as usize] = NONE;
            self.parents[v as usize] = NONE;
        }
    }
}
