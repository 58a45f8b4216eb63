//! The walks of one question after another.

ghost use Rattle.std.specs.Prelude.{◌≡◌, ◌<◌, All, IfOk, length, slice_index};
ghost use Rattle.route_walks.specs.Limit.{AreLeastToward};
ghost use Rattle.route_walks.specs.Operators.{seeds_from};
ghost use Rattle.walk_report.specs.Told.{AreWalksTo};

use crate::lists::{LabelsBelow, Lists};
use csr_graph::Csr;
use route_walks::Memory;
use std::alloc::Global;
use std::marker::Model;

/// Room for walks in graphs of this many vertices, one question after another. Takes 8 bytes a vertex, and 4 to 8 for
/// each vertex that a question reaches.
#[derive(Drop)]
pub struct WalkSpace {
    lists: Lists,
}

impl Model for WalkSpace {
    ghost use Rattle.std.specs.Prelude.{ℕ, length};
    ghost use Rattle.walk_report.specs.Kept.{AreBlank};

    ghost Value = { ℕ };

    ghost view = { λ s. length s.lists.hops.items };

    ghost invariant = { λ s. AreBlank (length s.lists.hops.items) s.lists };
}

impl WalkSpace {
    /// A space for graphs of `n` vertices.
    pub fn new(alloc: Global, n: u32) -> Result<WalkSpace, Memory>
        ensures { IfOk result (λ space. space ≡ n) }
    {
        let lists = Lists::new(alloc, n)?;
        Ok(WalkSpace { lists })
    }

    /// The number of vertices of its graphs.
    pub fn vertices(&self) -> usize
        ensures { result ≡ self.now }
    {
        self.lists.hops.len()
    }

    /// The vertices of the printed walk to each target; no vertices if its label is not below the limit. They are that if
    /// labels are least up to the limit on the way to each target, as also a search by bounds leaves them.
    ///
    /// Takes the time of the vertices to which arcs lead that are tight below the limit, of their arcs, and of the walks.
    pub fn walks_to(
        &mut self,
        alloc: Global,
        csr: &Csr,
        from: LabelsBelow<'_>,
        targets: &[u32],
    ) -> Result<Vec<Vec<u32>>, Memory>
        requires vertices { self.old ≡ csr.now.n }
        requires source { from.source < csr.now.n }
        requires count { length from.labels.now ≡ csr.now.n }
        requires start { 0 < from.limit → slice_index from.labels.now from.source ≡ 0 }
        requires targets { All (λ t. t < csr.now.n) targets.now }
        ensures vertices { self.new ≡ self.old }
        ensures walks { All (λ t. AreLeastToward from.entry.limit csr.now.n csr.now.arcs (seeds_from from.entry.source) t
            (slice_index from.entry.labels.now)) targets.now → IfOk result (λ walks. AreWalksTo from.entry.limit csr.now.n
            csr.now.arcs from.entry.source from.entry.labels.now targets.now walks.items) }
    {
        let walks = self.lists.walks_to(alloc, csr, from, targets);
        self.lists.wipe();
        walks
    }
}
