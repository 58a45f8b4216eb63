//! The walks to vertices near the source.

ghost use Rattle.std.specs.Prelude.{◌≡◌, ◌+◌, ◌<◌, ◌≤◌, All, IfSome, length, min, slice_index};
ghost use Rattle.route_walks.specs.declared.graph.TheConstants.{INF};
ghost use Rattle.route_walks.specs.Limit.{AreLeastToward};
ghost use Rattle.route_walks.specs.Operators.{seeds_from};
ghost use Rattle.near_labels.specs.Found.{AreWalksFound};

use crate::listing::labels_of;
use csr_graph::Csr;
use std::alloc::Global;
use walk_report::{LabelsBelow, WalkSpace};

/// The least labels of some targets, and the walks to them, in their order.
#[derive(Debug, Drop)]
pub struct WalksFound {
    /// `INF` if there is no walk.
    pub labels: Vec<u64>,
    /// The vertices of each walk, the source first; none if there is no walk.
    pub walks: Vec<Vec<u32>>,
}

/// The walks to these targets, by labels whose limit is above that of each target that is reached. They are those of the
/// definition if labels are least up to the limit on the way to each target.
pub(crate) fn walks_by_labels(
    space: &mut WalkSpace,
    alloc: Global,
    csr: &Csr,
    from: LabelsBelow<'_>,
    targets: &[u32],
) -> Option<WalksFound>
    requires vertices { space.old ≡ csr.now.n }
    requires source { from.source < csr.now.n }
    requires count { length from.labels.now ≡ csr.now.n }
    requires start { slice_index from.labels.now from.source ≡ 0 }
    requires targets { All (λ t. t < csr.now.n) targets.now }
    requires past { All (λ t. min (slice_index from.labels.now t + 1) INF ≤ from.limit) targets.now }
    ensures vertices { space.new ≡ space.old }
    ensures walks { All (λ t. AreLeastToward from.entry.limit csr.now.n csr.now.arcs (seeds_from from.entry.source) t
        (slice_index from.entry.labels.now)) targets.now
        → IfSome result (AreWalksFound csr.now.n csr.now.arcs from.entry.source targets.now) }
{
    let _ = csr.n();
    let Ok(walks) = space.walks_to(alloc, csr, from, targets) else {
        return None;
    };
    let labels = labels_of(alloc, from.labels, targets)?;
    Some(WalksFound { labels, walks })
}
