//! The walk to a vertex, by parents.

ghost use Rattle.std.specs.Prelude.{◌≡◌, ◌<◌, ◌↔◌, length, map, slice_index, IsNone, IfOk, IfSome, All};
ghost use Rattle.walk_report.specs.Parent.{LeadBack};
ghost use Rattle.walk_report.specs.Printed.{printed_walk};
ghost use Rattle.walk_report.specs.Told.{walk_by, walks_in};

use crate::hop::NONE;
use route_walks::Memory;
use std::alloc::Global;

/// The vertices of the printed walk to `v`, the source first; `None` if no walk reaches `v`. Takes the time of the
/// walk, and one allocation.
pub fn walk_to(
    alloc: Global,
    hops: &[u32],
    parents: &[u32],
    v: u32,
) -> Result<Option<Vec<u32>>, Memory>
    requires vertex { v < length hops.now }
    requires back { LeadBack hops.now parents.now }
    ensures none { IfOk result (λ found. IsNone found ↔ (slice_index hops.now v ≡ NONE)) }
    ensures some { IfOk result (λ found. IfSome found (λ walk. 0 < length walk.items)) }
    ensures vertices { IfOk result (λ found. IfSome found
        (λ walk. All (λ u. u < length hops.now) walk.items)) }
    ensures walk { IfOk result (λ found. IfSome found (λ walk. walk.items
        ≡ printed_walk (slice_index parents.now) (slice_index hops.now v) v)) }
{
    let hop = hops[v as usize];
    if hop == NONE {
        return Ok(None);
    }
    let mut walk = vec![in alloc; v; hop as usize + 1]?;
    let mut vertex = v;
    for k in (0..hop as usize).rev() {
        vertex = parents[vertex as usize];
        walk[k] = vertex;
    }
    Ok(Some(walk))
}

/// The walks to these vertices; no vertices if none leads.
pub(crate) fn walks_by(
    alloc: Global,
    hops: &[u32],
    parents: &[u32],
    targets: &[u32],
) -> Result<Vec<Vec<u32>>, Memory>
    requires targets { All (λ t. t < length hops.now) targets.now }
    requires back { LeadBack hops.now parents.now }
    ensures { IfOk result (λ walks.
        walks_in walks.items ≡ map (walk_by hops.now parents.now) targets.now) }
{
    let mut walks = Vec::with_capacity(alloc, targets.len())?;
    for target in targets {
        let walk = walk_or_none(alloc, hops, parents, *target)?;
        walks.push(walk)?;
    }
    Ok(walks)
}

fn walk_or_none(alloc: Global, hops: &[u32], parents: &[u32], v: u32) -> Result<Vec<u32>, Memory>
    requires vertex { v < length hops.now }
    requires back { LeadBack hops.now parents.now }
    ensures { IfOk result (λ walk. walk.items ≡ walk_by hops.now parents.now v) }
{
    match walk_to(alloc, hops, parents, v)? {
        Some(walk) => Ok(walk),
        None => Ok(Vec::new(alloc)),
    }
}
