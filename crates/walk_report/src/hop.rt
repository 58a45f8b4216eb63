//! Hops, by breadth-first search along tight arcs: those that give a head its least label.

ghost use Rattle.std.specs.Prelude.{◌≡◌, ◌+◌, ◌<◌, ◌↔◌, [], length, replicate, slice_index, All, IsTrue, IfOk, OnOk};
ghost use Rattle.route_walks.specs.Label.{AreLeastLabels};
ghost use Rattle.route_walks.specs.Limit.{AreLeastLabelsUpTo};
ghost use Rattle.route_walks.specs.Operators.{seeds_from};
ghost use Rattle.walk_report.specs.Hop.{AreHops, AreHopsBelow, AreFromOneSource};
ghost use Rattle.walk_report.specs.Search.{AreQueued, IsTightBelow, IsVisited, IsSearch};
ghost use Rattle.walk_report.specs.Toward.{AreTightHops};

use csr_graph::{Csr, Target};
use route_walks::{ArcRec, INF, Memory};
use std::alloc::Global;

/// The hop of a vertex that no walk reaches, and the parent of a vertex that has no parent.
pub const NONE: u32 = u32::MAX;

/// The hop of each vertex from `s`: the fewest arcs of a walk of least cost. Takes time in proportion to vertices and
/// arcs, and four bytes a vertex in addition to the answer.
pub fn hops(alloc: Global, csr: &Csr, labels: &[u64], s: u32) -> Result<Vec<u32>, Memory>
    requires source { s < csr.now.n }
    requires least { AreLeastLabels csr.now.n csr.now.arcs (seeds_from s) labels.now }
    ensures exact { IfOk result
        (λ hops. AreHops csr.now.n csr.now.arcs s labels.now hops.items) }
    ensures from_one_source { IfOk result
        (λ hops. AreFromOneSource csr.now.n csr.now.arcs labels.now hops.items) }
{
    hops_below(alloc, csr, labels, s, INF)
}

/// The hop of each vertex whose label is below a limit up to which labels are least, and `NONE` for the others. If arcs
/// are free, a shorter walk to one of just the limit may go through a label that isn't least.
///
/// Takes the time of the vertices below the limit and their arcs, and of all vertices for the answer.
pub fn hops_below(
    alloc: Global,
    csr: &Csr,
    labels: &[u64],
    s: u32,
    limit: u64,
) -> Result<Vec<u32>, Memory>
    requires source { s < csr.now.n }
    requires least { AreLeastLabelsUpTo limit csr.now.n csr.now.arcs (seeds_from s) labels.now }
    ensures exact { IfOk result
        (λ hops. AreHopsBelow limit csr.now.n csr.now.arcs s labels.now hops.items) }
    ensures from_one_source { IfOk result
        (λ hops. AreFromOneSource csr.now.n csr.now.arcs labels.now hops.items) }
{
    let n = csr.n() as usize;
    let mut hops = vec![in alloc; NONE; n]?;
    let mut queue = Vec::with_capacity(alloc, n)?;
    search(csr, labels, s, limit, &mut hops, &mut queue)?;
    Ok(hops)
}

/// Gives each vertex to which arcs lead that are tight below the limit its hop, and puts it into the queue. If memory is
/// refused, each vertex that has a hop is in the queue.
pub(crate) fn search(
    csr: &Csr,
    labels: &[u64],
    s: u32,
    limit: u64,
    hops: &mut [u32],
    queue: &mut Vec<u32>,
) -> Result<(), Memory>
    requires source { s < csr.now.n }
    requires count { length labels.now ≡ csr.now.n }
    requires start { 0 < limit → slice_index labels.now s ≡ 0 }
    requires blank { hops.old ≡ replicate csr.now.n NONE }
    requires empty { queue.old.items ≡ [] }
    ensures exact { OnOk result (AreTightHops limit csr.now.n csr.now.arcs s (slice_index labels.now) hops.new) }
    ensures within { All (λ v. v < csr.now.n) queue.new.items }
    ensures queued { AreQueued csr.now.n hops.new queue.new.items }
{
    // The proof alone needs this: it ensures that arcs lead to vertices.
    let _ = csr.n();
    if limit == 0 {
        // Not even the source is below it.
        return Ok(());
    }
    queue.push(s)?;
    hops[s as usize] = 0;
    let mut next = 0;
    while next < queue.len() {
        visit(csr, labels, limit, next, hops, queue)?;
        next += 1;
    }
    Ok(())
}

/// Gives a hop to each vertex without one to which a tight arc leads from the vertex at place `next`, and queues it.
fn visit(
    csr: &Csr,
    labels: &[u64],
    limit: u64,
    next: usize,
    hops: &mut [u32],
    queue: &mut Vec<u32>,
) -> Result<(), Memory>
    requires labels { length labels.now ≡ csr.now.n }
    requires place { next < length queue.old.items }
    requires search { IsSearch limit csr.now.n csr.now.arcs (slice_index labels.now) hops.old
        queue.old.items next }
    ensures search { IsSearch limit csr.now.n csr.now.arcs (slice_index labels.now) hops.new
        queue.new.items next }
    ensures visited { OnOk result (IsVisited limit csr.now.arcs (slice_index labels.now)
        (slice_index hops.new) (slice_index queue.new.items next)) }
    ensures source { OnOk result (slice_index queue.new.items 0 ≡ slice_index queue.old.items 0) }
    ensures longer { OnOk result (next < length queue.new.items) }
{
    let u = queue[next];
    let row = csr.row(u);
    let hop = hops[u as usize] + 1;
    for &Target { head, weight } in row {
        let arc = ArcRec {
            tail: u,
            head,
            weight,
        };
        // Labels come first: most arcs aren't tight, and then no other list is read.
        if is_tight(labels, limit, &arc) && hops[head as usize] == NONE {
            // This comes first, since memory may be refused: a vertex with a hop is in the queue.
            queue.push(head)?;
            hops[head as usize] = hop;
        }
    }
    Ok(())
}

fn is_tight(labels: &[u64], limit: u64, arc: &ArcRec) -> bool
    requires tail { arc.now.tail < length labels.now }
    requires head { arc.now.head < length labels.now }
    ensures { IsTrue result ↔ IsTightBelow limit (slice_index labels.now) arc.now }
{
    let reached = labels[arc.tail as usize].saturating_add(u64::from(arc.weight));
    reached < limit && reached == labels[arc.head as usize]
}
