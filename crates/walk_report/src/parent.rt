//! Parents, by passes over the arcs of each vertex that has a hop.

ghost use Rattle.std.specs.Prelude.{◌≡◌, ◌<◌, ◌↔◌, length, replicate, slice_index, All, IsTrue, IfOk};
ghost use Rattle.walk_report.specs.Hop.{AreFromOneSource};
ghost use Rattle.walk_report.specs.Parent.{AreParents, LeadBack, IsLeading, AreLedFrom};
ghost use Rattle.walk_report.specs.Search.{AreQueued};
ghost use Rattle.walk_report.specs.Toward.{AreLedHops};

use crate::hop::NONE;
use csr_graph::{Csr, Target};
use route_walks::{ArcRec, Memory};
use std::alloc::Global;

/// The parent of each vertex: the least from which an arc leads to it along least labels and from one hop nearer;
/// `NONE` without a hop. Takes the time of all vertices and of the arcs of those that have a hop.
pub fn parents(alloc: Global, csr: &Csr, labels: &[u64], hops: &[u32]) -> Result<Vec<u32>, Memory>
    requires { AreFromOneSource csr.now.n csr.now.arcs labels.now hops.now }
    ensures exact { IfOk result
        (λ parents. AreParents csr.now.n csr.now.arcs labels.now hops.now parents.items) }
    ensures back { IfOk result (λ parents. LeadBack hops.now parents.items) }
{
    let n = csr.n();
    let mut parents = vec![in alloc; NONE; n as usize]?;
    for tail in 0..n {
        lead_from(csr, labels, hops, tail, &mut parents);
    }
    Ok(parents)
}

/// Gives each vertex that has a hop its parent. Reads the rows of the given vertices: those that have a hop.
pub(crate) fn parents_among(
    csr: &Csr,
    labels: &[u64],
    hops: &[u32],
    vertices: &[u32],
    parents: &mut [u32],
)
    requires labels { length labels.now ≡ csr.now.n }
    requires led { AreLedHops csr.now.n csr.now.arcs (slice_index labels.now) hops.now }
    requires within { All (λ v. v < csr.now.n) vertices.now }
    requires all { AreQueued csr.now.n hops.now vertices.now }
    requires blank { parents.old ≡ replicate csr.now.n NONE }
    ensures exact { AreParents csr.now.n csr.now.arcs labels.now hops.now parents.new }
    ensures back { LeadBack hops.now parents.new }
{
    // The proof alone needs this: it ensures that arcs lead to vertices.
    let _ = csr.n();
    for tail in vertices {
        lead_from(csr, labels, hops, *tail, parents);
    }
}

/// Makes `tail` the parent of each vertex to which it leads and that has no lower one.
fn lead_from(csr: &Csr, labels: &[u64], hops: &[u32], tail: u32, parents: &mut [u32])
    requires vertex { tail < csr.now.n }
    requires labels { length labels.now ≡ csr.now.n }
    requires hops { length hops.now ≡ csr.now.n }
    requires parents { length parents.old ≡ csr.now.n }
    ensures { AreLedFrom csr.now.arcs (slice_index labels.now) (slice_index hops.now) tail
        parents.old parents.new }
{
    // One without a hop leads nowhere, so only the rows of the others are read.
    if hops[tail as usize] == NONE {
        return;
    }
    for &Target { head, weight } in csr.row(tail) {
        let arc = ArcRec { tail, head, weight };
        // Labels come first: most arcs aren't tight, and then no other list is read.
        if is_leading(labels, hops, &arc) && tail < parents[head as usize] {
            parents[head as usize] = tail;
        }
    }
}

fn is_leading(labels: &[u64], hops: &[u32], arc: &ArcRec) -> bool
    requires tail { (arc.now.tail < length labels.now) × (arc.now.tail < length hops.now) }
    requires head { (arc.now.head < length labels.now) × (arc.now.head < length hops.now) }
    ensures { IsTrue result ↔ IsLeading (slice_index labels.now) (slice_index hops.now) arc.now }
{
    let (tail, head) = (arc.tail as usize, arc.head as usize);
    labels[tail].checked_add(u64::from(arc.weight)) == Some(labels[head])
        && hops[tail].checked_add(1) == Some(hops[head])
}
