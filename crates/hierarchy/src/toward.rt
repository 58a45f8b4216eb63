//! Costs from one source after another to the same targets, by a sweep over the places above them.
//!
//! As in Delling, Goldberg, Nowatzyk and Werneck, PHAST (2011), and in Delling, Goldberg and Werneck, Faster Batched Shortest
//! Paths in Road Networks (2011), where targets are some of the vertices.

ghost use Rattle.std.specs.Prelude.{◌≡◌, ◌<◌, true, false, ℕ, All, Contains, IfSome, length, map, slice_index, slice_index_or};
ghost use Rattle.csr_graph.specs.Graph.{targets_of};
ghost use Rattle.route_walks.specs.Operators.{seeds_from};
ghost use Rattle.near_labels.specs.Noted.{AreLeastOf};
ghost use Rattle.near_labels.specs.Sweep.{IsUpward};
ghost use Rattle.hierarchy.specs.Toward.{AreSeen};

use crate::hierarchy::Hierarchy;
use csr_graph::{Csr, Target};
use near_labels::SearchSpace;
use std::alloc::Global;
use std::marker::Model;
use std::snapshot::Snapshot;

/// The places above some targets, of which each comes after those that it leads to. Takes 8 bytes a target, and 4 a place.
#[derive(Drop)]
pub struct TargetSweep {
    targets: Vec<u32>,
    /// Their places.
    ends: Vec<u32>,
    order: Vec<u32>,
    of: Snapshot<Hierarchy>,
}

impl Model for TargetSweep {
    ghost use Rattle.hierarchy.specs.Toward.{IsOrderFor, SweepSeen};

    ghost Value = { SweepSeen };

    ghost view = { λ s. record { hierarchy = s.of.value; targets = s.targets.items } };

    ghost invariant = { λ s. IsOrderFor s.of.value s.targets.items s.ends.items s.order.items };
}

impl TargetSweep {
    /// Lists the places above these targets, in time proportional to the vertices and to the arcs that lead up there. Returns
    /// `None` if memory is refused.
    pub fn new(alloc: Global, hierarchy: &Hierarchy, targets: Vec<u32>) -> Option<TargetSweep>
        requires { All (λ t. t < hierarchy.now.graph.n) targets.items }
        ensures of { IfSome result (λ sweep. sweep.hierarchy ≡ hierarchy.now) }
        ensures targets { IfSome result (λ sweep. sweep.targets ≡ targets.items) }
    {
        let Some(ends) = places_of(alloc, hierarchy, &targets) else {
            return None;
        };
        let Some(order) = order_for(alloc, hierarchy.down(), &ends) else {
            return None;
        };
        Some(TargetSweep {
            targets,
            ends,
            order,
            of: Snapshot::of(hierarchy),
        })
    }

    /// The targets, in the order of the costs.
    pub fn targets(&self) -> &[u32]
        ensures targets { result.now ≡ self.now.targets }
        ensures within { All (λ t. t < self.now.hierarchy.graph.n) result.now }
    {
        &self.targets
    }

    /// Returns the least costs from the source to the targets, in their order; `INF` if there is no walk. Takes the time of the
    /// arcs up from the places above the targets, after a search upward. Returns `None` if the visits that the space allows
    /// don't do, or memory is refused.
    pub fn costs_from(
        &self,
        alloc: Global,
        hierarchy: &Hierarchy,
        space: &mut SearchSpace,
        source: u32,
    ) -> Option<Vec<u64>>
        requires of { self.now.hierarchy ≡ hierarchy.now }
        requires vertices { space.old ≡ hierarchy.now.graph.n }
        requires source { source < hierarchy.now.graph.n }
        ensures vertices { space.new ≡ space.old }
        ensures least { IfSome result (λ costs.
            AreLeastOf hierarchy.now.graph.arcs (seeds_from source) self.now.targets costs.items) }
    {
        hierarchy.costs_above(alloc, space, source, &self.order, &self.targets, &self.ends)
    }
}

/// The places of some vertices.
fn places_of(alloc: Global, hierarchy: &Hierarchy, vertices: &[u32]) -> Option<Vec<u32>>
    requires { All (λ v. v < hierarchy.now.graph.n) vertices.now }
    ensures { IfSome result (λ found. found.items ≡ map (slice_index hierarchy.now.places) vertices.now) }
{
    let mut found = Vec::with_capacity(alloc, vertices.len()).ok()?;
    for v in vertices {
        found.push(hierarchy.place(*v)).ok()?;
    }
    Some(found)
}

/// The places above these, each after those that it leads to.
fn order_for(alloc: Global, down: &Csr, ends: &[u32]) -> Option<Vec<u32>>
    ensures known { IfSome result (λ order. All (λ v. v < down.now.n) order.items) }
    ensures upward { IfSome result (λ order. IsUpward down.now.arcs order.items) }
    ensures within { IfSome result (λ order. All (Contains order.items) ends.now) }
{
    let Some(order) = places_above(alloc, down, ends) else {
        return None;
    };
    let Some(mut seen) = unseen(alloc, down.n()) else {
        return None;
    };
    if !is_upward(&mut seen, down, &order) || !are_seen(&seen, &order, ends) {
        return None;
    }
    Some(order)
}

/// The places to which walks from these lead, the highest first. What it gives is checked.
fn places_above(alloc: Global, down: &Csr, ends: &[u32]) -> Option<Vec<u32>> {
    let mut reached = vec![in alloc; false; down.n() as usize].ok()?;
    mark_all(&mut reached, ends);
    for v in 0..down.n() {
        if reached.get(v as usize) == Some(&true) {
            mark_heads(&mut reached, down.row(v));
        }
    }
    falling(alloc, &reached)
}

fn mark_all(reached: &mut [bool], vertices: &[u32]) {
    for v in vertices {
        if let Some(mark) = reached.get_mut(*v as usize) {
            *mark = true;
        }
    }
}

fn mark_heads(reached: &mut [bool], row: &[Target]) {
    for target in row {
        if let Some(mark) = reached.get_mut(target.head as usize) {
            *mark = true;
        }
    }
}

/// The numbers that are marked, the highest first.
fn falling(alloc: Global, marks: &[bool]) -> Option<Vec<u32>> {
    let mut found = Vec::new(alloc);
    let mut number = marks.len();
    for mark in marks.iter().rev() {
        number = number.saturating_sub(1);
        if *mark {
            found.push(number.min(u32::MAX as usize) as u32).ok()?;
        }
    }
    Some(found)
}

/// Marks for this many places, of which none is seen.
fn unseen(alloc: Global, n: u32) -> Option<Vec<bool>>
    ensures count { IfSome result (λ seen. length seen.items ≡ n) }
    ensures none { IfSome result (λ seen. (v : ℕ) → slice_index_or seen.items v false ≡ false) }
{
    vec![in alloc; false; n as usize].ok()
}

/// Tells if each place of the order leads to earlier ones alone, and marks them.
fn is_upward(seen: &mut [bool], down: &Csr, order: &[u32]) -> bool
    requires count { length seen.old ≡ down.now.n }
    requires none { (v : ℕ) → slice_index_or seen.old v false ≡ false }
    ensures count { length seen.new ≡ length seen.old }
    ensures seen { AreSeen order.now (length order.now) seen.new }
    ensures order { result ≡ true → All (λ v. v < down.now.n) order.now }
    ensures upward { result ≡ true → IsUpward down.now.arcs order.now }
{
    for v in order {
        if *v >= down.n() || !is_row_seen(seen, down.row(*v)) {
            return false;
        }
        seen[*v as usize] = true;
    }
    true
}

/// Tells if the heads of a row are seen.
fn is_row_seen(seen: &[bool], row: &[Target]) -> bool
    ensures { result ≡ true → All (λ target. slice_index_or seen.now target.head false ≡ true) row.now }
{
    for target in row {
        let place = target.head as usize;
        if place >= seen.len() || !seen[place] {
            return false;
        }
    }
    true
}

/// Tells if these places are seen, which are those of the order.
fn are_seen(seen: &[bool], order: &[u32], places: &[u32]) -> bool
    requires { AreSeen order.now (length order.now) seen.now }
    ensures { result ≡ true → All (Contains order.now) places.now }
{
    // The order is for the contract alone.
    let _ = order.len();
    for v in places {
        let end = *v as usize;
        if end >= seen.len() || !seen[end] {
            return false;
        }
    }
    true
}
