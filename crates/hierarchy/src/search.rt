//! Searches for the costs from one source to its targets.

ghost use Rattle.std.specs.Prelude.{◌≡◌, ◌<◌, All, IfSome};
ghost use Rattle.route_walks.specs.Operators.{seeds_from};
ghost use Rattle.near_labels.specs.Noted.{AreLeastOf};

use crate::hierarchy::Hierarchy;
use crate::toward::TargetSweep;
use near_labels::SearchSpace;
use std::alloc::Global;

/// The most targets of a source that are searched one by one. For more a sweep is made.
const MAX_ONE_BY_ONE: usize = 16;

impl Hierarchy {
    /// Returns the least costs from the source to the targets, in their order; `INF` if there is no walk. A few are searched
    /// one by one, and more by a sweep, which takes time proportional to the vertices too. For targets that sources share a
    /// `TargetSweep` is made once. Returns `None` if the visits that the first space allows don't do, or memory is refused.
    pub fn costs_to(
        &self,
        alloc: Global,
        forward: &mut SearchSpace,
        backward: &mut SearchSpace,
        source: u32,
        targets: &[u32],
    ) -> Option<Vec<u64>>
        requires forward { forward.old ≡ self.now.graph.n }
        requires backward { backward.old ≡ self.now.graph.n }
        requires source { source < self.now.graph.n }
        requires targets { All (λ t. t < self.now.graph.n) targets.now }
        ensures forward { forward.new ≡ forward.old }
        ensures backward { backward.new ≡ backward.old }
        ensures least { IfSome result (λ costs.
            AreLeastOf self.now.graph.arcs (seeds_from source) targets.now costs.items) }
    {
        if targets.len() <= MAX_ONE_BY_ONE {
            return costs_one_by_one(alloc, self, forward, backward, source, targets);
        }
        let sweep = TargetSweep::new(alloc, self, targets.to_vec(alloc).ok()?)?;
        sweep.costs_from(alloc, self, forward, source)
    }
}

/// The least costs from the source to the targets, in their order, by searches upward for each.
fn costs_one_by_one(
    alloc: Global,
    hierarchy: &Hierarchy,
    forward: &mut SearchSpace,
    backward: &mut SearchSpace,
    source: u32,
    targets: &[u32],
) -> Option<Vec<u64>>
    requires forward { forward.old ≡ hierarchy.now.graph.n }
    requires backward { backward.old ≡ hierarchy.now.graph.n }
    requires source { source < hierarchy.now.graph.n }
    requires targets { All (λ t. t < hierarchy.now.graph.n) targets.now }
    ensures forward { forward.new ≡ forward.old }
    ensures backward { backward.new ≡ backward.old }
    ensures least { IfSome result (λ costs.
        AreLeastOf hierarchy.now.graph.arcs (seeds_from source) targets.now costs.items) }
{
    let mut costs = Vec::with_capacity(alloc, targets.len()).ok()?;
    for target in targets {
        let Some(cost) = hierarchy.cost_between(forward, backward, source, *target) else {
            return None;
        };
        match costs.push(cost) {
            Ok(()) => {}
            Err(_) => return None,
        }
    }
    Some(costs)
}
