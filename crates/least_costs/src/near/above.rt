//! The costs of far pairs by a hierarchy.

ghost use Rattle.std.specs.Prelude.{◌≡◌, ◌<◌, All, IfSome};
ghost use Rattle.least_costs.specs.Costs.{AreCostsTo};
ghost use Rattle.least_costs.specs.Near.{AreLabelsTo};
ghost use Rattle.least_costs.specs.Network.{graph_of};
ghost use Rattle.least_costs.specs.declared.start.Start.TheVariants.{At};

use crate::costs::costs_in_order;
use crate::near::Near;
use crate::near::budget::SearchLimit;
use crate::near::room::{fit, labels_above, labels_by};
use crate::network::Network;
use crate::start::Start;
use hierarchy::{Hierarchy, TargetSweep};
use near_labels::SearchSpace;
use std::alloc::Global;

/// Targets that all sources share, with the places of a hierarchy above them.
#[derive(Drop)]
pub struct SharedTargets<'a> {
    pub hierarchy: &'a Hierarchy,
    pub sweep: TargetSweep,
}

/// A target next door is found by fewer visits than two searches upward make.
const NEXT_DOOR: SearchLimit = SearchLimit {
    visits: 64,
    arcs: 512,
};

/// For more targets a pass over many vertices is made, which is worth a team of its own.
pub(crate) const MAX_SHORT_TARGETS: usize = 16;

impl Near {
    /// The costs of these targets: by a short search if one target is next door, and else by the hierarchy.
    pub(crate) fn costs_above(
        &mut self,
        alloc: Global,
        network: &Network,
        hierarchy: &Hierarchy,
        source: u32,
        targets: &[u32],
    ) -> Option<Vec<Option<u64>>>
        requires hierarchy { hierarchy.now.graph ≡ graph_of network.now }
        requires source { source < network.now.n }
        requires targets { All (λ t. t < network.now.n) targets.now }
        ensures { IfSome result (λ costs. AreCostsTo network.now (At source) targets.now costs.items) }
    {
        let labels = match self.labels_next_door(alloc, network, source, targets) {
            Some(labels) => Some(labels),
            None => self.labels_above(alloc, network, hierarchy, source, targets),
        };
        costs_in_order(alloc, network, Start::At(source), targets, &labels?).ok()
    }

    /// The costs of the targets that sources share.
    pub(crate) fn costs_over(
        &mut self,
        alloc: Global,
        network: &Network,
        shared: &SharedTargets<'_>,
        source: u32,
    ) -> Option<Vec<Option<u64>>>
        requires hierarchy { shared.now.hierarchy.now.graph ≡ graph_of network.now }
        requires sweep { shared.now.sweep.hierarchy ≡ shared.now.hierarchy.now }
        requires source { source < network.now.n }
        ensures { IfSome result (λ costs.
            AreCostsTo network.now (At source) shared.now.sweep.targets costs.items) }
    {
        self.was_long = true;
        self.prepare(alloc, network);
        let labels = labels_over(&mut self.forward, alloc, network, shared, source);
        self.count_visits();
        let targets = shared.sweep.targets();
        costs_in_order(alloc, network, Start::At(source), targets, &labels?).ok()
    }

    /// The least label of one target, if it is next door.
    fn labels_next_door(
        &mut self,
        alloc: Global,
        network: &Network,
        source: u32,
        targets: &[u32],
    ) -> Option<Vec<u64>>
        requires source { source < network.now.n }
        requires targets { All (λ t. t < network.now.n) targets.now }
        ensures { IfSome result (AreLabelsTo network.now.arcs source targets.now) }
    {
        self.was_long = targets.len() > MAX_SHORT_TARGETS;
        if targets.len() != 1 {
            return None;
        }
        self.prepare(alloc, network);
        let labels = labels_by(
            &mut self.forward,
            alloc,
            network,
            source,
            targets,
            NEXT_DOOR,
        );
        self.count_visits();
        labels
    }

    /// The least labels of these targets by the hierarchy.
    fn labels_above(
        &mut self,
        alloc: Global,
        network: &Network,
        hierarchy: &Hierarchy,
        source: u32,
        targets: &[u32],
    ) -> Option<Vec<u64>>
        requires hierarchy { hierarchy.now.graph ≡ graph_of network.now }
        requires source { source < network.now.n }
        requires targets { All (λ t. t < network.now.n) targets.now }
        ensures { IfSome result (AreLabelsTo network.now.arcs source targets.now) }
    {
        self.prepare(alloc, network);
        fit(&mut self.backward, alloc, network.n());
        let (forward, backward) = (&mut self.forward, &mut self.backward);
        let labels = labels_above(
            forward, backward, alloc, network, hierarchy, source, targets,
        );
        self.count_visits();
        self.count_backward_visits();
        labels
    }
}

/// The least labels of the targets that sources share.
fn labels_over(
    space: &mut Option<SearchSpace>,
    alloc: Global,
    network: &Network,
    shared: &SharedTargets<'_>,
    source: u32,
) -> Option<Vec<u64>>
    requires hierarchy { shared.now.hierarchy.now.graph ≡ graph_of network.now }
    requires sweep { shared.now.sweep.hierarchy ≡ shared.now.hierarchy.now }
    requires source { source < network.now.n }
    ensures { IfSome result (AreLabelsTo network.now.arcs source shared.now.sweep.targets) }
{
    match space {
        Some(space) if space.vertices() == network.n() as usize => {
            space.allow(u32::MAX, usize::MAX);
            shared
                .sweep
                .costs_from(alloc, shared.hierarchy, space, source)
        }
        _ => None,
    }
}
