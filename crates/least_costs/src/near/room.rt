//! Searches within a limit, in room that is there or not. They return `None` if there is none, or the limit doesn't do.

ghost use Rattle.std.specs.Prelude.{◌≡◌, ◌<◌, [], ◌∷◌, All, IfSome};
ghost use Rattle.route_walks.specs.declared.graph.TheConstants.{INF};
ghost use Rattle.route_walks.specs.Label.{IsLeast};
ghost use Rattle.route_walks.specs.Operators.{seeds_from};
ghost use Rattle.csr_graph.specs.Bounds.{AreBounds};
ghost use Rattle.near_labels.specs.Found.{AreWalksFound};
ghost use Rattle.least_costs.specs.Near.{AreCostsWithin, AreLabelsTo};
ghost use Rattle.least_costs.specs.Network.{graph_of};

use crate::near::budget::SearchLimit;
use crate::network::Network;
use hierarchy::Hierarchy;
use near_labels::{SearchSpace, WalksFound};
use obim_engine::Bounds;
use std::alloc::Global;
use walk_report::WalkSpace;

/// Makes room for `n` vertices, unless it has room for as many. Returns true if it made room.
pub(crate) fn fit(space: &mut Option<SearchSpace>, alloc: Global, n: u32) -> bool {
    match space {
        Some(space) if space.vertices() == n as usize => false,
        _ => {
            *space = SearchSpace::new(alloc, n).ok();
            true
        }
    }
}

/// Makes room for walks among `n` vertices, as `fit` does.
pub(crate) fn fit_walks(space: &mut Option<WalkSpace>, alloc: Global, n: u32) {
    match space {
        Some(space) if space.vertices() == n as usize => {}
        _ => *space = WalkSpace::new(alloc, n).ok(),
    }
}

/// The least labels of these targets, and walks to them, within the limit.
pub(crate) fn walks_by(
    space: &mut Option<SearchSpace>,
    walks: &mut Option<WalkSpace>,
    alloc: Global,
    network: &Network,
    source: u32,
    targets: &[u32],
    limit: SearchLimit,
) -> Option<WalksFound>
    requires source { source < network.now.n }
    requires targets { All (λ t. t < network.now.n) targets.now }
    ensures { IfSome result (AreWalksFound network.now.n network.now.arcs source targets.now) }
{
    let n = network.n() as usize;
    match (space, walks) {
        (Some(space), Some(walks)) if space.vertices() == n && walks.vertices() == n => {
            space.allow(limit.visits, limit.arcs);
            space.walks_to(walks, alloc, &network.rows, source, targets)
        }
        _ => None,
    }
}

/// The least labels of the targets of bounds, and walks to them, within the limit.
pub(crate) fn walks_toward(
    space: &mut Option<SearchSpace>,
    walks: &mut Option<WalkSpace>,
    alloc: Global,
    network: &Network,
    source: u32,
    bounds: &Bounds<'_>,
    limit: SearchLimit,
) -> Option<WalksFound>
    requires source { source < network.now.n }
    requires targets { All (λ t. t < network.now.n) bounds.now.targets.now }
    requires bounds { AreBounds (graph_of network.now) bounds.now }
    ensures { IfSome result (AreWalksFound network.now.n network.now.arcs source bounds.now.targets.now) }
{
    let n = network.n() as usize;
    match (space, walks) {
        (Some(space), Some(walks)) if space.vertices() == n && walks.vertices() == n => {
            space.allow(limit.visits, limit.arcs);
            space.walks_toward(walks, alloc, &network.rows, source, bounds)
        }
        _ => None,
    }
}

/// The least label of the second of a pair and the walk to it from the first, by a search from both ends within the limit.
pub(crate) fn walk_by_both(
    forward: &mut Option<SearchSpace>,
    backward: &mut Option<SearchSpace>,
    walks: &mut Option<WalkSpace>,
    alloc: Global,
    network: &Network,
    pair: (u32, u32),
    limit: SearchLimit,
) -> Option<WalksFound>
    requires source { pair.0 < network.now.n }
    requires target { pair.1 < network.now.n }
    ensures { IfSome result (AreWalksFound network.now.n network.now.arcs pair.0 (pair.1 ∷ [])) }
{
    let n = network.n() as usize;
    let (source, target) = pair;
    match (forward, backward, walks, network.both_ways()) {
        (Some(forward), Some(backward), Some(walks), Some(ways))
            if forward.vertices() == n && backward.vertices() == n && walks.vertices() == n => {
            forward.allow(limit.visits, limit.arcs);
            backward.allow(limit.visits, limit.arcs);
            forward.walk_between(backward, walks, alloc, &ways, source, target)
        }
        _ => None,
    }
}

/// The least labels of these targets, within the limit.
pub(crate) fn labels_by(
    space: &mut Option<SearchSpace>,
    alloc: Global,
    network: &Network,
    source: u32,
    targets: &[u32],
    limit: SearchLimit,
) -> Option<Vec<u64>>
    requires source { source < network.now.n }
    requires targets { All (λ t. t < network.now.n) targets.now }
    ensures { IfSome result (AreLabelsTo network.now.arcs source targets.now) }
{
    match space {
        Some(space) if space.vertices() == network.n() as usize => {
            space.allow(limit.visits, limit.arcs);
            space.labels_to(alloc, &network.rows, source, targets)
        }
        _ => None,
    }
}

/// The least labels of the targets of bounds, within the limit.
pub(crate) fn labels_toward(
    space: &mut Option<SearchSpace>,
    alloc: Global,
    network: &Network,
    source: u32,
    bounds: &Bounds<'_>,
    limit: SearchLimit,
) -> Option<Vec<u64>>
    requires source { source < network.now.n }
    requires targets { All (λ t. t < network.now.n) bounds.now.targets.now }
    requires bounds { AreBounds (graph_of network.now) bounds.now }
    ensures { IfSome result (AreLabelsTo network.now.arcs source bounds.now.targets.now) }
{
    match space {
        Some(space) if space.vertices() == network.n() as usize => {
            space.allow(limit.visits, limit.arcs);
            space.labels_toward(alloc, &network.rows, source, bounds)
        }
        _ => None,
    }
}

/// The vertices within the bound, each with its label, within the limit.
pub(crate) fn within_by(
    space: &mut Option<SearchSpace>,
    alloc: Global,
    network: &Network,
    source: u32,
    bound: u64,
    limit: SearchLimit,
) -> Option<Vec<(u32, u64)>>
    requires source { source < network.now.n }
    requires bound { bound < INF }
    ensures { IfSome result (AreCostsWithin network.now source bound) }
{
    match space {
        Some(space) if space.vertices() == network.n() as usize => {
            space.allow(limit.visits, limit.arcs);
            space.within(alloc, &network.rows, source, bound)
        }
        _ => None,
    }
}

/// The least label of the target, by a search from both ends within the limit.
pub(crate) fn label_by_both(
    forward: &mut Option<SearchSpace>,
    backward: &mut Option<SearchSpace>,
    network: &Network,
    source: u32,
    target: u32,
    limit: SearchLimit,
) -> Option<u64>
    requires source { source < network.now.n }
    requires target { target < network.now.n }
    ensures { IfSome result (IsLeast network.now.arcs (seeds_from source) target) }
{
    let n = network.n() as usize;
    match (forward, backward, network.both_ways()) {
        (Some(forward), Some(backward), Some(ways))
            if forward.vertices() == n && backward.vertices() == n => {
            forward.allow(limit.visits, limit.arcs);
            backward.allow(limit.visits, limit.arcs);
            forward.cost_between(backward, &ways, source, target)
        }
        _ => None,
    }
}

/// The least labels of these targets, by searches upward.
pub(crate) fn labels_above(
    forward: &mut Option<SearchSpace>,
    backward: &mut Option<SearchSpace>,
    alloc: Global,
    network: &Network,
    hierarchy: &Hierarchy,
    source: u32,
    targets: &[u32],
) -> Option<Vec<u64>>
    requires hierarchy { hierarchy.now.graph ≡ graph_of network.now }
    requires source { source < network.now.n }
    requires targets { All (λ t. t < network.now.n) targets.now }
    ensures { IfSome result (AreLabelsTo network.now.arcs source targets.now) }
{
    let n = network.n() as usize;
    match (forward, backward) {
        (Some(forward), Some(backward)) if forward.vertices() == n && backward.vertices() == n => {
            // They end early by themselves, and workers would visit more.
            forward.allow(u32::MAX, usize::MAX);
            backward.allow(u32::MAX, usize::MAX);
            hierarchy.costs_to(alloc, forward, backward, source, targets)
        }
        _ => None,
    }
}
