//! Costs up to a bound.

ghost use Rattle.std.specs.Prelude.{◌≡◌, ◌<◌, IfNone, IfSome};
ghost use Rattle.obim_engine.specs.Goal.{HasReached};
ghost use Rattle.obim_engine.specs.declared.goal.Goal.TheVariants as goal;
ghost use Rattle.route_walks.specs.Operators.{seeds_from};
ghost use Rattle.least_costs.specs.Network.{graph_of};
ghost use Rattle.least_costs.specs.Within.{IsBeyond, IsCostWithin};

use crate::network::Network;
use obim_engine::GoalResult;
use route_walks::INF;
use std::marker::Model;
use std::snapshot::Snapshot;

/// The least costs from a source that are at most a bound. Takes 8 bytes a vertex, and keeps nothing of the network.
#[derive(Drop)]
pub struct CostsWithin {
    labels: Vec<u64>,
    source: u32,
    bound: u64,
    of: Snapshot<Network>,
}

impl Model for CostsWithin {
    ghost use Rattle.least_costs.specs.Within.{AreLabelsWithin, WithinSeen};

    ghost Value = { WithinSeen };

    ghost view = { λ c. record { net = c.of.value; source = c.source; bound = c.bound } };

    ghost invariant = { λ c. AreLabelsWithin
        (record { net = c.of.value; source = c.source; bound = c.bound }) c.labels.items };
}

impl CostsWithin {
    pub(crate) fn new(
        network: &Network,
        source: u32,
        bound: u64,
        reached: GoalResult,
    ) -> CostsWithin
        requires source { source < network.now.n }
        requires reached { HasReached (goal.Within bound) (graph_of network.now) (seeds_from source) reached }
        ensures { result ≡ record { net = network.now; source = source; bound = bound } }
    {
        let _ = network.n();
        CostsWithin {
            labels: reached.closed.into_labels(),
            source,
            bound,
            of: Snapshot::of(network),
        }
    }

    /// The least cost of a walk to `v`; `None` if no walk costs as little as the bound.
    pub fn to(&self, v: u32) -> Option<u64>
        requires { v < self.now.net.n }
        ensures some { IfSome result (IsCostWithin self.now v) }
        ensures none { IfNone result (IsBeyond self.now v) }
    {
        let label = self.labels[v as usize];
        if label > self.bound {
            return None;
        }
        if label == INF {
            return None;
        }
        Some(label)
    }

    /// The start of the walks.
    pub fn source(&self) -> u32
        ensures { result ≡ self.now.source }
    {
        self.source
    }

    /// The most that a walk may cost.
    pub fn bound(&self) -> u64
        ensures { result ≡ self.now.bound }
    {
        self.bound
    }
}
