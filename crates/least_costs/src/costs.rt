//! Costs from a start.

pub(crate) mod below;
pub(crate) mod walks;
pub(crate) mod within;

ghost use Rattle.std.specs.Prelude.{◌≡◌, ◌<◌, All, IfNone, IfOk, IfSome, length};
ghost use Rattle.least_costs.specs.Costs.{AreCosts, AreCostsTo, AreLeastAt, AreLeastFrom, IsLeastCost, IsUnreached};
ghost use Rattle.least_costs.specs.Network.{IsStartWithin, seeds_at};
ghost use Rattle.near_labels.specs.Noted.{AreLeastOf};

use crate::network::Network;
use crate::start::Start;
use route_walks::{INF, Memory};
use std::alloc::Global;
use std::marker::Model;
use std::snapshot::Snapshot;

/// The least cost of each vertex from a start. Takes 8 bytes a vertex, and keeps nothing of the network.
#[derive(Drop)]
pub struct Costs {
    labels: Vec<u64>,
    start: Start,
    of: Snapshot<Network>,
}

impl Model for Costs {
    ghost use Rattle.least_costs.specs.Costs.{AreCosts, CostsSeen};

    ghost Value = { CostsSeen };

    ghost view = { λ c. record { net = c.of.value; start = c.start; labels = c.labels.items } };

    ghost invariant = { λ c. AreCosts
        (record { net = c.of.value; start = c.start; labels = c.labels.items }) };
}

impl Costs {
    pub(crate) fn new(network: &Network, start: Start, labels: Vec<u64>) -> Costs
        requires start { IsStartWithin network.now.n start }
        requires least { AreLeastFrom network.now start labels.items }
        ensures { result ≡ record { net = network.now; start = start; labels = labels.items } }
    {
        let _ = network.n();
        Costs {
            labels,
            start,
            of: Snapshot::of(network),
        }
    }

    /// The least cost of a walk to `v`; `None` if there is no walk.
    pub fn to(&self, v: u32) -> Option<u64>
        requires { v < self.now.net.n }
        ensures some { IfSome result (IsLeastCost self.now.net self.now.start v) }
        ensures none { IfNone result (IsUnreached self.now.net self.now.start v) }
    {
        // A walk costs less than `INF`, so a label of `INF` means that there is none.
        route_walks::laws::inf_means_no_walk();
        let label = self.labels[v as usize];
        if label == INF { None } else { Some(label) }
    }

    /// The least cost of each vertex, `INF` if there is no walk to it.
    pub fn labels(&self) -> &[u64]
        ensures labels { result.now ≡ self.now.labels }
        ensures least { AreLeastFrom self.now.net self.now.start self.now.labels }
    {
        &self.labels
    }

    /// The start of the walks.
    pub fn start(&self) -> Start
        ensures start { result ≡ self.now.start }
        ensures costs { AreCosts self.now }
    {
        self.start
    }

    /// Copies the costs, which are of this network.
    pub fn copied(&self, alloc: Global, network: &Network) -> Result<Costs, Memory>
        requires { network.now ≡ self.now.net }
        ensures { IfOk result (λ copy. copy ≡ self.now) }
    {
        Ok(Costs::new(network, self.start, self.labels.to_vec(alloc)?))
    }

    /// Returns the labels by value.
    pub fn into_labels(self) -> Vec<u64>
        ensures labels { result.items ≡ self.labels }
        ensures least { AreLeastFrom self.net self.start self.labels }
    {
        self.labels
    }
}

/// The costs of some vertices, by the labels of all.
pub(crate) fn costs_at(
    alloc: Global,
    network: &Network,
    start: Start,
    vertices: &[u32],
    labels: &[u64],
) -> Result<Vec<Option<u64>>, Memory>
    requires start { IsStartWithin network.now.n start }
    requires vertices { All (λ v. v < network.now.n) vertices.now }
    requires count { length labels.now ≡ network.now.n }
    requires least { AreLeastAt network.now start labels.now vertices.now }
    ensures { IfOk result (λ costs. AreCostsTo network.now start vertices.now costs.items) }
{
    // A label of `INF` that is least means that there is no walk.
    route_walks::laws::least_labels_exist();
    route_walks::laws::inf_means_no_walk();
    let _ = network.n();
    let mut costs = Vec::with_capacity(alloc, vertices.len())?;
    for v in vertices {
        costs.push(cost_of(labels[*v as usize]))?;
    }
    Ok(costs)
}

/// The costs of some vertices, by their labels in order.
pub(crate) fn costs_in_order(
    alloc: Global,
    network: &Network,
    start: Start,
    vertices: &[u32],
    labels: &[u64],
) -> Result<Vec<Option<u64>>, Memory>
    requires start { IsStartWithin network.now.n start }
    requires vertices { All (λ v. v < network.now.n) vertices.now }
    requires least { AreLeastOf network.now.arcs (seeds_at network.now.n start) vertices.now labels.now }
    ensures { IfOk result (λ costs. AreCostsTo network.now start vertices.now costs.items) }
{
    route_walks::laws::least_labels_exist();
    route_walks::laws::inf_means_no_walk();
    let _ = (network.n(), vertices.len());
    let mut costs = Vec::with_capacity(alloc, labels.len())?;
    for label in labels {
        costs.push(cost_of(*label))?;
    }
    Ok(costs)
}

fn cost_of(least: u64) -> Option<u64>
    ensures some { IfSome result (λ cost. (cost ≡ least) × (least < INF)) }
    ensures none { IfNone result (least ≡ INF) }
{
    if least < INF { Some(least) } else { None }
}
