//! Costs that are least up to a limit.

ghost use Rattle.std.specs.Prelude.{◌≡◌, ◌≤◌};
ghost use Rattle.label_words.specs.Closed.{IsEnd, closed_labels};
ghost use Rattle.route_walks.specs.declared.graph.TheConstants.{INF};
ghost use Rattle.route_walks.specs.Limit.{AreLeastLabelsUpTo};
ghost use Rattle.least_costs.specs.Below.{AreCostsBelow, AreLeastBelow, below_of};
ghost use Rattle.least_costs.specs.Network.{IsStartWithin, graph_of, seeds_at};

use crate::network::Network;
use crate::start::Start;
use obim_engine::{Closed, GoalResult};
use std::marker::Model;
use std::snapshot::Snapshot;

/// The labels of a run from a start, least up to a limit. A label of at most the limit is the least cost of its
/// vertex; one above it is what some walk costs, or `INF`. Takes 8 bytes a vertex, and 1 more if the run stopped
/// before its end; keeps nothing of the network.
#[derive(Drop)]
pub struct CostsBelow {
    closed: Closed,
    start: Start,
    limit: u64,
    of: Snapshot<Network>,
}

impl Model for CostsBelow {
    ghost use Rattle.least_costs.specs.Below.{BelowSeen, IsLeftBelow, below_of};

    ghost Value = { BelowSeen };

    ghost view = { λ c. below_of c.of.value c.start c.limit c.closed };

    ghost invariant = { λ c. IsLeftBelow c.of.value c.start c.limit c.closed };
}

impl CostsBelow {
    pub(crate) fn new(network: &Network, start: Start, reached: GoalResult) -> CostsBelow
        requires start { IsStartWithin network.now.n start }
        requires end { IsEnd (graph_of network.now) (seeds_at network.now.n start) reached.closed }
        requires least { AreLeastLabelsUpTo reached.limit network.now.n network.now.arcs
            (seeds_at network.now.n start) (closed_labels reached.closed) }
        ensures { result ≡ below_of network.now start reached.limit reached.closed }
    {
        let _ = network.n();
        CostsBelow {
            closed: reached.closed,
            start,
            limit: reached.limit,
            of: Snapshot::of(network),
        }
    }

    /// The label of each vertex: its least cost if at most the limit, and else no less than that. `INF` if no walk was
    /// found.
    pub fn labels(&self) -> &[u64]
        ensures labels { result.now ≡ self.now.labels }
        ensures least { AreLeastBelow self.now }
    {
        self.closed.labels()
    }

    /// The limit up to which labels are least: `INF` if all are.
    pub fn limit(&self) -> u64
        ensures limit { result ≡ self.now.limit }
        ensures low { result ≤ INF }
    {
        self.limit
    }

    /// The start of the walks.
    pub fn start(&self) -> Start
        ensures start { result ≡ self.now.start }
        ensures costs { AreCostsBelow self.now }
    {
        self.start
    }

    /// Returns the labels by value.
    pub fn into_labels(self) -> Vec<u64>
        ensures labels { result.items ≡ self.labels }
        ensures least { AreLeastBelow self }
    {
        self.closed.into_labels()
    }

    /// Returns what the run left, for another run to go on from.
    pub(crate) fn into_closed(self) -> Closed
        ensures end { IsEnd (graph_of self.net) (seeds_at self.net.n self.start) result }
    {
        self.closed
    }
}
