//! Least walks from a source.

ghost use Rattle.std.specs.Prelude.{◌≡◌, ◌≢◌, ◌<◌, IfNone, IfOk, IfSome};
ghost use Rattle.least_costs.specs.Costs.{IsUnreached};
ghost use Rattle.least_costs.specs.Walks.{IsLeastWalk};
ghost use Rattle.least_costs.specs.declared.start.Start.TheVariants.{At, Everywhere};

use crate::costs::Costs;
use crate::network::Network;
use crate::start::Start;
use route_walks::Memory;
use std::alloc::Global;
use std::marker::Model;
use std::snapshot::Snapshot;
use walk_report::{hops, parents, walk_to};

/// The least walks from a source, of the fewest arcs. Takes 8 bytes a vertex, and keeps nothing of the network.
#[derive(Drop)]
pub struct Walks {
    hops: Vec<u32>,
    parents: Vec<u32>,
    source: u32,
    of: Snapshot<Network>,
}

impl Model for Walks {
    ghost use Rattle.least_costs.specs.Walks.{AreWalks, WalksSeen};

    ghost Value = { WalksSeen };

    ghost view = { λ w. record { net = w.of.value; source = w.source } };

    ghost invariant = { λ w. AreWalks w.of.value w.source w.hops.items w.parents.items };
}

impl Costs {
    /// The walks of these costs. Takes time in proportion to vertices and arcs, and for a while 4 more bytes a vertex.
    pub fn walks(&self, alloc: Global, network: &Network) -> Result<Walks, Memory>
        requires network { network.now ≡ self.now.net }
        requires source { self.now.start ≢ Everywhere }
        ensures net { IfOk result (λ walks. walks.net ≡ self.now.net) }
        ensures source { IfOk result (λ walks. At walks.source ≡ self.now.start) }
    {
        let labels = self.labels();
        match self.start() {
            Start::At(source) => {
                let hops = hops(alloc, &network.rows, labels, source)?;
                let parents = parents(alloc, &network.rows, labels, &hops)?;
                let _ = network.n();
                Ok(Walks {
                    hops,
                    parents,
                    source,
                    of: Snapshot::of(network),
                })
            }
            Start::Everywhere => unreachable!(),
        }
    }
}

impl Walks {
    /// The vertices of a least walk to `v`, the source first; `None` if there is no walk.
    pub fn to(&self, alloc: Global, v: u32) -> Result<Option<Vec<u32>>, Memory>
        requires { v < self.now.net.n }
        ensures some { IfOk result (λ found. IfSome found
            (λ walk. IsLeastWalk self.now.net self.now.source v walk.items)) }
        ensures none { IfOk result (λ found. IfNone found
            (IsUnreached self.now.net (At self.now.source) v)) }
    {
        route_walks::laws::inf_means_no_walk();
        walk_report::laws::printed_walks_are_walks();
        walk_to(alloc, &self.hops, &self.parents, v)
    }
}
