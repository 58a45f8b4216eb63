//! Random networks: their costs are those of the plain way.

ghost use Rattle.std.specs.Prelude.{◌≡◌, ◌≤◌, IfOk};

use crate::asked::network_of;
use least_costs::{AtOnce, Cost, Costs, HierarchyUse, Network, Plan, Solver};
use route_walks::{
    ArcRec, INF, Memory, Seed, are_seeds, both_ways, is_graph, plain_labels, unit_weights,
};
use std::alloc::Global;
use std::process::Abort;
use std::sync::Wait;
use std::test::Fail;
use std::thread::Threads;
use std::time::Clock;

/// Marsaglia's xorshift.
#[derive(Drop)]
pub(crate) struct Draws {
    pub(crate) state: u64,
}

impl Draws {
    pub(crate) fn of_seed(seed: u64) -> Draws {
        Draws {
            state: seed << 40 | 0x9E37_79B9,
        }
    }

    /// A number below `end`, which isn't 0.
    pub(crate) fn below(&mut self, end: u32) -> u32 {
        self.state ^= self.state << 13;
        self.state ^= self.state >> 7;
        self.state ^= self.state << 17;
        (self.state >> 40) as u32 % end.max(1)
    }

    pub(crate) fn arcs(
        &mut self,
        alloc: Global,
        n: u32,
        count: u32,
    ) -> Result<Vec<ArcRec>, Memory> {
        let mut arcs = Vec::new(alloc);
        for _ in 0..count {
            let (tail, head) = (self.below(n), self.below(n));
            arcs.push(ArcRec::new(tail, head, self.below(50)))?;
        }
        Ok(arcs)
    }
}

/// The arcs of the plain way.
fn arcs_of(alloc: Global, cost: Cost, arcs: &[ArcRec]) -> Result<Vec<ArcRec>, Memory> {
    match cost {
        Cost::Weight => Ok(arcs.to_vec(alloc)?),
        Cost::One => unit_weights(alloc, arcs),
        Cost::FreeBothWays => both_ways(alloc, arcs),
    }
}

fn plain_from(
    rt: &impl Abort,
    alloc: Global,
    n: u32,
    arcs: &[ArcRec],
    source: u32,
) -> Result<Vec<u64>, Fail> {
    let seeds = [Seed::new(source, 0)];
    let within = is_graph(n, arcs) && are_seeds(n, &seeds);
    assert!(rt; within);
    Ok(plain_labels(alloc, n, arcs, &seeds)?)
}

fn cost_of(label: u64) -> Option<u64> {
    if label == INF { None } else { Some(label) }
}

fn expect_said(rt: &impl Abort, costs: &Costs, n: u32, labels: &[u64], source: u32)
    requires { costs.now.net.n ≡ n }
{
    assert!(rt; labels.len() == n as usize);
    for v in 0..n {
        let same = costs.to(v) == cost_of(labels[v as usize]);
        assert!(rt; same, "from {source} to {v}");
    }
}

fn expect_found(
    rt: &impl Abort,
    alloc: Global,
    n: u32,
    along: &[ArcRec],
    source: u32,
    found: Result<Costs, Memory>,
) -> Result<(), Fail>
    requires { IfOk found (λ costs. costs.net.n ≡ n) }
{
    let costs = found?;
    let labels = plain_from(rt, alloc, n, along, source)?;
    expect_said(rt, &costs, n, &labels, source);
    Ok(())
}

const SOURCES: [u32; 3] = [1, 0, 1];

fn expect_plain<H: Threads + Wait + Clock + Abort + Sync>(
    rt: &H,
    alloc: Global,
    network: &Network,
    along: &[ArcRec],
    workers: u32,
) -> Result<(), Fail>
    requires { 2 ≤ network.now.n }
{
    let plan = Plan {
        settings: Plan::usual(workers).settings,
        at_once: AtOnce::Most(2),
        landmarks: 0,
        hierarchy: HierarchyUse::Never,
    };
    let (n, solver) = (network.n(), Solver::new(network, plan));
    let mut each = solver.each(alloc, &SOURCES);
    for source in SOURCES {
        if let Some(found) = each.next(rt, alloc) {
            expect_found(rt, alloc, n, along, source, found)?;
        }
    }
    Ok(())
}

const COSTS: [Cost; 3] = [Cost::Weight, Cost::One, Cost::FreeBothWays];

/// Asserts the costs in a network that is drawn.
fn expect_drawn<H: Threads + Wait + Clock + Abort + Sync>(
    rt: &H,
    alloc: Global,
    draws: &mut Draws,
    workers: u32,
    cost: Cost,
) -> Result<(), Fail> {
    let n = 2 + draws.below(8) % 8;
    let count = draws.below(24);
    let arcs = draws.arcs(alloc, n, count)?;
    let network = network_of(rt, alloc, n, &arcs, cost)?;
    let along = arcs_of(alloc, cost, &arcs)?;
    expect_plain(rt, alloc, &network, &along, workers)
}

#[test]
fn random_networks(rt: HostRuntime) -> Result<(), Fail> {
    let mut draws = Draws {
        state: 88172645463325252,
    };
    for workers in 1..5_u32 {
        for cost in COSTS {
            expect_drawn(&rt, rt.alloc(), &mut draws, workers, cost)?;
        }
    }
    Ok(())
}
