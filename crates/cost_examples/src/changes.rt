//! The changes that a new road makes for each of many sources.

ghost use Rattle.std.specs.Prelude.{◌≡◌, ◌<◌, IfOk};
ghost use Rattle.least_costs.specs.Each.{AreWithin};
ghost use Rattle.least_costs.specs.Network.{GrowsTo};
ghost use Rattle.least_costs.specs.Taken.{AreFor};
ghost use Rattle.cost_examples.specs.Callers.{IsChange};

use least_costs::{Network, Plan, Solver};
use route_walks::Memory;
use std::alloc::Global;
use std::sync::Wait;
use std::thread::Threads;
use std::time::Clock;

/// The least cost to a target before the road is built and after that.
#[derive(Clone, Copy, Debug, PartialEq, Eq)]
pub struct Change {
    pub before: Option<u64>,
    pub after: Option<u64>,
}

/// The costs from each source to the target in a network, and in the one that it grew to.
pub fn changes<H: Threads + Wait + Clock + Sync>(
    rt: &H,
    alloc: Global,
    network: &Network,
    grown: &Network,
    plan: Plan,
    sources: &[u32],
    target: u32,
) -> Result<Vec<Change>, Memory>
    requires grown { GrowsTo network.now grown.now }
    requires sources { AreWithin network.now sources.now }
    requires target { target < network.now.n }
    ensures { IfOk result (λ changes.
        AreFor (IsChange network.now grown.now target) sources.now changes.items) }
{
    let solver = Solver::new(network, plan);
    let mut each = solver.each(alloc, sources);
    let mut changes = Vec::new(alloc);
    while let Some(found) = each.next(rt, alloc) {
        let costs = found?;
        let before = costs.to(target);
        let after = solver.costs_after(rt, alloc, grown, costs)?.to(target);
        changes.push(Change { before, after })?;
    }
    Ok(changes)
}
