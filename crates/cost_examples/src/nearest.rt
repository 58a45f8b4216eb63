//! The depot from which a vertex is reached at the least cost.

ghost use Rattle.std.specs.Prelude.{◌≡◌, ◌<◌, ℕ, List, [], ◌∷◌, ◌++◌, IfOk};
ghost use Rattle.least_costs.specs.Costs.{IsCostTo};
ghost use Rattle.least_costs.specs.Network.{NetworkSeen};
ghost use Rattle.least_costs.specs.declared.start.Start.TheVariants.{At};
ghost use Rattle.least_costs.specs.Each.{AreWithin};
ghost use Rattle.cost_examples.specs.Callers.{IsNearest};

use least_costs::{Network, Plan, Solver};
use route_walks::Memory;
use std::alloc::Global;
use std::sync::Wait;
use std::thread::Threads;
use std::time::Clock;

/// A depot from which no other one is nearer, and the cost from there; `None` if no walk leads there from any.
pub fn nearest_depot<H: Threads + Wait + Clock + Sync>(
    rt: &H,
    alloc: Global,
    network: &Network,
    plan: Plan,
    depots: &[u32],
    v: u32,
) -> Result<Option<(u32, u64)>, Memory>
    requires depots { AreWithin network.now depots.now }
    requires vertex { v < network.now.n }
    ensures { IfOk result (IsNearest network.now v depots.now) }
{
    let solver = Solver::new(network, plan);
    let mut each = solver.each(alloc, depots);
    let mut best = None;
    for &depot in depots {
        match each.next(rt, alloc) {
            Some(found) => best = nearer(best, depot, found?.to(v)),
            None => unreachable!(),
        }
    }
    Ok(best)
}

/// The nearer one of what was found before and a depot from which it costs this.
fn nearer(best: Option<(u32, u64)>, depot: u32, cost: Option<u64>) -> Option<(u32, u64)>
    ensures { (net : NetworkSeen) (v : ℕ) (depots : List ℕ)
        → IsNearest net v depots best
        → IsCostTo net (At depot) v cost
        → IsNearest net v (depots ++ depot ∷ []) result }
{
    match (best, cost) {
        (None, Some(cost)) => Some((depot, cost)),
        (Some(best), Some(cost)) if cost < best.1 => Some((depot, cost)),
        (Some(best), Some(_)) => Some(best),
        (Some(best), None) => Some(best),
        (None, None) => None,
    }
}
