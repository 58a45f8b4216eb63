//! The costs of many pairs before and after a road is built, by landmarks.

ghost use Rattle.std.specs.Prelude.{◌<◌, ◌^◌, IfOk, length};
ghost use Rattle.least_costs.specs.Pairs.{ArePairCosts, ArePairsWithin};

use least_costs::{Network, PairCosts, Plan, Solver};
use route_walks::Memory;
use std::alloc::Global;
use std::sync::Wait;
use std::thread::Threads;
use std::time::Clock;

/// The landmarks of each network.
const LANDMARKS: u32 = 4;

/// The costs of pairs in two networks, each by landmarks of its own, which it keeps.
pub fn pairs_in_both<H: Threads + Wait + Clock + Sync>(
    rt: &H,
    alloc: Global,
    network: &mut Network,
    changed: &mut Network,
    plan: Plan,
    pairs: &[(u32, u32)],
) -> Result<PairCosts, Memory>
    requires few { length pairs.now < 2 ^ 32 }
    requires within { ArePairsWithin network.old.n pairs.now }
    requires within_changed { ArePairsWithin changed.old.n pairs.now }
    ensures costs { IfOk result (λ found. ArePairCosts network.old pairs.now found.costs.items) }
    ensures after { IfOk result (λ found. ArePairCosts changed.old pairs.now found.after.items) }
{
    let plan = Plan {
        landmarks: LANDMARKS,
        ..plan
    };
    network.choose_landmarks(rt, alloc, plan)?;
    changed.choose_landmarks(rt, alloc, plan)?;
    let costs = Solver::new(network, plan).between(rt, alloc, pairs)?;
    let after = Solver::new(changed, plan).between(rt, alloc, pairs)?;
    Ok(PairCosts { costs, after })
}
