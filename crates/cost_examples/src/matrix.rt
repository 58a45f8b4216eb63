//! The costs from each of many sources to each of many targets.

ghost use Rattle.std.specs.Prelude.{◌≡◌, IfOk};
ghost use Rattle.least_costs.specs.Costs.{IsCostTo};
ghost use Rattle.least_costs.specs.Each.{AreWithin};
ghost use Rattle.least_costs.specs.Taken.{AreFor};
ghost use Rattle.cost_examples.specs.Callers.{IsRow};

use least_costs::{Costs, Network, Plan, Solver};
use route_walks::Memory;
use std::alloc::Global;
use std::sync::Wait;
use std::thread::Threads;
use std::time::Clock;

/// A row for each source, with the least cost to each target, or `None` if there is no walk.
pub fn cost_matrix<H: Threads + Wait + Clock + Sync>(
    rt: &H,
    alloc: Global,
    network: &Network,
    plan: Plan,
    sources: &[u32],
    targets: &[u32],
) -> Result<Vec<Vec<Option<u64>>>, Memory>
    requires sources { AreWithin network.now sources.now }
    requires targets { AreWithin network.now targets.now }
    ensures { IfOk result (λ rows.
        AreFor (λ source row. IsRow network.now targets.now source row.items) sources.now rows.items) }
{
    let solver = Solver::new(network, plan);
    let mut each = solver.each(alloc, sources);
    let mut rows = Vec::new(alloc);
    while let Some(found) = each.next(rt, alloc) {
        rows.push(row_of(alloc, &found?, targets)?)?;
    }
    Ok(rows)
}

/// The least cost to each target.
fn row_of(alloc: Global, costs: &Costs, targets: &[u32]) -> Result<Vec<Option<u64>>, Memory>
    requires { AreWithin costs.now.net targets.now }
    ensures { IfOk result (λ row.
        AreFor (IsCostTo costs.now.net costs.now.start) targets.now row.items) }
{
    let mut row = Vec::new(alloc);
    for &target in targets {
        row.push(costs.to(target))?;
    }
    Ok(row)
}
