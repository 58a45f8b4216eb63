//! The nearest depot of each of many customers and the next one.

ghost use Rattle.std.specs.Prelude.{◌≡◌, ℕ, List, [], ◌∷◌, ◌++◌, IfOk, length};
ghost use Rattle.least_costs.specs.Each.{AreWithin};
ghost use Rattle.least_costs.specs.Network.{NetworkSeen};
ghost use Rattle.least_costs.specs.Taken.{AreFor};
ghost use Rattle.least_costs.specs.declared.start.Start.TheVariants.{At};
ghost use Rattle.cost_examples.specs.Spares.{AreNearest};

use crate::choice::{Choices, with_depot};
use least_costs::{Costs, Network, Plan, Solver};
use route_walks::Memory;
use std::alloc::Global;
use std::sync::Wait;
use std::thread::Threads;
use std::time::Clock;

/// The nearest depot of each customer and the next one; each depot is solved once.
///
/// Depots may come twice, and count once. Of several depots as near as one another any may come first.
pub fn nearest_two<H: Threads + Wait + Clock + Sync>(
    rt: &H,
    alloc: Global,
    network: &Network,
    plan: Plan,
    depots: &[u32],
    customers: &[u32],
) -> Result<Vec<Choices>, Memory>
    requires depots { AreWithin network.now depots.now }
    requires customers { AreWithin network.now customers.now }
    ensures { IfOk result (λ found.
        AreFor (λ v choice. AreNearest network.now v depots.now choice) customers.now found.items) }
{
    let solver = Solver::new(network, plan);
    let mut each = solver.each(alloc, depots);
    let mut found = nowhere(alloc, customers)?;
    for &depot in depots {
        match each.next(rt, alloc) {
            Some(costs) => found = with_costs(alloc, &found, &costs?, depot, customers)?,
            None => unreachable!(),
        }
    }
    Ok(found)
}

/// Takes one depot more, of which the costs are known, into the choices of all customers.
fn with_costs(
    alloc: Global,
    found: &[Choices],
    costs: &Costs,
    depot: u32,
    customers: &[u32],
) -> Result<Vec<Choices>, Memory>
    requires customers { AreWithin costs.now.net customers.now }
    requires depot { costs.now.start ≡ At depot }
    requires found { length found.now ≡ length customers.now }
    ensures { IfOk result (λ next. (depots : List ℕ)
        → AreFor (λ v choice. AreNearest costs.now.net v depots choice) customers.now found.now
        → AreFor (λ v choice. AreNearest costs.now.net v (depots ++ depot ∷ []) choice) customers.now next.items) }
{
    let mut next = Vec::new(alloc);
    for (k, &customer) in customers.iter().enumerate() {
        next.push(with_depot(found[k], depot, costs.to(customer)))?;
    }
    Ok(next)
}

/// The choices of all customers among no depots.
fn nowhere(alloc: Global, customers: &[u32]) -> Result<Vec<Choices>, Memory>
    ensures { IfOk result (λ found. (net : NetworkSeen)
        → AreFor (λ v choice. AreNearest net v [] choice) customers.now found.items) }
{
    Ok(vec![in alloc; Choices::Nowhere; customers.len()]?)
}
