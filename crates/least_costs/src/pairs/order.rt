//! The order in which the sources of pairs are solved.

ghost use Rattle.std.specs.Prelude.{◌+◌, ◌<◌, ◌≤◌, ◌^◌, ◌≡◌, ℕ, List, All, IfOk, length};
ghost use Rattle.least_costs.specs.Network.{NetworkSeen};
ghost use Rattle.least_costs.specs.Pairs.{AreBySource, AreCostsAt, AreFilled, IsRun};

use route_walks::Memory;
use std::alloc::Global;

/// The sources of pairs in rising order, each with the place of its pair.
pub(crate) fn by_source(alloc: Global, pairs: &[(u32, u32)]) -> Result<Vec<(u32, u32)>, Memory>
    requires { length pairs.now < 2 ^ 32 }
    ensures { IfOk result (λ order. AreBySource pairs.now order.items) }
{
    let mut order = Vec::with_capacity(alloc, pairs.len())?;
    for (place, pair) in pairs.iter().enumerate() {
        order.push((pair.0, place as u32))?;
    }
    order.sort()?;
    Ok(order)
}

/// The place after the last entry of this source.
pub(crate) fn run_end(order: &[(u32, u32)], first: usize) -> usize
    requires { first < length order.now }
    ensures { IsRun order.now first result }
{
    let source = order[first].0;
    let mut end = first + 1;
    while end < order.len() && order[end].0 == source {
        end += 1;
    }
    end
}

/// The place of the first pair of the next source.
pub(crate) fn next_source(order: &[(u32, u32)], place: usize) -> usize {
    if place < order.len() {
        run_end(order, place)
    } else {
        place.saturating_add(1)
    }
}

/// Fills in costs at the places that the order has from one on.
pub(crate) fn fill(
    filled: &mut [Option<u64>],
    order: &[(u32, u32)],
    first: usize,
    costs: &[Option<u64>],
)
    requires places { All (λ entry. entry.1 < length filled.old) order.now }
    requires within { first + length costs.now ≤ length order.now }
    ensures places { length filled.new ≡ length filled.old }
    ensures filled { (net : NetworkSeen) (pairs : List (ℕ × ℕ))
        → AreCostsAt net pairs order.now first costs.now
        → AreFilled net pairs order.now first filled.old
        → AreFilled net pairs order.now (first + length costs.now) filled.new }
{
    for (at, cost) in costs.iter().enumerate() {
        let place = order[first + at].1 as usize;
        filled[place] = *cost;
    }
}
