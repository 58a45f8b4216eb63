//! The arcs and the seeds that give distances, hop levels and components.

ghost use Rattle.std.specs.Prelude.{◌≡◌, ℕ, ◌*◌, ◌<◌, ◌^◌, length, IfOk};
ghost use Rattle.route_walks.specs.Walk.{IsGraph, AreSeeds};
ghost use Rattle.route_walks.specs.Operators.{seeds_from, seeds_all, unit_weights, both_ways};

use crate::graph::{ArcRec, Seed};
use crate::refusal::Memory;
use std::alloc::Global;

/// The seed for distances and hop levels: `s` at 0.
pub fn seeds_from(alloc: Global, s: u32) -> Result<Vec<Seed>, Memory>
    ensures { IfOk result (λ seeds. seeds.items ≡ seeds_from s) }
{
    Ok(vec![in alloc; Seed::new(s, 0)]?)
}

/// The seeds for components: each vertex starts at its own number.
pub fn seeds_all(alloc: Global, n: u32) -> Result<Vec<Seed>, Memory>
    ensures exact { IfOk result (λ seeds. seeds.items ≡ seeds_all n) }
    ensures within { IfOk result (λ seeds. AreSeeds n seeds.items) }
{
    let seeds = (0..n).map(|vertex| Seed::new(vertex, u64::from(vertex)));
    Ok(seeds.collect(alloc)?)
}

/// Returns the arcs with weight 1 each.
pub fn unit_weights(alloc: Global, arcs: &[ArcRec]) -> Result<Vec<ArcRec>, Memory>
    ensures exact { IfOk result (λ units. units.items ≡ unit_weights arcs.now) }
    ensures count { IfOk result (λ units. length units.items ≡ length arcs.now) }
    ensures graph { (n : ℕ) → IsGraph n arcs.now → IfOk result (λ units. IsGraph n units.items) }
{
    let units = arcs.iter().map(|arc| ArcRec { weight: 1, ..*arc });
    Ok(units.collect(alloc)?)
}

/// Each arc and then its reverse, both of weight 0.
pub fn both_ways(alloc: Global, arcs: &[ArcRec]) -> Result<Vec<ArcRec>, Memory>
    requires { length arcs.now < 2 ^ 63 }
    ensures exact { IfOk result (λ both. both.items ≡ both_ways arcs.now) }
    ensures count { IfOk result (λ both. length both.items ≡ 2 * length arcs.now) }
    ensures graph { (n : ℕ) → IsGraph n arcs.now → IfOk result (λ both. IsGraph n both.items) }
{
    let mut both = Vec::with_capacity(alloc, 2 * arcs.len())?;
    for arc in arcs {
        both.push(ArcRec::new(arc.tail, arc.head, 0))?;
        both.push(ArcRec::new(arc.head, arc.tail, 0))?;
    }
    Ok(both)
}
