//! Checks of arcs and seeds that come from outside.

ghost use Rattle.std.specs.Prelude.{◌↔◌, IsTrue};
ghost use Rattle.route_walks.specs.Walk.{AreSeeds, IsGraph};

use crate::graph::{ArcRec, Seed};

/// Tells if both ends of each arc are below `n`.
pub fn is_graph(n: u32, arcs: &[ArcRec]) -> bool
    ensures { IsTrue result ↔ IsGraph n arcs.now }
{
    arcs.iter().all(|arc| arc.tail < n && arc.head < n)
}

/// Tells if the vertex of each seed is below `n`.
pub fn are_seeds(n: u32, seeds: &[Seed]) -> bool
    ensures { IsTrue result ↔ AreSeeds n seeds.now }
{
    seeds.iter().all(|seed| seed.vertex < n)
}
