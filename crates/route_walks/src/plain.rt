//! Least labels by rounds over all arcs, as Bellman and Ford have them.

ghost use Rattle.std.specs.Prelude.{◌≡◌, ◌↔◌, length, vec_len, slice_index, All, IsTrue, IfOk};
ghost use Rattle.route_walks.specs.Walk.{IsGraph, AreSeeds};
ghost use Rattle.route_walks.specs.Label.{AreLeast, IsMet, IsRelaxed, IsSettled};

use crate::graph::{ArcRec, INF, Seed, offer};
use crate::refusal::Memory;
use std::alloc::Global;

/// The least label of each of `n` vertices, by at most `n` rounds over all arcs: for small graphs, and to compare with.
pub fn plain_labels(
    alloc: Global,
    n: u32,
    arcs: &[ArcRec],
    seeds: &[Seed],
) -> Result<Vec<u64>, Memory>
    requires graph { IsGraph n arcs.now }
    requires seeds { AreSeeds n seeds.now }
    ensures length { IfOk result (λ labels. vec_len labels ≡ n) }
    ensures least { IfOk result (λ labels. AreLeast n arcs.now seeds.now (slice_index labels.items)) }
{
    let mut labels = vec![in alloc; INF; n as usize]?;
    make_least(&mut labels, arcs, seeds);
    Ok(labels)
}

/// Tells if no seed and no arc could lower a label.
pub fn is_settled(labels: &[u64], arcs: &[ArcRec], seeds: &[Seed]) -> bool
    requires graph { IsGraph (length labels.now) arcs.now }
    requires seeds { AreSeeds (length labels.now) seeds.now }
    ensures { IsTrue result ↔ IsSettled arcs.now seeds.now (slice_index labels.now) }
{
    are_met(labels, seeds) && are_relaxed(labels, arcs)
}

fn are_met(labels: &[u64], seeds: &[Seed]) -> bool
    requires { AreSeeds (length labels.now) seeds.now }
    ensures { IsTrue result ↔ All (IsMet (slice_index labels.now)) seeds.now }
{
    seeds
        .iter()
        .all(|seed| labels[seed.vertex as usize] <= seed.start)
}

fn are_relaxed(labels: &[u64], arcs: &[ArcRec]) -> bool
    requires { IsGraph (length labels.now) arcs.now }
    ensures { IsTrue result ↔ All (IsRelaxed (slice_index labels.now)) arcs.now }
{
    arcs.iter().all(|arc| labels[arc.head as usize] <= offer(labels[arc.tail as usize], arc.weight))
}

fn make_least(labels: &mut [u64], arcs: &[ArcRec], seeds: &[Seed])
    requires graph { IsGraph (length labels.old) arcs.now }
    requires seeds { AreSeeds (length labels.old) seeds.now }
    requires none_yet { All (λ label. label ≡ INF) labels.old }
    ensures { AreLeast (length labels.old) arcs.now seeds.now (slice_index labels.new) }
{
    for seed in seeds {
        if seed.start < labels[seed.vertex as usize] {
            labels[seed.vertex as usize] = seed.start;
        }
    }
    let mut fell = true;
    while fell {
        fell = false;
        for arc in arcs {
            let offered = offer(labels[arc.tail as usize], arc.weight);
            if offered < labels[arc.head as usize] {
                labels[arc.head as usize] = offered;
                fell = true;
            }
        }
    }
}
