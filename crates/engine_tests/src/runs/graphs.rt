//! Small graphs, and a large one at random.

ghost use Rattle.std.specs.Prelude.{◌≡◌, ◌≤◌, length, IsTrue, IfOk};
ghost use Rattle.route_walks.specs.Walk.{IsGraph};

use crate::runs::draws::Draws;
use csr_graph::{Csr, MAX_ARCS, MAX_VERTICES};
use route_walks::{ArcRec, EXAMPLE_ARCS, Memory, is_graph};
use std::alloc::Global;
use std::process::Abort;
use std::test::Fail;

/// The distances from vertex 0 in the example.
pub(crate) const SIX_LABELS: [u64; 6] = [0, 10, 10, 12, 10, 15];

/// Tells if rows of the arcs can be built.
pub(crate) fn fit_rows(n: u32, arcs: &[ArcRec]) -> bool
    ensures vertices { IsTrue result → n ≤ MAX_VERTICES }
    ensures places { IsTrue result → length arcs.now ≤ MAX_ARCS }
    ensures ends { IsTrue result → IsGraph n arcs.now }
{
    n <= MAX_VERTICES && arcs.len() <= MAX_ARCS && is_graph(n, arcs)
}

pub(crate) fn rows_of(rt: &impl Abort, alloc: Global, n: u32, arcs: &[ArcRec]) -> Result<Csr, Fail>
    ensures { IfOk result (λ csr. csr.n ≡ n) }
{
    let within = fit_rows(n, arcs);
    assert!(rt; within);
    Ok(Csr::build(alloc, n, arcs)?)
}

pub(crate) fn six(alloc: Global) -> Result<Csr, Memory>
    ensures vertices { IfOk result (λ csr. csr.n ≡ 6) }
    ensures arcs { IfOk result (λ csr. length csr.arcs ≡ 8) }
{
    Csr::build(alloc, 6, &EXAMPLE_ARCS)
}

pub(crate) fn same_labels(rt: &impl Abort, row: usize, labels: &[u64], want: &[u64]) {
    assert!(rt; labels == want, "row {row}");
}

/// Random arcs, the same ones at each call.
pub(crate) fn random_arcs(alloc: Global, n: u32, count: usize) -> Result<Vec<ArcRec>, Memory> {
    let mut arcs = Vec::with_capacity(alloc, count)?;
    let mut draws = Draws::new();
    for _ in 0..count {
        let bits = draws.bits();
        let tail = (bits & 0xfffff) as u32 % n.max(1);
        let head = (bits >> 20 & 0xfffff) as u32 % n.max(1);
        let weight = (bits >> 40 & 0x3ff) as u32;
        arcs.push(ArcRec::new(tail, head, weight))?;
    }
    Ok(arcs)
}

/// Arcs from vertex 0 to each other one, the last first, with weights 1 to `weights` in turn.
pub(crate) fn star(rt: &impl Abort, alloc: Global, n: u32, weights: u32) -> Result<Csr, Fail>
    ensures { IfOk result (λ csr. csr.n ≡ n) }
{
    let mut arcs = Vec::new(alloc);
    for before in 1..n {
        let v = n - before;
        arcs.push(ArcRec::new(0, v, 1 + v % weights.max(1)))?;
    }
    rows_of(rt, alloc, n, &arcs)
}

/// Streets both ways, of `lengths` lengths from the `least` on.
pub(crate) fn street_arcs(
    alloc: Global,
    width: u32,
    height: u32,
    least: u32,
    lengths: u32,
) -> Result<Vec<ArcRec>, Memory> {
    let mut arcs = Vec::new(alloc);
    let mut state = 1_u64;
    for here in 0..width.saturating_mul(height) {
        for (there, within) in [
            (
                here.saturating_add(1),
                here % width.max(1) < width.saturating_sub(1),
            ),
            (
                here.saturating_add(width),
                here / width.max(1) < height.saturating_sub(1),
            ),
        ] {
            if within {
                // Knuth's multiplier and increment.
                state = state
                    .wrapping_mul(6364136223846793005)
                    .wrapping_add(1442695040888963407);
                let length = least.saturating_add((state >> 33) as u32 % lengths.max(1));
                arcs.push(ArcRec::new(here, there, length))?;
                arcs.push(ArcRec::new(there, here, length))?;
            }
        }
    }
    Ok(arcs)
}
