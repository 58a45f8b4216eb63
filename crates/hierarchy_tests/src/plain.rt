//! Small graphs, and the costs in them by the plain way.

ghost use Rattle.std.specs.Prelude.{◌≡◌, ◌<◌, IfOk};

use csr_graph::{Csr, MAX_ARCS, MAX_VERTICES};
use route_walks::{ArcRec, Memory, is_graph, plain_labels, seeds_from};
use std::alloc::Global;
use std::process::Abort;
use std::test::Fail;

/// A kind of graphs.
#[derive(Clone, Copy)]
pub(crate) struct Kind {
    pub n: u32,
    pub arcs: u32,
    /// Weights are below this.
    pub weights: u32,
}

/// The next number of a sequence (Knuth, MMIX), below a limit.
fn draw(state: &mut u64, limit: u32) -> u32 {
    *state = state
        .wrapping_mul(6364136223846793005)
        .wrapping_add(1442695040888963407);
    ((*state >> 33) as u32) % limit.max(1)
}

/// Draws the arcs of a graph, with loops and arcs side by side.
pub(crate) fn draw_arcs(alloc: Global, kind: Kind, seed: u64) -> Result<Vec<ArcRec>, Memory> {
    let mut state = seed;
    let mut arcs = Vec::new(alloc);
    for _ in 0..kind.arcs {
        let (tail, head) = (draw(&mut state, kind.n), draw(&mut state, kind.n));
        arcs.push(ArcRec::new(tail, head, draw(&mut state, kind.weights)))?;
    }
    Ok(arcs)
}

/// Draws the streets of a square town, of which some are missing and some are one way.
pub(crate) fn draw_streets(
    alloc: Global,
    side: u32,
    weights: u32,
    seed: u64,
) -> Result<Vec<ArcRec>, Memory> {
    let mut state = seed;
    let mut arcs = Vec::new(alloc);
    let count = side.saturating_mul(side);
    for v in 0..count {
        if v % side.max(1) != 0 {
            draw_street(&mut arcs, &mut state, (v, v - 1), weights)?;
        }
        if v >= side {
            draw_street(&mut arcs, &mut state, (v, v - side), weights)?;
        }
    }
    Ok(arcs)
}

/// Draws a street: in one of eight cases none, and in two of eight one way.
fn draw_street(
    arcs: &mut Vec<ArcRec>,
    state: &mut u64,
    (u, v): (u32, u32),
    weights: u32,
) -> Result<(), Memory> {
    let kind = draw(state, 8);
    let weight = draw(state, weights);
    if kind > 0 {
        arcs.push(ArcRec::new(u, v, weight))?;
    }
    if kind > 2 {
        arcs.push(ArcRec::new(v, u, weight))?;
    }
    Ok(())
}

pub(crate) fn build(rt: &impl Abort, alloc: Global, n: u32, arcs: &[ArcRec]) -> Result<Csr, Fail>
    ensures { IfOk result (λ csr. csr.n ≡ n) }
{
    let graph = is_graph(n, arcs);
    assert!(rt; graph && n <= MAX_VERTICES && arcs.len() <= MAX_ARCS);
    Ok(Csr::build(alloc, n, arcs)?)
}

/// The least costs from `s`.
pub(crate) fn costs_from(alloc: Global, csr: &Csr, s: u32) -> Result<Vec<u64>, Memory>
    requires { s < csr.now.n }
{
    let arcs = csr.arcs(alloc)?;
    let seeds = seeds_from(alloc, s)?;
    plain_labels(alloc, csr.n(), &arcs, &seeds)
}
