//! The widths that arcs ask for.

use crate::runs::graphs::rows_of;
use csr_graph::Csr;
use obim_engine::{Widths, widths_of};
use obim_pool::Scale;
use route_walks::{ArcRec, Memory};
use std::alloc::Global;
use std::process::Abort;
use std::test::Fail;

/// Arcs from vertex 0 to itself, with the weights in turn.
fn loops(
    rt: &impl Abort,
    alloc: Global,
    n: u32,
    weights: &[u32],
    count: usize,
) -> Result<Csr, Fail> {
    let mut arcs = Vec::new(alloc);
    for turn in 0..count {
        let weight = weights
            .get(turn % weights.len().max(1))
            .copied()
            .unwrap_or(0);
        arcs.push(ArcRec::new(0, 0, weight))?;
    }
    rows_of(rt, alloc, n, &arcs)
}

/// Vertices, weights in turn, arcs, and their shift and scale; no scale only widens. The shift comes from light weights
/// and the arcs of a vertex, the scale from the mean weight and the root of the vertices.
const WIDTHS: &[(u32, &[u32], usize, u32, Option<(u32, u64)>)] = &[
    (1, &[], 0, 0, None),
    (1, &[0], 1, 0, None),
    (1, &[1], 1, 3, Some((0, 2))),
    (1, &[0, 1], 2, 0, None),
    (3, &[1, 2], 2, 3, Some((0, 2))),
    (4, &[2], 2, 4, Some((0, 4))),
    (15, &[7], 3, 5, Some((0, 4))),
    (2, &[8, 900], 16, 3, Some((7, 2))),
    (63, &[1700], 5000, 7, Some((5, 8))),
    (70_000, &[1023, 1025], 5000, 12, Some((0, 512))),
    (70_000, &[0], 5000, 0, None),
    (2, &[u32::MAX], 5000, 23, Some((10, 2))),
    (2, &[0, u32::MAX], 1024, 0, Some((32, 2))),
];

#[test]
fn widths_of_graphs(rt: HostRuntime) -> Result<(), Fail> {
    let alloc = rt.alloc();
    for row in 0..WIDTHS.len() {
        let (n, weights, count, shift, scale) = WIDTHS[row];
        let csr = loops(&rt, alloc, n, weights, count)?;
        let scale = match scale {
            Some((wide, even)) => Scale::new(wide, even),
            None => Scale::widening(),
        };
        assert!(rt; widths_of(&csr) == Widths { shift, scale }, "row {row}");
    }
    Ok(())
}

/// Chains: the number by which arcs go on, true if an arc leads back from the next vertex, and the shift for 4,096
/// vertices with weights of 7.
const CHAINS: &[(u32, bool, u32)] = &[(1, false, 9), (1, true, 9), (2, false, 5), (2, true, 4)];

/// Arcs from each vertex to the next `ahead` ones, and perhaps one back from the next.
fn forward(alloc: Global, n: u32, ahead: u32, back: bool) -> Result<Vec<ArcRec>, Memory> {
    let mut arcs = Vec::new(alloc);
    for v in 1..n {
        for by in 0..ahead {
            arcs.push(ArcRec::new(v - 1, v.saturating_add(by).min(n - 1), 7))?;
        }
        if back {
            arcs.push(ArcRec::new(v, v - 1, 7))?;
        }
    }
    Ok(arcs)
}

#[test]
fn widths_of_chains(rt: HostRuntime) -> Result<(), Fail> {
    let alloc = rt.alloc();
    for row in 0..CHAINS.len() {
        let (ahead, back, shift) = CHAINS[row];
        let arcs = forward(alloc, 4096, ahead, back)?;
        let csr = rows_of(&rt, alloc, 4096, &arcs)?;
        assert!(rt; widths_of(&csr).shift == shift, "row {row}");
    }
    Ok(())
}
