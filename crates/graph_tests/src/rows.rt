//! A graph of six vertices, whose places were worked by hand.

ghost use Rattle.std.specs.Prelude.{◌<◌, ◌≤◌, ◌≡◌, ◌^◌, length, IfOk};
ghost use Rattle.route_walks.specs.Walk.{IsGraph};
ghost use Rattle.route_walks.specs.declared.graph.TheConstants.{MAX_VERTICES};

mod refusals;

use csr_graph::{Csr, MAX_ARCS, Target};
use route_walks::{ArcRec, EXAMPLE_ARCS, Memory, arcs, both_ways, is_graph};
use std::alloc::Global;
use std::process::Abort;
use std::test::Fail;
use std::thread::Threads;

// The example's arcs, not by tail.
const GIVEN: [ArcRec; 8] = arcs![
    (4, 1, 0),
    (0, 1, 17),
    (1, 3, 2),
    (0, 2, 10),
    (2, 4, 0),
    (4, 5, 20),
    (3, 2, 0),
    (3, 5, 3),
];

/// The arcs turned round, by tail.
const ENTERING: [ArcRec; 8] = arcs![
    (1, 0, 17),
    (1, 4, 0),
    (2, 0, 10),
    (2, 3, 0),
    (3, 1, 2),
    (4, 2, 0),
    (5, 3, 3),
    (5, 4, 20),
];

/// The arcs, each of weight 1.
const UNITS: [ArcRec; 8] = arcs![
    (0, 1, 1),
    (0, 2, 1),
    (1, 3, 1),
    (2, 4, 1),
    (3, 2, 1),
    (3, 5, 1),
    (4, 1, 1),
    (4, 5, 1),
];

const ADDED: [ArcRec; 1] = arcs![(0, 5, 4)];

/// The example with the added arc.
const GROWN: [ArcRec; 9] = arcs![
    (0, 1, 17),
    (0, 2, 10),
    (0, 5, 4),
    (1, 3, 2),
    (2, 4, 0),
    (3, 2, 0),
    (3, 5, 3),
    (4, 1, 0),
    (4, 5, 20),
];

/// Pairs with an arc, one of them twice, one without, and one outside of the vertices.
const REMOVED: [(u32, u32); 5] = [(4, 1), (0, 1), (5, 0), (0, 1), (9, 7)];

/// The example without these arcs, and with the added arc.
const CHANGED: [ArcRec; 7] = arcs![
    (0, 2, 10),
    (0, 5, 4),
    (1, 3, 2),
    (2, 4, 0),
    (3, 2, 0),
    (3, 5, 3),
    (4, 5, 20),
];

fn six(rt: &impl Abort, alloc: Global) -> Result<Csr, Fail>
    ensures { IfOk result (λ csr. csr.n ≡ 6 × length csr.arcs ≡ 8) }
{
    assert!(rt; is_graph(6, &GIVEN));
    Ok(Csr::build(alloc, 6, &GIVEN)?)
}

fn expect_rows(
    rt: &impl Abort,
    alloc: Global,
    csr: &Csr,
    n: u32,
    arcs: &[ArcRec],
) -> Result<(), Fail> {
    assert_eq!(rt; (csr.n(), csr.arc_count()), (n, arcs.len()));
    assert!(rt; csr.arcs(alloc)?.as_slice() == arcs);
    Ok(())
}

fn expect_row(rt: &impl Abort, csr: &Csr, u: u32, first: usize, end: usize)
    requires { u < csr.now.n }
{
    assert_eq!(rt; csr.first(u), first, "first of {u}");
    assert_eq!(rt; csr.end(u), end, "end of {u}");
}

fn expect_arc(rt: &impl Abort, csr: &Csr, k: usize, arc: ArcRec)
    requires { k < length csr.now.arcs }
{
    assert_eq!(rt; csr.arc(k), arc, "at {k}");
    let Target { head, weight } = csr.target(k);
    assert_eq!(rt; (head, weight), (arc.head, arc.weight), "at {k}");
}

#[test]
fn rows_of_six_vertices(rt: HostRuntime) -> Result<(), Fail> {
    let csr = six(&rt, rt.alloc())?;
    for (u, first, end) in [
        (0, 0, 2),
        (1, 2, 3),
        (2, 3, 4),
        (3, 4, 6),
        (4, 6, 8),
        (5, 8, 8),
    ] {
        expect_row(&rt, &csr, u, first, end);
    }
    expect_rows(&rt, rt.alloc(), &csr, 6, &EXAMPLE_ARCS)
}

#[test]
fn arcs_of_six_vertices(rt: HostRuntime) -> Result<(), Fail> {
    let csr = six(&rt, rt.alloc())?;
    for (k, arc) in EXAMPLE_ARCS.iter().enumerate() {
        expect_arc(&rt, &csr, k, *arc);
    }
    Ok(())
}

#[test]
fn a_graph_without_vertices(rt: HostRuntime) -> Result<(), Fail> {
    let csr = Csr::build(rt.alloc(), 0, &[])?;
    expect_rows(&rt, rt.alloc(), &csr, 0, &[])
}

/// A number below `bound`, by Knuth's multiplier and increment.
fn draw(state: &mut u64, bound: u32) -> u32
    requires { 0 < bound }
{
    *state = state
        .wrapping_mul(6364136223846793005)
        .wrapping_add(1442695040888963407);
    (*state >> 33) as u32 % bound
}

fn drawn(alloc: Global, n: u32, count: usize) -> Result<Vec<ArcRec>, Memory>
    requires { 0 < n }
{
    let mut state = 1;
    let mut arcs = Vec::with_capacity(alloc, count)?;
    for _ in 0..count {
        let (tail, head) = (draw(&mut state, n), draw(&mut state, n));
        arcs.push(ArcRec::new(tail, head, draw(&mut state, 256)))?;
    }
    Ok(arcs)
}

/// The arcs of `drawn`, of which rows can be made, also both ways.
fn graph_of(rt: &impl Abort, alloc: Global, n: u32, count: usize) -> Result<Vec<ArcRec>, Fail>
    requires { 0 < n }
    ensures few { IfOk result (λ arcs. length arcs.items ≤ 2 ^ 30) }
    ensures ends { IfOk result (λ arcs. IsGraph n arcs.items) }
{
    let arcs = drawn(alloc, n, count)?;
    assert!(rt; is_graph(n, &arcs) && arcs.len() <= 1 << 30);
    Ok(arcs)
}

// Two threads sort arcs by rising tail, each some of them.
#[test]
fn rows_of_arcs_by_rising_tail(rt: HostRuntime) -> Result<(), Fail> {
    let (alloc, n) = (rt.alloc(), 700);
    let csr = Csr::build(alloc, n, &graph_of(&rt, alloc, n, 70_000)?)?;
    let again = Csr::build_from(&rt, alloc, n, csr.arcs(alloc)?, 2)?;
    expect_rows(&rt, alloc, &again, n, &csr.arcs(alloc)?)
}

/// Streets both ways, each to the next vertex and to the hundredth: nearly by rising tail.
fn streets(alloc: Global) -> Result<Vec<ArcRec>, Memory> {
    let mut arcs = Vec::with_capacity(alloc, 40_000)?;
    for u in 0..10_000_u32 {
        arcs.extend_from_slice(&[
            ArcRec::new(u, u + 1, u),
            ArcRec::new(u + 1, u, u),
            ArcRec::new(u, u + 100, u),
            ArcRec::new(u + 100, u, u),
        ])?;
    }
    Ok(arcs)
}

/// Asserts that several threads make the rows that one makes.
fn expect_same_rows<H: Abort + Threads + Sync>(
    rt: &H,
    alloc: Global,
    n: u32,
    arcs: Vec<ArcRec>,
) -> Result<(), Fail>
    requires { n ≤ MAX_VERTICES }
{
    assert!(rt; is_graph(n, &arcs) && arcs.len() <= 1 << 30);
    let csr = Csr::build(alloc, n, &arcs)?;
    let again = Csr::build_from(rt, alloc, n, arcs, 4)?;
    expect_rows(rt, alloc, &again, n, &csr.arcs(alloc)?)
}

// Each of two threads finds its arcs near one another.
#[test]
fn rows_of_arcs_nearly_in_order(rt: HostRuntime) -> Result<(), Fail> {
    let alloc = rt.alloc();
    expect_same_rows(&rt, alloc, 10_100, streets(alloc)?)
}

// Some arcs are where no thread looks for them: one thread sorts all.
#[test]
fn rows_of_arcs_far_out_of_place(rt: HostRuntime) -> Result<(), Fail> {
    let alloc = rt.alloc();
    let mut arcs = streets(alloc)?;
    arcs.push(ArcRec::new(0, 7, 1))?;
    arcs.push(ArcRec::new(0, 5, 2))?;
    expect_same_rows(&rt, alloc, 10_100, arcs)
}

fn both_rows(rt: &impl Abort, alloc: Global, n: u32, arcs: &[ArcRec]) -> Result<Vec<ArcRec>, Fail>
    requires vertices { n ≤ MAX_VERTICES }
    requires few { length arcs.now ≤ 2 ^ 30 }
{
    let both = both_ways(alloc, arcs)?;
    assert!(rt; is_graph(n, &both));
    Ok(Csr::build(alloc, n, &both)?.arcs(alloc)?)
}
