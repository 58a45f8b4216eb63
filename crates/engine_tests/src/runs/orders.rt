//! Tests of the order in which workers push and visit.

ghost use Rattle.std.specs.Prelude.{◌≡◌, length, IfOk};

use crate::runs::graphs::{rows_of, same_labels, six, star};
use crate::runs::pieces::{Kind, Piece, Plan, settle};
use crate::runs::pools::{FirstIn, Queue, Repeating};
use crate::runs::settings;
use csr_graph::Csr;
use obim_engine::{Closed, OpenGate, Recorder, resume, run, run_for};
use route_walks::{ArcRec, EXAMPLE_ARCS, EXAMPLE_SEEDS, INF, Seed, arcs, are_seeds};
use std::alloc::Global;
use std::process::Abort;
use std::sync::Wait;
use std::test::Fail;
use std::thread::Threads;
use std::time::Clock;

/// The work of one worker over a pool that gives the first pushed first: the pushes and their metrics, the visits, and
/// the labels.
struct Order {
    n: u32,
    arcs: &'static [ArcRec],
    seeds: &'static [Seed],
    shift: u32,
    pushes: &'static [(u32, u64)],
    visits: &'static [u32],
    labels: &'static [u64],
}

const LATER: [Seed; 1] = [Seed {
    vertex: 0,
    start: 9,
}];

/// In no order, two of them at one vertex, and one at the last vertex.
const SEVERAL: [Seed; 4] = [
    Seed {
        vertex: 5,
        start: 0,
    },
    Seed {
        vertex: 4,
        start: 3,
    },
    Seed {
        vertex: 2,
        start: 9,
    },
    Seed {
        vertex: 2,
        start: 1,
    },
];

const ORDERS: &[Order] = &[
    Order {
        n: 6,
        arcs: &EXAMPLE_ARCS,
        seeds: &EXAMPLE_SEEDS,
        shift: 0,
        pushes: &[
            (0, 0),
            (1, 17),
            (2, 10),
            (3, 19),
            (4, 10),
            (5, 22),
            (1, 10),
            (3, 12),
            (5, 15),
        ],
        visits: &[0, 1, 2, 3, 4, 5, 1, 3, 5],
        labels: &[0, 10, 10, 12, 10, 15],
    },
    Order {
        n: 6,
        arcs: &EXAMPLE_ARCS,
        seeds: &EXAMPLE_SEEDS,
        shift: 2,
        pushes: &[
            (0, 0),
            (1, 4),
            (2, 2),
            (3, 4),
            (4, 2),
            (5, 5),
            (1, 2),
            (3, 3),
            (5, 3),
        ],
        visits: &[0, 1, 2, 3, 4, 5, 1, 3, 5],
        labels: &[0, 10, 10, 12, 10, 15],
    },
    Order {
        n: 6,
        arcs: &EXAMPLE_ARCS,
        seeds: &LATER,
        shift: 2,
        pushes: &[
            (0, 2),
            (1, 6),
            (2, 4),
            (3, 7),
            (4, 4),
            (5, 7),
            (1, 4),
            (3, 5),
            (5, 6),
        ],
        visits: &[0, 1, 2, 3, 4, 5, 1, 3, 5],
        labels: &[9, 19, 19, 21, 19, 24],
    },
    // Vertex 1 is lowered twice before it is visited, and pushed each time.
    Order {
        n: 3,
        arcs: &arcs![(0, 1, 9), (0, 1, 4), (1, 2, 1)],
        seeds: &EXAMPLE_SEEDS,
        shift: 0,
        pushes: &[(0, 0), (1, 9), (1, 4), (2, 5)],
        visits: &[0, 1, 2],
        labels: &[0, 4, 5],
    },
    // The seeded vertices come first, in the order of their numbers.
    Order {
        n: 6,
        arcs: &EXAMPLE_ARCS,
        seeds: &SEVERAL,
        shift: 0,
        pushes: &[(2, 1), (4, 3), (5, 0), (4, 1), (1, 1), (3, 3)],
        visits: &[2, 4, 5, 1, 3],
        labels: &[INF, 1, 1, 3, 1, 0],
    },
];

fn labels_of<H: Threads + Wait + Clock + Abort + Sync>(
    rt: &H,
    alloc: Global,
    order: &Order,
    sides: &mut [Queue],
    gate: &Recorder,
) -> Result<Vec<u64>, Fail>
    requires { length sides.old ≡ 1 }
{
    let csr = rows_of(rt, alloc, order.n, order.arcs)?;
    let within = are_seeds(csr.n(), order.seeds);
    assert!(rt; within);
    let settings = settings(rt, 1, order.shift, false);
    Ok(run(
        rt,
        alloc,
        &csr,
        order.seeds,
        &settings,
        &FirstIn,
        sides,
        gate,
    )?)
}

#[test]
fn visits_and_pushes_of_one_worker(rt: HostRuntime) -> Result<(), Fail> {
    let alloc = rt.alloc();
    for (row, order) in ORDERS.iter().enumerate() {
        let (gate, mut sides) = (Recorder::new(alloc), FirstIn::sides(alloc)?);
        let labels = labels_of(&rt, alloc, order, &mut sides, &gate)?;
        same_labels(&rt, row, &labels, order.labels);
        let pushed = sides[0].pushes.as_slice() == order.pushes;
        let visited = gate.into_passed().as_slice() == order.visits;
        assert!(rt; pushed && visited, "row {row}");
    }
    Ok(())
}

/// The visits of the first order after which a run is paused, and what is then pushed as it goes on.
const HANDED: &[(u64, &[(u32, u64)])] = &[
    (0, &[(0, 0)]),
    (1, &[(1, 17), (2, 10)]),
    (4, &[(4, 10), (5, 22)]),
];

fn handed_after<H: Threads + Wait + Clock + Abort + Sync>(
    rt: &H,
    alloc: Global,
    csr: &Csr,
    visits: u64,
) -> Result<Vec<Queue>, Fail>
    requires { csr.now.n ≡ 6 }
    ensures { IfOk result (λ sides. length sides.items ≡ 1) }
{
    let (seeds, settings) = (EXAMPLE_SEEDS, settings(rt, 1, 0, false));
    let mut sides = FirstIn::sides(alloc)?;
    let closed = run_for(
        rt, alloc, csr, &seeds, &settings, &FirstIn, &mut sides, &OpenGate, visits,
    )?;
    let Closed::Paused(rest) = closed else {
        panic!(rt; "settled");
    };
    let mut sides = FirstIn::sides(alloc)?;
    resume(
        rt, alloc, csr, &seeds, rest, &settings, &FirstIn, &mut sides, &OpenGate, 0,
    )?;
    Ok(sides)
}

#[test]
fn marked_vertices_are_handed_over(rt: HostRuntime) -> Result<(), Fail> {
    let alloc = rt.alloc();
    let csr = six(alloc)?;
    for (row, &(visits, handed)) in HANDED.iter().enumerate() {
        let sides = handed_after(&rt, alloc, &csr, visits)?;
        assert!(rt; sides[0].pushes.as_slice() == handed, "row {row}");
    }
    Ok(())
}

// A worker takes the vertices of a pool that repeats one up to as many times as there are vertices, and then those of a
// sweep.
#[test]
fn a_pool_that_repeats_is_borne(rt: HostRuntime) -> Result<(), Fail> {
    let (alloc, seeds, n) = (rt.alloc(), EXAMPLE_SEEDS, 3000);
    let csr = star(&rt, alloc, n, 1)?;
    let settings = settings(&rt, 1, 0, false);
    for (times, second) in [(0, n - 1), (n - 1, n - 1), (n, 1)] {
        let (gate, mut sides) = (Recorder::new(alloc), Repeating::sides(alloc)?);
        let pool = Repeating { times };
        run(
            &rt, alloc, &csr, &seeds, &settings, &pool, &mut sides, &gate,
        )?;
        let passed = gate.into_passed();
        let found = (passed.len(), passed.get(1).copied());
        assert!(rt; found == (n as usize, Some(second)), "{times} times");
    }
    Ok(())
}

// A pool that keeps nothing, on a large graph.
#[test]
fn a_sweep_of_a_large_star(rt: HostRuntime) -> Result<(), Fail> {
    let alloc = rt.alloc();
    let csr = star(&rt, alloc, (1 << 20) + 1, 100)?;
    let mut plan = Plan::Same(Piece {
        settings: settings(&rt, 2, 4, false),
        kind: Kind::Useless(false, None),
        budget: u64::MAX,
    });
    let labels = settle(&rt, alloc, &csr, &EXAMPLE_SEEDS, None, &mut plan)?;
    for (v, label) in labels.iter().enumerate() {
        let want = if v == 0 { 0 } else { 1 + v as u64 % 100 };
        assert!(rt; *label == want, "vertex {v}");
    }
    Ok(())
}
