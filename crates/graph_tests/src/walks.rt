//! Labels, arcs and seeds worked by hand.

mod refusals;

use route_walks::{
    ArcRec, EXAMPLE_ARCS, EXAMPLE_SEEDS, INF, Seed, arcs, are_seeds, both_ways, is_graph,
    is_settled, plain_labels, seeds_all, seeds_from, unit_weights,
};
use std::alloc::Global;
use std::process::Abort;
use std::test::Fail;

fn expect_labels(
    rt: &impl Abort,
    alloc: Global,
    n: u32,
    arcs: &[ArcRec],
    seeds: &[Seed],
    want: &[u64],
) -> Result<(), Fail> {
    let within = is_graph(n, arcs) && are_seeds(n, seeds);
    assert!(rt; within);
    let labels = plain_labels(alloc, n, arcs, seeds)?;
    assert_eq!(rt; labels.as_slice(), want);
    assert!(rt; is_settled(labels.as_slice(), arcs, seeds));
    Ok(())
}

const HEAVY: [ArcRec; 2] = arcs![(0, 1, u32::MAX), (1, 2, u32::MAX)];

const PARALLEL: [ArcRec; 3] = arcs![(0, 1, 7), (0, 1, 3), (0, 0, 0)];

const FROM_2: [Seed; 1] = [Seed {
    vertex: 2,
    start: 0,
}];

const LATE: [Seed; 2] = [
    Seed {
        vertex: 0,
        start: INF - 1,
    },
    Seed {
        vertex: 0,
        start: INF,
    },
];

/// Vertices, arcs, seeds and labels.
const ROWS: [(u32, &[ArcRec], &[Seed], &[u64]); 6] = [
    (6, &EXAMPLE_ARCS, &EXAMPLE_SEEDS, &[0, 10, 10, 12, 10, 15]),
    (6, &EXAMPLE_ARCS, &FROM_2, &[INF, 0, 0, 2, 0, 5]),
    (3, &HEAVY, &EXAMPLE_SEEDS, &[0, 4294967295, 8589934590]),
    (2, &PARALLEL, &EXAMPLE_SEEDS, &[0, 3]),
    (2, &PARALLEL, &LATE, &[INF - 1, INF]),
    (0, &[], &[], &[]),
];

#[test]
fn labels_of_small_graphs(rt: HostRuntime) -> Result<(), Fail> {
    let alloc = rt.alloc();
    for (n, arcs, seeds, want) in ROWS {
        expect_labels(&rt, alloc, n, arcs, seeds, want)?;
    }
    Ok(())
}

#[test]
fn labels_of_the_operators(rt: HostRuntime) -> Result<(), Fail> {
    let alloc = rt.alloc();
    let (units, both) = (
        unit_weights(alloc, &EXAMPLE_ARCS)?,
        both_ways(alloc, &EXAMPLE_ARCS)?,
    );
    let split = both_ways(alloc, &arcs![(1, 0, 5)])?;
    let from_0 = seeds_from(alloc, 0)?;
    expect_labels(&rt, alloc, 6, &units, &from_0, &[0, 1, 1, 2, 2, 3])?;
    expect_labels(&rt, alloc, 6, &both, &seeds_all(alloc, 6)?, &[0; 6])?;
    expect_labels(&rt, alloc, 3, &split, &seeds_all(alloc, 3)?, &[0, 0, 2])
}

#[test]
fn settled_only_where_nothing_falls(rt: HostRuntime) -> Result<(), Fail> {
    let arcs = [ArcRec::new(0, 1, 3)];
    let seeds = [Seed::new(0, 1)];
    let (graph, sown) = (is_graph(2, &arcs), are_seeds(2, &seeds));
    assert!(rt; graph && sown);
    for (first, second, want) in [(1, 4, true), (1, 5, false), (2, 4, false), (0, 0, true)] {
        assert_eq!(rt;
            is_settled(&[first, second], &arcs, &seeds),
            want,
            "{first} {second}"
        );
    }
    Ok(())
}

fn expect_seeds(rt: &impl Abort, seeds: &[Seed], want: &[Seed]) {
    assert_eq!(rt; seeds, want);
}

fn expect_arcs(rt: &impl Abort, arcs: &[ArcRec], want: &[ArcRec]) {
    assert_eq!(rt; arcs, want);
}

#[test]
fn arcs_and_seeds_of_the_operators(rt: HostRuntime) -> Result<(), Fail> {
    let alloc = rt.alloc();
    expect_seeds(&rt, &seeds_from(alloc, 2)?, &[Seed::new(2, 0)]);
    let all = [Seed::new(0, 0), Seed::new(1, 1), Seed::new(2, 2)];
    expect_seeds(&rt, &seeds_all(alloc, 3)?, &all);
    let only = arcs![(0, 1, 7)];
    expect_arcs(&rt, &unit_weights(alloc, &only)?, &arcs![(0, 1, 1)]);
    expect_arcs(&rt, &both_ways(alloc, &only)?, &arcs![(0, 1, 0), (1, 0, 0)]);
    Ok(())
}
