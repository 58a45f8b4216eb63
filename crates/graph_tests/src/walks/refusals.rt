//! Each call with one allocation refused: `Memory`, and made once more what was worked by hand.

use route_walks::{
    ArcRec, EXAMPLE_ARCS, Memory, Seed, arcs, are_seeds, both_ways, is_graph, plain_labels,
    seeds_all, seeds_from, tried_again, unit_weights,
};
use std::test::Fail;

const ONE: [ArcRec; 1] = arcs![(0, 1, 7)];

#[test]
fn of_plain_labels(rt: HostRuntime) -> Result<(), Fail> {
    let alloc = rt.alloc();
    let (arcs, seeds) = (EXAMPLE_ARCS, [Seed::new(0, 0)]);
    let (graph, sown) = (is_graph(6, &arcs), are_seeds(6, &seeds));
    assert!(rt; graph && sown);
    let labels = tried_again!(rt, alloc, Memory, plain_labels(alloc, 6, &arcs, &seeds));
    assert_eq!(rt; labels.as_slice(), [0, 10, 10, 12, 10, 15].as_slice());
    Ok(())
}

#[test]
fn of_seeds_from(rt: HostRuntime) -> Result<(), Fail> {
    let alloc = rt.alloc();
    let seeds = tried_again!(rt, alloc, Memory, seeds_from(alloc, 2));
    assert_eq!(rt; seeds.as_slice(), [Seed::new(2, 0)].as_slice());
    Ok(())
}

#[test]
fn of_seeds_all(rt: HostRuntime) -> Result<(), Fail> {
    let alloc = rt.alloc();
    let seeds = tried_again!(rt, alloc, Memory, seeds_all(alloc, 3));
    let all = [Seed::new(0, 0), Seed::new(1, 1), Seed::new(2, 2)];
    assert_eq!(rt; seeds.as_slice(), all.as_slice());
    Ok(())
}

#[test]
fn of_unit_weights(rt: HostRuntime) -> Result<(), Fail> {
    let alloc = rt.alloc();
    let arcs = tried_again!(rt, alloc, Memory, unit_weights(alloc, &ONE));
    assert_eq!(rt; arcs.as_slice(), [ArcRec::new(0, 1, 1)].as_slice());
    Ok(())
}

#[test]
fn of_both_ways(rt: HostRuntime) -> Result<(), Fail> {
    let alloc = rt.alloc();
    let arcs = tried_again!(rt, alloc, Memory, both_ways(alloc, &ONE));
    let both = [ArcRec::new(0, 1, 0), ArcRec::new(1, 0, 0)];
    assert_eq!(rt; arcs.as_slice(), both.as_slice());
    Ok(())
}
