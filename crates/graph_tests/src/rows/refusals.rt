//! Each call with one allocation refused: `Memory`, and made once more the rows worked by hand.

use crate::rows::{
    ADDED, CHANGED, ENTERING, GIVEN, GROWN, REMOVED, UNITS, both_rows, expect_rows, graph_of, six,
};
use csr_graph::Csr;
use route_walks::{EXAMPLE_ARCS, Memory, is_graph, tried_again};
use std::test::Fail;

// No arc; few, sorted where they stand; and enough for bins by two threads.
const SIZES: [(u32, usize); 3] = [(1, 0), (10, 64), (4, 65_600)];

#[test]
fn of_csr_build(rt: HostRuntime) -> Result<(), Fail> {
    let alloc = rt.alloc();
    assert!(rt; is_graph(6, &GIVEN));
    let csr = tried_again!(rt, alloc, Memory, Csr::build(alloc, 6, &GIVEN));
    expect_rows(&rt, alloc, &csr, 6, &EXAMPLE_ARCS)
}

#[test]
fn of_csr_build_from(rt: HostRuntime) -> Result<(), Fail> {
    let alloc = rt.alloc();
    for (n, count) in SIZES {
        let arcs = graph_of(&rt, alloc, n, count)?;
        let same = graph_of(&rt, alloc, n, count)?;
        let rows = Csr::build(alloc, n, &arcs)?.arcs(alloc)?;
        let csr = tried_again!(
            rt,
            alloc,
            Memory,
            Csr::build_from(&rt, alloc, n, arcs, 2),
            Csr::build_from(&rt, alloc, n, same, 2)
        );
        expect_rows(&rt, alloc, &csr, n, &rows)?;
    }
    Ok(())
}

#[test]
fn of_csr_build_both_ways(rt: HostRuntime) -> Result<(), Fail> {
    let alloc = rt.alloc();
    for (n, count) in SIZES {
        let arcs = graph_of(&rt, alloc, n, count)?;
        let same = graph_of(&rt, alloc, n, count)?;
        let rows = both_rows(&rt, alloc, n, &arcs)?;
        let csr = tried_again!(
            rt,
            alloc,
            Memory,
            Csr::build_both_ways(&rt, alloc, n, arcs, 2),
            Csr::build_both_ways(&rt, alloc, n, same, 2)
        );
        expect_rows(&rt, alloc, &csr, n, &rows)?;
    }
    Ok(())
}

#[test]
fn of_csr_arcs(rt: HostRuntime) -> Result<(), Fail> {
    let alloc = rt.alloc();
    let csr = six(&rt, alloc)?;
    let arcs = tried_again!(rt, alloc, Memory, csr.arcs(alloc));
    assert!(rt; arcs.as_slice() == EXAMPLE_ARCS.as_slice());
    Ok(())
}

#[test]
fn of_csr_with_unit_weights(rt: HostRuntime) -> Result<(), Fail> {
    let alloc = rt.alloc();
    let csr = six(&rt, alloc)?;
    let units = tried_again!(rt, alloc, Memory, csr.with_unit_weights(alloc));
    expect_rows(&rt, alloc, &units, 6, &UNITS)?;
    expect_rows(&rt, alloc, &csr, 6, &EXAMPLE_ARCS)
}

#[test]
fn of_csr_with_both_ways(rt: HostRuntime) -> Result<(), Fail> {
    let alloc = rt.alloc();
    for (n, count) in SIZES {
        let arcs = graph_of(&rt, alloc, n, count)?;
        let csr = Csr::build(alloc, n, &arcs)?;
        let own = csr.arcs(alloc)?;
        let rows = both_rows(&rt, alloc, n, &own)?;
        let both = tried_again!(rt, alloc, Memory, csr.with_both_ways(alloc));
        expect_rows(&rt, alloc, &both, n, &rows)?;
    }
    Ok(())
}

#[test]
fn of_csr_reversed(rt: HostRuntime) -> Result<(), Fail> {
    let alloc = rt.alloc();
    let csr = six(&rt, alloc)?;
    let reversed = tried_again!(rt, alloc, Memory, csr.reversed(alloc));
    expect_rows(&rt, alloc, &reversed, 6, &ENTERING)
}

// After a refusal the graph is as it was.
#[test]
fn of_csr_with_arcs(rt: HostRuntime) -> Result<(), Fail> {
    let alloc = rt.alloc();
    assert!(rt; is_graph(6, &ADDED));
    let csr = six(&rt, alloc)?;
    let grown = tried_again!(rt, alloc, Memory, csr.with_arcs(alloc, &ADDED));
    expect_rows(&rt, alloc, &grown, 6, &GROWN)?;
    expect_rows(&rt, alloc, &csr, 6, &EXAMPLE_ARCS)
}

#[test]
fn of_csr_changed(rt: HostRuntime) -> Result<(), Fail> {
    let alloc = rt.alloc();
    assert!(rt; is_graph(6, &ADDED));
    let csr = six(&rt, alloc)?;
    let changed = tried_again!(rt, alloc, Memory, csr.changed(alloc, &REMOVED, &ADDED));
    expect_rows(&rt, alloc, &changed, 6, &CHANGED)?;
    expect_rows(&rt, alloc, &csr, 6, &EXAMPLE_ARCS)
}
