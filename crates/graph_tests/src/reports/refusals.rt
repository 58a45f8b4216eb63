//! Each call with one allocation refused: `Memory`, and made once more the walks worked by hand.

use crate::reports::{are_below, build, distances, distances_below};
use route_walks::{EXAMPLE_ARCS, Memory, tried_again};
use std::test::Fail;
use walk_report::{LabelsBelow, NONE, WalkSpace, hops, hops_below, parents, walk_to};

const HOPS: [u32; 6] = [0, 3, 1, 4, 2, 5];

const PARENTS: [u32; 6] = [NONE, 4, 0, 1, 2, 3];

#[test]
fn of_hops(rt: HostRuntime) -> Result<(), Fail> {
    let alloc = rt.alloc();
    let csr = build(&rt, alloc, 6, &EXAMPLE_ARCS)?;
    let labels = distances(alloc, &csr, 0)?;
    let hops = tried_again!(rt, alloc, Memory, hops(alloc, &csr, &labels, 0));
    assert_eq!(rt; hops.as_slice(), HOPS.as_slice());
    Ok(())
}

#[test]
fn of_hops_below(rt: HostRuntime) -> Result<(), Fail> {
    let alloc = rt.alloc();
    let csr = build(&rt, alloc, 6, &EXAMPLE_ARCS)?;
    let labels = distances_below(alloc, &csr, 0, 12)?;
    let hops = tried_again!(rt, alloc, Memory, hops_below(alloc, &csr, &labels, 0, 12));
    assert_eq!(rt; hops.as_slice(), [0, 3, 1, NONE, 2, NONE].as_slice());
    Ok(())
}

#[test]
fn of_parents(rt: HostRuntime) -> Result<(), Fail> {
    let alloc = rt.alloc();
    let csr = build(&rt, alloc, 6, &EXAMPLE_ARCS)?;
    let labels = distances(alloc, &csr, 0)?;
    let hops = hops(alloc, &csr, &labels, 0)?;
    let parents = tried_again!(rt, alloc, Memory, parents(alloc, &csr, &labels, &hops));
    assert_eq!(rt; parents.as_slice(), PARENTS.as_slice());
    Ok(())
}

#[test]
fn of_walk_to(rt: HostRuntime) -> Result<(), Fail> {
    let alloc = rt.alloc();
    let csr = build(&rt, alloc, 6, &EXAMPLE_ARCS)?;
    let labels = distances(alloc, &csr, 0)?;
    let hops = hops(alloc, &csr, &labels, 0)?;
    let parents = parents(alloc, &csr, &labels, &hops)?;
    assert_eq!(rt; hops.len(), 6);
    let walk = tried_again!(rt, alloc, Memory, walk_to(alloc, &hops, &parents, 5));
    let want = Some([0, 2, 4, 1, 3, 5].as_slice());
    assert!(rt; walk.as_ref().map(|walk| walk.as_slice()) == want);
    Ok(())
}

#[test]
fn of_walk_space_new(rt: HostRuntime) -> Result<(), Fail> {
    let space = tried_again!(rt, rt.alloc(), Memory, WalkSpace::new(rt.alloc(), 6));
    assert_eq!(rt; space.vertices(), 6);
    Ok(())
}

// The second call is made in the space that the refusal left.
#[test]
fn of_walk_space_walks_to(rt: HostRuntime) -> Result<(), Fail> {
    let alloc = rt.alloc();
    let csr = build(&rt, alloc, 6, &EXAMPLE_ARCS)?;
    let labels = distances_below(alloc, &csr, 0, 13)?;
    let targets = [3, 5, 0];
    assert!(rt; are_below(6, &targets));
    let mut space = WalkSpace::new(alloc, 6)?;
    let start = labels[0];
    assert_eq!(rt; start, 0);
    let from = LabelsBelow {
        labels: &labels,
        source: 0,
        limit: 13,
    };
    let walks = tried_again!(
        rt,
        alloc,
        Memory,
        space.walks_to(alloc, &csr, from, &targets)
    );
    assert_eq!(rt; walks.len(), 3);
    assert_eq!(rt; walks[0].as_slice(), [0, 2, 4, 1, 3].as_slice());
    assert!(rt; walks[1].is_empty());
    assert_eq!(rt; walks[2].as_slice(), [0].as_slice());
    Ok(())
}
