//! Each call with one allocation refused: it finds nothing, and made once more in the same lists what was worked by
//! hand.

use crate::near::Question::{Cost, Labels, Toward, Walk, Walks, WalksToward, Within};
use crate::near::{ALL, ENOUGH, FROM_0, Question, is_right, room_of};
use crate::reports::build;
use near_labels::{BothWays, SearchSpace};
use route_walks::{EXAMPLE_ARCS, Memory, refusable, tried_again};
use std::alloc::Global;
use std::process::Abort;
use std::test::Fail;

/// Asserts that the answer is right, asked once more if there was none.
fn expect_again(rt: &impl Abort, alloc: Global, question: Question) -> Result<(), Fail> {
    let csr = build(rt, alloc, 6, &EXAMPLE_ARCS)?;
    let reversed = csr.reversed(alloc)?;
    let mut room = room_of(alloc, 6)?;
    room.forward.allow(ENOUGH, usize::MAX);
    let ways = BothWays::of(&csr, &reversed);
    let found = refusable!(
        alloc,
        is_right(rt, alloc, &mut room, &ways, &FROM_0, question)
    );
    let right = match found {
        Some(right) => Some(right),
        None => is_right(rt, alloc, &mut room, &ways, &FROM_0, question),
    };
    assert!(rt; right == Some(true));
    Ok(())
}

#[test]
fn of_search_space_new(rt: HostRuntime) -> Result<(), Fail> {
    let space = tried_again!(rt, rt.alloc(), Memory, SearchSpace::new(rt.alloc(), 6));
    assert!(rt; space.vertices() == 6);
    Ok(())
}

// Also the search from both ends, which takes no allocator and has no row.
#[test]
fn of_search_space_labels_to(rt: HostRuntime) -> Result<(), Fail> {
    expect_again(&rt, rt.alloc(), Labels(&ALL))?;
    expect_again(&rt, rt.alloc(), Cost(5))
}

#[test]
fn of_search_space_labels_toward(rt: HostRuntime) -> Result<(), Fail> {
    expect_again(&rt, rt.alloc(), Toward(&[5]))
}

#[test]
fn of_search_space_walks_to(rt: HostRuntime) -> Result<(), Fail> {
    expect_again(&rt, rt.alloc(), Walks)
}

#[test]
fn of_search_space_walks_toward(rt: HostRuntime) -> Result<(), Fail> {
    expect_again(&rt, rt.alloc(), WalksToward(&[5]))
}

#[test]
fn of_search_space_walk_between(rt: HostRuntime) -> Result<(), Fail> {
    expect_again(&rt, rt.alloc(), Walk(5))
}

#[test]
fn of_search_space_within(rt: HostRuntime) -> Result<(), Fail> {
    expect_again(&rt, rt.alloc(), Within(12))
}
