//! One space, asked again and again.

ghost use Rattle.std.specs.Prelude.{◌≡◌};

use crate::reports::{FREE_CIRCLE, SHORT_CUT, are_below, build, distances_below, expect_numbers};
use csr_graph::Csr;
use route_walks::{EXAMPLE_ARCS, INF};
use std::alloc::Global;
use std::process::Abort;
use std::test::Fail;
use walk_report::{LabelsBelow, WalkSpace};

/// A question, and the expected walks; empty for none.
#[derive(Clone, Copy)]
struct Asked<'a> {
    source: u32,
    limit: u64,
    targets: &'a [u32],
    walks: &'a [&'a [u32]],
}

fn expect_asked(
    rt: &impl Abort,
    alloc: Global,
    space: &mut WalkSpace,
    csr: &Csr,
    asked: &Asked,
) -> Result<(), Fail>
    requires { space.old ≡ csr.now.n }
    ensures { space.new ≡ space.old }
{
    let Asked {
        source,
        limit,
        targets,
        walks,
    } = *asked;
    let within = source < csr.n() && are_below(csr.n(), targets);
    assert!(rt; within);
    let labels = distances_below(alloc, csr, source, limit)?;
    let start = labels[source as usize];
    assert!(rt; start == 0 || limit == 0);
    let from = LabelsBelow {
        labels: &labels,
        source,
        limit,
    };
    let found = space.walks_to(alloc, csr, from, targets)?;
    assert_eq!(rt; found.len(), walks.len());
    for (walk, want) in found.iter().zip(walks) {
        expect_numbers(rt, walk, want);
    }
    Ok(())
}

/// Asserts what a space gives to questions in turn, and a new one to each.
fn expect_all(rt: &impl Abort, alloc: Global, csr: &Csr, questions: &[Asked]) -> Result<(), Fail> {
    let n = csr.n();
    let mut space = WalkSpace::new(alloc, n)?;
    for asked in questions {
        expect_asked(rt, alloc, &mut space, csr, asked)?;
        let mut other = WalkSpace::new(alloc, n)?;
        expect_asked(rt, alloc, &mut other, csr, asked)?;
    }
    assert_eq!(rt; space.vertices(), n as usize);
    Ok(())
}

const OF_SIX: [Asked<'static>; 6] = [
    Asked {
        source: 0,
        limit: INF,
        targets: &[5, 0, 3, 3],
        walks: &[
            &[0, 2, 4, 1, 3, 5],
            &[0],
            &[0, 2, 4, 1, 3],
            &[0, 2, 4, 1, 3],
        ],
    },
    Asked {
        source: 2,
        limit: INF,
        targets: &[0, 3, 2],
        walks: &[&[], &[2, 4, 1, 3], &[2]],
    },
    Asked {
        source: 0,
        limit: 12,
        targets: &[3, 1, 4],
        walks: &[&[], &[0, 2, 4, 1], &[0, 2, 4]],
    },
    Asked {
        source: 0,
        limit: 0,
        targets: &[0],
        walks: &[&[]],
    },
    Asked {
        source: 5,
        limit: INF,
        targets: &[],
        walks: &[],
    },
    Asked {
        source: 0,
        limit: INF,
        targets: &[3],
        walks: &[&[0, 2, 4, 1, 3]],
    },
];

const OF_SHORT_CUT: [Asked<'static>; 3] = [
    Asked {
        source: 0,
        limit: 3,
        targets: &[1, 6],
        walks: &[&[0, 4, 5, 1], &[0, 2, 3, 6]],
    },
    Asked {
        source: 0,
        limit: 2,
        targets: &[1, 2],
        walks: &[&[], &[0, 2]],
    },
    Asked {
        source: 2,
        limit: INF,
        targets: &[4, 1],
        walks: &[&[], &[2, 3, 6, 1]],
    },
];

const OF_FREE_CIRCLE: [Asked<'static>; 2] = [
    Asked {
        source: 2,
        limit: INF,
        targets: &[0, 1],
        walks: &[&[2, 1, 0], &[2, 1]],
    },
    Asked {
        source: 0,
        limit: INF,
        targets: &[0, 1, 2],
        walks: &[&[0], &[0, 1], &[]],
    },
];

#[test]
fn walks_of_one_question_after_another(rt: HostRuntime) -> Result<(), Fail> {
    let alloc = rt.alloc();
    let six = build(&rt, alloc, 6, &EXAMPLE_ARCS)?;
    expect_all(&rt, alloc, &six, &OF_SIX)?;
    let seven = build(&rt, alloc, 7, &SHORT_CUT)?;
    expect_all(&rt, alloc, &seven, &OF_SHORT_CUT)?;
    let three = build(&rt, alloc, 3, &FREE_CIRCLE)?;
    expect_all(&rt, alloc, &three, &OF_FREE_CIRCLE)
}
