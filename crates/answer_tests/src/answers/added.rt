//! Added arcs: solves and visits.

use crate::answers::{SIX, SIX_GRAPH, answer_with_figures};
use job_answer::{Answer, Asked, answer_bytes};
use obim_engine::{OpenGate, Recorder, Settings};
use std::alloc::Global;
use std::process::Abort;
use std::test::Fail;

/// The six vertices with a cheaper arc from 1 to 6.
pub const SIX_ADDED: &[u8] =
    b"p sp 6 8\na 1 2 17\na 1 3 10\na 2 4 2\na 3 5 0\na 4 3 0\na 4 6 3\na 5 2 0\na 5 6 20\n\
      p aux sp ss 1\ns 1\np aux sp add 1\na 1 6 4\n";

/// The answer with walks before and after.
pub const SIX_ADDED_WALKS: &[u8] =
    b"s 1\nd 1 0\nw 1 0 1\nd 2 10\nw 2 10 1 3 5 2\nd 3 10\nw 3 10 1 3\nd 4 12\n\
      w 4 12 1 3 5 2 4\nd 5 10\nw 5 10 1 3 5\nd 6 15\nw 6 15 1 3 5 2 4 6\ng 1\n\
      s 1\nd 1 0\nw 1 0 1\nd 2 10\nw 2 10 1 3 5 2\nd 3 10\nw 3 10 1 3\nd 4 12\n\
      w 4 12 1 3 5 2 4\nd 5 10\nw 5 10 1 3 5\nd 6 4\nw 6 4 1 6\n";

pub(crate) fn asked(
    rt: &impl Abort,
    answer: Answer,
    walks: bool,
    settings: (u32, u32, usize),
) -> Asked {
    let (workers, shift, chunk) = settings;
    let settings = Settings::new(workers, shift, chunk).expect(rt, "settings within their limits");
    Asked::new(answer, settings, walks, 100000).expect(rt, "walks of distances or levels")
}

/// The graph of six vertices with these sections.
pub(crate) fn six_with(alloc: Global, sections: &[u8]) -> Result<Vec<u8>, Fail> {
    let mut text = Vec::from_slice(alloc, &SIX[..SIX_GRAPH])?;
    text.extend_from_slice(sections)?;
    Ok(text)
}

const SOURCES: &[u8] = b"p aux sp ss 3\ns 3\ns 1\ns 3\n";

const SOURCES_NONE: &[u8] = b"p aux sp ss 3\ns 3\ns 1\ns 3\np aux sp add 0\n";

const SOURCES_ONE: &[u8] = b"p aux sp ss 3\ns 3\ns 1\ns 3\np aux sp add 1\na 1 6 4\n";

const NO_SOURCE_ONE: &[u8] = b"p aux sp ss 0\np aux sp add 1\na 1 6 4\n";

const PAIRS: &[u8] = b"p aux sp p2p 4\nq 1 6\nq 6 1\nq 1 6\nq 1 1\n";

const PAIRS_ONE: &[u8] = b"p aux sp p2p 4\nq 1 6\nq 6 1\nq 1 6\nq 1 1\np aux sp add 1\na 1 6 4\n";

const ONE: &[u8] = b"p aux sp add 1\na 1 6 4\n";

// The answer, walks or not, what follows the graph, and the solves.
const RUNS: [(Answer, bool, &[u8], usize); 11] = [
    (Answer::Distances, false, SOURCES, 3),
    (Answer::Distances, false, SOURCES_NONE, 6),
    (Answer::Distances, true, SOURCES_ONE, 6),
    (Answer::Levels, false, SOURCES_ONE, 6),
    (Answer::Distances, false, PAIRS, 2),
    (Answer::Distances, false, PAIRS_ONE, 4),
    (Answer::Distances, true, PAIRS, 3),
    (Answer::Distances, true, PAIRS_ONE, 6),
    (Answer::Distances, false, NO_SOURCE_ONE, 0),
    (Answer::Components, false, b"", 1),
    (Answer::Components, false, ONE, 2),
];

// With added arcs labels are worked out twice as often.
#[test]
fn runs_with_added_arcs(rt: HostRuntime) -> Result<(), Fail> {
    for (kind, walks, sections, runs) in RUNS {
        let text = six_with(rt.alloc(), sections)?;
        let asked = asked(&rt, kind, walks, (1, 4, 16));
        let (_, figures) = answer_with_figures(&rt, rt.alloc(), &text, &asked, &OpenGate)?;
        assert_eq!(rt; figures.solves, runs);
    }
    Ok(())
}

// What follows the graph, and the vertices that one worker visits.
const VISITS: [(&[u8], &[u32]); 4] = [
    (b"p aux sp ss 1\ns 1\np aux sp add 0\n", &[0, 2, 4, 1, 3, 5]),
    (
        b"p aux sp ss 1\ns 1\np aux sp add 1\na 1 6 4\n",
        &[0, 2, 4, 1, 3, 5, 0, 5],
    ),
    // It lowers no label: only its tail is visited.
    (
        b"p aux sp ss 1\ns 1\np aux sp add 1\na 3 6 5\n",
        &[0, 2, 4, 1, 3, 5, 2],
    ),
    (
        b"p aux sp ss 1\ns 1\np aux sp add 2\na 2 6 1\na 2 6 2\n",
        &[0, 2, 4, 1, 3, 5, 1, 5],
    ),
];

// After added arcs one worker visits their tails and what they lower.
#[test]
fn visits_of_added_arcs(rt: HostRuntime) -> Result<(), Fail> {
    for (sections, visits) in VISITS {
        let text = six_with(rt.alloc(), sections)?;
        let gate = Recorder::new(rt.alloc());
        let asked = asked(&rt, Answer::Distances, false, (1, 0, 1));
        answer_bytes(&rt, rt.alloc(), &text, &asked, &gate)?;
        assert_eq!(rt; gate.into_passed().as_slice(), visits);
    }
    Ok(())
}
