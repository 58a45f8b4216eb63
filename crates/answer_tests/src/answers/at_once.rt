//! Sources side by side: their workers, and long walks.

use crate::answers::answer_with_figures;
use crate::answers::gates::Meeting;
use job_answer::{Answer, Asked, AtOnce, answer_bytes};
use job_messages::Counter;
use obim_engine::{OpenGate, Settings};
use std::alloc::Global;
use std::process::Abort;
use std::sync::Wait;
use std::test::Fail;
use std::thread::Threads;
use std::time::Clock;

/// The graph of six vertices with five sources.
pub const SIX_SOURCES: &[u8] =
    b"p sp 6 8\na 1 2 17\na 1 3 10\na 2 4 2\na 3 5 0\na 4 3 0\na 4 6 3\na 5 2 0\na 5 6 20\n\
      p aux sp ss 5\ns 1\ns 6\ns 4\ns 2\ns 1\n";

pub const SIX_SOURCES_ANSWER: &[u8] = b"s 1\nd 1 0\nd 2 10\nd 3 10\nd 4 12\nd 5 10\nd 6 15\n\
      s 6\nd 1 inf\nd 2 inf\nd 3 inf\nd 4 inf\nd 5 inf\nd 6 0\n\
      s 4\nd 1 inf\nd 2 0\nd 3 0\nd 4 0\nd 5 0\nd 6 3\n\
      s 2\nd 1 inf\nd 2 0\nd 3 2\nd 4 2\nd 5 2\nd 6 5\n\
      s 1\nd 1 0\nd 2 10\nd 3 10\nd 4 12\nd 5 10\nd 6 15\n";

pub fn asked_at_once(rt: &impl Abort, workers: u32, at_once: AtOnce) -> Asked {
    asked_for(rt, false, workers, at_once)
}

fn asked_for(rt: &impl Abort, walks: bool, workers: u32, at_once: AtOnce) -> Asked {
    let settings = Settings::new(workers, 0, 16).expect(rt, "settings within their limits");
    let asked = Asked::new(Answer::Distances, settings, walks, 1 << 20).expect(rt, "distances");
    asked.with_at_once(at_once)
}

// Each source reaches itself alone, so the second visit is of another.
#[test]
fn sources_meet(rt: HostRuntime) -> Result<(), Fail> {
    let job = b"p sp 2 0\np aux sp ss 2\ns 1\ns 2\n".as_slice();
    let gate = Meeting::new();
    let asked = asked_at_once(&rt, 2, AtOnce::Auto);
    let bytes = answer_bytes(&rt, rt.alloc(), job, &asked, &gate)?;
    assert_eq!(rt;
        bytes.as_slice(),
        b"s 1\nd 1 0\nd 2 inf\ns 2\nd 1 inf\nd 2 0\n".as_slice()
    );
    assert!(rt; gate.met());
    assert_eq!(rt; gate.workers(), 0b11);
    Ok(())
}

// The workers, the sources at once that are asked for, and those that were solved at once.
const AT_ONCE: [(u32, AtOnce, usize); 6] = [
    (5, AtOnce::Most(2), 2),
    (8, AtOnce::Most(3), 3),
    (3, AtOnce::Most(3), 3),
    (3, AtOnce::Most(64), 3),
    (64, AtOnce::Auto, 5),
    (1, AtOnce::Most(3), 1),
];

// One at a time takes 6, 1, 5, 5 and 6 visits, and several at once as many.
#[test]
fn figures_of_sources_at_once(rt: HostRuntime) -> Result<(), Fail> {
    let alloc = rt.alloc();
    for (workers, at_once, most) in AT_ONCE {
        let counter = Counter::open(alloc, workers)?;
        let asked = asked_at_once(&rt, workers, at_once);
        let (bytes, figures) = answer_with_figures(&rt, alloc, SIX_SOURCES, &asked, &counter)?;
        assert_eq!(rt; bytes.as_slice(), SIX_SOURCES_ANSWER);
        assert_eq!(rt; (figures.solves, figures.at_once), (5, most));
        assert!(rt; all_visits(&counter, workers) >= 23);
    }
    Ok(())
}

// One worker makes these visits in a small graph.
#[test]
fn sources_of_one_worker_alone(rt: HostRuntime) -> Result<(), Fail> {
    let counter = Counter::open(rt.alloc(), 8)?;
    let asked = asked_at_once(&rt, 8, AtOnce::Auto).with_saving(true);
    let (bytes, figures) = answer_with_figures(&rt, rt.alloc(), SIX_SOURCES, &asked, &counter)?;
    assert_eq!(rt; bytes.as_slice(), SIX_SOURCES_ANSWER);
    assert_eq!(rt; (figures.solves, figures.at_once), (5, 1));
    assert_eq!(rt; (counter.visits_of(0), all_visits(&counter, 8)), (23, 23));
    Ok(())
}

fn all_visits(counter: &Counter, workers: u32) -> u64 {
    let mut visits = 0_u64;
    for worker in 0..workers {
        visits = counter.visits_of(worker).saturating_add(visits);
    }
    visits
}

/// A path of 200 vertices with these queries.
pub fn path(alloc: Global, queries: &[u8]) -> Result<Vec<u8>, Fail> {
    let mut text = Vec::from_slice(alloc, b"p sp 200 199\n")?;
    for v in 1..200_u32 {
        let line = format!(in alloc; "a {v} {} 1\n", v + 1)?;
        text.extend_from_slice(line.as_bytes())?;
    }
    text.extend_from_slice(queries)?;
    Ok(text)
}

/// Forty pairs of twenty sources, two each, with walks of almost all vertices.
fn long_pairs(alloc: Global) -> Result<Vec<u8>, Fail> {
    let mut queries = Vec::from_slice(alloc, b"p aux sp p2p 40\n")?;
    for place in 0..40_u32 {
        let line = format!(in alloc; "q {} 200\n", 1 + place / 20)?;
        queries.extend_from_slice(line.as_bytes())?;
    }
    path(alloc, &queries)
}

// The text of each solve has more than 64 bytes a vertex, so none is kept: the two that were tried are solved again.
#[test]
fn long_walks_are_not_kept(rt: HostRuntime) -> Result<(), Fail> {
    let sources = path(rt.alloc(), b"p aux sp ss 6\ns 1\ns 2\ns 3\ns 4\ns 5\ns 6\n")?;
    let pairs = long_pairs(rt.alloc())?;
    for (text, solves) in [(&sources, 6), (&pairs, 2)] {
        let one = answer_by(&rt, rt.alloc(), text, 1, solves)?;
        let two = answer_by(&rt, rt.alloc(), text, 2, solves + 2)?;
        assert_eq!(rt; two.as_slice(), one.as_slice());
    }
    Ok(())
}

/// The answer with walks by two workers, and its runs.
fn answer_by<H: Abort + Threads + Wait + Clock + Sync>(
    rt: &H,
    alloc: Global,
    text: &[u8],
    at_once: u32,
    runs: usize,
) -> Result<Vec<u8>, Fail> {
    let asked = asked_for(rt, true, 2, AtOnce::Most(at_once));
    let (bytes, figures) = answer_with_figures(rt, alloc, text, &asked, &OpenGate)?;
    assert_eq!(rt; figures.solves, runs);
    Ok(bytes)
}
