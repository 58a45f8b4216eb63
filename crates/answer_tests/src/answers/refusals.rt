//! Each call with one allocation refused, also inside a worker's push: `Memory` or `Spawn` with a prefix of the answer,
//! and made once more the answer worked by hand.

use crate::answers::added::{SIX_ADDED, SIX_ADDED_WALKS};
use crate::answers::at_once::{SIX_SOURCES, SIX_SOURCES_ANSWER, asked_at_once};
use crate::answers::in_short::SIX_RAW;
use crate::answers::pairs::{SIX_PAIRS, SIX_PAIRS_ANSWER, SIX_PAIRS_WALKS};
use crate::answers::{SIX, SIX_WALKS, asked_for_walks, asked_with};
use job_answer::{
    Answer, Asked, AtOnce, Fault, Lines, NoWatch, answer, answer_bytes, answer_watched,
};
use job_messages::Counter;
use obim_engine::{Gate, OpenGate, Settings};
use route_walks::{Memory, refusable, tried_again};
use std::process::Abort;
use std::test::Fail;

// A writer with room for the answer takes no memory.
const ROOM: usize = 1000;

fn expect_refused(rt: &impl Abort, fault: Fault) {
    assert!(rt; matches!(fault, Fault::Memory | Fault::Spawn), "{fault:?}");
}

// Of the vertices within 10 from the source.
const SIX_WITHIN: &[u8] =
    b"s 1\nd 1 0\nw 1 0 1\nd 2 10\nw 2 10 1 3 5 2\nd 3 10\nw 3 10 1 3\nd 5 10\nw 5 10 1 3 5\n";

fn asked_by(rt: &impl Abort, lines: Lines) -> Asked {
    let settings = Settings::new(2, 4, 16).expect(rt, "settings within their limits");
    Asked::by_lines(Answer::Distances, settings, lines, 1000).expect(rt, "a bound below INF")
}

#[test]
fn of_answer(rt: HostRuntime) -> Result<(), Fail> {
    let alloc = rt.alloc();
    let labels = asked_with(&rt, Answer::Distances, 1000, (2, 4, 16));
    let three = asked_at_once(&rt, 3, AtOnce::Most(3));
    let near = asked_by(&rt, Lines::of(true, Some(10)));
    let totals = asked_by(&rt, Lines::Totals);
    let table = [
        (asked_for_walks(&rt, 1, 1000), SIX, SIX_WALKS),
        (asked_for_walks(&rt, 2, 1000), SIX, SIX_WALKS),
        (asked_for_walks(&rt, 2, 1000), SIX_PAIRS, SIX_PAIRS_WALKS),
        (asked_for_walks(&rt, 2, 1000), SIX_ADDED, SIX_ADDED_WALKS),
        (labels, SIX_PAIRS, SIX_PAIRS_ANSWER),
        (three, SIX_SOURCES, SIX_SOURCES_ANSWER),
        (near, SIX, SIX_WITHIN),
        (asked_by(&rt, Lines::Raw { pairs: false }), SIX, SIX_RAW),
        (totals, SIX, b"t 1 6 57 15 6\n"),
    ];
    for (asked, text, want) in table {
        let (mut reader, mut same) = (text, text);
        let mut out = Vec::with_capacity(alloc, ROOM)?;
        if let Err(fault) = refusable!(
            alloc,
            answer(&rt, alloc, &mut reader, &mut out, &asked, &OpenGate)
        ) {
            expect_refused(&rt, fault);
            assert!(rt; want.starts_with(&out));
            out.clear();
            answer(&rt, alloc, &mut same, &mut out, &asked, &OpenGate)?;
        }
        assert_eq!(rt; out.as_slice(), want);
    }
    Ok(())
}

#[test]
fn of_answer_watched(rt: HostRuntime) -> Result<(), Fail> {
    let alloc = rt.alloc();
    for workers in [1, 2] {
        let asked = asked_for_walks(&rt, workers, 1000);
        let (mut reader, mut same) = (SIX, SIX);
        let mut out = Vec::with_capacity(alloc, ROOM)?;
        if let Err(fault) = refusable!(
            alloc,
            answer_watched(
                &rt,
                alloc,
                &mut reader,
                &mut out,
                &asked,
                &OpenGate,
                &mut NoWatch
            )
        ) {
            expect_refused(&rt, fault);
            assert!(rt; SIX_WALKS.starts_with(&out));
            out.clear();
            answer_watched(
                &rt,
                alloc,
                &mut same,
                &mut out,
                &asked,
                &OpenGate,
                &mut NoWatch,
            )?;
        }
        assert_eq!(rt; out.as_slice(), SIX_WALKS);
    }
    Ok(())
}

#[test]
fn of_answer_bytes(rt: HostRuntime) -> Result<(), Fail> {
    let alloc = rt.alloc();
    for workers in [1, 2] {
        let asked = asked_for_walks(&rt, workers, 1000);
        let bytes = match refusable!(alloc, answer_bytes(&rt, alloc, SIX, &asked, &OpenGate)) {
            Ok(bytes) => bytes,
            Err(fault) => {
                expect_refused(&rt, fault);
                answer_bytes(&rt, alloc, SIX, &asked, &OpenGate)?
            }
        };
        assert_eq!(rt; bytes.as_slice(), SIX_WALKS);
    }
    Ok(())
}

#[test]
fn of_counter_open(rt: HostRuntime) -> Result<(), Fail> {
    let alloc = rt.alloc();
    let counter = tried_again!(rt, alloc, Memory, Counter::open(alloc, 2));
    counter.pass(&rt, 1, 7);
    for (worker, visits) in [(0, 0), (1, 1), (2, 0)] {
        assert_eq!(rt; counter.visits_of(worker), visits);
    }
    Ok(())
}
