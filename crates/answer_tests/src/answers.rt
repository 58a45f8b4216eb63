//! `answer` over readers and writers that fail, its faults, figures and visits. Whole jobs are in `tests/answers.txt`.

mod added;
mod at_once;
mod callers;
mod cuts;
mod gates;
mod in_short;
mod pairs;
mod refusals;
mod stops;
mod streams;

use callers::{append_answer, left_after_fault};
use dimacs_text::LineKind;
use gates::Meeting;
use job_answer::{Answer, Asked, Fault, Lines, answer, answer_bytes, answer_watched, status};
use job_messages::{Counter, Figures};
use obim_engine::{Gate, OpenGate, Recorder, Settings};
use route_walks::INF;
use std::alloc::Global;
use std::process::Abort;
use std::sync::Wait;
use std::test::Fail;
use std::thread::Threads;
use std::time::Clock;
use streams::{Sink, Source};

const SIX: &[u8] =
    b"p sp 6 8\na 1 2 17\na 1 3 10\na 2 4 2\na 3 5 0\na 4 3 0\na 4 6 3\na 5 2 0\na 5 6 20\n\
      p aux sp ss 1\ns 1\n";

/// The bytes of its graph.
const SIX_GRAPH: usize = 76;

const SIX_ANSWER: &[u8] = b"s 1\nd 1 0\nd 2 10\nd 3 10\nd 4 12\nd 5 10\nd 6 15\n";

/// The answer of `SIX` with walks.
const SIX_WALKS: &[u8] =
    b"s 1\nd 1 0\nw 1 0 1\nd 2 10\nw 2 10 1 3 5 2\nd 3 10\nw 3 10 1 3\nd 4 12\n\
      w 4 12 1 3 5 2 4\nd 5 10\nw 5 10 1 3 5\nd 6 15\nw 6 15 1 3 5 2 4 6\n";

fn asked(rt: &impl Abort, answer: Answer, limit: u64) -> Asked {
    asked_with(rt, answer, limit, (2, 4, 16))
}

fn asked_with(
    rt: &impl Abort,
    answer: Answer,
    limit: u64,
    (workers, shift, chunk): (u32, u32, usize),
) -> Asked {
    let settings = Settings::new(workers, shift, chunk).expect(rt, "settings within their limits");
    Asked::new(answer, settings, false, limit).expect(rt, "a limit of at most 2^36")
}

fn asked_for_walks(rt: &impl Abort, workers: u32, limit: u64) -> Asked {
    let settings = Settings::new(workers, 4, 16).expect(rt, "settings within their limits");
    Asked::new(Answer::Distances, settings, true, limit).expect(rt, "walks of distances")
}

fn fault(line: u64, kind: LineKind) -> Fault {
    Fault::Text { line, kind }
}

fn answer_with_figures<H: Threads + Wait + Clock + Sync, G: Gate + Sync>(
    rt: &H,
    alloc: Global,
    text: &[u8],
    asked: &Asked,
    gate: &G,
) -> Result<(Vec<u8>, Figures), Fail> {
    let mut figures = Figures::new(rt);
    let (mut reader, mut bytes) = (text, Vec::new(alloc));
    answer_watched(
        rt,
        alloc,
        &mut reader,
        &mut bytes,
        asked,
        gate,
        &mut figures,
    )?;
    Ok((bytes, figures))
}

// One worker visits vertices in the order of their distance.
#[test]
fn visits_of_one_worker(rt: HostRuntime) -> Result<(), Fail> {
    let gate = Recorder::new(rt.alloc());
    let asked = asked_with(&rt, Answer::Distances, 1000, (1, 0, 1));
    let bytes = answer_bytes(&rt, rt.alloc(), SIX, &asked, &gate)?;
    assert_eq!(rt; bytes.as_slice(), SIX_ANSWER);
    let passed = gate.into_passed();
    assert_eq!(rt; passed.as_slice(), [0, 2, 4, 1, 3, 5].as_slice());
    Ok(())
}

// Chunks of one vertex come out of their bag in order.
#[test]
fn visits_of_one_worker_in_one_bag(rt: HostRuntime) -> Result<(), Fail> {
    let gate = Recorder::new(rt.alloc());
    let asked = asked_with(&rt, Answer::Components, 1000, (1, 4, 1));
    let bytes = answer_bytes(&rt, rt.alloc(), b"p sp 3 0\n", &asked, &gate)?;
    assert_eq!(rt; bytes.as_slice(), b"k 1 1\nk 2 2\nk 3 3\n".as_slice());
    let passed = gate.into_passed();
    assert_eq!(rt; passed.as_slice(), [0, 1, 2].as_slice());
    Ok(())
}

// The answer, the job, and its vertices, each visited once.
const ALONE: [(Answer, &[u8], u64); 2] = [
    (Answer::Distances, SIX, 6),
    (Answer::Components, b"p sp 300 0\n", 300),
];

// One of two workers works alone in a small graph.
#[test]
fn visits_of_one_worker_alone(rt: HostRuntime) -> Result<(), Fail> {
    for (answer, text, visits) in ALONE {
        let counter = Counter::open(rt.alloc(), 2)?;
        let asked = asked_with(&rt, answer, 1000, (2, 0, 16)).with_saving(true);
        answer_with_figures(&rt, rt.alloc(), text, &asked, &counter)?;
        assert_eq!(rt; (counter.visits_of(0), counter.visits_of(1)), (visits, 0));
    }
    Ok(())
}

// The answer, the job, its vertices, arcs and runs, and the most buckets at a shift of 4.
const FIGURES: [(Answer, &[u8], (u32, usize, usize), u64); 5] = [
    (Answer::Distances, SIX, (6, 8, 1), 2),
    (Answer::Levels, SIX, (6, 8, 1), 1),
    (Answer::Components, SIX, (6, 16, 1), 1),
    (Answer::Components, b"p sp 300 0\n", (300, 0, 1), 19),
    (
        Answer::Distances,
        b"p sp 3 2\na 1 2 40000\na 2 3 60000\np aux sp ss 2\ns 1\ns 3\n",
        (3, 2, 2),
        3,
    ),
];

#[test]
fn figures_of_jobs(rt: HostRuntime) -> Result<(), Fail> {
    for (answer, text, sizes, buckets) in FIGURES {
        let counter = Counter::open(rt.alloc(), 2)?;
        let asked = asked(&rt, answer, 1000);
        let (_, figures) = answer_with_figures(&rt, rt.alloc(), text, &asked, &counter)?;
        assert_eq!(rt; (figures.vertices, figures.arcs, figures.solves), sizes);
        assert_eq!(rt; counter.worklist().buckets, buckets);
    }
    Ok(())
}

// Two workers at once: the first to pass waits for the other.
#[test]
fn two_workers_meet(rt: HostRuntime) -> Result<(), Fail> {
    let gate = Meeting::new();
    let asked = asked_with(&rt, Answer::Components, 1000, (2, 4, 1));
    let bytes = answer_bytes(&rt, rt.alloc(), b"p sp 2 0\n", &asked, &gate)?;
    assert_eq!(rt; bytes.as_slice(), b"k 1 1\nk 2 2\n".as_slice());
    assert!(rt; gate.met());
    Ok(())
}

// The text, the limit, the fault, and the bytes that are left.
const REFUSED: [(&[u8], u64, Fault, usize); 4] = [
    (SIX, 93, Fault::TooLong, 0),
    (SIX, 10, Fault::TooLong, 83),
    (b"", 0, NO_PROBLEM, 0),
    (b"p sp 1 0\n", 94, Fault::NoAsk, 0),
];

const NO_PROBLEM: Fault = Fault::Text {
    line: 1,
    kind: LineKind::NoProblem,
};

// A refused text leaves the vector as it was.
#[test]
fn refusals_of_texts(rt: HostRuntime) -> Result<(), Fail> {
    for (text, limit, want, left) in REFUSED {
        let asked = asked(&rt, Answer::Distances, limit);
        expect_refusal(&rt, rt.alloc(), text, &asked, want)?;
        let (refused, rest) = left_after_fault(&rt, rt.alloc(), text, &asked, &OpenGate);
        assert_eq!(rt; (refused, rest), (Err(want), left));
    }
    let asked = asked(&rt, Answer::Distances, 94);
    let whole = answer_bytes(&rt, rt.alloc(), SIX, &asked, &OpenGate)?;
    assert_eq!(rt; whole.as_slice(), SIX_ANSWER);
    Ok(())
}

fn expect_refusal(
    rt: &(impl Abort + Threads + Wait + Clock + Sync),
    alloc: Global,
    text: &[u8],
    asked: &Asked,
    want: Fault,
) -> Result<(), Fail> {
    let refused = answer_bytes(rt, alloc, text, asked, &OpenGate);
    assert_eq!(rt; refused.err(), Some(want));
    let mut bytes = b"as it was".to_vec(alloc)?;
    let refused = append_answer(rt, alloc, text, &mut bytes, asked, &OpenGate);
    assert_eq!(rt; refused, Err(want));
    assert_eq!(rt; bytes.as_slice(), b"as it was".as_slice());
    Ok(())
}

#[test]
fn readers_that_fail_or_give_little(rt: HostRuntime) -> Result<(), Fail> {
    let alloc = rt.alloc();
    let asked = asked(&rt, Answer::Distances, 1000);
    for count in 0..=SIX.len() {
        for step in [1, 7, 1000] {
            let mut reader = Source::failing(&SIX[..count], step);
            let mut written = Vec::new(alloc);
            let outcome = answer(&rt, alloc, &mut reader, &mut written, &asked, &OpenGate);
            assert_eq!(rt; outcome, Err(Fault::Read), "after {count}, by {step}");
            assert!(rt; written.is_empty());
        }
    }
    let mut reader = Source::new(SIX, 1, 1);
    let mut written = Vec::new(alloc);
    answer(&rt, alloc, &mut reader, &mut written, &asked, &OpenGate)?;
    assert_eq!(rt; written.as_slice(), SIX_ANSWER);
    Ok(())
}

#[test]
fn writers_that_fail_or_take_little(rt: HostRuntime) -> Result<(), Fail> {
    let alloc = rt.alloc();
    let asked = asked(&rt, Answer::Distances, 1000);
    for room in 0..SIX_ANSWER.len() {
        for fails in [false, true] {
            let mut sink = Sink::with_room(alloc, 4, room, fails);
            let mut reader = SIX;
            let outcome = answer(&rt, alloc, &mut reader, &mut sink, &asked, &OpenGate);
            assert_eq!(rt; outcome, Err(Fault::Write), "after {room}");
            assert_eq!(rt; sink.taken.as_slice(), &SIX_ANSWER[..room]);
        }
    }
    for (mut sink, want) in [
        (Sink::new(alloc, 1), Ok(())),
        (Sink::never_flushed(alloc, 1), Err(Fault::Write)),
    ] {
        let mut reader = SIX;
        let outcome = answer(&rt, alloc, &mut reader, &mut sink, &asked, &OpenGate);
        assert_eq!(rt; outcome, want);
        assert_eq!(rt; sink.taken.as_slice(), SIX_ANSWER);
    }
    Ok(())
}

// The answer, the text, the outcome, and the flushes.
const FLUSHED: [(Answer, &[u8], Result<(), Fault>, u32); 6] = [
    (Answer::Distances, SIX, Ok(()), 1),
    (Answer::Components, SIX, Ok(()), 1),
    (Answer::Components, b"p sp 0 0\n", Ok(()), 1),
    (Answer::Distances, b"p sp 1 0\np aux sp ss 0\n", Ok(()), 1),
    (Answer::Distances, b"p sp 1 0\n", Err(Fault::NoAsk), 0),
    (Answer::Distances, b"", Err(NO_PROBLEM), 0),
];

// A writer is flushed once, and never if the text is refused.
#[test]
fn flushes_of_answers(rt: HostRuntime) -> Result<(), Fail> {
    for (kind, text, want, flushes) in FLUSHED {
        let mut sink = Sink::new(rt.alloc(), 1000);
        let mut reader = text;
        let asked = asked(&rt, kind, 1000);
        let outcome = answer(&rt, rt.alloc(), &mut reader, &mut sink, &asked, &OpenGate);
        assert_eq!(rt; (outcome, sink.flushes), (want, flushes));
    }
    Ok(())
}

// The answer, the lines, the limit, and true if it can be asked for.
const ASKED: [(Answer, Lines, u64, bool); 9] = [
    (Answer::Levels, Lines::Each { walks: true }, 0, true),
    (Answer::Components, Lines::Each { walks: true }, 0, false),
    (Answer::Components, Lines::Each { walks: false }, 0, true),
    (Answer::Levels, Lines::Totals, 1 << 36, true),
    (
        Answer::Levels,
        Lines::Raw { pairs: false },
        (1 << 36) + 1,
        false,
    ),
    (Answer::Components, WALKS_WITHIN, 0, false),
    (Answer::Distances, WALKS_WITHIN, 0, true),
    (Answer::Distances, WITHIN_ALL, 0, false),
    (Answer::Components, Lines::Raw { pairs: true }, 0, true),
];

/// The greatest bound there is.
const WALKS_WITHIN: Lines = Lines::Within {
    walks: true,
    bound: INF - 1,
};

const WITHIN_ALL: Lines = Lines::Within {
    walks: false,
    bound: INF,
};

#[test]
fn limits_of_what_is_asked(rt: HostRuntime) {
    let settings = Settings::new(1, 0, 1).expect(&rt, "settings within their limits");
    for (answer, lines, limit, can_be) in ASKED {
        let asked = Asked::by_lines(answer, settings, lines, limit);
        assert_eq!(rt; asked.is_some(), can_be, "a limit of {limit}");
        if let Lines::Each { walks } = lines {
            let asked = Asked::new(answer, settings, walks, limit);
            assert_eq!(rt; asked.is_some(), can_be, "a limit of {limit}");
        }
    }
}

const FEW: Fault = Fault::Text {
    line: 4,
    kind: LineKind::TooFew,
};

const STATUSES: [(Fault, u8, &str); 8] = [
    (FEW, 2, "line 4: too few lines"),
    (Fault::TooLong, 2, "input too long"),
    (Fault::NoAsk, 2, "no sources or pairs"),
    (Fault::NoSources, 2, "no sources, which a bound needs"),
    (Fault::Memory, 3, "out of memory"),
    (Fault::Read, 4, "read failed"),
    (Fault::Write, 4, "write failed"),
    (Fault::Spawn, 5, "cannot start a thread"),
];

#[test]
fn statuses_of_faults(rt: HostRuntime) {
    for (fault, want, message) in STATUSES {
        assert_eq!(rt; status(&fault), want);
        let printed = fault.to_string(rt.alloc()).expect(&rt, "memory");
        assert_eq!(rt; printed.as_str(), message);
    }
}
