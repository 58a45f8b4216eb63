//! Texts that end early or come in pieces: a fault and nothing written, or the whole answer.

use super::streams::{Sink, Source};
use super::{SIX, SIX_ANSWER, asked, asked_with, fault};
use dimacs_text::LineKind;
use job_answer::{Answer, Fault, answer};
use obim_engine::OpenGate;
use std::alloc::{AllocError, Global};
use std::process::Abort;
use std::sync::Wait;
use std::test::Fail;
use std::thread::Threads;
use std::time::Clock;

/// The bytes of a piece before arcs have come.
const PIECE: usize = 1 << 16;

const FIELDS: LineKind = LineKind::Fields;

const FEW: LineKind = LineKind::TooFew;

const UNKNOWN: LineKind = LineKind::Unknown;

// The beginnings of the job of six vertices that are refused: from a length to a length, and the fault.
const BEGINNINGS: [(usize, usize, u64, LineKind); 23] = [
    (0, 0, 1, LineKind::NoProblem),
    (1, 3, 1, UNKNOWN),
    (4, 7, 1, FIELDS),
    (8, 9, 2, FEW),
    (10, 15, 2, FIELDS),
    (16, 18, 3, FEW),
    (19, 24, 3, FIELDS),
    (25, 27, 4, FEW),
    (28, 33, 4, FIELDS),
    (34, 35, 5, FEW),
    (36, 41, 5, FIELDS),
    (42, 43, 6, FEW),
    (44, 49, 6, FIELDS),
    (50, 51, 7, FEW),
    (52, 57, 7, FIELDS),
    (58, 59, 8, FEW),
    (60, 65, 8, FIELDS),
    (66, 67, 9, FEW),
    (68, 73, 9, FIELDS),
    (77, 86, 10, UNKNOWN),
    (87, 88, 10, FIELDS),
    (89, 90, 11, FEW),
    (91, 92, 11, FIELDS),
];

#[test]
fn beginnings_of_a_job(rt: HostRuntime) {
    for (from, to, line, kind) in BEGINNINGS {
        for length in from..=to {
            expect_beginning(&rt, rt.alloc(), length, Err(fault(line, kind)), b"");
        }
    }
    for length in 74..=76 {
        expect_beginning(&rt, rt.alloc(), length, Err(Fault::NoAsk), b"");
    }
    for length in 93..=94 {
        expect_beginning(&rt, rt.alloc(), length, Ok(()), SIX_ANSWER);
    }
}

fn expect_beginning(
    rt: &(impl Abort + Threads + Wait + Clock + Sync),
    alloc: Global,
    length: usize,
    want: Result<(), Fault>,
    reply: &[u8],
) {
    let asked = asked(rt, Answer::Distances, 1000);
    let mut reader = SIX.split_at(SIX.len().min(length)).0;
    let mut sink = Sink::new(alloc, 1);
    let outcome = answer(rt, alloc, &mut reader, &mut sink, &asked, &OpenGate);
    assert_eq!(rt; outcome, want, "the first {length} bytes");
    assert_eq!(rt; sink.taken.as_slice(), reply, "the first {length} bytes");
}

/// The job behind a comment that leaves this many of its bytes to the first piece.
fn behind_a_comment(alloc: Global, inside: usize) -> Result<Vec<u8>, AllocError> {
    let mut text = Vec::new(alloc);
    text.push(b'c')?;
    text.resize(PIECE.saturating_sub(inside).saturating_sub(1), b' ')?;
    text.push(b'\n')?;
    text.extend_from_slice(SIX)?;
    Ok(text)
}

/// Asserts the answers of a text in a first read and then others of a size, within the whole text and a byte less.
fn assert_cut(
    rt: &(impl Abort + Threads + Wait + Clock + Sync),
    alloc: Global,
    workers: u32,
    text: &[u8],
    (first, step): (usize, usize),
) {
    for (limit, want, reply) in [
        (text.len(), Ok(()), SIX_ANSWER),
        (
            text.len().saturating_sub(1),
            Err(Fault::TooLong),
            b"".as_slice(),
        ),
    ] {
        let asked = asked_with(rt, Answer::Distances, limit as u64, (workers, 4, 16));
        let mut reader = Source::new(text, first, step);
        let mut sink = Sink::new(alloc, 1000);
        let outcome = answer(rt, alloc, &mut reader, &mut sink, &asked, &OpenGate);
        assert_eq!(rt; outcome, want, "{workers} workers, {first}, {step}");
        assert_eq!(rt;
            sink.taken.as_slice(),
            reply,
            "{workers} workers, {first}, {step}"
        );
    }
}

// Each byte of a job comes first after a piece, or beside that.
#[test]
fn jobs_cut_at_pieces(rt: HostRuntime) -> Result<(), Fail> {
    let alloc = rt.alloc();
    for workers in [1, 2] {
        for inside in 0..=SIX.len() {
            let text = behind_a_comment(alloc, inside)?;
            for reads in [(PIECE, PIECE), (PIECE - 1, 1)] {
                assert_cut(&rt, alloc, workers, &text, reads);
            }
        }
    }
    Ok(())
}
