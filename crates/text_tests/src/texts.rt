//! Texts with their job or fault, and lines of answers.

mod explanations;
mod in_short;
mod readers;
mod refusals;
mod several;

use answer_lines::{
    put_components, put_distances, put_grown, put_label, put_labels, put_pair, put_source, put_walk,
};
use dimacs_text::{Ask, Job, JobReader, LineKind, TextFault, read_job};
use route_walks::{ArcRec, INF, Memory};
use std::alloc::Global;
use std::process::Abort;
use std::test::Fail;

/// 6 vertices and 8 arcs, on lines 1 to 9.
const GRAPH: &str =
    "p sp 6 8\na 1 2 17\na 1 3 10\na 2 4 2\na 3 5 0\na 4 3 0\na 4 6 3\na 5 2 0\na 5 6 20\n";

fn joined(alloc: Global, front: &str, tail: &[u8]) -> Result<Vec<u8>, TextFault> {
    let mut text = Vec::from_slice(alloc, front.as_bytes())?;
    text.extend_from_slice(tail)?;
    Ok(text)
}

fn read(alloc: Global, front: &str, tail: &[u8]) -> Result<Job, TextFault> {
    let text = joined(alloc, front, tail)?;
    if text.len() > 1000 {
        return Err(TextFault::Memory);
    }
    read_job(alloc, &text)
}

/// The job or fault of a text in pieces of `size` bytes.
fn read_pieces(alloc: Global, text: &[u8], size: usize) -> Result<Job, TextFault> {
    let mut reader = JobReader::new(alloc);
    for piece in text.chunks(size.max(1)) {
        if reader.feed(piece).is_err() {
            return Err(TextFault::Memory);
        }
    }
    reader.finish()
}

/// Tells if a text has that first fault, whole and in pieces.
fn fails(alloc: Global, front: &str, tail: &[u8], line: u64, kind: LineKind) -> bool {
    let want = TextFault::Line { line, kind };
    for size in [1, 2, 5, 64] {
        let text = match joined(alloc, front, tail) {
            Ok(text) => text,
            Err(_) => return false,
        };
        match read_pieces(alloc, &text, size) {
            Err(fault) if fault == want => {}
            _ => return false,
        }
    }
    match read(alloc, front, tail) {
        Ok(_) => false,
        Err(fault) => fault == want,
    }
}

/// Asserts the first fault of each text behind that front.
fn expect_faults(rt: &impl Abort, alloc: Global, front: &str, rows: &[(&str, u64, LineKind)]) {
    for &(tail, line, kind) in rows {
        assert!(rt; fails(alloc, front, tail.as_bytes(), line, kind), "{tail}");
    }
}

const WHOLE_TEXTS: [(&str, u64, LineKind); 32] = [
    ("", 1, LineKind::NoProblem),
    ("  \n\t", 3, LineKind::NoProblem),
    ("c p sp 1 0", 2, LineKind::NoProblem),
    ("x\n", 1, LineKind::Unknown),
    ("\u{b}\n", 1, LineKind::Unknown),
    ("pp sp 1 0\n", 1, LineKind::Unknown),
    ("p sp 2\n", 1, LineKind::Fields),
    ("p sp x\n", 1, LineKind::Fields),
    ("a 1 1 0 0\n", 1, LineKind::Fields),
    ("p sp -1 268435457\n", 1, LineKind::Number),
    ("p sp 268435457 -1\n", 1, LineKind::Number),
    ("p sp +0 0\n", 1, LineKind::Number),
    ("p sp 1 0\r\r\n", 1, LineKind::Number),
    ("p sp 268435457 0\n", 1, LineKind::Range),
    ("p sp 1 1073741825\n", 1, LineKind::Range),
    ("p sp 1 18446744073709551616\n", 1, LineKind::Range),
    ("p aux sp ss 1048577\n", 1, LineKind::Range),
    ("a 268435457 1 0\n", 1, LineKind::Range),
    ("a 0 1 0\n", 1, LineKind::Range),
    ("p sp 0 1\na 1 1 0\n", 2, LineKind::Range),
    ("p sp 3 2\na 1 2 4294967296\n", 2, LineKind::Range),
    ("p sp 3 2\na 1 2 -1\n", 2, LineKind::Number),
    ("a 268435456 1 0\n", 1, LineKind::Misplaced),
    ("p aux sp ss 1048576\n", 1, LineKind::Misplaced),
    ("p aux sp add 1048577\n", 1, LineKind::Range),
    ("p aux sp add 1048576\n", 1, LineKind::Misplaced),
    ("p sp 2 1\np sp 2 1\n", 2, LineKind::Misplaced),
    ("p sp 0 1\n", 2, LineKind::TooFew),
    ("p sp 1 1073741824", 2, LineKind::TooFew),
    (
        "p sp 2 3\na 1 2 1\na 2 1 1\np aux sp ss 1\ns 1\n",
        4,
        LineKind::TooFew,
    ),
    (
        "p sp 2 3\na 1 2 1\na 2 1 1\na 1 1 1\na 1 1 1\n",
        5,
        LineKind::TooMany,
    ),
    ("p sp 2 2\na 1 2 1\np aux sp add 1\n", 3, LineKind::TooFew),
];

#[test]
fn faults_of_whole_texts(rt: HostRuntime) {
    expect_faults(&rt, rt.alloc(), "", &WHOLE_TEXTS);
}

const AFTER_A_GRAPH: [(&str, u64, LineKind); 32] = [
    ("p", 10, LineKind::Unknown),
    ("p aux sp", 10, LineKind::Unknown),
    ("p aux sp add1\n", 10, LineKind::Unknown),
    ("s 1\n", 10, LineKind::Misplaced),
    ("a 1 1 1\n", 10, LineKind::TooMany),
    ("p aux sp ss", 10, LineKind::Fields),
    ("p aux sp ss 1", 11, LineKind::TooFew),
    ("p aux sp ss 1\ns", 11, LineKind::Fields),
    ("p aux sp ss 1\ns 7\n", 11, LineKind::Range),
    ("p aux sp ss 1\na 1 2 1\n", 11, LineKind::Misplaced),
    ("p aux sp ss 1\np aux sp ss 1\n", 11, LineKind::Misplaced),
    ("p aux sp ss 0\ns 1\n", 11, LineKind::TooMany),
    ("p aux sp ss 2\ns 1\n", 12, LineKind::TooFew),
    ("p aux sp ss 2\ns 1\n \n", 13, LineKind::TooFew),
    ("p aux sp p2p\n", 10, LineKind::Fields),
    ("p aux sp p2p 1048577\n", 10, LineKind::Range),
    ("p aux sp p2p 1\n", 11, LineKind::TooFew),
    ("p aux sp p2p 1048576\nq 1 6\n", 12, LineKind::TooFew),
    ("p aux sp p2p 1\nq 1 7\n", 11, LineKind::Range),
    ("p aux sp p2p 1\nq 0 1\n", 11, LineKind::Range),
    ("p aux sp p2p 1\nq 1\n", 11, LineKind::Fields),
    ("p aux sp p2p 1\nq 1 6 1\n", 11, LineKind::Fields),
    ("p aux sp p2p 1\nq 1 -6\n", 11, LineKind::Number),
    ("p aux sp p2p 1\ns 1\n", 11, LineKind::Misplaced),
    ("p aux sp ss 1\nq 1 6\n", 11, LineKind::Misplaced),
    ("q 1 6\n", 10, LineKind::Misplaced),
    ("p aux sp p2p 1\nq 1 6\nq 1 6\n", 12, LineKind::TooMany),
    ("p aux sp p2p 0\nq 1 6\n", 11, LineKind::TooMany),
    ("p aux sp p2p 1\nq 1 6\na 1 2 1\n", 12, LineKind::Misplaced),
    // A second section of queries is misplaced, also if the first lacks some.
    ("p aux sp p2p 0\np aux sp ss 0\n", 11, LineKind::Misplaced),
    ("p aux sp ss 1\np aux sp p2p 1\n", 11, LineKind::Misplaced),
    ("p aux sp p2p 1\np aux sp p2p 1\n", 11, LineKind::Misplaced),
];

#[test]
fn faults_after_a_graph(rt: HostRuntime) {
    expect_faults(&rt, rt.alloc(), GRAPH, &AFTER_A_GRAPH);
}

const ADDED_SECTIONS: [(&str, u64, LineKind); 31] = [
    ("p aux sp add\n", 10, LineKind::Fields),
    ("p aux sp add 1 1\n", 10, LineKind::Fields),
    ("p aux sp add -1\n", 10, LineKind::Number),
    ("p aux sp add 1048577\n", 10, LineKind::Range),
    ("p aux sp add 1048576\n", 11, LineKind::TooFew),
    ("p aux sp add 1\n", 11, LineKind::TooFew),
    ("p aux sp add 2\na 1 6 1", 12, LineKind::TooFew),
    ("p aux sp add 0\na 1 6 1\n", 11, LineKind::TooMany),
    ("p aux sp add 1\na 1 6\n", 11, LineKind::Fields),
    ("p aux sp add 1\na 1 6 -1\n", 11, LineKind::Number),
    ("p aux sp add 1\na 1 6 4294967296\n", 11, LineKind::Range),
    ("p aux sp add 1\na 7 1 1\n", 11, LineKind::Range),
    ("p aux sp add 1\na 1 0 1\n", 11, LineKind::Range),
    ("p aux sp ss 1\ns 1\np aux sp add 1\n", 13, LineKind::TooFew),
    (
        "p aux sp ss 1\ns 1\np aux sp add 1\na 1 6 1\na 1 6 1\n",
        14,
        LineKind::TooMany,
    ),
    // It comes after all queries, and queries never after it, also if it lacks arcs.
    ("p aux sp ss 1\np aux sp add 1\n", 11, LineKind::TooFew),
    (
        "p aux sp p2p 2\nq 1 6\np aux sp add 1\n",
        12,
        LineKind::TooFew,
    ),
    ("p aux sp add 0\np aux sp ss 1\n", 11, LineKind::Misplaced),
    ("p aux sp add 1\np aux sp ss 1\n", 11, LineKind::Misplaced),
    ("p aux sp add 0\np aux sp p2p 1\n", 11, LineKind::Misplaced),
    ("p aux sp add 1\np aux sp p2p 1\n", 11, LineKind::Misplaced),
    ("p aux sp add 0\ns 1\n", 11, LineKind::Misplaced),
    ("p aux sp add 0\nq 1 6\n", 11, LineKind::Misplaced),
    (
        "p aux sp ss 1\ns 1\np aux sp add 0\ns 1\n",
        13,
        LineKind::Misplaced,
    ),
    (
        "p aux sp p2p 1\nq 1 6\np aux sp add 1\nq 1 6\n",
        13,
        LineKind::Misplaced,
    ),
    ("p aux sp add 0\np aux sp add 0\n", 11, LineKind::Misplaced),
    ("p aux sp add 1\np aux sp add 1\n", 11, LineKind::Misplaced),
    ("p aux sp add 0\np sp 1 0\n", 11, LineKind::Misplaced),
    // After a query section's line no arc comes before the added section.
    ("p aux sp ss 0\na 1 6 1\n", 11, LineKind::Misplaced),
    ("p aux sp ss 1\ns 1\na 1 6 1\n", 12, LineKind::Misplaced),
    (
        "p aux sp p2p 1\nq 1 6\na 1 6 1\np aux sp add 1\n",
        12,
        LineKind::Misplaced,
    ),
];

#[test]
fn faults_of_added_sections(rt: HostRuntime) {
    expect_faults(&rt, rt.alloc(), GRAPH, &ADDED_SECTIONS);
}

fn assert_job(rt: &impl Abort, job: &Job, n: u32, last: ArcRec, sources: &[u32]) {
    assert!(rt; job.n == n && job.arcs.last().copied() == Some(last));
    let same = match &job.ask {
        Ask::Absent => sources.is_empty(),
        Ask::Sources(given) => given.as_slice() == sources,
        Ask::Pairs(_) => false,
    };
    assert!(rt; same);
}

fn assert_pairs(rt: &impl Abort, job: &Job, pairs: &[(u32, u32)]) {
    let same = match &job.ask {
        Ask::Pairs(given) => given.as_slice() == pairs,
        _ => false,
    };
    assert!(rt; same);
}

/// The text after `GRAPH`, and the pairs that it asks for.
const PAIRS: [(&[u8], &[(u32, u32)]); 3] = [
    (b"p aux sp p2p 0", &[]),
    (b"p aux sp p2p 1\nq 6 6\n", &[(5, 5)]),
    (
        b"p aux sp p2p 3\nq 1 6\n\tq  03 2\r\nq 1 6",
        &[(0, 5), (2, 1), (0, 5)],
    ),
];

#[test]
fn jobs_of_pairs(rt: HostRuntime) -> Result<(), Fail> {
    for (tail, pairs) in PAIRS {
        assert_pairs(&rt, &read(rt.alloc(), GRAPH, tail)?, pairs);
        let text = joined(rt.alloc(), GRAPH, tail)?;
        assert_pairs(&rt, &read_pieces(rt.alloc(), &text, 3)?, pairs);
    }
    Ok(())
}

/// Asserts what a job of `GRAPH` asks, as `Debug` prints it, and its added arcs.
fn assert_added(
    rt: &impl Abort,
    alloc: Global,
    job: &Job,
    ask: &str,
    added: &[ArcRec],
) -> Result<(), Fail> {
    assert!(rt; job.n == 6 && job.arcs.len() == 8 && job.arcs.last().copied() == Some(LAST));
    assert!(rt; job.added.as_deref() == Some(added));
    let asked = format!(in alloc; "{:?}", job.ask)?;
    assert!(rt; asked.as_str() == ask);
    Ok(())
}

/// The last arc of `GRAPH`.
const LAST: ArcRec = ArcRec {
    tail: 4,
    head: 5,
    weight: 20,
};

const SHORT: ArcRec = ArcRec {
    tail: 0,
    head: 5,
    weight: 4,
};

const BACK: ArcRec = ArcRec {
    tail: 5,
    head: 0,
    weight: 0,
};

/// The text after `GRAPH`, its question, and its added arcs. A section without queries counts as asked for.
const ADDING: [(&[u8], &str, &[ArcRec]); 8] = [
    (b"p aux sp add 0", "Absent", &[]),
    (b"p aux sp add 1\na 1 6 4", "Absent", &[SHORT]),
    (
        b"p aux sp ss 2\ns 3\ns 1\np aux sp add 1\na 1 6 4\n",
        "Sources([2, 0])",
        &[SHORT],
    ),
    (b"p aux sp ss 1\ns 3\np aux sp add 0\n", "Sources([2])", &[]),
    (
        b"p aux sp ss 0\np aux sp add 1\na 1 6 4\n",
        "Sources([])",
        &[SHORT],
    ),
    (b"p aux sp p2p 0\np aux sp add 0\n", "Pairs([])", &[]),
    (
        b"p aux sp p2p 1\nq 1 6\np aux sp add 2\na 1 6 4\n\ta  06 1 0\r\n",
        "Pairs([(0, 5)])",
        &[SHORT, BACK],
    ),
    (
        b"\np aux sp p2p 2\nq 6 6\nq 1 6\nc\np\taux sp add 3\na 6 1 0\nc\na 1 6 4\na 6 1 0",
        "Pairs([(5, 5), (0, 5)])",
        &[BACK, SHORT, BACK],
    ),
];

fn expect_added(
    rt: &impl Abort,
    alloc: Global,
    text: &[u8],
    size: usize,
    ask: &str,
    added: &[ArcRec],
) -> Result<(), Fail> {
    let job = read_pieces(alloc, text, size)?;
    assert_added(rt, alloc, &job, ask, added)
}

#[test]
fn jobs_with_added_arcs(rt: HostRuntime) -> Result<(), Fail> {
    for (tail, ask, added) in ADDING {
        let text = joined(rt.alloc(), GRAPH, tail)?;
        for size in [1, 7, 1000] {
            expect_added(&rt, rt.alloc(), &text, size, ask, added)?;
        }
    }
    Ok(())
}

// Texts that come whole.
#[test]
fn whole_jobs_with_added_arcs(rt: HostRuntime) -> Result<(), Fail> {
    for (tail, ask, added) in ADDING {
        let job = read(rt.alloc(), GRAPH, tail)?;
        assert_added(&rt, rt.alloc(), &job, ask, added)?;
    }
    Ok(())
}

#[test]
fn jobs(rt: HostRuntime) -> Result<(), Fail> {
    let alloc = rt.alloc();
    assert_job(&rt, &read(alloc, GRAPH, b"")?, 6, LAST, &[]);
    let asked = read(alloc, GRAPH, b"p aux sp ss 3\ns 3\ns 5\ns 3")?;
    assert_job(&rt, &asked, 6, LAST, &[2, 4, 2]);
    assert!(rt; asked.arcs.len() == 8 && asked.added.is_none());
    Ok(())
}

#[test]
fn a_job_of_most_vertices(rt: HostRuntime) -> Result<(), Fail> {
    let job = read(rt.alloc(), "", b"p sp 268435456 0\n\n")?;
    assert!(rt; job.n == 268435456);
    Ok(())
}

#[test]
fn a_job_with_all_kinds_of_blanks(rt: HostRuntime) -> Result<(), Fail> {
    let spaced = b"c \xff\xfe\r\n\tp  sp 2 1 \r\n\r\na\t1 2 007\r\np aux sp ss 1\r\ns 1";
    let arc = ArcRec::new(0, 1, 7);
    assert_job(&rt, &read(rt.alloc(), "", spaced.as_slice())?, 2, arc, &[0]);
    for size in 1..=spaced.len() {
        let pieces = read_pieces(rt.alloc(), spaced.as_slice(), size)?;
        assert_job(&rt, &pieces, 2, arc, &[0]);
    }
    Ok(())
}

fn expect_lines(rt: &impl Abort, out: &[u8], want: &str) {
    assert!(rt; out == want.as_bytes());
}

fn put_of_each_kind(out: &mut Vec<u8>) -> Result<(), Memory> {
    put_source(out, 268435455)?;
    put_label(out, 9, INF)?;
    put_label(out, 0, INF - 1)?;
    put_distances(out, 2, &[INF, 0, 10])?;
    put_components(out, 0, &[0, 0, 2])
}

fn put_more_kinds(out: &mut Vec<u8>) -> Result<(), Memory> {
    put_walk(out, 15, &[0, 2, 4, 1, 3, 5])?;
    put_walk(out, 0, &[3])?;
    put_pair(out, 0, 5, 15)?;
    put_pair(out, 268435455, 268435454, INF - 1)?;
    put_pair(out, 5, 0, INF)?;
    put_grown(out, 0)?;
    put_grown(out, 1048576)
}

#[test]
fn answers(rt: HostRuntime) -> Result<(), Fail> {
    let mut out = Vec::new(rt.alloc());
    put_of_each_kind(&mut out)?;
    put_more_kinds(&mut out)?;
    let lines = "s 268435456\nd 10 inf\nd 1 18446744073709551614\ns 3\nd 1 inf\nd 2 0\nd 3 10\n\
         k 1 1\nk 2 1\nk 3 3\nw 6 15 1 3 5 2 4 6\nw 4 0 4\n\
         q 1 6 15\nq 268435456 268435455 18446744073709551614\nq 6 1 inf\n\
         g 0\ng 1048576\n";
    expect_lines(&rt, &out, lines);
    Ok(())
}

/// Lines at the ends of groups and of number ranges.
fn put_groups(out: &mut Vec<u8>) -> Result<(), Memory> {
    put_labels(out, 268435456, &[])?;
    put_labels(out, 8, &[0, INF, 12])?;
    put_labels(out, 48, &[1, 2])?;
    put_labels(out, 98, &[7, INF - 1, 100])?;
    put_labels(out, 999998, &[9, 10])
}

fn put_last_groups(out: &mut Vec<u8>) -> Result<(), Memory> {
    put_labels(out, 268435454, &[INF, INF - 1])?;
    put_components(out, 98, &[98, 0])?;
    put_components(out, 268435455, &[268435455])
}

#[test]
fn lines_of_groups(rt: HostRuntime) -> Result<(), Fail> {
    let mut out = Vec::new(rt.alloc());
    put_groups(&mut out)?;
    put_last_groups(&mut out)?;
    let lines = "d 9 0\nd 10 inf\nd 11 12\nd 49 1\nd 50 2\n\
         d 99 7\nd 100 18446744073709551614\nd 101 100\nd 999999 9\nd 1000000 10\n\
         d 268435455 inf\nd 268435456 18446744073709551614\n\
         k 99 99\nk 100 1\nk 268435456 268435456\n";
    expect_lines(&rt, &out, lines);
    Ok(())
}

const KINDS: [(LineKind, &str); 8] = [
    (LineKind::Unknown, "line 1: unknown line"),
    (LineKind::Fields, "line 1: wrong number of fields"),
    (LineKind::Number, "line 1: not a number"),
    (LineKind::Range, "line 1: out of range"),
    (LineKind::Misplaced, "line 1: misplaced line"),
    (LineKind::TooMany, "line 1: too many lines"),
    (LineKind::TooFew, "line 1: too few lines"),
    (LineKind::NoProblem, "line 1: no problem line"),
];

fn expect_text(rt: &impl Abort, alloc: Global, fault: &TextFault, want: &str) -> Result<(), Fail> {
    let text = format!(in alloc; "{fault}")?;
    assert!(rt; text.as_str() == want);
    Ok(())
}

#[test]
fn faults_print_themselves(rt: HostRuntime) -> Result<(), Fail> {
    let alloc = rt.alloc();
    for (kind, want) in KINDS {
        expect_text(&rt, alloc, &TextFault::Line { line: 1, kind }, want)?;
    }
    expect_text(&rt, alloc, &TextFault::Memory, "out of memory")
}
