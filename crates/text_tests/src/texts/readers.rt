//! Jobs from a reader: what its text gives, a watch sees, and is left.

use dimacs_text::{Explanation, JobReader, LineKind};
use job_reader::{ReadFault, ReadWatch, read_arcs_from, read_job_from};
use route_walks::ArcRec;
use std::alloc::Global;
use std::process::Abort;
use std::test::Fail;
use std::thread::Threads;
use std::time::Clock;

/// The calls that a watch has seen.
#[derive(Clone, Copy, Debug, PartialEq, Eq)]
pub struct WatchedCalls {
    pub bytes: usize,
    pub arcs: Option<(usize, usize)>,
    pub faults: u32,
}

pub const NOTHING: WatchedCalls = WatchedCalls {
    bytes: 0,
    arcs: None,
    faults: 0,
};

impl ReadWatch for WatchedCalls {
    fn see_text(&mut self, count: usize, arcs: Option<(usize, usize)>) {
        self.bytes = self.bytes.saturating_add(count);
        self.arcs = arcs;
    }

    fn see_fault(&mut self, _explanation: &Explanation) {
        self.faults = self.faults.saturating_add(1);
    }
}

/// A job of one arc, in 17 bytes.
pub const ONE_ARC: &[u8] = b"p sp 2 1\na 1 2 7\n";

/// The calls that a watch sees of that job.
const ALL: WatchedCalls = WatchedCalls {
    bytes: 17,
    arcs: Some((1, 1)),
    faults: 0,
};

fn expect_one_arc<H: Threads + Clock + Abort + Sync>(
    rt: &H,
    alloc: Global,
    threads: usize,
) -> Result<(), Fail> {
    let (mut text, mut seen) = (ONE_ARC, NOTHING);
    let job = read_job_from(rt, alloc, &mut text, 17, threads, &mut seen)?;
    assert!(rt; job.n == 2 && job.arcs.as_slice() == [ArcRec::new(0, 1, 7)].as_slice());
    assert!(rt; seen == ALL && text.is_empty());
    Ok(())
}

#[test]
fn jobs_of_readers(rt: HostRuntime) -> Result<(), Fail> {
    for threads in [0, 1, 4] {
        expect_one_arc(&rt, rt.alloc(), threads)?;
    }
    Ok(())
}

const UNKNOWN: ReadFault = ReadFault::Text {
    line: 2,
    kind: LineKind::Unknown,
};

// The text, the limit, the fault, the bytes left, and the faults that the watch has seen.
const REFUSED: [(&[u8], u64, ReadFault, usize, u32); 4] = [
    (ONE_ARC, 16, ReadFault::TooLong, 0, 0),
    (ONE_ARC, 3, ReadFault::TooLong, 13, 0),
    (b"p sp 2 1\nx\na 1 2 7\n", 19, UNKNOWN, 0, 1),
    (b"p sp 2 1\nx\na 1 2 7\n", 18, ReadFault::TooLong, 0, 0),
];

#[test]
fn readers_without_a_job(rt: HostRuntime) {
    for (text, limit, want, left, faults) in REFUSED {
        let mut text = text;
        let mut seen = NOTHING;
        let refused = read_job_from(&rt, rt.alloc(), &mut text, limit, 2, &mut seen);
        assert!(rt; refused.err() == Some(want));
        assert!(rt; text.len() == left && seen.faults == faults);
    }
}

// A front of a graph, the limit, the threads, and how many of the next 16 bytes they read.
const READ_ON: [(&[u8], usize, usize, usize); 7] = [
    (b"p sp 2 200000\n", 100, 4, 16),
    (b"p sp 2 200000\n", 10, 4, 10),
    (b"p sp 2 200000\n", 0, 4, 0),
    (b"p sp 2 200000\n", 100, 1, 0),
    (b"p sp 2 131073\n", 100, 2, 16),
    (b"p sp 2 131072\n", 100, 2, 0),
    (b"p sp 2 200000\nx\n", 100, 4, 0),
];

#[test]
fn several_threads_read_on_where_many_arcs_are_missing(rt: HostRuntime) -> Result<(), Fail> {
    for (front, limit, threads, want) in READ_ON {
        let mut job = JobReader::new(rt.alloc());
        job.feed(front)?;
        let mut text = b"a 1 2 7\na 2 1 7\n".as_slice();
        let count = read_arcs_from(&rt, rt.alloc(), &mut text, &mut job, limit, threads)?;
        assert!(rt; count == want && text.len() == 16 - want.min(16));
    }
    Ok(())
}

const MESSAGES: [(ReadFault, &str); 4] = [
    (ReadFault::Read, "read failed"),
    (ReadFault::TooLong, "input too long"),
    (UNKNOWN, "line 2: unknown line"),
    (ReadFault::Memory, "out of memory"),
];

#[test]
fn faults_of_readers_print_themselves(rt: HostRuntime) -> Result<(), Fail> {
    for (fault, want) in MESSAGES {
        let text = format!(in rt.alloc(); "{fault}")?;
        assert!(rt; text.as_str() == want);
    }
    Ok(())
}
