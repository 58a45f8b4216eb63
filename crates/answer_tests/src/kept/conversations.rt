//! A client that writes a line once all earlier replies are out, and the limit of a session's graph.

ghost use Rattle.std.specs.Prelude.{Some};

use crate::kept::asked_within;
use job_answer::Fault;
use obim_engine::OpenGate;
use session_answer::answer_session;
use std::alloc::Global;
use std::io::{self, Read, Write};
use std::sync::atomic::{AtomicU64, Ordering};
use std::test::Fail;

const GRAPH: &[u8] = b"p sp 2 0\n";

/// A line of a client, and the replies that are out after it.
const LINES: [(&[u8], u64); 10] = [
    (GRAPH, 1),
    (b"p aux sp p2p 1\n", 1),
    (b"q 1 2\n", 2),
    (b"c x\n", 2),
    (b"p aux sp ss 1\n", 2),
    (b"s 3\n", 3),
    (b"p aux sp add 1\n", 3),
    (b"a 1 2 5\n", 4),
    (b"p aux sp walk 1\n", 4),
    (b"q 1 2\n", 5),
];

const REPLIES: &[u8] =
    b"r 2 0 1\nq 1 2 inf\nr 2 0 3\ne 6 out of range\ng 1\nr 2 1 8\nq 1 2 5\nw 2 5 1 2\nr 2 1 10\n";

/// The number of replies that a client sees, and true if bytes wait for a flush.
#[derive(Drop)]
struct Wire {
    replies: AtomicU64,
    waiting: AtomicU64,
}

impl Wire {
    fn new() -> Wire {
        Wire {
            replies: AtomicU64::new(0),
            waiting: AtomicU64::new(0),
        }
    }

    fn has(&self, replies: u64) -> bool {
        self.replies.load(Ordering::SeqCst) == replies && self.waiting.load(Ordering::SeqCst) == 0
    }
}

/// A reader that gives one line a read.
#[derive(Drop)]
struct Client<'a> {
    wire: &'a Wire,
    place: usize,
    /// The reads before the replies to all earlier lines were out.
    early: u64,
}

impl Read for Client<'_> {
    fn read(&mut self, buffer: &mut [u8]) -> io::Result<usize> {
        let due = match self.place {
            0 => 0,
            place => LINES[(place - 1).min(LINES.len() - 1)].1,
        };
        if !self.wire.has(due) {
            self.early = self.early.saturating_add(1);
        }
        if self.place >= LINES.len() {
            return Ok(0);
        }
        let line = LINES[self.place].0;
        let count = line.len().min(buffer.len());
        buffer[..count].copy_from_slice(&line[..count]);
        self.place += 1;
        Ok(count)
    }
}

/// A writer whose bytes come through with a flush.
#[derive(Drop)]
struct Wired<'a> {
    wire: &'a Wire,
    taken: Vec<u8>,
}

impl<'a> Wired<'a> {
    fn new(alloc: Global, wire: &'a Wire) -> Wired<'a> {
        Wired {
            wire,
            taken: Vec::new(alloc),
        }
    }
}

impl Write for Wired<'_> {
    fn write(&mut self, bytes: &[u8]) -> io::Result<usize> {
        self.taken.extend_from_slice(bytes)?;
        self.wire.waiting.store(1, Ordering::SeqCst);
        Ok(bytes.len())
    }

    fn flush(&mut self) -> io::Result<()> {
        self.wire.replies.store(ends(&self.taken), Ordering::SeqCst);
        self.wire.waiting.store(0, Ordering::SeqCst);
        Ok(())
    }
}

/// The number of lines that end a reply.
fn ends(bytes: &[u8]) -> u64 {
    let mut count = 0_u64;
    let mut begins = true;
    for byte in bytes {
        if begins && (*byte == b'r' || *byte == b'e') {
            count = count.saturating_add(1);
        }
        begins = *byte == b'\n';
    }
    count
}

#[test]
fn each_reply_is_out_before_more_is_read(rt: HostRuntime) -> Result<(), Fail> {
    for workers in [1, 3] {
        let wire = Wire::new();
        let mut client = Client {
            wire: &wire,
            place: 0,
            early: 0,
        };
        let mut out = Wired::new(rt.alloc(), &wire);
        let asked = asked_within(&rt, workers, 1000);
        answer_session(&rt, rt.alloc(), &mut client, &mut out, &asked, &OpenGate)?;
        assert_eq!(rt; out.taken.as_slice(), REPLIES);
        assert_eq!(rt; client.early, 0);
    }
    Ok(())
}

// The limit, what the reader gives, the outcome, and what is written.
const LIMITS: [(u64, &[u8], Result<(), Fault>, &[u8]); 7] = [
    (9, GRAPH, Ok(()), b"r 2 0 1\n"),
    (8, GRAPH, Err(Fault::TooLong), b""),
    (0, GRAPH, Err(Fault::TooLong), b""),
    // Requests in one read with the graph have no limit.
    (
        9,
        b"p sp 2 0\np aux sp p2p 1\nq 1 2\n",
        Ok(()),
        b"r 2 0 1\nq 1 2 inf\nr 2 0 3\n",
    ),
    (
        20,
        b"p sp 2 0\np aux sp p2p 1\nq 1 2\n",
        Ok(()),
        b"r 2 0 1\nq 1 2 inf\nr 2 0 3\n",
    ),
    (
        8,
        b"p sp 2 0\np aux sp p2p 1\nq 1 2\n",
        Err(Fault::TooLong),
        b"",
    ),
    // A fault past the limit is not seen.
    (11, b"p sp 2 1\nc\na 1 3 5\n", Err(Fault::TooLong), b""),
];

#[test]
fn limits_of_graphs(rt: HostRuntime) -> Result<(), Fail> {
    for (limit, given, want, text) in LIMITS {
        let mut reader = given;
        let mut out = Vec::new(rt.alloc());
        let asked = asked_within(&rt, 1, limit);
        let outcome = answer_session(&rt, rt.alloc(), &mut reader, &mut out, &asked, &OpenGate);
        assert!(rt; outcome == want);
        assert_eq!(rt; out.as_slice(), text);
    }
    Ok(())
}
