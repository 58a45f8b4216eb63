//! Answers whose writer fails: nothing is solved after.

use crate::answers::at_once::path;
use crate::answers::streams::Sink;
use job_answer::{Answer, Asked, Fault, Lines, answer_watched};
use job_messages::Figures;
use obim_engine::{OpenGate, Settings};
use std::alloc::Global;
use std::process::Abort;
use std::sync::Wait;
use std::test::Fail;
use std::thread::Threads;
use std::time::Clock;

/// Lines of vertices, no walk among them.
const LINES: Lines = Lines::Each { walks: false };

const WALKS: Lines = Lines::Each { walks: true };

/// A text of 8,000 vertices, whose block has more than a piece of 64 KiB.
const SOURCES: &[u8] = b"p sp 8000 0\np aux sp ss 3\ns 1\ns 2\ns 3\n";

const ADDED: &[u8] = b"p sp 8000 0\np aux sp ss 1\ns 1\np aux sp add 1\na 1 2 5\n";

/// The answer to a text, by one worker, to a writer without room: the outcome, and the number of its solves.
fn solves_in_vain<H: Abort + Threads + Wait + Clock + Sync>(
    rt: &H,
    alloc: Global,
    text: &[u8],
    lines: Lines,
) -> (Result<(), Fault>, usize) {
    let settings = Settings::new(1, 0, 16).expect(rt, "settings within their limits");
    let asked = Asked::by_lines(Answer::Distances, settings, lines, 1 << 20).expect(
        rt,
        "lines of costs",
    );
    let (mut reader, mut sink) = (text, Sink::with_room(alloc, 1000, 0, true));
    let mut figures = Figures::new(rt);
    let outcome = answer_watched(
        rt,
        alloc,
        &mut reader,
        &mut sink,
        &asked,
        &OpenGate,
        &mut figures,
    );
    (outcome, figures.solves)
}

// The first piece is written within the first block, or after the pairs of the first source.
#[test]
fn nothing_is_solved_after_a_failed_write(rt: HostRuntime) -> Result<(), Fail> {
    let alloc = rt.alloc();
    let walked = path(alloc, b"p aux sp ss 3\ns 1\ns 2\ns 3\n")?;
    let pairs = path(alloc, &pairs_of_two(alloc)?)?;
    for (text, lines) in [
        (SOURCES, LINES),
        (ADDED, LINES),
        (&walked, WALKS),
        (&pairs, WALKS),
    ] {
        let told = solves_in_vain(&rt, alloc, text, lines);
        assert_eq!(rt; told, (Err(Fault::Write), 1));
    }
    Ok(())
}

/// A hundred pairs from the first vertex of the path to its last, and one from the second.
fn pairs_of_two(alloc: Global) -> Result<Vec<u8>, Fail> {
    let mut queries = Vec::from_slice(alloc, b"p aux sp p2p 101\n")?;
    for _ in 0..100 {
        queries.extend_from_slice(b"q 1 200\n")?;
    }
    queries.extend_from_slice(b"q 2 200\n")?;
    Ok(queries)
}
