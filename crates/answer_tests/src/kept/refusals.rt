//! Each call with one allocation refused: `Memory` or `Spawn`, and made once more what was worked by hand.

use crate::kept::asked;
use dimacs_text::{Ask, read_job};
use job_answer::{
    Answer, Context, Fault, Lines, NoWatch, Question, answer_question, graphs_by, graphs_for,
    is_unasked, write_whole,
};
use least_costs::Workspace;
use obim_engine::OpenGate;
use route_walks::{Memory, refusable, tried_again};
use session_answer::answer_session;
use std::test::Fail;

// A writer with room for the answer takes no memory.
const ROOM: usize = 1000;

const JOINED: &[u8] = b"k 1 1\nk 2 1\nk 3 1\nk 4 1\nk 5 1\nk 6 1\n";

const REQUESTS: &[u8] =
    b"p sp 2 1\na 1 2 7\np aux sp ss 1\ns 1\np aux sp levels totals ss 1\ns 1\np aux sp add 1\na 2 1 3\n\
    p aux sp walk 1\nq 2 1\np aux sp within 2 1\ns 2\np aux sp levels p2p 1\nq 2 1\np aux sp components ss 0\n\
    p aux sp set 1\na 1 2 5\np aux sp arcs 2\nq 1 2\nq 2 2\np aux sp cut 1\nq 2 1\np aux sp p2p 1\nq 2 1\n\
    p aux sp raw p2p 2\nq 2 1\nq 1 2\n";

const REPLIES: &[u8] = b"r 2 1 2\ns 1\nd 1 0\nd 2 7\nr 2 1 4\nt 1 2 1 1 2\nr 2 1 6\ng 1\nr 2 2 8\n\
    q 2 1 3\nw 1 3 2 1\nr 2 2 10\ns 2\nd 2 0\nr 2 2 12\nq 2 1 1\nr 2 2 14\nk 1 1\nk 2 1\nr 2 2 15\n\
    x 1\ng 1\nr 2 2 17\na 1 2 5\nr 2 2 20\nx 1\nr 2 1 22\nq 2 1 inf\nr 2 1 24\n\
    \xff\xff\xff\xff\xff\xff\xff\xff\x05\0\0\0\0\0\0\0r 2 1 27\n";

/// A graph of six vertices.
const GRAPH: &[u8] =
    b"p sp 6 8\na 1 2 17\na 1 3 10\na 2 4 2\na 3 5 0\na 4 3 0\na 4 6 3\na 5 2 0\na 5 6 20\n";

#[test]
fn of_graphs_for(rt: HostRuntime) -> Result<(), Fail> {
    let alloc = rt.alloc();
    let (job, same) = (read_job(alloc, GRAPH)?, read_job(alloc, GRAPH)?);
    let graphs = tried_again!(
        rt,
        alloc,
        Memory,
        graphs_for(&rt, alloc, Answer::Distances, job.n, job.arcs, None, 2),
        graphs_for(&rt, alloc, Answer::Distances, same.n, same.arcs, None, 2)
    );
    assert!(rt; graphs.network.rows().arc_count() == 8);
    Ok(())
}

#[test]
fn of_graphs_by(rt: HostRuntime) -> Result<(), Fail> {
    let alloc = rt.alloc();
    let job = read_job(alloc, GRAPH)?;
    let weights = graphs_for(&rt, alloc, Answer::Distances, job.n, job.arcs, None, 2)?;
    // The network of components has each arc both ways.
    for (answer, count) in [(Answer::Levels, 8), (Answer::Components, 16)] {
        let graphs = tried_again!(
            rt,
            alloc,
            Memory,
            graphs_by(&rt, alloc, answer, &weights.network, 2),
            graphs_by(&rt, alloc, answer, &weights.network, 2)
        );
        assert!(rt; graphs.network.rows().arc_count() == count, "{answer:?}");
    }
    Ok(())
}

#[test]
fn of_answer_question(rt: HostRuntime) -> Result<(), Fail> {
    let alloc = rt.alloc();
    let asked = asked(&rt, Answer::Components);
    let job = read_job(alloc, GRAPH)?;
    let graphs = graphs_for(&rt, alloc, asked.answer, job.n, job.arcs, None, 2)?;
    let question = Question {
        graphs: &graphs,
        ask: &Ask::Absent,
        lines: Lines::Each { walks: false },
    };
    let context = Context {
        rt: &rt,
        alloc,
        asked: &asked,
        gate: &OpenGate,
    };
    let mut out = Vec::with_capacity(alloc, ROOM)?;
    let mut kept = Some(Workspace::new());
    assert!(rt; !is_unasked(asked.answer, question.ask));
    if let Err(fault) = refusable!(
        alloc,
        answer_question(&context, &mut out, &question, &mut kept, &mut NoWatch)
    ) {
        assert!(rt; matches!(fault, Fault::Memory | Fault::Spawn), "{fault:?}");
        assert!(rt; JOINED.starts_with(&out));
        out.clear();
        answer_question(&context, &mut out, &question, &mut kept, &mut NoWatch)?;
    }
    assert!(rt; out.as_slice() == JOINED);
    Ok(())
}

#[test]
fn of_write_whole(rt: HostRuntime) -> Result<(), Fail> {
    let alloc = rt.alloc();
    let mut out = Vec::with_capacity(alloc, ROOM)?;
    refusable!(alloc, write_whole(&mut out, JOINED))?;
    assert!(rt; out.as_slice() == JOINED);
    Ok(())
}

// A request may be refused in one line, and the others are answered.
#[test]
fn of_answer_session(rt: HostRuntime) -> Result<(), Fail> {
    let alloc = rt.alloc();
    let asked = asked(&rt, Answer::Distances);
    let (mut reader, mut same) = (REQUESTS, REQUESTS);
    let mut out = Vec::with_capacity(alloc, ROOM)?;
    let ended = refusable!(
        alloc,
        answer_session(&rt, alloc, &mut reader, &mut out, &asked, &OpenGate)
    );
    if let Err(fault) = ended {
        assert!(rt; matches!(fault, Fault::Memory | Fault::Spawn), "{fault:?}");
        assert!(rt; REPLIES.starts_with(&out) || has_refusal(&out));
    }
    if out.as_slice() != REPLIES {
        assert!(rt; ended.is_err() || has_refusal(&out));
        out.clear();
        answer_session(&rt, alloc, &mut same, &mut out, &asked, &OpenGate)?;
    }
    assert!(rt; out.as_slice() == REPLIES);
    Ok(())
}

fn has_refusal(replies: &[u8]) -> bool {
    replies
        .windows(15)
        .any(|words| words == b" out of memory\n".as_slice())
}
