//! A chunk is a stack with a name.

use obim_bags::{Chunk, ChunkId, Full};
use std::process::Abort;

const ID: ChunkId = ChunkId {
    worker: 3,
    serial: 9,
};

// The vertex that each coming pop takes, if none is pushed before.
const AHEAD: [(usize, Option<u32>); 5] = [
    (1, Some(5)),
    (2, Some(4)),
    (0, None),
    (3, None),
    (usize::MAX, None),
];

// The results of pushes: two vertices fit.
const PUSHES: [(u32, Result<(), Full>); 3] = [(4, Ok(())), (5, Ok(())), (6, Err(Full))];

fn push_each(rt: &impl Abort, chunk: &mut Chunk) {
    for (v, want) in PUSHES {
        assert!(rt; chunk.push(v) == want, "vertex {v}");
    }
    assert!(rt; chunk.id() == ID && chunk.len() == 2);
}

// Looking ahead takes nothing.
fn look_ahead(rt: &impl Abort, chunk: &Chunk) {
    for (by, want) in AHEAD {
        assert!(rt; chunk.ahead(by) == want, "ahead by {by}");
    }
}

#[test]
fn two_fit_and_the_last_comes_first(rt: HostRuntime) {
    let mut chunk = Chunk::new(ID, 2);
    assert!(rt; chunk.len() == 0 && chunk.ahead(1).is_none());
    push_each(&rt, &mut chunk);
    look_ahead(&rt, &chunk);
    assert!(rt; chunk.pop() == Some(5) && chunk.ahead(1) == Some(4));
    assert!(rt; chunk.pop() == Some(4) && chunk.pop().is_none());
    assert!(rt; chunk.id() == ID && chunk.len() == 0);
}
