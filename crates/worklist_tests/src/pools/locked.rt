//! A locked pool gives the lowest metric and its last vertex first, and loses none.

use crate::pools::calls::{Call, expect_calls};
use crate::pools::obim::{POPS, PUSHES};
use obim_pool::LockedPool;

// A few vertices, and then many.
const IN_ORDER: &[(usize, Call)] = &[
    (0, PUSHES),
    (0, Call::Ahead(1, None)),
    (0, POPS),
    (0, Call::PushAll(1_100_000, 1, 0)),
    (0, Call::PopFalling(0, 1_100_000)),
    (0, Call::Pop(&[None])),
];

// Of 64 sides the last pops what the first pushed.
const HANDED_OVER: &[(usize, Call)] = &[
    (0, Call::Push(&[(7, 5)])),
    (63, Call::Pop(&[Some(7)])),
    (0, Call::Pop(&[None])),
];

// The workers of a pool, and the calls.
const ROWS: [(u32, &[(usize, Call)]); 3] = [(0, &[]), (1, IN_ORDER), (64, HANDED_OVER)];

#[test]
fn rows_of_calls(rt: HostRuntime) {
    for (row, &(workers, calls)) in ROWS.iter().enumerate() {
        let opened = LockedPool::open(rt.alloc(), workers);
        let (pool, mut sides) = opened.expect(&rt, "memory for a pool");
        expect_calls(&rt, &pool, &mut sides, row, calls);
    }
}
