//! The error of a call that is refused memory, and what tests use to refuse some.

use std::alloc::{AllocError, AllocFailed, Global};
use std::error::Error;
use std::fmt;

/// The system refused memory. The call's contract says what it leaves.
#[derive(Clone, Copy, Debug, PartialEq, Eq)]
pub struct Memory;

impl fmt::Display for Memory {
    fn fmt<W: fmt::Write>(&self, f: &mut fmt::Formatter<W>) -> fmt::Result {
        f.write_str("out of memory")
    }
}

impl Error for Memory {}

impl From<AllocError> for Memory {
    fn from(_refused: AllocError) -> Memory {
        Memory
    }
}

impl<T: Drop> From<AllocFailed<T>> for Memory {
    fn from(_refused: AllocFailed<T>) -> Memory {
        Memory
    }
}

/// For tests: tells `tests/refuse.c` that a call begins or ends, by an allocation of 1,000,003 bytes, which it frees.
pub fn signal(alloc: Global) {
    let _signal = Vec::<u8>::with_capacity(alloc, 1_000_003);
}

/// For tests: counts the allocations of a call and has one refused by `tests/refuse.c`, between signals.
#[macro_export]
macro_rules! refusable {
    ($alloc:expr, $call:expr) => {{
        $crate::refusal::signal($alloc);
        let given = $call;
        $crate::refusal::signal($alloc);
        given
    }};
}

/// For tests: as `refusable!`, and after this fault gives what a second call gives: the same one, unless another is
/// named.
#[macro_export]
macro_rules! tried_again {
    ($rt:expr, $alloc:expr, $fault:expr, $call:expr) => {
        $crate::tried_again!($rt, $alloc, $fault, $call, $call)
    };
    ($rt:expr, $alloc:expr, $fault:expr, $call:expr, $again:expr) => {
        match $crate::refusable!($alloc, $call) {
            Ok(given) => given,
            Err(fault) => {
                assert!($rt; fault == $fault);
                $again?
            }
        }
    };
}
