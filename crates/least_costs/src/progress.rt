//! Progress of a call.

use std::time::Clock;

/// A watch that sees how far a call is, in the caller's own thread. No cost depends on it.
pub trait Progress {
    /// Sees that `done` of `all` pairs have their costs, by rising source. `solves` starts were solved since the call
    /// before, and at most `teams` sources at the same time.
    fn see<C: Clock>(&mut self, clock: &C, done: usize, all: usize, solves: usize, teams: usize);
}

/// A watch that does nothing.
#[derive(Clone, Copy, Debug)]
pub struct Unwatched;

impl Progress for Unwatched {
    fn see<C: Clock>(
        &mut self,
        _clock: &C,
        _done: usize,
        _all: usize,
        _solves: usize,
        _teams: usize,
    ) {}
}
