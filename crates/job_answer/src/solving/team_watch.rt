//! A count of what teams solve side by side.

use crate::watch::{Phase, Watch};
use std::sync::atomic::{AtomicUsize, Ordering};
use std::time::Clock;

/// The number of times that teams worked out labels, also of what was not kept.
#[derive(Drop)]
pub struct SolveCount {
    count: AtomicUsize,
}

impl SolveCount {
    pub fn new() -> SolveCount {
        SolveCount {
            count: AtomicUsize::new(0),
        }
    }

    /// Returns the count and begins anew.
    pub fn take(&self) -> usize {
        self.count.swap(0, Ordering::Relaxed)
    }
}

/// Counts how often a team worked out labels.
#[derive(Drop)]
pub struct TeamWatch<'a> {
    pub solves: &'a SolveCount,
}

impl Watch for TeamWatch<'_> {
    fn see_solves(&mut self, count: usize) {
        self.solves.count.fetch_add(count, Ordering::Relaxed);
    }
}

/// Shows a watch what teams did before the turn of a task, and that the next phase is over.
pub fn see_round<C: Clock>(clock: &C, teams: usize, solves: &SolveCount, watch: &mut impl Watch) {
    watch.see_teams(teams);
    watch.see_solves(solves.take());
    watch.end(clock, Phase::Solving);
}
