//! Figures of a job, for `--stats`.

use job_answer::{Phase, ReadWatch, Watch};
use std::time::{Clock, Duration};

/// Figures of a job and of how it was answered.
#[derive(Clone, Copy, Debug, PartialEq, Eq)]
pub struct Figures {
    pub vertices: u32,
    /// The arcs of the rows, for components both ways.
    pub arcs: usize,
    /// The number of times that labels were worked out.
    pub solves: usize,
    /// The landmarks that pairs were searched by.
    pub landmarks: usize,
    /// The arcs of the hierarchy that pairs were searched by; 0 without one.
    pub hierarchy_arcs: usize,
    /// The vertices that searches visited.
    pub search_visits: u64,
    /// The most sources solved at the same time.
    pub at_once: usize,
    pub reading: Duration,
    pub rows: Duration,
    pub preparing: Duration,
    pub solving: Duration,
    pub writing: Duration,
    // When the last phase ended, by the clock.
    last: Duration,
}

impl Figures {
    /// The figures of nothing, from now on.
    pub fn new<C: Clock>(clock: &C) -> Figures {
        Figures {
            vertices: 0,
            arcs: 0,
            solves: 0,
            landmarks: 0,
            hierarchy_arcs: 0,
            search_visits: 0,
            at_once: 1,
            reading: Duration::ZERO,
            rows: Duration::ZERO,
            preparing: Duration::ZERO,
            solving: Duration::ZERO,
            writing: Duration::ZERO,
            last: clock.monotonic().unwrap_or(Duration::ZERO),
        }
    }
}

impl ReadWatch for Figures {}

impl Watch for Figures {
    fn see_rows(&mut self, vertices: u32, arcs: usize) {
        self.vertices = vertices;
        self.arcs = arcs;
    }

    fn see_landmarks(&mut self, landmarks: usize) {
        self.landmarks = landmarks;
    }

    fn see_hierarchy(&mut self, arcs: usize) {
        self.hierarchy_arcs = arcs;
    }

    fn see_search_visits(&mut self, visits: u64) {
        self.search_visits = visits;
    }

    fn see_solves(&mut self, count: usize) {
        self.solves = self.solves.saturating_add(count);
    }

    fn see_teams(&mut self, teams: usize) {
        self.at_once = self.at_once.max(teams);
    }

    // A clock that fails counts nothing.
    fn end<C: Clock>(&mut self, clock: &C, phase: Phase) {
        let now = clock.monotonic().unwrap_or(self.last);
        let spent = now.saturating_sub(self.last);
        self.last = now;
        let sum = match phase {
            Phase::Reading => &mut self.reading,
            Phase::Rows => &mut self.rows,
            Phase::Preparing => &mut self.preparing,
            Phase::Solving => &mut self.solving,
            Phase::Writing => &mut self.writing,
        };
        *sum = sum.saturating_add(spent);
    }
}
