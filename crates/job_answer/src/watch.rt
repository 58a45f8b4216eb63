//! Progress of an answer.

use job_reader::ReadWatch;
use std::time::Clock;

/// The parts of an answer, in turn, that time is spent on.
#[derive(Clone, Copy, Debug, PartialEq, Eq)]
pub enum Phase {
    Reading,
    /// Making the rows.
    Rows,
    /// Reversing them, choosing landmarks and making a hierarchy, for pairs.
    Preparing,
    Solving,
    Writing,
}

/// A watch that `answer_watched` shows how far it is, in the caller's thread. No byte of an answer depends on it.
pub trait Watch {
    /// Sees the vertices and arcs of the rows. For components each arc counts both ways.
    fn see_rows(&mut self, _vertices: u32, _arcs: usize) {}

    /// Sees how many landmarks pairs are searched by.
    fn see_landmarks(&mut self, _landmarks: usize) {}

    /// Sees how many arcs the hierarchy has by which pairs are searched; 0 without one.
    fn see_hierarchy(&mut self, _arcs: usize) {}

    /// Sees how many vertices the searches for pairs and walks visited, which no gate sees.
    fn see_search_visits(&mut self, _visits: u64) {}

    /// Sees that labels were worked out `count` times more.
    fn see_solves(&mut self, _count: usize) {}

    /// Sees how many sources are solved at the same time.
    fn see_teams(&mut self, _teams: usize) {}

    /// Sees that `done` of all sources or pairs, in order, are answered.
    fn see_answered(&mut self, _done: usize, _all: usize) {}

    /// Sees that a phase ends, begun when the last one ended.
    fn end<C: Clock>(&mut self, _clock: &C, _phase: Phase) {}
}

/// A watch that looks at nothing.
#[derive(Clone, Copy, Debug, PartialEq, Eq)]
pub struct NoWatch;

impl ReadWatch for NoWatch {}

impl Watch for NoWatch {}
