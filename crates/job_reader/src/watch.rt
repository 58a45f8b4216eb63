//! Progress of reading.

use dimacs_text::Explanation;

/// A watch that `read_job_from` shows how far it is, in the caller's thread. No job and no fault depends on it.
pub trait ReadWatch {
    /// Sees that `count` more bytes were read, and how many of the graph's arcs of how many, once the problem line is
    /// read.
    fn see_text(&mut self, _count: usize, _arcs: Option<(usize, usize)>) {}

    /// Sees the explanation of a fault, once, before it is returned.
    fn see_fault(&mut self, _explanation: &Explanation) {}
}
