//! The outcomes of the lines after a graph.

use dimacs_text::{Job, LineKind, SectionHead};

/// A request, or the reason for which it is refused.
#[derive(Debug, Drop)]
pub enum Request {
    /// The number of its last line; the sources, the pairs or the arcs that are to be added, as a job whose graph has no
    /// arcs; and the head.
    Asked {
        line: u64,
        job: Job,
        head: SectionHead,
    },
    /// The first line that is wrong, by its number, and what is wrong with it.
    Wrong {
        line: u64,
        kind: LineKind,
    },
    /// The number of the line at which memory was refused.
    NoMemory {
        line: u64,
    },
}

/// The outcomes of a line: `ended` is the request that ends before it, and `completed` the one that it completes or
/// that is refused at it.
#[derive(Debug, Drop)]
pub struct LineEvents {
    pub ended: Option<Request>,
    pub completed: Option<Request>,
}
