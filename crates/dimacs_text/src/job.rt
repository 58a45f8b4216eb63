//! The job of a text: its graph and what it asks for.

use route_walks::ArcRec;

/// The labels that a text asks for: from each source to all vertices, or for each pair.
#[derive(Debug, Drop)]
pub enum Ask {
    /// The text has no section of queries.
    Absent,
    /// The sources, counted from 0, in the order of the text, repeats included.
    Sources(Vec<u32>),
    /// The pairs of a source and a target, each counted from 0, in the order of the text, repeats included.
    Pairs(Vec<(u32, u32)>),
}

/// A job: a graph, what is asked of it, and perhaps arcs with which it is asked once more.
#[derive(Debug, Drop)]
pub struct Job {
    /// The number of vertices, which are counted from 0.
    pub n: u32,
    /// The arcs of the graph in the order of the text.
    pub arcs: Vec<ArcRec>,
    /// The labels that are asked for.
    pub ask: Ask,
    /// The arcs of the added section in the order of the text; `None` if the text has none.
    pub added: Option<Vec<ArcRec>>,
}
