//! The question of a request, and the line that its reply names.

use dimacs_text::Ask;

/// A question, and the line that its reply names.
#[derive(Drop)]
pub(crate) struct Query {
    pub(crate) ask: Ask,
    /// The number of the last line of the request, or of the graph.
    pub(crate) line: u64,
}
