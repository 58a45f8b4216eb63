//! The start of walks.

/// The start of walks.
#[derive(Clone, Copy, Debug, PartialEq, Eq)]
pub enum Start {
    /// At this vertex, at cost 0.
    At(u32),
    /// At each vertex, at its number. If arcs are free both ways, its least cost is the least number of its component.
    Everywhere,
}
