//! The parts of a hierarchy.

use csr_graph::{Csr, MAX_ARCS, MAX_VERTICES};
use route_walks::{ArcRec, Memory, is_graph};
use std::alloc::Global;

/// The parts of a hierarchy, by whoever made them. Nothing is known of them until they are checked.
#[derive(Debug, Drop)]
pub struct HierarchyParts {
    /// The place of each vertex, from 0. Higher ones are more important.
    pub places: Vec<u32>,
    /// The vertex at each place.
    pub vertices: Vec<u32>,
    /// Arcs to higher places, of which each row has rising heads.
    pub up: Csr,
    /// Arcs from higher places, turned round, in such rows.
    pub down: Csr,
    /// The origin of each arc of `up`, in their order: the place over which it leads, or the number of places and more. That
    /// is for an arc of the graph, and adds its index in the row of its tail.
    pub origins_up: Vec<u32>,
    /// As `origins_up`, of the arcs of `down`.
    pub origins_down: Vec<u32>,
}

/// Puts arcs between `n` places into rows. Returns `None` if one leads elsewhere, or they are too many.
pub fn rows_of(alloc: Global, n: u32, arcs: &[ArcRec]) -> Result<Option<Csr>, Memory> {
    if n > MAX_VERTICES || arcs.len() > MAX_ARCS || !is_graph(n, arcs) {
        return Ok(None);
    }
    Ok(Some(Csr::build(alloc, n, arcs)?))
}
