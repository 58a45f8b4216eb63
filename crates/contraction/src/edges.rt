//! Rows of edges that grow and shrink while vertices are contracted.

use route_walks::Memory;
use std::alloc::Global;

/// An edge to another vertex, or from it.
#[derive(Clone, Copy, Debug)]
pub(crate) struct Edge {
    pub end: u32,
    pub weight: u64,
    /// The vertex over which it leads, or the number of vertices and its index in a row of the graph.
    pub origin: u32,
}

/// The edges of each vertex, at most one to another.
#[derive(Drop)]
pub(crate) struct EdgeRows {
    rows: Vec<Vec<Edge>>,
    /// By vertex, the index of the edge to it in the row that was noted last.
    indices: Vec<usize>,
    /// The edges that were looked at.
    pub steps: usize,
}

impl EdgeRows {
    pub(crate) fn new(alloc: Global, n: u32) -> Result<EdgeRows, Memory> {
        let mut rows = Vec::with_capacity(alloc, n as usize)?;
        for _ in 0..n {
            rows.push(Vec::new(alloc))?;
        }
        Ok(EdgeRows {
            rows,
            indices: vec![in alloc; 0_usize; n as usize]?,
            steps: 0,
        })
    }

    pub(crate) fn row(&self, v: u32) -> &[Edge] {
        match self.rows.get(v as usize) {
            Some(row) => row,
            None => &[],
        }
    }

    /// Adds an edge at the end of a row.
    pub(crate) fn push(&mut self, v: u32, edge: Edge) -> Result<(), Memory> {
        if let Some(row) = self.rows.get_mut(v as usize) {
            row.push(edge)?;
        }
        Ok(())
    }

    /// Notes where the edges of a row stand.
    pub(crate) fn note(&mut self, v: u32) {
        let Some(row) = self.rows.get(v as usize) else {
            return;
        };
        self.steps = self.steps.saturating_add(row.len());
        let mut index = 0_usize;
        for edge in row {
            if let Some(noted) = self.indices.get_mut(edge.end as usize) {
                *noted = index;
            }
            index = index.saturating_add(1);
        }
    }

    /// Adds an edge to the row that was noted last, or lowers the weight of the one to the same vertex. Returns true if it is
    /// added.
    pub(crate) fn put(&mut self, v: u32, edge: Edge) -> Result<bool, Memory> {
        let Some(row) = self.rows.get_mut(v as usize) else {
            return Ok(false);
        };
        let Some(index) = self.indices.get_mut(edge.end as usize) else {
            return Ok(false);
        };
        match row.get_mut(*index) {
            Some(other) if other.end == edge.end => {
                if edge.weight < other.weight {
                    *other = edge;
                }
                Ok(false)
            }
            _ => {
                *index = row.len();
                row.push(edge)?;
                Ok(true)
            }
        }
    }

    /// Removes the edge to a vertex.
    pub(crate) fn remove(&mut self, v: u32, end: u32) {
        if let Some(index) = self.index_of(v, end)
            && let Some(row) = self.rows.get_mut(v as usize)
            && index < row.len()
        {
            row.swap_remove(index);
        }
    }

    /// The index of the edge to a vertex.
    fn index_of(&mut self, v: u32, end: u32) -> Option<usize> {
        let index = self.row(v).iter().position(|edge| edge.end == end);
        let seen = index.unwrap_or(self.row(v).len());
        self.steps = self.steps.saturating_add(seen);
        index
    }
}
