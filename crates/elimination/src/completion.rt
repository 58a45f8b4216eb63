//! The arcs that elimination leaves between places.

use crate::order::Order;
use crate::rows::NumberRows;
use crate::tree::steps_of;
use route_walks::Memory;
use std::alloc::Global;

/// A chordal graph of places, in which the higher ones that are joined to a place are joined to one another.
#[derive(Drop)]
pub(crate) struct Completion {
    pub places: Vec<u32>,
    pub vertices: Vec<u32>,
    /// By place, the higher ones that are joined to it, rising.
    pub above: NumberRows,
    /// By place, the lower ones, rising.
    pub below: NumberRows,
}

impl Completion {
    pub(crate) fn new(alloc: Global, order: Order) -> Result<Completion, Memory> {
        let Order { vertices, above } = order;
        let n = vertices.len().min(u32::MAX as usize) as u32;
        let places = steps_of(alloc, &vertices)?;
        let below = below_of(alloc, above, &places)?;
        let above = below.transposed(alloc, n)?;
        Ok(Completion {
            places,
            vertices,
            above,
            below,
        })
    }

    /// The number of places.
    pub(crate) fn n(&self) -> u32 {
        self.places.len().min(u32::MAX as usize) as u32
    }

    /// The triples of places that are joined to one another.
    pub(crate) fn triangles(&self) -> usize {
        let mut triangles = 0_usize;
        for place in 0..self.n() {
            let above = self.above.row(place).len();
            let pairs = above.saturating_mul(above.saturating_sub(1)) / 2;
            triangles = triangles.saturating_add(pairs);
        }
        triangles
    }

    /// The index of the arc from a place to a higher one, if they are joined.
    pub(crate) fn arc(&self, low: u32, high: u32) -> Option<usize> {
        match self.above.row(low).binary_search(&high) {
            Ok(index) => Some(self.above.first(low).saturating_add(index)),
            Err(_) => None,
        }
    }
}

/// By place, the lower ones that are joined to it, if the rows have the vertices above each place.
fn below_of(alloc: Global, above: NumberRows, places: &[u32]) -> Result<NumberRows, Memory> {
    let mut above = above;
    above.rename(places);
    above.transposed(alloc, places.len().min(u32::MAX as usize) as u32)
}
