//! Tests that arcs lead to higher places, and that each vertex has a place to itself.

ghost use Rattle.std.specs.Prelude.{◌≡◌, ◌<◌, true, All, length, slice_index};
ghost use Rattle.hierarchy.specs.Checked.{DoesRise};
ghost use Rattle.hierarchy.specs.Hierarchy.{ArePlaced};

use csr_graph::{Csr, Target};

/// Tells if each arc leads to a higher place.
pub(crate) fn are_rising(rows: &Csr) -> bool
    ensures { result ≡ true → All (DoesRise rows.now.n) rows.now.arcs }
{
    for u in 0..rows.n() {
        if !is_row_rising(u, rows.row(u)) {
            return false;
        }
    }
    true
}

/// Tells if each target is higher than `u`.
fn is_row_rising(u: u32, row: &[Target]) -> bool
    ensures { result ≡ true → All (λ target. u < target.head) row.now }
{
    for target in row {
        if target.head <= u {
            return false;
        }
    }
    true
}

/// Tells if each vertex has a place, and the vertex at that place is itself.
pub(crate) fn are_placed(vertices: &[u32], places: &[u32]) -> bool
    ensures { result ≡ true → ArePlaced (length places.now) (slice_index vertices.now) (slice_index places.now) }
{
    for v in 0..places.len() {
        let place = places[v] as usize;
        if place >= places.len() || place >= vertices.len() || vertices[place] as usize != v {
            return false;
        }
    }
    true
}
