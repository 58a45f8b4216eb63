//! The parts of a hierarchy, by the edges that each vertex had when it was contracted.

use crate::edges::{Edge, EdgeRows};
use crate::parts::{HierarchyParts, rows_of};
use csr_graph::Csr;
use route_walks::{ArcRec, Memory};
use std::alloc::Global;

/// The rows of a graph of places, and the origins of their arcs.
type RowsOf = (Csr, Vec<u32>);

/// Returns the parts for these places of all vertices; `None` if a weight is 2^32 or more.
pub(crate) fn parts_of(
    alloc: Global,
    out: &EdgeRows,
    into: &EdgeRows,
    places: Vec<u32>,
) -> Result<Option<HierarchyParts>, Memory> {
    let vertices = vertices_of(alloc, &places)?;
    let Some((up, origins_up)) = sorted_rows(alloc, out, &vertices, &places)? else {
        return Ok(None);
    };
    let Some((down, origins_down)) = sorted_rows(alloc, into, &vertices, &places)? else {
        return Ok(None);
    };
    Ok(Some(HierarchyParts {
        places,
        vertices,
        up,
        down,
        origins_up,
        origins_down,
    }))
}

/// The vertex at each place.
fn vertices_of(alloc: Global, places: &[u32]) -> Result<Vec<u32>, Memory> {
    let mut vertices = vec![in alloc; u32::MAX; places.len()]?;
    let mut v = 0_u32;
    for place in places {
        if let Some(vertex) = vertices.get_mut(*place as usize) {
            *vertex = v;
        }
        v = v.saturating_add(1);
    }
    Ok(vertices)
}

/// The rows of these edges by place, the heads of each rising, and the origins of their arcs.
fn sorted_rows(
    alloc: Global,
    rows: &EdgeRows,
    vertices: &[u32],
    places: &[u32],
) -> Result<Option<RowsOf>, Memory> {
    let mut arcs = Vec::new(alloc);
    let mut origins = Vec::new(alloc);
    let mut row = Vec::new(alloc);
    let mut tail = 0_u32;
    for vertex in vertices {
        if !sort_row(rows.row(*vertex), places, &mut row)? {
            return Ok(None);
        }
        put_row(tail, &row, &mut arcs, &mut origins)?;
        tail = tail.saturating_add(1);
    }
    match rows_of(alloc, tail, &arcs)? {
        Some(rows) => Ok(Some((rows, origins))),
        None => Ok(None),
    }
}

/// Makes `row` the heads, weights and origins of edges, by rising place. Returns false if a weight is too great.
fn sort_row(
    edges: &[Edge],
    places: &[u32],
    row: &mut Vec<(u32, u32, u32)>,
) -> Result<bool, Memory> {
    row.clear();
    for edge in edges {
        if edge.weight > u64::from(u32::MAX) {
            return Ok(false);
        }
        let origin = place_of(places, edge.origin).unwrap_or(edge.origin);
        let head = place_of(places, edge.end).unwrap_or(u32::MAX);
        row.push((head, edge.weight as u32, origin))?;
    }
    row.sort()?;
    Ok(true)
}

/// Adds the arcs of a row, and their origins.
fn put_row(
    tail: u32,
    row: &[(u32, u32, u32)],
    arcs: &mut Vec<ArcRec>,
    origins: &mut Vec<u32>,
) -> Result<(), Memory> {
    for &(head, weight, origin) in row {
        arcs.push(ArcRec::new(tail, head, weight))?;
        origins.push(origin)?;
    }
    Ok(())
}

/// The place of a vertex, if it is one.
fn place_of(places: &[u32], v: u32) -> Option<u32> {
    places.get(v as usize).copied()
}
