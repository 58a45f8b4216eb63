//! Eliminates the vertices of a graph in an order by minimum degree, whatever its arcs weigh, and then lowers the weights of
//! the arcs that this leaves.
//!
//! As in Dibbelt, Strasser and Wagner, Customizable Contraction Hierarchies (2014), with an order as in Amestoy, Davis and Duff,
//! An Approximate Minimum Degree Ordering Algorithm (1996). What it makes is checked, so no contract says anything of it.

use crate::completion::Completion;
use crate::customizing::customize;
use crate::metric::Metric;
use crate::order::Elimination;
use crate::rows::NumberRows;
use crate::way::Way;
use contraction::{HierarchyParts, rows_of};
use csr_graph::Csr;
use route_walks::{ArcRec, Memory};
use std::alloc::Global;

/// The rows of a graph of places, and the origins of their arcs.
type RowsOf = (Csr, Vec<u32>);

/// The triangles that may be looked at for each arc of the graph.
const TRIANGLES_AN_ARC: usize = 1000;

/// The triangles that are allowed whatever the graph is.
const ANYWAY: usize = 1 << 20;

/// The parts of a hierarchy, if they were made, and the steps that were taken.
#[derive(Drop)]
pub(crate) struct Attempt {
    pub parts: Option<HierarchyParts>,
    pub steps: usize,
}

/// Eliminates all vertices of a graph, and returns the parts of a hierarchy. Returns `None` if that takes more than `most_steps`
/// looks at an entry or a triangle; if the graph grows too dense, which road networks with small cuts don't; or if an arc that
/// is needed costs 2^32 - 1 or more. Takes some 200 bytes a vertex of a map for a while.
pub fn eliminated(
    alloc: Global,
    csr: &Csr,
    most_steps: usize,
) -> Result<Option<HierarchyParts>, Memory> {
    Ok(try_elimination(alloc, csr, most_steps)?.parts)
}

/// Eliminates all vertices of a graph, and tells how many steps that took.
pub(crate) fn try_elimination(
    alloc: Global,
    csr: &Csr,
    most_steps: usize,
) -> Result<Attempt, Memory> {
    let mut elimination = Elimination::new(alloc, csr)?;
    elimination.run(csr, most_steps)?;
    let steps = elimination.steps();
    let Some(order) = elimination.finish(csr.n()) else {
        return Ok(Attempt { parts: None, steps });
    };
    let completion = Completion::new(alloc, order.depth_first(alloc)?)?;
    let triangles = completion.triangles();
    let most = csr.arc_count().saturating_mul(TRIANGLES_AN_ARC);
    let steps = steps.saturating_add(triangles);
    if steps > most_steps || triangles > most.saturating_add(ANYWAY) {
        return Ok(Attempt { parts: None, steps });
    }
    let mut metric = Metric::new(alloc, csr, &completion)?;
    customize(alloc, &completion, &mut metric)?;
    let parts = needed_parts(alloc, completion, metric)?;
    Ok(Attempt { parts, steps })
}

/// The parts of a hierarchy; `None` if an arc is too great.
fn needed_parts(
    alloc: Global,
    completion: Completion,
    metric: Metric,
) -> Result<Option<HierarchyParts>, Memory> {
    let n = completion.n();
    let Some((up, origins_up)) = needed_rows(alloc, n, &completion.above, &metric.up)? else {
        return Ok(None);
    };
    let Some((down, origins_down)) = needed_rows(alloc, n, &completion.above, &metric.down)? else {
        return Ok(None);
    };
    Ok(Some(HierarchyParts {
        places: completion.places,
        vertices: completion.vertices,
        up,
        down,
        origins_up,
        origins_down,
    }))
}

/// The arcs that are needed, in rows, and their origins.
fn needed_rows(
    alloc: Global,
    n: u32,
    above: &NumberRows,
    ways: &[Way],
) -> Result<Option<RowsOf>, Memory> {
    let mut arcs = Vec::new(alloc);
    let mut origins = Vec::new(alloc);
    for place in 0..n {
        let first = above.first(place);
        if !put_needed(
            &mut arcs,
            &mut origins,
            (place, n),
            above.row(place),
            ways_from(ways, first),
        )? {
            return Ok(None);
        }
    }
    match rows_of(alloc, n, &arcs)? {
        Some(rows) => Ok(Some((rows, origins))),
        None => Ok(None),
    }
}

/// The ways from an index on.
fn ways_from(ways: &[Way], first: usize) -> &[Way] {
    if first > ways.len() {
        return &[];
    }
    &ways[first..]
}

/// Adds the arcs of a row that are needed, and their origins. Returns false if one is too great.
fn put_needed(
    arcs: &mut Vec<ArcRec>,
    origins: &mut Vec<u32>,
    (tail, n): (u32, u32),
    heads: &[u32],
    ways: &[Way],
) -> Result<bool, Memory> {
    for (head, way) in heads.iter().zip(ways) {
        if way.is_great(n) {
            return Ok(false);
        }
        if way.is_needed() {
            arcs.push(ArcRec::new(tail, *head, way.weight))?;
            origins.push(way.origin)?;
        }
    }
    Ok(true)
}
