//! The arcs between two vertices.

ghost use Rattle.std.specs.Prelude.{◌≡◌, ◌<◌, filter, ◌==◌, IfOk};
ghost use Rattle.csr_graph.specs.Graph.{row_of};

use csr_graph::Csr;
use route_walks::{ArcRec, Memory};
use std::alloc::Global;

/// Returns the arcs from one vertex to another, in their order.
pub(crate) fn list_between(
    alloc: Global,
    rows: &Csr,
    tail: u32,
    head: u32,
) -> Result<Vec<ArcRec>, Memory>
    requires { tail < rows.now.n }
    ensures { IfOk result (λ found. found.items ≡ filter (λ arc. arc.head == head) (row_of rows.now.arcs tail)) }
{
    let mut found = Vec::new(alloc);
    for target in rows.row(tail) {
        if target.head == head {
            let weight = target.weight;
            found.push(ArcRec { tail, head, weight })?;
        }
    }
    Ok(found)
}
