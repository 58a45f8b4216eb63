//! The rows of reversed arcs.

ghost use Rattle.std.specs.Prelude.{IfOk};
ghost use Rattle.near_labels.specs.Meeting.{AreAtLeast, IsReversed};

use csr_graph::Csr;
use near_labels::BothWays;
use route_walks::Memory;
use std::alloc::Global;

/// The rows of reversed arcs, and a weight that none of them is below.
#[derive(Debug, Drop)]
pub(crate) struct Reversed {
    pub rows: Csr,
    pub least_weight: u32,
}

impl Reversed {
    /// Reverses the arcs of rows.
    pub(crate) fn of(alloc: Global, rows: &Csr) -> Result<Reversed, Memory>
        ensures turned { IfOk result (λ reversed. IsReversed rows.now reversed.rows) }
        ensures least { IfOk result (λ reversed. AreAtLeast reversed.least_weight reversed.rows.arcs) }
    {
        let _ = rows.n();
        let reversed = rows.reversed(alloc)?;
        let least_weight = BothWays::of(rows, &reversed).least_weight;
        Ok(Reversed {
            rows: reversed,
            least_weight,
        })
    }
}
