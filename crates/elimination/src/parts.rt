//! Parts by whichever way is shorter.

use crate::elimination::{Attempt, try_elimination};
use contraction::{HierarchyParts, contracted};
use csr_graph::Csr;
use route_walks::Memory;
use std::alloc::Global;

/// Makes the parts of a hierarchy: by elimination, or by contraction if that gives up. Returns `None` if both give up, as
/// `eliminated` and `contracted` do. The steps of both count towards `most_steps`.
pub fn parts_of(
    alloc: Global,
    csr: &Csr,
    most_steps: usize,
) -> Result<Option<HierarchyParts>, Memory> {
    let Attempt { parts, steps } = try_elimination(alloc, csr, most_steps)?;
    if parts.is_some() || steps >= most_steps {
        return Ok(parts);
    }
    contracted(alloc, csr, most_steps.saturating_sub(steps))
}
