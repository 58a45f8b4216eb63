//! Makers of a hierarchy's parts.

use csr_graph::Csr;
use hierarchy::{HierarchyParts, contracted, eliminated};
use route_walks::Memory;
use std::alloc::Global;

/// A way to make the parts.
#[derive(Clone, Copy, Debug)]
pub(crate) enum Maker {
    Contraction,
    Elimination,
}

pub(crate) const MAKERS: [Maker; 2] = [Maker::Contraction, Maker::Elimination];

pub(crate) fn parts_by(
    alloc: Global,
    csr: &Csr,
    maker: Maker,
    most_steps: usize,
) -> Result<Option<HierarchyParts>, Memory> {
    match maker {
        Maker::Contraction => contracted(alloc, csr, most_steps),
        Maker::Elimination => eliminated(alloc, csr, most_steps),
    }
}
