//! The order of the vertices that wait.

use crate::side::TargetSide;
use csr_graph::Bounds;
use route_walks::INF;

/// A hint: labels never depend on it.
#[derive(Clone, Copy, Debug)]
pub(crate) enum Guide<'a> {
    /// The lowest label comes first.
    Labels,
    /// The lowest label comes first, and the search is to meet the one with these labels.
    OtherEnd(&'a [u64]),
    /// The lowest sum of a label and what these bounds tell of the rest of the way comes first.
    Bounds(&'a Bounds<'a>),
    /// The lowest label comes first, of vertices that aren't past this limit by a search from the target.
    Toward(&'a TargetSide<'a>, u64),
}

/// A vertex that waits. The lowest sum comes first, and of equal sums the vertex that is nearest to the targets.
#[derive(Clone, Copy, Debug, PartialEq, Eq, PartialOrd, Ord)]
pub(crate) struct Waiting {
    /// Its label and the rest of the way; `INF` if it is wanted for nothing.
    pub sum: u64,
    /// The rest of the way by bounds, up to 2^32 - 1; 0 if there are none.
    pub rest: u32,
    pub vertex: u32,
}

impl Guide<'_> {
    /// The place at which a vertex with this label waits.
    #[inline(always)]
    pub(crate) fn waiting(&self, v: u32, label: u64) -> Waiting {
        let rest = match self {
            Guide::Bounds(bounds) => bounds.bound(v),
            Guide::Toward(side, limit) if side.is_past(v, label, *limit) => INF,
            _ => 0,
        };
        Waiting {
            sum: label.saturating_add(rest),
            rest: rest.min(u64::from(u32::MAX)) as u32,
            vertex: v,
        }
    }
}
