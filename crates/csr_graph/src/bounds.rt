//! Bounds of what is left of the way to some vertices.

ghost use Rattle.std.specs.Prelude.{◌≡◌, ◌<◌, true};
ghost use Rattle.csr_graph.specs.Graph.{Graph};
ghost use Rattle.csr_graph.specs.Bounds.{AreBounds, AreBoundsAt, ArePast, bound_of};

use route_walks::INF;

/// Cells of labels below `INF` are less than this.
pub const FINITE_CELLS: u16 = 1 << 15;

/// Targets, and cells that tell how far each vertex is from them at least.
///
/// A cell is a landmark's label of a vertex, counted in units and rounded down; `u16::MAX` stands for `INF`.
#[derive(Clone, Copy, Debug)]
pub struct Bounds<'a> {
    pub targets: &'a [u32],
    /// The cells of each vertex, one for each landmark.
    pub cells: &'a [u16],
    /// At most the least cell of the targets, for each landmark.
    pub low: &'a [u16],
    /// At least the greatest; `u16::MAX` tells nothing.
    pub high: &'a [u16],
    /// The labels that share a cell.
    pub unit: u64,
    /// The bound where a run begins. A hint: buckets count from it.
    pub base: u64,
}

impl Bounds<'_> {
    /// The least that a walk from a vertex to a target may cost; `INF` if none leads to any. It is 0 for a vertex without
    /// cells.
    #[inline(always)]
    pub fn bound(&self, v: u32) -> u64
        ensures { (graph : Graph) → AreBounds graph self.now → v < graph.n
            → AreBoundsAt graph self.now.targets.now v result }
    {
        let count = self.low.len();
        let first = (v as usize).saturating_mul(count);
        let end = first.saturating_add(count);
        if end > self.cells.len() || self.high.len() != count {
            return 0;
        }
        let row = &self.cells[first..end];
        let mut units = 0_u16;
        for i in 0..count {
            let forward = self.low[i].saturating_sub(row[i]);
            let backward = row[i].saturating_sub(self.high[i]);
            units = units.max(forward).max(backward);
        }
        bound_of(self.unit, units)
    }

    /// Tells if each walk from a vertex to a target costs at least the limit, counted from a label of the vertex.
    #[inline(always)]
    pub fn is_past(&self, v: u32, label: u64, limit: u64) -> bool
        ensures { result ≡ true → ArePast limit self.now v label }
    {
        label.saturating_add(self.bound(v)) >= limit
    }
}

/// The least that a walk may cost along which a landmark's cells differ by so many units.
#[inline(always)]
fn bound_of(unit: u64, units: u16) -> u64
    ensures { result ≡ bound_of unit units }
{
    if units >= FINITE_CELLS {
        INF
    } else if units > 0 {
        u64::from(units - 1).saturating_mul(unit).saturating_add(1)
    } else {
        0
    }
}
