//! The point at which a worker looks at every vertex itself.

/// Fruitless pops in a row before a worker looks at every vertex itself, since the pool may have lost some.
const IDLE_POPS_BEFORE_SWEEP: u32 = 1024;

/// The fruitless pops that a worker still takes before it looks at every vertex.
///
/// A pool may give vertices that aren't marked any more: one whose label fell twice was pushed twice. There have to be
/// as many such pops as vertices, since the look takes as long.
#[derive(Clone, Copy)]
pub(crate) struct Patience {
    vertices: u32,
    left: u32,
    left_unmarked: u32,
    /// The visits left at the last fruitless pop.
    visits: u64,
}

impl Patience {
    pub(crate) fn new(vertices: u32, visits: u64) -> Patience {
        Patience {
            vertices,
            left: IDLE_POPS_BEFORE_SWEEP,
            left_unmarked: vertices.max(IDLE_POPS_BEFORE_SWEEP),
            visits,
        }
    }

    pub(crate) fn renew(&mut self) {
        *self = Patience::new(self.vertices, self.visits);
    }

    /// Tells, at a fruitless pop, if the worker has visited a vertex since the last one, and then renews its patience.
    #[inline(always)]
    pub(crate) fn had_work(&mut self, visits: u64) -> bool {
        let had = visits != self.visits;
        if had {
            self.visits = visits;
            self.renew();
        }
        had
    }

    /// Tells, after a pop that gave nothing or an unmarked vertex, if the worker is to look at every vertex now.
    #[inline(always)]
    pub(crate) fn ends(&mut self, popped: Option<u32>) -> bool {
        let left = match popped {
            Some(_) => &mut self.left_unmarked,
            None => &mut self.left,
        };
        *left = left.saturating_sub(1);
        *left == 0
    }
}
