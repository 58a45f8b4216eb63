//! An arc of a completion, one way.

use route_walks::INF;

/// The origin where no walk is known.
const NOWHERE: u32 = u32::MAX;

/// The origin of an arc that costs more than a walk between its ends, which it then weighs.
const DEAR: u32 = u32::MAX - 1;

/// The weight of an arc, at most `u32::MAX`, and its origin, as in a hierarchy's parts.
#[derive(Clone, Copy, Debug)]
pub(crate) struct Way {
    pub weight: u32,
    pub origin: u32,
}

impl Way {
    /// No arc.
    pub(crate) fn none() -> Way {
        Way {
            weight: u32::MAX,
            origin: NOWHERE,
        }
    }

    /// An arc of the graph, by its origin.
    pub(crate) fn of_arc(weight: u32, origin: u32) -> Way {
        Way {
            weight,
            origin: origin.min(DEAR - 1),
        }
    }

    /// Lowers it to another, if that costs less.
    pub(crate) fn lower(&mut self, way: Way) {
        if way.cost() < self.cost() {
            *self = way;
        }
    }

    /// Lowers it to two others over a place, if they cost less.
    pub(crate) fn lower_over(&mut self, one: Way, other: Way, place: u32) {
        let cost = one.cost().saturating_add(other.cost());
        if cost < self.cost() {
            *self = Way {
                weight: cost.min(u64::from(u32::MAX)) as u32,
                origin: place,
            };
        }
    }

    /// Lowers it to two others, if they cost less. Then it is dear.
    pub(crate) fn lower_to(&mut self, one: Way, other: Way) {
        self.lower_over(one, other, DEAR);
    }

    /// Tells if it is an arc that no walk between its ends is cheaper than.
    pub(crate) fn is_needed(self) -> bool {
        self.origin < DEAR
    }

    /// Tells if it leads over one of `n` places, and perhaps costs 2^32 or more.
    pub(crate) fn is_great(self, n: u32) -> bool {
        self.origin < n && self.weight == u32::MAX
    }

    fn cost(self) -> u64 {
        if self.origin == NOWHERE {
            INF
        } else {
            u64::from(self.weight)
        }
    }
}
