//! The cost of an arc.

/// The cost of each arc.
#[derive(Clone, Copy, Debug, PartialEq, Eq)]
pub enum Cost {
    /// Its weight.
    Weight,
    /// One: a least cost is the fewest arcs of a walk.
    One,
    /// Nothing, and it leads both ways: from everywhere, a least cost is the least vertex of a component.
    FreeBothWays,
}
