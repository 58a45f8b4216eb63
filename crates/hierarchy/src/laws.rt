//! The laws of hierarchies.

ghost use Rattle.hierarchy.specs.Checked.{CheckedIsHierarchy};
ghost use Rattle.hierarchy.specs.Hierarchy.{HierarchiesAreExact};

/// States that the least cost of two walks that meet above is the least cost of a walk in the graph.
pub fn hierarchies_are_exact()
    ensures { HierarchiesAreExact }
{}

/// States that arcs to higher places are a hierarchy under two conditions. Each is made of others, and no way over a lower
/// place is cheaper than one above.
pub fn checked_is_hierarchy()
    ensures { CheckedIsHierarchy }
{}
