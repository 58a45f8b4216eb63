//! Contraction hierarchies, whose costs are proved least.
//!
//! The vertices of a graph have places, and two graphs of arcs to higher places tell the costs of its walks. So a pair takes
//! two searches upward, which visit a few hundred vertices of a road network. `parts_of` makes the parts of a hierarchy,
//! and `Hierarchy::checked` looks at each of their arcs. Whoever made the parts isn't trusted: wrong ones give no hierarchy.
//!
//! ```text
//! let csr = Csr::build(alloc, 3, &arcs![(0, 1, 7), (1, 2, 5), (0, 2, 20)])?;
//! if let Some(parts) = parts_of(alloc, &csr, usize::MAX)? {
//!     if let Some(hierarchy) = Hierarchy::checked(alloc, &csr, parts) {
//!         hierarchy.cost_between(&mut forward, &mut backward, 0, 2); // Some(12)
//!         hierarchy.cost_between(&mut forward, &mut backward, 2, 0); // Some(INF)
//!     }
//! }
//! ```
//!
//! Costs to many targets, or to all vertices, come from a `TargetSweep`: a search upward from each source, and one pass over
//! the places above the targets. `Hierarchy::costs_to` takes whichever way is shorter for the targets of one source.
//!
//! `eliminated` and `contracted` make parts in two ways, and `parts_of` takes the first that does. Graphs that grow too dense,
//! as random ones do, are given up. Hierarchies serve those with small cuts, as road networks have them.
//!
//! Stands on `elimination` and `contraction`, which make parts, on `near_labels`, whose searches it asks, on rows of
//! `csr_graph`, and on `route_walks`, which says what walks cost.
#![tactic(auto)]

mod bridges;
mod hierarchy;
pub mod laws;
mod made;
mod probe;
mod rising;
mod rows;
mod search;
mod toward;

pub use contraction::{HierarchyParts, contracted};
pub use elimination::{eliminated, parts_of};
pub use hierarchy::Hierarchy;
pub use toward::TargetSweep;
