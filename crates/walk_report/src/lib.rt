//! The walks of least labels.
//!
//! The hop of a vertex is the fewest arcs of a walk of least cost. Its parent is the least vertex from which an arc
//! leads to it, along least labels and from one hop nearer. So parents lead back to the source, also round circles of
//! free arcs. A `WalkSpace` keeps its lists from one question to the next.
#![tactic(auto)]

mod hop;
pub mod laws;
mod lists;
mod parent;
mod printed;
mod space;

pub use hop::{NONE, hops, hops_below};
pub use lists::LabelsBelow;
pub use parent::parents;
pub use printed::walk_to;
pub use space::WalkSpace;
