//! The parts of contraction hierarchies, and how they are made by contraction.
//!
//! `contracted` contracts the least important vertex first, and leaves out the arcs that other walks make needless. It does on
//! graphs with small cuts, as road networks have them.
//!
//! Nothing is claimed of the parts but that they come: `hierarchy` checks them, whoever made them.
//!
//! Stands on rows of `csr_graph`, and on `route_walks`.
#![tactic(auto)]

mod contraction;
mod edges;
mod parts;
mod placing;
mod witness;

pub use contraction::contracted;
pub use parts::{HierarchyParts, rows_of};
