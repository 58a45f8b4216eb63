//! The arcs that leave each vertex, in rows.
//!
//! A `Csr` is a directed graph in compressed sparse rows: the arcs that leave a vertex are one run of places, from
//! `first` to `end`, in the order in which they were given. It is built by one thread, by several, or of each arc along
//! and against, and made anew with arcs removed and added.
#![tactic(auto)]

mod bin_sort;
mod binning;
mod bounds;
mod changes;
mod csr;
mod free;
pub mod laws;
mod lists;
mod near_sort;
mod part_sort;
mod sort;
mod target;

pub use bounds::{Bounds, FINITE_CELLS};
pub use csr::Csr;
pub use route_walks::{MAX_ARCS, MAX_VERTICES};
pub use target::Target;
