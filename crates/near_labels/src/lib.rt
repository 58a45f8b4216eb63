//! Least labels of a few vertices, in the time of the vertices that are nearer.
//!
//! A `SearchSpace` has a label and a mark for each vertex, and is blank between two searches. A search goes from a
//! source to its targets, the lowest label first, by one thread without an atomic step. Afterwards it resets the
//! vertices that it reached.
//!
//! ```text
//! let mut space = SearchSpace::new(alloc, csr.n())?;
//! space.allow(1000, 8000);
//! space.labels_to(alloc, &csr, 0, &[5, 7]); // Some([12, 31]), or None if 1000 visits and 8000 arcs don't do
//! ```
//!
//! The contracts promise labels, and not when a search gives up: a caller that gets `None` asks workers.
#![tactic(auto)]

mod aim;
mod both_ends;
mod both_ways;
mod climb;
mod guide;
pub mod laws;
mod listing;
mod search;
mod side;
mod space;
mod state;
mod sweep;
mod walks;

pub use both_ways::BothWays;
pub use space::SearchSpace;
pub use walks::WalksFound;
