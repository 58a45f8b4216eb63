//! Walks, sums and least labels.
//!
//! Seeds are vertices with a number to start from. A number is attained at a vertex if it is the start of a seed plus
//! the weights of a walk from there. The least label is the smallest such number, or `INF` if there is no walk.
//!
//! The laws say why settled and attained labels are least; `plain_labels` computes them slowly.
#![tactic(auto)]

mod checks;
mod example;
mod graph;
pub mod laws;
mod operators;
mod plain;
pub mod refusal;

pub use checks::{are_seeds, is_graph};
pub use example::{EXAMPLE_ARCS, EXAMPLE_SEEDS};
pub use graph::{ArcRec, INF, MAX_ARCS, MAX_VERTICES, Seed, offer};
pub use operators::{both_ways, seeds_all, seeds_from, unit_weights};
pub use plain::{is_settled, plain_labels};
pub use refusal::Memory;
