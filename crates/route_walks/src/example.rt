//! A macro for lists of arcs, and an example graph.

use crate::graph::{ArcRec, Seed};

/// A list of arcs (tail, head, weight): `arcs![(0, 1, 17), (1, 0, 3)]`.
#[macro_export]
macro_rules! arcs {
    ($(($tail:expr, $head:expr, $weight:expr)),* $(,)?) => {
        [$($crate::ArcRec { tail: $tail, head: $head, weight: $weight }),*]
    };
}

/// Arcs of six vertices, with free arcs and a circle of them. The distances from vertex 0 are 0, 10, 10, 12, 10 and 15.
pub const EXAMPLE_ARCS: [ArcRec; 8] = arcs![
    (0, 1, 17),
    (0, 2, 10),
    (1, 3, 2),
    (2, 4, 0),
    (3, 2, 0),
    (3, 5, 3),
    (4, 1, 0),
    (4, 5, 20),
];

/// The seed of walks from vertex 0.
pub const EXAMPLE_SEEDS: [Seed; 1] = [Seed {
    vertex: 0,
    start: 0,
}];
