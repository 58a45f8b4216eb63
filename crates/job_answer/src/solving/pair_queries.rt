//! Pairs, and the networks in which their costs are least.

ghost use Rattle.std.specs.Prelude.{All};
ghost use Rattle.dimacs_text.specs.Jobs.{IsPairWithin};

use crate::question::graphs::Graphs;

/// Pairs, and the networks of their costs.
#[derive(Drop)]
pub struct PairQueries<'a> {
    pub graphs: &'a Graphs,
    pub pairs: &'a [(u32, u32)],
    ghost within: { All (IsPairWithin graphs.now.network.n) pairs.now },
}
