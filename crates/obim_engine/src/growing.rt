//! A pause whose graph gets more arcs.

ghost use Rattle.std.specs.Prelude.{◌≡◌, ◌<◌, ℕ, List, length, All};
ghost use Rattle.route_walks.specs.declared.graph.Seed.{Seed};
ghost use Rattle.csr_graph.specs.Graph.{Graph};
ghost use Rattle.label_words.specs.Paused.{IsPause};
ghost use Rattle.obim_engine.specs.Grown.{IsGrown, TailsAreMarked};

use label_words::Paused;
use route_walks::ArcRec;

/// Turns a pause of a graph into one of the graph with these arcs added, which `Csr::with_arcs` gives. It marks the
/// tails of the added arcs, so `resume` over the grown graph visits only what they change. Takes no memory.
///
/// Labels that a run gave are a pause by `Paused::settled`.
pub fn grow(mut rest: Paused, added: &[ArcRec]) -> Paused
    requires { All (λ arc. arc.tail < length rest.marks) added.now }
    ensures labels { result.labels ≡ rest.labels }
    ensures marks { TailsAreMarked added.now rest.marks result.marks }
    ensures pause { (graph grown : Graph) (seeds : List Seed)
        → IsPause graph seeds rest
        → IsGrown graph added.now grown
        → IsPause grown seeds result }
{
    for arc in added {
        rest.mark(arc.tail);
    }
    rest
}
