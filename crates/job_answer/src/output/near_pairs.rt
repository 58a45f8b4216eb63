//! The lines of pairs with walks whose targets are near.

ghost use Rattle.std.specs.Prelude.{◌≡◌, ◌<◌, ◌++◌, None, All, IfErr, IfSome, OnErr, OnOk, drop, length, slice_range};
ghost use Rattle.near_labels.specs.Found.{AreWalksFound};
ghost use Rattle.route_walks.specs.declared.graph.TheConstants.{MAX_VERTICES};
ghost use Rattle.job_answer.specs.AnswerText.{AreBlocks};
ghost use Rattle.job_answer.specs.Graphs.{AreGraphs};
ghost use Rattle.job_answer.specs.NearPairs.{found_text};
ghost use Rattle.job_answer.specs.Sinks.{Puts};
ghost use Rattle.job_answer.specs.Solves.{AreTargetsOf, IsForQueries};
ghost use Rattle.least_costs.specs.Pairs.{pair_at};
ghost use Rattle.job_answer.specs.Tasks.{IsWalkedBlock};

use crate::laws;
use crate::output::lines::put_walk_part;
use crate::output::sink::Sink;
use crate::question::graphs::Graphs;
use crate::solving::pair_queries::PairQueries;
use crate::solving::solves::Solve;
use answer_lines::put_pair;
use least_costs::{WalksFound, Workers};
use obim_engine::Gate;
use route_walks::Memory;
use std::alloc::Global;
use std::io::Write;

/// The walks from a source to some targets, if these are near and no arcs are added.
pub(crate) fn near_walks<G: Gate + Sync>(
    alloc: Global,
    graphs: &Graphs,
    source: u32,
    targets: &[u32],
    workers: &mut Workers<'_, G>,
) -> Option<WalksFound>
    requires source { source < graphs.now.network.n }
    requires targets { All (λ t. t < graphs.now.network.n) targets.now }
    ensures alone { IfSome result (λ _. graphs.now.grown ≡ None) }
    ensures walks { IfSome result
        (AreWalksFound graphs.now.network.n graphs.now.network.arcs source targets.now) }
{
    match &graphs.grown {
        None => workers.near_walks(alloc, &graphs.network, source, targets),
        Some(_) => None,
    }
}

pub(crate) fn put_found<W: Write>(
    sink: &mut Sink<'_, W>,
    queries: &PairQueries<'_>,
    solve: Solve,
    targets: &[u32],
    found: &WalksFound,
)
    requires graphs { AreGraphs queries.now.graphs.now }
    requires alone { queries.now.graphs.now.grown ≡ None }
    requires solve { IsForQueries queries.now.pairs.now solve }
    requires targets { AreTargetsOf queries.now.pairs.now solve.first solve.end targets.now }
    requires found { AreWalksFound queries.now.graphs.now.network.n queries.now.graphs.now.network.arcs
        (pair_at queries.now.pairs.now solve.first).0 targets.now found.now }
    ensures { Puts W.contents (AreBlocks (IsWalkedBlock queries.now.graphs.now)
        (slice_range queries.now.pairs.now solve.first solve.end)) sink.old sink.new }
{
    laws::blocks_are_unique();
    // Whatever the least labels are, and the walks by them: these are the same.
    route_walks::laws::least_labels_exist();
    walk_report::laws::hops_and_parents_exist();
    let pairs = queries.pairs;
    // Its ends are vertices.
    let _ = queries.graphs.network.n();
    for place in 0..targets.len() {
        let (source, target) = pairs[solve.first + place];
        let (label, walk) = (found.labels[place], &found.walks[place]);
        let put = put_found_pair(sink.waiting, source, target, label, walk);
        sink.end(put);
    }
}

/// Puts the line of a pair, and of its walk if one leads to the target.
fn put_found_pair(
    out: &mut Vec<u8>,
    source: u32,
    target: u32,
    label: u64,
    walk: &[u32],
) -> Result<(), Memory>
    requires source { source < MAX_VERTICES }
    requires target { target < MAX_VERTICES }
    requires vertices { All (λ v. v < MAX_VERTICES) walk.now }
    ensures put { OnOk result (out.new.items ≡ out.old.items ++ found_text source target label walk.now) }
{
    put_pair(out, source, target, label)?;
    put_walk_part(out, label, walk)
}
