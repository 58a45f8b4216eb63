//! The block of a source whose vertices within the bound are near.

ghost use Rattle.std.specs.Prelude.{◌≡◌, ◌<◌, None, All, IfErr, IfSome, OnErr, OnOk};
ghost use Rattle.least_costs.specs.Network.{IsStartWithin};
ghost use Rattle.near_labels.specs.Found.{AreWalksFound};
ghost use Rattle.job_answer.specs.NearBlock.{IsNearBlock, vertices_of};
ghost use Rattle.job_answer.specs.Sinks.{Puts};
ghost use Rattle.job_answer.specs.Solves.{IsStartBlock, IsStartLines};

use crate::laws;
use crate::output::lines::{put_listed, put_walked};
use crate::output::sink::Sink;
use crate::question::asked::Lines;
use crate::question::graphs::Graphs;
use least_costs::{Network, Start, WalksFound, Workers};
use obim_engine::Gate;
use std::alloc::Global;
use std::io::Write;

/// The vertices that cost at most a bound from a source, in rising order, each with its label, and the walks there if they
/// are asked for.
#[derive(Drop)]
pub(crate) struct NearBlock {
    pub source: u32,
    pub found: Vec<(u32, u64)>,
    pub walks: Option<WalksFound>,
}

/// The vertices of a start's block, if the thread that asks finds them. `None` if there is no bound, or arcs are added.
pub(crate) fn near_block<G: Gate + Sync>(
    alloc: Global,
    graphs: &Graphs,
    lines: Lines,
    start: Start,
    workers: &mut Workers<'_, G>,
) -> Option<NearBlock>
    requires lines { IsStartLines start lines }
    requires start { IsStartWithin graphs.now.network.n start }
    ensures alone { IfSome result (λ _. graphs.now.grown ≡ None) }
    ensures near { IfSome result (IsNearBlock lines start graphs.now.network) }
{
    let Start::At(source) = start else {
        return None;
    };
    let Lines::Within { walks, bound } = lines else {
        return None;
    };
    if graphs.grown.is_some() {
        return None;
    }
    let network = &graphs.network;
    let found = workers.near_within(alloc, network, source, bound)?;
    if !walks {
        let walks = None;
        return Some(NearBlock {
            source,
            found,
            walks,
        });
    }
    let walks = Some(walks_to(alloc, network, source, &found, workers)?);
    Some(NearBlock {
        source,
        found,
        walks,
    })
}

/// The walks to the vertices of a list, if the thread that asks finds them.
fn walks_to<G: Gate + Sync>(
    alloc: Global,
    network: &Network,
    source: u32,
    found: &[(u32, u64)],
    workers: &mut Workers<'_, G>,
) -> Option<WalksFound>
    requires source { source < network.now.n }
    requires found { All (λ entry. entry.0 < network.now.n) found.now }
    ensures { IfSome result (AreWalksFound network.now.n network.now.arcs source (vertices_of found.now)) }
{
    let targets = vertices_of(alloc, found)?;
    workers.near_walks(alloc, network, source, &targets)
}

fn vertices_of(alloc: Global, found: &[(u32, u64)]) -> Option<Vec<u32>>
    ensures { IfSome result (λ vertices. vertices.items ≡ vertices_of found.now) }
{
    let mut vertices = Vec::with_capacity(alloc, found.len()).ok()?;
    for entry in found {
        match vertices.push(entry.0) {
            Ok(()) => {}
            Err(_) => return None,
        }
    }
    Some(vertices)
}

pub(crate) fn put_near<W: Write>(
    sink: &mut Sink<'_, W>,
    network: &Network,
    lines: Lines,
    start: Start,
    near: &NearBlock,
)
    requires start { IsStartWithin network.now.n start }
    requires near { IsNearBlock lines start network.now near.now }
    ensures { Puts W.contents (IsStartBlock lines start network.now.n network.now.arcs)
        sink.old sink.new }
{
    laws::lines_are_unique();
    laws::blocks_are_unique();
    // Whatever the least labels are, and the walks by them: the list has those within the bound.
    route_walks::laws::least_labels_exist();
    route_walks::laws::least_labels_are_unique();
    walk_report::laws::hops_and_parents_exist();
    let _ = network.n();
    match &near.walks {
        None => put_listed(sink, near.source, &near.found),
        Some(found) => put_walked(sink, near.source, &near.found, &found.walks),
    }
}
