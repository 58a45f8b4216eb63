//! The walks of labels, and their lines.

ghost use Rattle.std.specs.Prelude.{◌≡◌, ◌<◌, ◌++◌, IfOk, OnOk, slice_index};
ghost use Rattle.route_walks.specs.Limit.{AreLeastLabelsUpTo};
ghost use Rattle.route_walks.specs.Operators.{seeds_from};
ghost use Rattle.job_answer.specs.AnswerText.{walk_line};
ghost use Rattle.job_answer.specs.LineWalks.{AreWalksBelow, HasWalkAt};

use answer_lines::put_walk;
use least_costs::Network;
use route_walks::Memory;
use std::alloc::Global;
use walk_report::{hops_below, parents, walk_to};

/// Hops and parents, as `walk_report` gives them.
#[derive(Drop)]
pub struct LineWalks {
    pub hops: Vec<u32>,
    pub parents: Vec<u32>,
}

/// The walks from a source to each vertex below the limit up to which labels are least.
pub fn walks_below(
    alloc: Global,
    network: &Network,
    source: u32,
    labels: &[u64],
    limit: u64,
) -> Result<LineWalks, Memory>
    requires source { source < network.now.n }
    requires labels { AreLeastLabelsUpTo limit network.now.n network.now.arcs (seeds_from source) labels.now }
    ensures { IfOk result (AreWalksBelow network.now.n network.now.arcs source limit labels.now) }
{
    let rows = network.rows();
    let hops = hops_below(alloc, rows, labels, source, limit)?;
    let parents = parents(alloc, rows, labels, &hops)?;
    Ok(LineWalks { hops, parents })
}

/// Puts the line of the walk to a vertex, if one leads to it.
pub fn put_walk_line(
    alloc: Global,
    out: &mut Vec<u8>,
    v: u32,
    label: u64,
    walks: &LineWalks,
) -> Result<(), Memory>
    requires { HasWalkAt v label walks.now }
    ensures { OnOk result (out.new.items ≡ out.old.items
        ++ walk_line (slice_index walks.now.hops.items) (slice_index walks.now.parents.items) v label) }
{
    match walk_to(alloc, &walks.hops, &walks.parents, v)? {
        None => Ok(()),
        Some(walk) => put_walk(out, label, &walk),
    }
}
