//! The arcs between pairs of vertices, as lines.

ghost use Rattle.std.specs.Prelude.{◌≡◌, ◌<◌, ◌++◌, List, All, flat_map, OnOk};
ghost use Rattle.route_walks.specs.declared.graph.ArcRec.{ArcRec};
ghost use Rattle.route_walks.specs.declared.graph.TheConstants.{MAX_VERTICES};
ghost use Rattle.route_walks.specs.Walk.{IsGraph};
ghost use Rattle.answer_lines.specs.Lines.{arc_text};
ghost use Rattle.dimacs_text.specs.Jobs.{IsPairWithin};
ghost use Rattle.least_costs.specs.Network.{HasArcs};
ghost use Rattle.session_answer.specs.Replies.{between_text};

use answer_lines::put_arc;
use least_costs::Network;
use route_walks::{ArcRec, Memory};
use std::alloc::Global;

/// Appends the lines of the arcs between these pairs, pair by pair.
pub(crate) fn put_listed(
    alloc: Global,
    out: &mut Vec<u8>,
    network: &Network,
    pairs: &[(u32, u32)],
) -> Result<(), Memory>
    requires within { All (IsPairWithin network.now.n) pairs.now }
    ensures { (arcs : List ArcRec) → HasArcs arcs network.now
        → OnOk result (out.new.items ≡ out.old.items ++ flat_map (between_text arcs) pairs.now) }
{
    for &(tail, head) in pairs {
        put_between(alloc, out, network, tail, head)?;
    }
    Ok(())
}

/// Appends the lines of the arcs from one vertex to another.
fn put_between(
    alloc: Global,
    out: &mut Vec<u8>,
    network: &Network,
    tail: u32,
    head: u32,
) -> Result<(), Memory>
    requires { tail < network.now.n }
    ensures { (arcs : List ArcRec) → HasArcs arcs network.now
        → OnOk result (out.new.items ≡ out.old.items ++ between_text arcs (tail, head)) }
{
    // All ends are vertices, of which there are at most `MAX_VERTICES`.
    let _ = network.n();
    let arcs = network.arcs_between(alloc, tail, head)?;
    put_arcs(out, &arcs)
}

/// Appends the lines of some arcs.
fn put_arcs(out: &mut Vec<u8>, arcs: &[ArcRec]) -> Result<(), Memory>
    requires ends { IsGraph MAX_VERTICES arcs.now }
    ensures { OnOk result (out.new.items ≡ out.old.items ++ flat_map arc_text arcs.now) }
{
    for arc in arcs {
        put_arc(out, *arc)?;
    }
    Ok(())
}
