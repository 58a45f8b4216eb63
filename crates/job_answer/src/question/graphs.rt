//! The networks of an answer: of a job's arcs, and with the added ones.

ghost use Rattle.std.specs.Prelude.{◌≡◌, ◌≤◌, ◌^◌, false, All, List, None, length, IfOk, IfSome, ℕ};
ghost use Rattle.least_costs.specs.Network.{HasArcs, IsNetworkOf, arcs_of};
ghost use Rattle.least_costs.specs.Teams.{IsAtMost};
ghost use Rattle.least_costs.specs.declared.cost.Cost.TheVariants.{Weight};
ghost use Rattle.route_walks.specs.declared.graph.ArcRec.{ArcRec};
ghost use Rattle.route_walks.specs.declared.graph.TheConstants.{MAX_VERTICES};
ghost use Rattle.dimacs_text.specs.Jobs.{IsArcWithin, added_of};
ghost use Rattle.dimacs_text.specs.declared.form.TheConstants.{MAX_TEXT_ARCS};
ghost use Rattle.job_answer.specs.AnswerText.{arcs_for, growth_from};
ghost use Rattle.job_answer.specs.Graphs.{AreGraphs, AreGraphsFor, cost_for};
ghost use Rattle.job_answer.specs.LineWalks.{has_walks};

use crate::question::asked::{Answer, Asked};
use least_costs::{Cost, HierarchyUse, Network, Plan};
use route_walks::{ArcRec, Memory};
use std::alloc::Global;
use std::thread::Threads;

/// The network of all sources, and the one with added arcs.
#[derive(Drop)]
pub struct Graphs {
    pub network: Network,
    pub grown: Option<GrownNetwork>,
}

/// A network after its added arcs.
#[derive(Drop)]
pub struct GrownNetwork {
    /// The number of added arcs.
    pub count: u32,
    pub network: Network,
}

/// Makes the networks of an answer, with rows by up to `threads` threads. Frees the lists of arcs.
pub fn graphs_for<H: Threads + Sync>(
    rt: &H,
    alloc: Global,
    answer: Answer,
    n: u32,
    arcs: Vec<ArcRec>,
    added: Option<Vec<ArcRec>>,
    threads: usize,
) -> Result<Graphs, Memory>
    requires vertices { n ≤ MAX_VERTICES }
    requires count { length arcs.items ≤ MAX_TEXT_ARCS }
    requires arcs { All (IsArcWithin n) arcs.items }
    requires added { IfSome added (λ added. length added.items ≤ 2 ^ 20) }
    ensures graphs { IfOk result (AreGraphsFor answer n arcs.items
        (growth_from (arcs_for answer) arcs.items (added_of added))) }
    ensures network { IfOk result (λ graphs. IsNetworkOf n (cost_for answer) arcs.items graphs.network) }
    ensures arcs { IfOk result (λ graphs. HasArcs (arcs_of (cost_for answer) arcs.items) graphs.network) }
    ensures grown { IfOk result (λ graphs. added ≡ None → graphs.grown ≡ None) }
{
    least_costs::laws::networks_grow();
    let network = Network::of_graph(rt, alloc, n, arcs, cost_for(answer), threads)?;
    // Whatever network it is, its ends are vertices.
    let _ = network.n();
    let added = match added {
        None => {
            return Ok(Graphs {
                network,
                grown: None,
            });
        }
        Some(added) => added,
    };
    let count = added.len() as u32;
    let Ok(grown) = network.with_arcs(alloc, &added) else {
        return Err(Memory);
    };
    // The ends of the grown one are vertices too.
    let _ = grown.n();
    let grown = Some(GrownNetwork {
        count,
        network: grown,
    });
    Ok(Graphs { network, grown })
}

/// The network of an answer kind for the arcs of a network of weights, whose rows are made by up to `threads` threads.
/// Needs a list of all arcs for a while.
///
/// # Errors
///
/// Memory was refused, or there are more arcs than a network takes.
pub fn graphs_by<H: Threads + Sync>(
    rt: &H,
    alloc: Global,
    answer: Answer,
    weights: &Network,
    threads: usize,
) -> Result<Graphs, Memory>
    ensures network { (n : ℕ) (arcs : List ArcRec) → IsNetworkOf n Weight arcs weights.now
        → IfOk result (λ graphs. IsNetworkOf n (cost_for answer) arcs graphs.network) }
    ensures vertices { IfOk result (λ graphs. graphs.network.n ≡ weights.now.n) }
    ensures are { IfOk result AreGraphs }
    ensures grown { IfOk result (λ graphs. graphs.grown ≡ None) }
{
    let network = weights.by_cost(rt, alloc, cost_for(answer), threads)?;
    // Whatever network it is, its ends are vertices.
    let _ = network.n();
    Ok(Graphs {
        network,
        grown: None,
    })
}

/// The plan by which costs are solved.
pub fn plan_of(asked: &Asked) -> Plan
    ensures settings { result.settings ≡ asked.now.settings }
    ensures at_once { result.at_once ≡ asked.now.at_once }
    ensures landmarks { result.landmarks ≡ asked.now.landmarks }
    ensures hierarchy { has_walks asked.now.lines ≡ false → result.hierarchy ≡ asked.now.hierarchy }
{
    Plan {
        settings: asked.settings,
        at_once: asked.at_once,
        landmarks: asked.landmarks,
        hierarchy: hierarchy_use_of(asked),
    }
}

/// The pairs that are given a hierarchy. It tells nothing of walks.
fn hierarchy_use_of(asked: &Asked) -> HierarchyUse
    ensures { has_walks asked.now.lines ≡ false → result ≡ asked.now.hierarchy }
{
    if asked.lines.has_walks() {
        HierarchyUse::Never
    } else {
        asked.hierarchy
    }
}

/// The number of tasks that are done at the same time.
pub fn teams_for(graphs: &Graphs, asked: &Asked) -> usize
    ensures workers { result ≤ asked.now.settings.workers }
    ensures most { IsAtMost asked.now.at_once result }
{
    plan_of(asked).teams(&graphs.network)
}

fn cost_for(answer: Answer) -> Cost
    ensures { result ≡ cost_for answer }
{
    match answer {
        Answer::Distances => Cost::Weight,
        Answer::Levels => Cost::One,
        Answer::Components => Cost::FreeBothWays,
    }
}
