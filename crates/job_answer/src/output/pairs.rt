//! The lines that answer pairs.

ghost use Rattle.std.specs.Prelude.{◌≡◌, ◌<◌, ◌≤◌, ◌^◌, ◌++◌, None, length, slice_index_or};
ghost use Rattle.std.specs.Prelude.{IfErr, IfOk, OnErr, OnOk, false};
ghost use Rattle.least_costs.specs.Costs.{label_of};
ghost use Rattle.least_costs.specs.Pairs.{ArePairCosts};
ghost use Rattle.dimacs_text.specs.Jobs.{IsPairWithin};
ghost use Rattle.job_answer.specs.AnswerText.{pair_label_text};
ghost use Rattle.job_answer.specs.Graphs.{AreGraphs, growth_of};
ghost use Rattle.job_answer.specs.InNetworks.{ArePairsIn};
ghost use Rattle.job_answer.specs.LineWalks.{has_raw_pairs, has_walks};
ghost use Rattle.job_answer.specs.Sinks.{Puts};
ghost use Rattle.job_answer.specs.Solves.{AreCostsAfter, HasCostAfter, with_growth};

use crate::laws;
use crate::output::sink::{Sink, Stop};
use crate::output::walked_pairs::put_all_walked;
use crate::question::asked::Lines;
use crate::question::env::Context;
use crate::question::graphs::{Graphs, plan_of};
use crate::solving::pair_queries::PairQueries;
use crate::watch::{Phase, Watch};
use answer_lines::{put_grown, put_pair};
use least_costs::{PairCosts, Progress, Solver, Workspace};
use obim_engine::Gate;
use route_walks::{INF, MAX_VERTICES, Memory};
use std::io::Write;
use std::sync::Wait;
use std::thread::Threads;
use std::time::Clock;

/// Shows a job's watch how far its pairs are.
#[derive(Drop)]
struct PairWatch<'a, W> {
    watch: &'a mut W,
}

impl<W: Watch> Progress for PairWatch<'_, W> {
    fn see<C: Clock>(&mut self, clock: &C, done: usize, all: usize, solves: usize, teams: usize) {
        self.watch.see_answered(done, all);
        self.watch.see_teams(teams);
        self.watch.see_solves(solves);
        self.watch.end(clock, Phase::Solving);
    }
}

/// Puts the line of each pair in turn, with its walk if asked for, or its label as bytes, and that in the grown network.
///
/// Targets near their source are found without workers, if there is room. Without walks each source is solved once, and
/// costs are kept until all are known. With walks only neighbouring pairs share the solve of their source.
pub fn put_pairs<H: Threads + Wait + Clock + Sync, W: Write, G: Gate + Sync>(
    context: &Context<'_, H, G>,
    sink: &mut Sink<'_, W>,
    queries: PairQueries<'_>,
    lines: Lines,
    kept: &mut Option<Workspace>,
    watch: &mut impl Watch,
)
    requires graphs { AreGraphs queries.graphs.now }
    requires count { length queries.pairs.now ≤ 2 ^ 20 }
    ensures { Puts W.contents (ArePairsIn queries.entry.graphs.now lines queries.entry.pairs.now)
        sink.old sink.new }
{
    if lines.has_walks() {
        return put_all_walked(context, sink, queries, kept, watch);
    }
    match costs_between(context, &queries, kept, watch) {
        Ok(costs) => put_costs(sink, &queries, lines, &costs),
        Err(_) => sink.fail(Stop::Memory),
    }
}

fn costs_between<H: Threads + Wait + Clock + Sync, G: Gate + Sync>(
    context: &Context<'_, H, G>,
    queries: &PairQueries<'_>,
    kept: &mut Option<Workspace>,
    watch: &mut impl Watch,
) -> Result<PairCosts, Memory>
    requires graphs { AreGraphs queries.now.graphs.now }
    requires count { length queries.now.pairs.now ≤ 2 ^ 20 }
    ensures costs { IfOk result (λ costs.
        ArePairCosts queries.now.graphs.now.network queries.now.pairs.now costs.costs.items) }
    ensures after { IfOk result (λ costs.
        AreCostsAfter queries.now.graphs.now.grown queries.now.pairs.now costs.after.items) }
{
    let (graphs, pairs) = (queries.graphs, queries.pairs);
    let (rt, alloc) = (context.rt, context.alloc);
    let solver = Solver {
        network: &graphs.network,
        plan: plan_of(context.asked),
        gate: context.gate,
    };
    watch.see_answered(0, pairs.len());
    let mut watch = PairWatch { watch };
    let grown = graphs.grown.as_ref().map(|grown| &grown.network);
    solver.between_grown(rt, alloc, pairs, grown, kept, &mut watch)
}

/// Puts the line of each pair, or its label as bytes.
fn put_costs<W: Write>(
    sink: &mut Sink<'_, W>,
    queries: &PairQueries<'_>,
    lines: Lines,
    costs: &PairCosts,
)
    requires walks { has_walks lines ≡ false }
    requires graphs { AreGraphs queries.now.graphs.now }
    requires costs { ArePairCosts queries.now.graphs.now.network queries.now.pairs.now costs.now.costs.items }
    requires after { AreCostsAfter queries.now.graphs.now.grown queries.now.pairs.now costs.now.after.items }
    ensures { Puts W.contents (ArePairsIn queries.now.graphs.now lines queries.now.pairs.now)
        sink.old sink.new }
{
    laws::lines_are_unique();
    least_costs::laws::costs_are_labels();
    let (graphs, pairs, raw) = (queries.graphs, queries.pairs, lines.has_raw_pairs());
    for place in 0..pairs.len() {
        let put = put_costs_at(sink.waiting, graphs, raw, pairs[place], place, costs);
        sink.end(put);
    }
}

/// Puts the line or the bytes of the pair at this place, and those in the grown network.
fn put_costs_at(
    out: &mut Vec<u8>,
    graphs: &Graphs,
    raw: bool,
    pair: (u32, u32),
    place: usize,
    costs: &PairCosts,
) -> Result<(), Memory>
    requires pair { IsPairWithin MAX_VERTICES pair }
    requires cost { place < length costs.now.costs.items }
    requires after { HasCostAfter graphs.now.grown place costs.now.after.items }
    ensures put { OnOk result (out.new.items ≡ out.old.items ++ with_growth (growth_of graphs.now.grown)
        (pair_label_text raw pair (label_of (slice_index_or costs.now.costs.items place None)))
        (pair_label_text raw pair (label_of (slice_index_or costs.now.after.items place None)))) }
{
    put_cost(out, raw, pair, label_of(costs.costs[place]))?;
    match &graphs.grown {
        None => Ok(()),
        Some(grown) => {
            put_grown(out, grown.count)?;
            put_cost(out, raw, pair, label_of(costs.after[place]))
        }
    }
}

/// Puts the line of a pair, or its label as bytes.
fn put_cost(out: &mut Vec<u8>, raw: bool, pair: (u32, u32), label: u64) -> Result<(), Memory>
    requires pair { IsPairWithin MAX_VERTICES pair }
    ensures put { OnOk result (out.new.items ≡ out.old.items ++ pair_label_text raw pair label) }
{
    if !raw {
        return put_pair(out, pair.0, pair.1, label);
    }
    out.extend_from_slice(&label.to_le_bytes())?;
    Ok(())
}

fn label_of(cost: Option<u64>) -> u64
    ensures { result ≡ label_of cost }
{
    match cost {
        Some(cost) => cost,
        None => INF,
    }
}
