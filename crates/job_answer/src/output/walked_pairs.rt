//! The lines that answer pairs with walks.

ghost use Rattle.std.specs.Prelude.{◌≡◌, ◌+◌, ◌<◌, ◌≤◌, ◌++◌, drop, length, max, slice_index, slice_range, take};
ghost use Rattle.std.specs.Prelude.{All, IfErr, IfOk, IfSome, OnErr, OnOk, true};
ghost use Rattle.std.specs.Thread.{IsSync};
ghost use Rattle.least_costs.specs.TaskQueue.{AreFinished};
ghost use Rattle.route_walks.specs.Limit.{AreLeastLabelsUpTo};
ghost use Rattle.route_walks.specs.Operators.{seeds_from};
ghost use Rattle.dimacs_text.specs.Jobs.{IsPairWithin};
ghost use Rattle.job_answer.specs.AnswerText.{AreBlocks};
ghost use Rattle.job_answer.specs.Graphs.{AreGraphs, growth_of};
ghost use Rattle.job_answer.specs.LineWalks.{HasWalkAt};
ghost use Rattle.job_answer.specs.Sinks.{Puts};
ghost use Rattle.job_answer.specs.Solves.{AreEachTold, AreTargetsOf, AreWalkedBelow, IsForQueries, IsWalked};
ghost use Rattle.job_answer.specs.Solves.{IsWalkedAfter, walked_text, walked_after_text, with_growth};
ghost use Rattle.job_answer.specs.Tasks.{AreLines, IsLinesText, IsWalkedBlock};
ghost use Rattle.job_answer.specs.declared.output.walked_pairs.WalkTasks.{WalkTasks};

use crate::laws;
use crate::output::line_walks::{LineWalks, put_walk_line, walks_below};
use crate::output::near_pairs::{near_walks, put_found};
use crate::output::sink::{NoWriter, Sink, Stop, most_bytes};
use crate::question::env::{Context, Env};
use crate::question::graphs::{Graphs, teams_for};
use crate::solving::pair_queries::PairQueries;
use crate::solving::solves::{Solve, costs_after, costs_from, next_source};
use crate::solving::team_watch::{SolveCount, TeamWatch, see_round};
use crate::watch::{Phase, Watch};
use answer_lines::{put_grown, put_pair};
use least_costs::{Network, NetworkGrowth, Start, TaskQueue, Tasks, TeamGate, Workers, Workspace};
use obim_engine::{Gate, Goal};
use route_walks::{MAX_VERTICES, Memory};
use std::alloc::Global;
use std::io::Write;
use std::sync::Wait;
use std::thread::Threads;
use std::time::Clock;

/// The pairs that are asked for with walks. A task is for neighbouring pairs of one source, at the place of the first.
#[derive(Drop)]
pub struct WalkTasks<'a> {
    pub queries: PairQueries<'a>,
    pub solves: SolveCount,
}

/// The lines of such pairs.
#[derive(Drop)]
pub struct LinesText {
    /// The number of these pairs.
    pub count: usize,
    pub bytes: Vec<u8>,
}

impl<'a> Tasks<LinesText> for WalkTasks<'a> {
    ghost is_part = { AreLines };

    fn after(&self, place: usize) -> usize {
        next_source(self.queries.pairs, place)
    }
}

/// Tasks that threads share. A function that takes them by this bound is given that they may, and the search for that need not
/// go through two networks there.
trait SharedWalks: Sync {
    ghost seen: { Self → WalkTasks };

    fn tasks(&self) -> &WalkTasks<'_>
        ensures { result.now ≡ seen self.now };
}

impl<'a> SharedWalks for WalkTasks<'a> {
    ghost seen = { λ tasks. tasks };

    fn tasks(&self) -> &WalkTasks<'_> {
        self
    }
}

/// Puts the lines of each pair, with its walk. Neighbouring pairs of one source share a solve.
pub fn put_all_walked<H: Threads + Wait + Clock + Sync, W: Write, G: Gate + Sync>(
    context: &Context<'_, H, G>,
    sink: &mut Sink<'_, W>,
    queries: PairQueries<'_>,
    kept: &mut Option<Workspace>,
    watch: &mut impl Watch,
)
    requires graphs { AreGraphs queries.graphs.now }
    ensures { Puts W.contents (AreBlocks (IsWalkedBlock queries.entry.graphs.now)
        queries.entry.pairs.now) sink.old sink.new }
{
    let (env, asked) = (context.env(), context.asked);
    let teams = teams_for(queries.graphs, asked);
    let count = queries.pairs.len();
    let tasks = WalkTasks {
        queries,
        solves: SolveCount::new(),
    };
    let workers = Workers::new(asked.settings, context.gate, kept.take());
    let mut queue = TaskQueue::new(env.alloc, count, teams, workers);
    put_all_lines(&env, sink, &tasks, &mut queue, watch);
    *kept = Some(queue.into_workspace());
}

fn put_all_lines<H: Threads + Wait + Clock + Sync, W: Write, G: Gate + Sync>(
    env: &Env<'_, H>,
    sink: &mut Sink<'_, W>,
    tasks: &WalkTasks<'_>,
    queue: &mut TaskQueue<'_, LinesText, G>,
    watch: &mut impl Watch,
)
    requires graphs { AreGraphs tasks.now.queries.graphs.now }
    requires made { AreFinished (AreLines tasks.now) queue.old.made.items }
    ensures { Puts W.contents (AreBlocks (IsWalkedBlock tasks.now.queries.graphs.now)
        tasks.now.queries.pairs.now) sink.old sink.new }
{
    laws::blocks_are_unique();
    let count = tasks.queries.pairs.len();
    let mut first = 0;
    while first < count {
        first += put_lines_at(env, sink, tasks, first, queue, watch);
    }
}

/// Puts the lines of a task, made before its turn or solved now. Returns the number of its pairs, or of all that are left
/// if nothing more is written.
fn put_lines_at<H: Threads + Wait + Clock + Sync, W: Write, G: Gate + Sync>(
    env: &Env<'_, H>,
    sink: &mut Sink<'_, W>,
    tasks: &WalkTasks<'_>,
    first: usize,
    queue: &mut TaskQueue<'_, LinesText, G>,
    watch: &mut impl Watch,
) -> usize
    requires graphs { AreGraphs tasks.now.queries.graphs.now }
    requires place { first < length tasks.now.queries.pairs.now }
    requires made { AreFinished (AreLines tasks.now) queue.old.made.items }
    ensures left { AreFinished (AreLines tasks.now) queue.new.made.items }
    ensures some { 1 ≤ result }
    ensures within { first + result ≤ length tasks.now.queries.pairs.now }
    ensures blocks { Puts W.contents (AreBlocks (IsWalkedBlock tasks.now.queries.graphs.now)
        (take result (drop first tasks.now.queries.pairs.now))) sink.old sink.new }
{
    laws::blocks_are_unique();
    let queries = &tasks.queries;
    let count = queries.pairs.len();
    if sink.has_stopped() {
        return count - first;
    }
    watch.see_answered(first, count);
    let text = take_lines(env, queue, tasks, first);
    see_round(env.rt, queue.at_once(), &tasks.solves, watch);
    if let Some(text) = text {
        sink.put_all(text.bytes);
        watch.end(env.rt, Phase::Writing);
        return text.count;
    }
    let solve = Solve::of_queries(queries.pairs, first);
    let workers = &mut queue.workers;
    put_solved_pairs(env, sink, queries, solve, workers, watch);
    solve.end - first
}

/// The lines of a task, if they were made before.
fn take_lines<H: Threads + Wait + Clock + Sync, G: Gate + Sync, S: SharedWalks>(
    env: &Env<'_, H>,
    queue: &mut TaskQueue<'_, LinesText, G>,
    shared: &S,
    place: usize,
) -> Option<LinesText>
    requires graphs { AreGraphs (S.seen shared.now).queries.graphs.now }
    requires made { AreFinished (AreLines (S.seen shared.now)) queue.old.made.items }
    ensures left { AreFinished (AreLines (S.seen shared.now)) queue.new.made.items }
    ensures text { IfSome result (AreLines (S.seen shared.now) place) }
{
    queue.take(
        env.rt,
        env.alloc,
        shared.tasks(),
        &|place: usize, workers: &mut Workers<'_, TeamGate<'_, G>>| -> Option<LinesText>
            requires sync { IsSync H.row × IsSync G.row × IsSync S.row }
            requires graphs { AreGraphs (S.seen shared.now).queries.graphs.now }
            ensures { IfSome result (AreLines (S.seen shared.entry.now) place) }
        { make_lines(env, shared.tasks(), place, workers) },
        place,
    )
}

/// The lines of a task. `None` if memory is refused, or walks make them long.
fn make_lines<H: Threads + Wait + Clock + Sync, G: Gate + Sync>(
    env: &Env<'_, H>,
    tasks: &WalkTasks<'_>,
    place: usize,
    workers: &mut Workers<'_, G>,
) -> Option<LinesText>
    requires graphs { AreGraphs tasks.now.queries.graphs.now }
    ensures { IfSome result (AreLines tasks.now place) }
{
    if place >= tasks.queries.pairs.len() {
        return None;
    }
    let mut watch = TeamWatch {
        solves: &tasks.solves,
    };
    held_lines(env, &tasks.queries, place, workers, &mut watch)
}

/// The lines of a task, in memory.
fn held_lines<H: Threads + Wait + Clock + Sync, G: Gate + Sync>(
    env: &Env<'_, H>,
    queries: &PairQueries<'_>,
    first: usize,
    workers: &mut Workers<'_, G>,
    watch: &mut impl Watch,
) -> Option<LinesText>
    requires graphs { AreGraphs queries.now.graphs.now }
    requires place { first < length queries.now.pairs.now }
    ensures { IfSome result (IsLinesText queries.now.graphs.now queries.now.pairs.now first) }
{
    // The lines that are kept are those that there are.
    route_walks::laws::least_labels_exist();
    walk_report::laws::hops_and_parents_exist();
    let graphs = queries.graphs;
    let pairs = &queries.pairs[first..];
    let solve = Solve::of_queries(pairs, 0);
    let rest = PairQueries { graphs, pairs };
    let (mut nobody, mut bytes) = (NoWriter, Vec::new(env.alloc));
    let mut sink = Sink {
        writer: &mut nobody,
        waiting: &mut bytes,
        piece: most_bytes(graphs),
        stop: None,
    };
    put_solved_pairs(env, &mut sink, &rest, solve, workers, watch);
    if sink.has_stopped() {
        return None;
    }
    Some(LinesText {
        count: solve.end,
        bytes,
    })
}

/// Solves for a task's pairs, and puts their lines: by the thread that asks if targets are near, and else by workers.
fn put_solved_pairs<H: Threads + Wait + Clock + Sync, W: Write, G: Gate + Sync>(
    env: &Env<'_, H>,
    sink: &mut Sink<'_, W>,
    queries: &PairQueries<'_>,
    solve: Solve,
    workers: &mut Workers<'_, G>,
    watch: &mut impl Watch,
)
    requires graphs { AreGraphs queries.now.graphs.now }
    requires solve { IsForQueries queries.now.pairs.now solve }
    ensures { Puts W.contents (AreBlocks (IsWalkedBlock queries.now.graphs.now)
        (slice_range queries.now.pairs.now solve.first solve.end)) sink.old sink.new }
{
    laws::blocks_are_unique();
    let (graphs, pairs) = (queries.graphs, queries.pairs);
    let source = pairs[solve.first].0;
    let Ok(targets) = targets_of(env.alloc, pairs, solve) else {
        return sink.fail(Stop::Memory);
    };
    match near_walks(env.alloc, graphs, source, &targets, workers) {
        Some(found) => {
            watch.see_solves(1);
            watch.end(env.rt, Phase::Solving);
            put_found(sink, queries, solve, &targets, &found);
        }
        None => match walks_to(env, graphs, source, &targets, workers, watch) {
            Ok(walks) => {
                let (walked, after) = (&walks.before, &walks.after);
                put_walked(env.alloc, sink, queries, solve, walked, after);
            }
            Err(_) => sink.fail(Stop::Memory),
        },
    }
    watch.end(env.rt, Phase::Writing);
}

fn targets_of(alloc: Global, pairs: &[(u32, u32)], solve: Solve) -> Result<Vec<u32>, Memory>
    requires { IsForQueries pairs.now solve }
    ensures { IfOk result (λ targets. AreTargetsOf pairs.now solve.first solve.end targets.items) }
{
    let mut targets = Vec::with_capacity(alloc, solve.end - solve.first)?;
    for at in solve.first..solve.end {
        targets.push(pairs[at].1)?;
    }
    Ok(targets)
}

/// The walks from one source: labels, and hops and parents.
#[derive(Drop)]
struct Walked {
    labels: Vec<u64>,
    walks: LineWalks,
}

/// Such walks in the network, and in the grown one.
#[derive(Drop)]
struct BothWalked {
    before: Walked,
    after: Option<Walked>,
}

/// The walks from a source to some targets, in both networks.
fn walks_to<H: Threads + Wait + Clock + Sync, G: Gate + Sync>(
    env: &Env<'_, H>,
    graphs: &Graphs,
    source: u32,
    targets: &[u32],
    workers: &mut Workers<'_, G>,
    watch: &mut impl Watch,
) -> Result<BothWalked, Memory>
    requires graphs { AreGraphs graphs.now }
    requires source { source < graphs.now.network.n }
    requires targets { All (λ t. t < graphs.now.network.n) targets.now }
    ensures before { IfOk result (λ both. All
        (λ t. IsWalked graphs.now.network.n graphs.now.network.arcs (source, t) both.before) targets.now) }
    ensures after { IfOk result (λ both. All
        (λ t. IsWalkedAfter graphs.now.grown (source, t) both.after) targets.now) }
{
    let (alloc, network, goal) = (env.alloc, &graphs.network, Goal::WalksTo(targets));
    let costs = costs_from(env, network, Start::At(source), goal, workers, watch)?;
    let limit = costs.limit();
    match &graphs.grown {
        None => {
            let before = walked_from(alloc, network, source, limit, costs.into_labels())?;
            let after = None;
            Ok(BothWalked { before, after })
        }
        Some(grown) => {
            // The second run goes on from what the first one left, so the labels are copied.
            let labels = costs.labels().to_vec(alloc)?;
            let growth = NetworkGrowth {
                network,
                grown: &grown.network,
            };
            let costs = costs_after(env, &growth, costs, goal, workers, watch)?;
            let far = costs.limit();
            let after = walked_from(alloc, &grown.network, source, far, costs.into_labels())?;
            let before = walked_from(alloc, network, source, limit, labels)?;
            let after = Some(after);
            Ok(BothWalked { before, after })
        }
    }
}

fn walked_from(
    alloc: Global,
    network: &Network,
    source: u32,
    limit: u64,
    labels: Vec<u64>,
) -> Result<Walked, Memory>
    requires source { source < network.now.n }
    requires labels { AreLeastLabelsUpTo limit network.now.n network.now.arcs (seeds_from source) labels.items }
    ensures labels { IfOk result (λ walked. walked.labels.items ≡ labels.items) }
    ensures walked { IfOk result (AreWalkedBelow limit network.now.n network.now.arcs source) }
{
    // Whatever the least labels are, and the walks by them: below the limit these are the same.
    route_walks::laws::least_labels_exist();
    walk_report::laws::hops_and_parents_exist();
    walk_report::laws::walks_below_agree();
    let _ = network.n();
    let walks = walks_below(alloc, network, source, &labels, limit)?;
    Ok(Walked { labels, walks })
}

/// Puts the lines of a solve's pairs, each with its walk, and those in the grown network.
fn put_walked<W: Write>(
    alloc: Global,
    sink: &mut Sink<'_, W>,
    queries: &PairQueries<'_>,
    solve: Solve,
    walked: &Walked,
    after: &Option<Walked>,
)
    requires graphs { AreGraphs queries.now.graphs.now }
    requires solve { IsForQueries queries.now.pairs.now solve }
    requires walked { AreEachTold (λ pair. IsWalked queries.now.graphs.now.network.n
        queries.now.graphs.now.network.arcs pair walked.now) queries.now.pairs.now solve.first solve.end }
    requires after { AreEachTold (λ pair. IsWalkedAfter queries.now.graphs.now.grown pair after.now)
        queries.now.pairs.now solve.first solve.end }
    ensures { Puts W.contents (AreBlocks (IsWalkedBlock queries.now.graphs.now)
        (slice_range queries.now.pairs.now solve.first solve.end)) sink.old sink.new }
{
    laws::blocks_are_unique();
    let (graphs, pairs) = (queries.graphs, queries.pairs);
    for at in solve.first..solve.end {
        put_pair_at(alloc, sink, graphs, pairs[at], walked, after);
    }
}

/// Puts the lines of a pair, unless nothing more is written: a walk may be long.
fn put_pair_at<W: Write>(
    alloc: Global,
    sink: &mut Sink<'_, W>,
    graphs: &Graphs,
    pair: (u32, u32),
    walked: &Walked,
    after: &Option<Walked>,
)
    requires graphs { AreGraphs graphs.now }
    requires pair { IsPairWithin graphs.now.network.n pair }
    requires walked { IsWalked graphs.now.network.n graphs.now.network.arcs pair walked.now }
    requires after { IsWalkedAfter graphs.now.grown pair after.now }
    ensures { Puts W.contents (IsWalkedBlock graphs.now pair) sink.old sink.new }
{
    laws::blocks_are_unique();
    if sink.has_stopped() {
        return;
    }
    let put = put_walked_lines(alloc, sink.waiting, graphs, pair, walked, after);
    sink.end(put);
}

fn put_walked_lines(
    alloc: Global,
    out: &mut Vec<u8>,
    graphs: &Graphs,
    pair: (u32, u32),
    walked: &Walked,
    after: &Option<Walked>,
) -> Result<(), Memory>
    requires graphs { AreGraphs graphs.now }
    requires pair { IsPairWithin graphs.now.network.n pair }
    requires walked { IsWalked graphs.now.network.n graphs.now.network.arcs pair walked.now }
    requires after { IsWalkedAfter graphs.now.grown pair after.now }
    ensures put { OnOk result (out.new.items ≡ out.old.items ++ with_growth (growth_of graphs.now.grown)
        (walked_text pair walked.now) (walked_after_text pair after.now)) }
{
    put_walked_pair(alloc, out, pair, walked)?;
    match (&graphs.grown, after) {
        (Some(grown), Some(after)) => {
            put_grown(out, grown.count)?;
            put_walked_pair(alloc, out, pair, after)
        }
        _ => Ok(()),
    }
}

/// Puts the line of a pair, and of its walk if one leads to the target.
fn put_walked_pair(
    alloc: Global,
    out: &mut Vec<u8>,
    pair: (u32, u32),
    walked: &Walked,
) -> Result<(), Memory>
    requires pair { IsPairWithin (length walked.now.labels.items) pair }
    requires vertices { length walked.now.labels.items ≤ MAX_VERTICES }
    requires walk { HasWalkAt pair.1 (slice_index walked.now.labels.items pair.1) walked.now.walks }
    ensures put { OnOk result (out.new.items ≡ out.old.items ++ walked_text pair walked.now) }
{
    let (source, target) = pair;
    let label = walked.labels[target as usize];
    put_pair(out, source, target, label)?;
    put_walk_line(alloc, out, target, label, &walked.walks)
}
